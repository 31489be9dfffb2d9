// Months counted from one another. No number is refused, and none wraps.
ghost use Rattle.std.specs.Prelude.{◌≡◌, ◌-◌};

use crate::Month;

// The month so many months before a month, never before month 0.
pub fn months_before(month: Month, months: u32) -> Month
    ensures { result.0 ≡ month.0 - months }
{
    Month(month.0.saturating_sub(months))
}

// How many months there are from a first month on, before an end; 0 for an end that is not later.
pub fn months_between(first: Month, end: Month) -> u32
    ensures { result ≡ end.0 - first.0 }
{
    end.0.saturating_sub(first.0)
}
