// Which months may be settled, and whether a check is due (paper 01, 'Settle').
ghost use Rattle.std.specs.Prelude.{◌≡◌};
ghost use Rattle.file.specs.Settle.{outside_months, check_due};

use calendar::{Month, is_september};

// Whether a month is outside P − 14 to P − 2, P being the current month.
#[tactic(auto, unfolding(crate::specs::Settle::outside_months))]
pub fn outside_months(current: Month, month: Month) -> bool
    ensures { result ≡ outside_months current.0 month.0 }
{
    !matches!(current.0.checked_sub(month.0), Some(2..=14))
}

// Whether a check is due: the month is P − 2, and P isn't a September.
#[tactic(auto, unfolding(crate::specs::Settle::check_due))]
pub fn check_due(current: Month, month: Month) -> bool
    ensures { result ≡ check_due current.0 month.0 }
{
    current.0.checked_sub(2) == Some(month.0) && !is_september(current)
}
