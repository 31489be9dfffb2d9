// Dates by year, month and day of the month, and the days that they are.
ghost use Rattle.std.specs.Prelude.{◌≡◌};
ghost use Rattle.calendar.specs.Dates.{is_date, day_of_date, date_of};

use crate::year::length_in;
use crate::{Day, LAST_DAY, Month, day_of_month, first_day, month_of};

// A date: a year, a month from 1 to 12 and a day of the month from 1.
#[derive(Clone, Copy, PartialEq, Eq, PartialOrd, Ord)]
pub struct Date {
    pub year: u32,
    pub month: u32,
    pub day: u32,
}

// Whether there is such a date in 2020 to 2099.
// Kept: three numbers, here and in `day_of_date`, since `words` reads them out of a word before it is known that there is such a date.
#[tactic(auto, unfolding(crate::specs::Dates::is_date))]
fn is_date(year: u32, month: u32, day: u32) -> bool
    ensures { result ≡ is_date year month day }
{
    (2020..=2099).contains(&year)
        && (1..=12).contains(&month)
        && (1..=length_in(year, month - 1)).contains(&day)
}

// The day of a date, where there is such a date in 2020 to 2099.
#[tactic(auto, using(crate::proofs::DateParts::no_date, crate::proofs::DateParts::date_exists, crate::proofs::DateParts::date_small, crate::proofs::DateParts::date_on))]
pub fn day_of_date(year: u32, month: u32, day: u32) -> Option<Day>
    ensures { result ≡ day_of_date year month day }
{
    if !is_date(year, month, day) {
        return None;
    }
    let first = first_day(Month(12 * (year - 2020) + (month - 1)));
    Some(Day(first.0 + (day - 1)))
}

// The date of a day, where it is not above the last.
#[tactic(auto, using(crate::proofs::DateParts::dated_none))]
pub fn date_of(day: Day) -> Option<Date>
    ensures { result ≡ date_of day.0 }
{
    if LAST_DAY < day.0 {
        return None;
    }
    let m = month_of(day);
    Some(Date {
        year: 2020 + m.0 / 12,
        month: m.0 % 12 + 1,
        day: day_of_month(day),
    })
}
