// The civil calendar from 1 January 2020 to 31 December 2099, by numbered days and months: day 0 is 1 January 2020 and
// month 0 is January 2020. A day number and a month number are types of their own, converted only here.
#![tactic(auto)]

ghost use Rattle.std.specs.Prelude.{◌≡◌, eqb};
ghost use Rattle.calendar.specs.Civil.{month_of, first_day_of, day_of_month_of, is_september, in_september};
ghost use Rattle.calendar.specs.Civil.{place_of, in_annual_days, is_deletion_month, in_deletion_months, is_first_october};

mod year; // year.rt: leap years, the lengths of months, and the months of a year
mod date; // date.rt: dates by year, month and day of the month
mod count; // count.rt: months counted from one another

pub use count::{months_before, months_between};
pub use date::{Date, date_of, day_of_date};
use year::{length_in, place_in_leap_year, year_day};

// A day, counted from 1 January 2020.
#[derive(Clone, Copy, PartialEq, Eq, PartialOrd, Ord)]
pub struct Day(pub u32);

// A month, counted from January 2020.
#[derive(Clone, Copy, PartialEq, Eq, PartialOrd, Ord)]
pub struct Month(pub u32);

// The last day, 31 December 2099, and the number of months.
pub const LAST_DAY: u32 = 29_219;

pub const MONTHS: u32 = 960;

// The month that holds a day; 960, which is no month, for a day above the last.
#[tactic(auto, using(crate::specs::Laws::month_of_le, crate::specs::Laws::month_of_after))]
pub fn month_of(day: Day) -> Month
    ensures { result.0 ≡ month_of day.0 }
{
    let d = day.0;
    if LAST_DAY < d {
        return Month(MONTHS);
    }
    let at = year_day(d);
    Month(12 * at.year + place_in_leap_year(at.day))
}

// A month's first day; 29,220 for a number that is no month.
pub fn first_day(month: Month) -> Day
    ensures { result.0 ≡ first_day_of month.0 }
{
    let m = month.0;
    if MONTHS <= m {
        return Day(LAST_DAY + 1);
    }
    let year = m / 12;
    let place = m % 12;
    let before: u32 = (0..place).map(|i| length_in(2020 + year, i)).sum();
    Day(365 * year + (year + 3) / 4 + before)
}

// The day of the month, from 1; 0 for a day above the last.
#[tactic(auto, using(crate::proofs::Days::no_day, crate::proofs::Days::first_before, crate::proofs::Days::day_from_first))]
pub fn day_of_month(day: Day) -> u32
    ensures { result ≡ day_of_month_of day.0 }
{
    let d = day.0;
    if LAST_DAY < d {
        return 0;
    }
    let first = first_day(month_of(day));
    d - first.0 + 1
}

// Whether a month is a September.
#[tactic(auto, unfolding(crate::specs::Civil::is_september))]
pub fn is_september(month: Month) -> bool
    ensures { result ≡ is_september month.0 }
{
    // Kept: a match with ranges in place of `== 8`, since paper 01 names it: months are told by a match on their numbers with ranges.
    match month.0 % 12 {
        0..=7 => false,
        8 => true,
        _ => false,
    }
}

// Whether a month is an October.
fn is_october(month: Month) -> bool
    ensures { result ≡ eqb (place_of month.0) 9 }
{
    // Kept: as `is_september`; the two differ in their ranges, which no parameter can give.
    match month.0 % 12 {
        0..=8 => false,
        9 => true,
        _ => false,
    }
}

// Whether a day lies in a September.
#[tactic(auto, unfolding(crate::specs::Civil::in_september))]
pub fn in_september(day: Day) -> bool
    ensures { result ≡ in_september day.0 }
{
    day.0 <= LAST_DAY && is_september(month_of(day))
}

// Whether a day is one of 1 to 10 September, the days of the annual run.
#[tactic(auto, unfolding(crate::specs::Civil::in_september, crate::specs::Civil::in_annual_days, crate::specs::Civil::day_of_month_of))]
pub fn in_annual_days(day: Day) -> bool
    ensures { result ≡ in_annual_days day.0 }
{
    in_september(day) && day_of_month(day) <= 10
}

// Whether a month is an August or a September.
#[tactic(auto, unfolding(crate::specs::Civil::is_deletion_month))]
fn is_deletion_month(month: Month) -> bool
    ensures { result ≡ is_deletion_month month.0 }
{
    // Kept: as `is_september`.
    match month.0 % 12 {
        0..=6 => false,
        7..=8 => true,
        _ => false,
    }
}

// Whether a day lies in an August or a September, in which a participant may be placed under deletion.
#[tactic(auto, unfolding(crate::specs::Civil::in_deletion_months))]
pub fn in_deletion_months(day: Day) -> bool
    ensures { result ≡ in_deletion_months day.0 }
{
    day.0 <= LAST_DAY && is_deletion_month(month_of(day))
}

// Whether a day is a 1 October.
#[tactic(auto, unfolding(crate::specs::Civil::is_first_october, crate::specs::Civil::day_of_month_of))]
pub fn is_first_october(day: Day) -> bool
    ensures { result ≡ is_first_october day.0 }
{
    is_october(month_of(day)) && day_of_month(day) == 1
}
