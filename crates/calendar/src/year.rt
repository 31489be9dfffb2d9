// Years: which are leap years, how long their months are, and where in a year a day lies.
ghost use Rattle.std.specs.Prelude.{◌≡◌, ◌+◌, ◌*◌, ◌≤◌, ◌<◌};
ghost use Rattle.calendar.specs.Civil.{leap, length_in, begun, month_of, last_day};
ghost use Rattle.calendar.specs.Places.{with_leap_day};

// The lengths of January to December in a common year.
const COMMON_LENGTHS: [u32; 12] = [31, 28, 31, 30, 31, 30, 31, 31, 30, 31, 30, 31];

// Whether a year is a leap year, by the Gregorian rule.
#[tactic(auto, unfolding(crate::specs::Civil::leap))]
pub fn is_leap(year: u32) -> bool
    ensures { result ≡ leap year }
{
    year % 4 == 0 && year % 100 != 0 || year % 400 == 0
}

// The length of a month of a year, January being place 0; 0 past December.
#[tactic(auto, unfolding(crate::specs::Civil::length_in))]
pub fn length_in(year: u32, place: u32) -> u32
    ensures { result ≡ length_in year place }
{
    if 12 <= place {
        return 0;
    }
    let days = COMMON_LENGTHS[place as usize];
    if place == 1 && is_leap(year) {
        days + 1
    } else {
        days
    }
}

// A day by its year, counted from 2020, and by its number in the year, from 0, as a leap year counts: 1 March is 60 in
// every year.
#[derive(Clone, Copy)]
pub struct YearDay {
    pub year: u32,
    pub day: u32,
}

// The number that a day of a common year has in a leap year, which counts 29 February too.
#[tactic(auto, unfolding(crate::specs::Places::with_leap_day))]
fn with_leap_day(n: u32) -> u32
    requires { n < 365 }
    ensures { result ≡ with_leap_day n }
{
    if n < 59 { n } else { n + 1 }
}

// The year of a day of the calendar and its number there: a leap year and three common years are a cycle of 1,461 days.
#[tactic(auto, using(crate::proofs::YearDays::month_early, crate::proofs::YearDays::month_later))]
pub fn year_day(d: u32) -> YearDay
    requires { d ≤ last_day }
    ensures { 12 * result.year + begun 11 result.day ≡ month_of d }
{
    let cycle = d / 1461;
    let rest = d % 1461;
    if rest < 366 {
        return YearDay {
            year: 4 * cycle,
            day: rest,
        };
    }
    let later = rest - 366;
    YearDay {
        year: 4 * cycle + 1 + later / 365,
        day: with_leap_day(later % 365),
    }
}

// The place of the month that holds a day of a leap year, January being 0. 2020 is a leap year, so that this is the
// latest of its months that has begun by then.
pub fn place_in_leap_year(n: u32) -> u32
    ensures { result ≡ begun 11 n }
{
    // Kept: twelve ranges in place of a sorted list that is searched: paper 01 names it, a match on numbers with ranges.
    match n {
        0..=30 => 0,
        31..=59 => 1,
        60..=90 => 2,
        91..=120 => 3,
        121..=151 => 4,
        152..=181 => 5,
        182..=212 => 6,
        213..=243 => 7,
        244..=273 => 8,
        274..=304 => 9,
        305..=334 => 10,
        _ => 11,
    }
}
