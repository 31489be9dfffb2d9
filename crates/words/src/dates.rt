// Days and months as words: their number, or a date from 2020 to 2099, 2021-10-01 and 2021-10.
ghost use Rattle.std.specs.Prelude.{◌≡◌, min};
ghost use Rattle.words.specs.Numerals.{value};
ghost use Rattle.words.specs.Dates.{is_dated, is_monthed, dated_day, dated_month, day_in, month_in, numbered_month};

use crate::numbers::{digits, is_natural, natural_of};
use calendar::{day_of_date, month_of};

// A number as one of 32 bits, or the largest of those.
pub fn small(n: u64) -> u32
    ensures { result ≡ min n 4294967295 }
{
    u32::try_from(n).unwrap_or(u32::MAX)
}

// The number that the digits of a part of a word give.
fn small_part(part: &[u8]) -> u32
    ensures { result ≡ min (value part.now) 4294967295 }
{
    small(digits(part))
}

// Whether a word has the form 2021-10.
#[tactic(auto, unfolding(crate::specs::Dates::is_monthed))]
fn is_monthed(w: &[u8]) -> bool
    ensures { result ≡ is_monthed w.now }
{
    w.len() == 7 && w[4] == b'-' && is_natural(&w[..4]) && is_natural(&w[5..7])
}

// Whether a word has the form 2021-10-01.
#[tactic(auto, unfolding(crate::specs::Dates::is_dated))]
fn is_dated(w: &[u8]) -> bool
    ensures { result ≡ is_dated w.now }
{
    w.len() == 10
        && w[4] == b'-'
        && w[7] == b'-'
        && is_natural(&w[..4])
        && is_natural(&w[5..7])
        && is_natural(&w[8..10])
}

// The number of a month of a year.
#[tactic(auto, using(crate::proofs::DateWords::month_on, crate::proofs::DateWords::month_none))]
fn numbered_month(year: u32, month: u32) -> Option<u64>
    ensures { result ≡ numbered_month year month }
{
    let first = day_of_date(year, month, 1)?;
    Some(month_of(first).0 as u64)
}

// A word of the form 2021-10-01 as a day.
#[tactic(auto, using(crate::proofs::DateWords::dated_long, crate::proofs::DateWords::dated_is, crate::proofs::DateWords::dated_none, crate::proofs::DateWords::dated_not))]
fn dated_day(w: &[u8]) -> Option<u64>
    ensures { result ≡ dated_day w.now }
{
    if !is_dated(w) {
        return None;
    }
    let day = day_of_date(
        small_part(&w[0..4]),
        small_part(&w[5..7]),
        small_part(&w[8..10]),
    )?;
    Some(day.0 as u64)
}

// A word of the form 2021-10 as a month.
#[tactic(auto, using(crate::proofs::DateWords::monthed_long, crate::proofs::DateWords::monthed_is, crate::proofs::DateWords::monthed_not))]
fn dated_month(w: &[u8]) -> Option<u64>
    ensures { result ≡ dated_month w.now }
{
    if !is_monthed(w) {
        return None;
    }
    numbered_month(small_part(&w[0..4]), small_part(&w[5..7]))
}

// A word as a day.
#[tactic(auto, unfolding(crate::specs::Dates::day_in, crate::specs::Numerals::natural_of))]
pub fn day_in(w: &[u8]) -> Option<u64>
    ensures { result ≡ day_in w.now }
{
    natural_of(w).or_else(|| dated_day(w))
}

// A word as a month.
// Kept: as `day_in` but for the function that reads a date; one over a closure would be longer than both.
#[tactic(auto, unfolding(crate::specs::Dates::month_in, crate::specs::Numerals::natural_of))]
pub fn month_in(w: &[u8]) -> Option<u64>
    ensures { result ≡ month_in w.now }
{
    natural_of(w).or_else(|| dated_month(w))
}
