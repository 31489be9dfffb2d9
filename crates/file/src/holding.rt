// A position by itself: what it holds and counts for, what refuses it, and what a release leaves of it (paper 01, 'Lodge' and 'Release').
ghost use Rattle.std.specs.Prelude.{◌≡◌, false};
ghost use Rattle.file.specs.Position.{amount_of, filled, counts_through, less_released, not_releasable, outside_amounts, against_days};

use crate::Position;
use calendar::{Day, LAST_DAY};

// Cause 8: an amount outside 1 to 10^12 cents.
#[tactic(auto, unfolding(crate::specs::Position::outside_amounts))]
pub fn outside_amounts(amount: u64) -> bool
    ensures { result ≡ outside_amounts amount }
{
    !(1..=1000000000000).contains(&amount)
}

impl Position {
    // The amount that is held; 0 of an empty position.
    pub fn amount(self) -> u64
        ensures { result ≡ amount_of self }
    {
        match self {
            Position::Empty => 0,
            Position::Cash(amount) | Position::Letter(amount, _, _) => amount,
        }
    }

    // Whether something is held.
    pub fn is_filled(self) -> bool
        ensures { result ≡ filled self }
    {
        !matches!(self, Position::Empty)
    }

    // What it counts for from one day through another that isn't before it: all cash, and a letter whose days include both.
    #[tactic(auto, unfolding(crate::specs::Position::counts_through))]
    pub fn counts(self, from: Day, through: Day) -> u64
        ensures { result ≡ counts_through from.0 through.0 self }
    {
        match self {
            Position::Cash(amount) => amount,
            Position::Letter(amount, first, last) if first <= from && through <= last => amount,
            _ => 0,
        }
    }

    // Cause 9: a letter whose first day is after its last, or whose last day is before today or past the calendar.
    pub fn against_days(self, today: Day) -> bool
        ensures { result ≡ against_days today.0 self }
    {
        matches!(self, Position::Letter(_, first, last) if last < first || last < today || LAST_DAY < last.0)
    }

    // Cause 15: more than is held, or a letter in part.
    pub fn not_releasable(self, amount: u64) -> bool
        ensures { result ≡ not_releasable amount self }
    {
        match self {
            Position::Empty => false,
            Position::Cash(held) => held < amount,
            Position::Letter(held, _, _) => amount != held,
        }
    }

    // What a release leaves: nothing of a letter or of cash released whole, else the cash that is left.
    pub fn less_released(self, amount: u64) -> Position
        requires { not_releasable amount self ≡ false }
        ensures { result ≡ less_released amount self }
    {
        match self {
            Position::Cash(held) if amount != held => Position::Cash(held - amount),
            _ => Position::Empty,
        }
    }
}
