// What the lists must be: their lengths and the ranges of their numbers (paper 01, causes 19 and 11).
ghost use Rattle.std.specs.Prelude.{◌≡◌, not, length};
ghost use Rattle.special.specs.Ranges.{every, between, marks_in_range};
ghost use Rattle.special.specs.Causes.{wrong_lengths, outside_ranges};

use crate::Lists;

// The bound of a rate, in hundredths of a percent.
const RATE: i64 = 100000;

// The bound of a zero settlement and of an excess, in cents.
const AMOUNT: i64 = 1000000000000;

// Whether every number of a list is from low to high.
fn all_between(list: &[i64], low: i64, high: i64) -> bool
    ensures { result ≡ every (between low high) list.now }
{
    // Kept: tried `(low..=high).contains(x)` in the closure: that a call leaves the closure as it was stayed open in `returns`.
    list.iter().all(|x| low <= *x && *x <= high)
}

// Whether every mark is 0 or 1.
fn all_marks(marks: &[u64]) -> bool
    ensures { result ≡ marks_in_range marks.now }
{
    marks.iter().all(|mark| *mark <= 1)
}

impl<'a> Lists<'a> {
    // Whether the lists' lengths are against the rule (cause 19).
    #[tactic(auto, unfolding(crate::specs::Causes::wrong_lengths))]
    pub(crate) fn wrong_lengths(self) -> bool
        ensures { result ≡ wrong_lengths (length self.entry.medium.now) (length self.entry.low.now) (length self.entry.marks.now)
            (length self.entry.zero_medium.now) (length self.entry.zero_low.now) (length self.entry.excess_medium.now)
            (length self.entry.excess_low.now) }
    {
        let semesters = self.zero_medium.len();
        64 < self.medium.len()
            || 64 < self.low.len()
            || self.marks.len() != self.low.len()
            || self.zero_low.len() != semesters
            || self.excess_medium.len() != semesters
            || self.excess_low.len() != semesters
            || 16 < semesters
    }

    // Whether every rate, mark, zero settlement and excess is in its range: otherwise cause 11 holds.
    #[tactic(auto, unfolding(crate::specs::Causes::outside_ranges))]
    pub(crate) fn in_range(self) -> bool
        ensures { not result ≡ outside_ranges self.entry.medium.now self.entry.low.now self.entry.marks.now self.entry.zero_medium.now
            self.entry.zero_low.now self.entry.excess_medium.now self.entry.excess_low.now }
    {
        all_between(self.medium, -RATE, RATE)
            && all_between(self.low, -RATE, RATE)
            && all_marks(self.marks)
            && all_between(self.zero_medium, -AMOUNT, AMOUNT)
            && all_between(self.zero_low, -AMOUNT, AMOUNT)
            && all_between(self.excess_medium, 0, AMOUNT)
            && all_between(self.excess_low, 0, AMOUNT)
    }
}
