// A ratio: the mean of the three largest rates that are not marked.
ghost use Rattle.std.specs.Prelude.{◌≡◌, true, ◌+◌, ◌^◌, ◌<◌, get_or, take};
ghost use Rattle.laws.specs.Largest.{insert, mean_of_three};
ghost use Rattle.special.specs.Ranges.{rates_in_range};
ghost use Rattle.special.specs.Ratio.{usable, ratio_of_enough};
ghost use Rattle.special.specs.Best.{kept, BestOf};

use crate::quotients::nearest_whole;
use refusal::Refusal;

// A number below every rate.
const BELOW: i64 = -100001;

// The three largest of the rates seen, largest first, and how many were seen.
// Kept: a number below every rate where none is seen: `mean` is asked only from three on, and three Options would be taken apart there.
#[derive(Clone, Copy)]
pub struct Best {
    pub a: i64,
    pub b: i64,
    pub c: i64,
    pub n: usize,
}

impl Best {
    // One rate more is seen.
    fn with(self, rate: i64) -> Best
        requires { self.n + 1 < 2 ^ 64 }
        ensures { (kept result ≡ take 3 (insert rate (kept self))) × (result.n ≡ self.n + 1) }
    {
        // Kept: four branches, since `max` and `min` of the rate and the three agree with `insert` only where the three fall, which is not required.
        let n = self.n + 1;
        if self.a < rate {
            Best {
                a: rate,
                b: self.a,
                c: self.b,
                n,
            }
        } else if self.b < rate {
            Best {
                b: rate,
                c: self.b,
                n,
                ..self
            }
        } else if self.c < rate {
            Best { c: rate, n, ..self }
        } else {
            Best { n, ..self }
        }
    }

    // The mean of the three kept rates, to the nearest whole.
    fn mean(self) -> i64
        requires { rates_in_range (kept self) ≡ true }
        ensures { result ≡ mean_of_three (kept self) }
    {
        nearest_whole(self.a + (self.b + self.c), 3)
    }
}

// The mark at an index, 0 past the end.
fn mark_at(marks: &[u64], i: usize) -> u64
    ensures { result ≡ get_or marks.now i 0 }
{
    marks.get(i).copied().unwrap_or(0)
}

// The three largest of the rates that are not marked.
fn best_of(rates: &[i64], marks: &[u64]) -> Best
    requires { rates_in_range rates.now ≡ true }
    ensures { BestOf (usable rates.now marks.now) result }
{
    let mut best = Best {
        a: BELOW,
        b: BELOW,
        c: BELOW,
        n: 0,
    };
    // Kept: a `fold` is no plainer: its closure would have to require how many were seen (as `with` does); a `zip` would end with `marks`.
    for i in (0..rates.len()).rev() {
        if mark_at(marks, i) == 0 {
            best = best.with(rates[i]);
        }
    }
    best
}

// The ratio of the rates that are not marked, where there are three or more.
pub fn ratio(rates: &[i64], marks: &[u64]) -> Result<i64, Refusal>
    requires { rates_in_range rates.now ≡ true }
    ensures { result ≡ ratio_of_enough (usable rates.now marks.now) }
{
    let best = best_of(rates, marks);
    if best.n < 3 {
        return Err(Refusal::TooFewRates);
    }
    Ok(best.mean())
}
