// The guarantee of the ratios and the sums.
ghost use Rattle.std.specs.Prelude.{◌≡◌};
ghost use Rattle.laws.specs.Integers.{sum_of};
ghost use Rattle.special.specs.Ranges.{Amounts};
ghost use Rattle.special.specs.Guarantee.{at_least, amount, Bounded};

use crate::Lists;
use crate::quotients::nearest_whole;

// The least special guarantee, 5,000 euros.
const LEAST: i64 = 500000;

// The sum of at most 16 amounts.
fn sum(list: &[i64]) -> i64
    requires { Amounts list.now }
    ensures { result ≡ sum_of list.now }
{
    // Kept: tried `list.iter().sum()`: that each partial sum fits (`sum-requires-clause-fits`) stayed open; std's lemma is of unsigned numbers.
    let mut total = 0;
    for amount in list {
        total += *amount;
    }
    total
}

// An amount raised to the least if below it.
fn raised(amount: i64) -> u64
    ensures { result ≡ at_least 500000 amount }
{
    amount.max(LEAST) as u64
}

// The guarantee of the two ratios and the four lists of amounts.
pub fn guarantee_of(lists: Lists, medium: i64, low: i64) -> u64
    requires bounded { Bounded medium (sum_of lists.zero_medium.now) low (sum_of lists.zero_low.now)
        (sum_of lists.excess_medium.now) (sum_of lists.excess_low.now) }
    requires amounts { Amounts lists.zero_medium.now × Amounts lists.zero_low.now × Amounts lists.excess_medium.now
        × Amounts lists.excess_low.now }
    ensures { result ≡ amount medium (sum_of lists.entry.zero_medium.now) low (sum_of lists.entry.zero_low.now)
        (sum_of lists.entry.excess_medium.now) (sum_of lists.entry.excess_low.now) }
{
    let settled = medium * sum(lists.zero_medium) + low * sum(lists.zero_low);
    let excess = sum(lists.excess_medium) + sum(lists.excess_low);
    raised(nearest_whole(settled, 10000) - excess)
}
