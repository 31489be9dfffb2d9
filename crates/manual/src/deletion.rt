ghost use Rattle.std.specs.Prelude.{◌≡◌};
ghost use Rattle.manual.specs.Deletion.{deletion_amount};

use crate::largest::largest_at_least;

// The amount of a deletion with these totals of the latest recorded months: the largest, and 0 if there are none or it is negative.
#[tactic(auto, unfolding(crate::specs::Deletion::deletion_amount))]
pub fn deletion_amount(totals: &[i64]) -> u64
    ensures { result ≡ deletion_amount totals.now }
{
    largest_at_least(0, totals)
}
