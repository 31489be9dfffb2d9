ghost use Rattle.std.specs.Prelude.{◌≡◌};
ghost use Rattle.manual.specs.Annual.{annual_amount};

use crate::largest::largest_at_least;
use crate::minimum::minimum;

// The annual amount of a role with these recorded totals: the largest, and at least the role's minimum.
// Kept: as at `minimum`, a role is a number, since a well-formed book's words, which the C interface lends, may hold any.
#[tactic(auto, unfolding(crate::specs::Annual::annual_amount))]
pub fn annual_amount(role: u64, totals: &[i64]) -> u64
    ensures { result ≡ annual_amount role totals.now }
{
    largest_at_least(minimum(role), totals)
}
