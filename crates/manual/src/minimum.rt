ghost use Rattle.std.specs.Prelude.{◌≡◌};
ghost use Rattle.manual.specs.Minimum.{minimum_of};

// The six roles' minimum guarantees, in cents.
const MINIMUMS: [u64; 6] = [2000000, 2000000, 1000000, 0, 0, 0];

// A role's minimum guarantee, in cents; 0 for a number that is no role.
// Kept: a role is a number, here and in `annual_amount`: the C interface lends it as a word, of which a well-formed book may hold any.
#[tactic(auto, unfolding(crate::specs::Minimum::minimum_of))]
pub fn minimum(role: u64) -> u64
    ensures { result ≡ minimum_of role }
{
    MINIMUMS.get(role as usize).copied().unwrap_or(0)
}
