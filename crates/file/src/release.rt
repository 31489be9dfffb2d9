// The cover that a release must leave (paper 01, 'Release').
ghost use Rattle.std.specs.Prelude.{◌≡◌, ◌∷◌};
ghost use Rattle.file.specs.Calls.{largest, amounts_of};

use crate::OpenCall;

// The cover that a release must leave: the largest of the firm amount, the open calls and the next amount.
pub fn release_floor(firm: u64, calls: &[OpenCall], next: u64) -> u64
    ensures { result ≡ largest next (firm ∷ amounts_of calls.now) }
{
    calls
        .iter()
        .fold(firm.max(next), |top, call| top.max(call.amount))
}
