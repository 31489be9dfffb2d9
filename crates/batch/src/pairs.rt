// What a file says of its month, and how many pairs it has.
ghost use Rattle.std.specs.Prelude.{◌≡◌};
ghost use Rattle.batch.specs.Batch.{month_in, count_in};

use crate::bytes::number2;

// The month.
#[tactic(auto, unfolding(crate::specs::Batch::month_in))]
pub fn month(file: &[u8]) -> u32
    ensures { result ≡ month_in file.now }
{
    number2(file, 0) as u32
}

// The count of pairs.
// Kept: as `month` but for the place; one function of both would be `number2` with its place, which they call.
#[tactic(auto, unfolding(crate::specs::Batch::count_in))]
pub fn count(file: &[u8]) -> u32
    ensures { result ≡ count_in file.now }
{
    number2(file, 2) as u32
}
