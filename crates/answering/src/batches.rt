// A batch, the bytes of whose file stand as numbers in a row.
ghost use Rattle.std.specs.Prelude.{◌≡◌, map, ◌≤◌, length};
ghost use Rattle.layout.specs.WellFormed.{WellFormed};
ghost use Rattle.book.specs.Call.{batch, loaded_says};
ghost use Rattle.book.specs.InWords.{GivenWords};
ghost use Rattle.answering.specs.Asked.{byte_of, batch_bytes};

use crate::rows::put_made;
use batch::Misfit;
use book::load;
use printing::parted;

// The most bytes of a file.
const MOST_BYTES: usize = 32768;

// A number as a byte.
fn byte(z: i64) -> u8
    ensures { result ≡ byte_of z }
{
    u64::try_from(z).map_or(0, |n| (n % 256) as u8)
}

// Loads the file whose n bytes stand as numbers at the front.
// Kept: the words are asked to be a book, since `book::load`, which C calls too, takes lent words and asks the same.
#[tactic(auto, unfolding(crate::specs::Asked::batch_bytes))]
pub fn load_file(book: &mut [u64], numbers: &[i64], n: usize) -> Result<u32, Misfit>
    requires { WellFormed book.old }
    ensures { GivenWords book.old (batch (batch_bytes n numbers.now)) (loaded_says result) book.new }
{
    let (own, _) = parted(numbers, n.min(MOST_BYTES));
    let mut bytes = [0; MOST_BYTES];
    put_made(own, &mut bytes, byte);
    load(book, &bytes[..own.len()])
}
