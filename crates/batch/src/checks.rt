// Whether a file is a batch: its three causes of refusal, in their order.
ghost use Rattle.std.specs.Prelude.{◌≡◌};
ghost use Rattle.batch.specs.Batch.{too_short, misplaced as Batch·misplaced, first_misplaced, wrong_length, first_wrong, count_in, below, form_of};

use crate::Misfit;
use crate::pairs::count;
use crate::reader::BatchReader;
use refusal::Refusal;

// Whether a file is too short for its pairs, or has none or more than 64 of them.
#[tactic(auto, unfolding(crate::specs::Batch::too_short))]
fn too_short(file: &[u8]) -> bool
    ensures { result ≡ too_short file.now }
{
    let n = count(file);
    file.len() < 4 || !(1..=64).contains(&n) || file.len() < 4 + 8 * (n as usize)
}

// Whether a pair's part does not begin where it must.
#[tactic(auto, unfolding(crate::specs::Batch::misplaced))]
fn misplaced(pair: BatchReader) -> bool
    ensures { result ≡ Batch·misplaced pair.entry.file.now pair.entry.at }
{
    pair.offset() as u64 != pair.begins()
}

// The first pair whose part does not begin where it must.
fn first_misplaced(file: &[u8]) -> Option<u32>
    ensures { result ≡ below (first_misplaced file.now) (count_in file.now) }
{
    (0..count(file)).find(|i| misplaced(BatchReader::new(file).moved(*i)))
}

// Whether the length of a pair is not that of its part.
#[tactic(auto, unfolding(crate::specs::Batch::wrong_length))]
fn wrong_length(pair: BatchReader) -> bool
    ensures { result ≡ wrong_length pair.entry.file.now pair.entry.at }
{
    let length = pair.length() as usize;
    length < 2 || length != 2 + 8 * pair.part().rows
}

// The first pair whose length is wrong or whose participant is that of a pair before it.
fn first_wrong(file: &[u8]) -> Option<u32>
    ensures { result ≡ below (first_wrong file.now) (count_in file.now) }
{
    let mut seen = [false; 256];
    // Kept: no find as above: each step writes in `seen` what the next ones ask, and its closure would have to say so in a contract.
    for i in 0..count(file) {
        let pair = BatchReader::new(file).moved(i);
        let p = pair.participant() as usize;
        if wrong_length(pair) || seen[p] {
            return Some(i);
        }
        seen[p] = true;
    }
    None
}

// What a file is: a batch of so many parts, or its first misfit.
pub fn form_of(file: &[u8]) -> Result<u32, Misfit>
    ensures { result ≡ form_of file.now }
{
    if too_short(file) {
        return Err(Misfit {
            refusal: Refusal::BatchTooShort,
            pair: 0,
        });
    }
    let n = count(file);
    if let Some(pair) = first_misplaced(file) {
        return Err(Misfit {
            refusal: Refusal::PartsMisplaced,
            pair,
        });
    }
    if BatchReader::new(file).moved(n - 1).end() != file.len() as u64 {
        return Err(Misfit {
            refusal: Refusal::PartsMisplaced,
            pair: n - 1,
        });
    }
    if let Some(pair) = first_wrong(file) {
        return Err(Misfit {
            refusal: Refusal::WrongPart,
            pair,
        });
    }
    Ok(n)
}
