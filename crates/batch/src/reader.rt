// The reader of a batch: the lent file, and its place in the pairs.
ghost use Rattle.std.specs.Prelude.{◌≡◌};
ghost use Rattle.batch.specs.Batch.{offset_at, length_at, end_at, begins_at, participant_at};
ghost use Rattle.batch.specs.Parts.{PartIs};

use crate::bytes::{byte_at, number4};
use crate::pairs::count;
use crate::parts::Part;

// The lent file, and the index of a pair.
// Kept: the lent file and an index, the form that paper 01 names (a rule of the project); offsets count from the file's first byte.
#[derive(Clone, Copy)]
pub struct BatchReader<'a> {
    pub file: &'a [u8],
    pub at: u32,
}

impl<'a> BatchReader<'a> {
    // A reader of a file, at its first pair.
    pub fn new(file: &'a [u8]) -> BatchReader<'a>
        ensures { (result.file ≡ file.entry) × (result.at ≡ 0) }
    {
        BatchReader { file, at: 0 }
    }

    // The reader at another pair.
    pub fn moved(self, at: u32) -> BatchReader<'a>
        ensures { (result.file ≡ self.entry.file) × (result.at ≡ at) }
    {
        BatchReader { at, ..self }
    }

    // The offset of the pair.
    #[tactic(auto, unfolding(crate::specs::Batch::offset_at))]
    pub fn offset(self) -> u32
        ensures { result ≡ offset_at self.entry.file.now self.entry.at }
    {
        number4(self.file, 4 + 8 * (self.at as usize))
    }

    // The length of the pair.
    // Kept: as `offset` but for the place; one function of both would be `number4` with its place, which they call.
    #[tactic(auto, unfolding(crate::specs::Batch::length_at))]
    pub fn length(self) -> u32
        ensures { result ≡ length_at self.entry.file.now self.entry.at }
    {
        number4(self.file, 8 + 8 * (self.at as usize))
    }

    // Where the part of the pair ends.
    #[tactic(auto, unfolding(crate::specs::Batch::end_at))]
    pub fn end(self) -> u64
        ensures { result ≡ end_at self.entry.file.now self.entry.at }
    {
        self.offset() as u64 + self.length() as u64
    }

    // Where the part of the pair must begin.
    pub fn begins(self) -> u64
        ensures { result ≡ begins_at self.entry.file.now self.entry.at }
    {
        if self.at == 0 {
            return 4 + 8 * (count(self.file) as u64);
        }
        self.moved(self.at - 1).end()
    }

    // The participant of the pair's part.
    #[tactic(auto, unfolding(crate::specs::Batch::participant_at))]
    pub fn participant(self) -> u8
        ensures { result ≡ participant_at self.entry.file.now self.entry.at }
    {
        byte_at(self.file, self.offset() as usize)
    }

    // The part of the pair.
    pub fn part(self) -> Part
        ensures { PartIs self.entry.file.now self.entry.at result }
    {
        let offset = self.offset() as usize;
        Part {
            participant: byte_at(self.file, offset) as u64,
            rows: byte_at(self.file, offset + 1) as usize,
            offset,
        }
    }
}

// The part of a pair of a file, by a reader of it.
pub fn part_at(file: &[u8], at: u32) -> Part
    ensures { PartIs file.now at result }
{
    BatchReader::new(file).moved(at).part()
}
