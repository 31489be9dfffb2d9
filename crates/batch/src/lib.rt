// The file of one month for all participants (paper 02, Ask 1): whether its bytes are a batch, and its parts.
#![tactic(auto)]

mod bytes; // bytes.rt: numbers in the bytes of a file
mod pairs; // pairs.rt: what a file says of its month and its count of pairs
mod parts; // parts.rt: one part, and the sum of its figures
mod checks; // checks.rt: whether a file is a batch
pub mod reader; // reader.rt: the reader of a file's pairs and parts

pub use checks::form_of;
pub use pairs::month;
pub use parts::{Part, sum_part};
pub use reader::{BatchReader, part_at};
use refusal::Refusal;

// Why a batch is refused, and the index of the pair that it concerns.
#[derive(Clone, Copy, PartialEq, Eq)]
pub struct Misfit {
    pub refusal: Refusal,
    pub pair: u32,
}
