// One part of a file: its participant, its row count and where it begins; and the sum of its figures.
ghost use Rattle.std.specs.Prelude.{◌≡◌, ◌+◌, ◌*◌, ◌≤◌, length};
ghost use Rattle.manual.specs.Figures.{summed};
ghost use Rattle.batch.specs.Batch.{figures_behind};

use crate::bytes::signed8;
use manual::figures::{Figures, sum_of_month};
use refusal::Refusal;

// A part: its participant, how many figures it has, and where it begins.
// Kept: a place and a count, no slice (no plainer): the figures are numbers in bytes, and `PartIs` compares the offset with the pair's.
#[derive(Clone, Copy, PartialEq, Eq)]
pub struct Part {
    pub participant: u64,
    pub rows: usize,
    pub offset: usize,
}

// The figures of a part that lies in the file.
#[derive(Clone, Copy)]
struct PartFigures<'a> {
    file: &'a [u8],
    part: Part,
    ghost inside: { part.offset + 2 + 8 * part.rows ≤ length file.now },
}

impl<'a> Figures for PartFigures<'a> {
    ghost list = { λ f. figures_behind f.file.now f.part.offset f.part.rows };

    #[tactic(auto, using(crate::proofs::PartLaws::many_figures))]
    fn count(&self) -> usize {
        self.part.rows
    }

    #[tactic(auto, using(crate::proofs::PartLaws::figure_is, crate::proofs::PartLaws::no_figure))]
    fn figure(&self, i: usize) -> i64 {
        if i < self.part.rows {
            signed8(self.file, self.part.offset + 2 + 8 * i)
        } else {
            0
        }
    }
}

// The sum of the figures of a part that lies in the file, or the first of the causes 10 and 11 that holds.
pub fn sum_part(file: &[u8], part: Part) -> Result<i64, Refusal>
    requires { part.offset + 2 + 8 * part.rows ≤ length file.now }
    ensures { result ≡ summed (figures_behind file.now part.offset part.rows) }
{
    sum_of_month(&PartFigures { file, part })
}
