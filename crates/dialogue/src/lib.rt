// Bytes of an input to bytes of its answers and of its journal: the complete lines of a slice, answered in turn, with no system call.
#![tactic(auto)]

mod asks; // asks.rt: what a line asks
mod said; // said.rt: what one line adds to the answers and to the journal
mod turns; // turns.rt: how far lines are taken
mod lines; // lines.rt: the lines of a slice, one after the other
mod passes; // passes.rt: a line of a journal made again, but for the days that it opens

pub use lines::{answer_line, answer_lines};
pub use passes::{Made, make_line, open_next};

// How the lines of an input are taken: whether accepted changes are kept in a journal, whether only questions are answered, whether what stands
// in the place of a line lacks its newline and is an error, whether the first refusal or error is the last line, whether lines behind one
// that is kept are taken before the journal's bytes are written, and whether they are those of a journal that is replayed, whose first stretch is
// taken by the old admission rule (paper 02, Ask 3); and whether each answer is followed by its wording, and the report shown as comma-separated values.
// Kept: theorems and callers take any choice of the eight flags; an enum of the ways that the ledger makes would be a narrower type.
#[derive(Clone, Copy)]
pub struct Way {
    pub keeps: bool,
    pub reads: bool,
    pub torn: bool,
    pub bails: bool,
    pub gathers: bool,
    pub replays: bool,
    pub words: bool,
    pub csv: bool,
}

// How far an input is taken: its lines, those of them that were refused or an error, the calls kept in the journal, whether the line that has
// begun is too long, and whether the first stretch of the journal lasts: it has no line yet that ends it.
// Kept: the counts mean the same whatever the two flags say.
#[derive(Clone, Copy)]
pub struct Place {
    pub line: u64,
    pub refused: u64,
    pub kept: u64,
    pub long: bool,
    pub early: bool,
}

// How far an input is taken, and how many bytes of a slice are.
// Kept: a count of bytes beside the slice, since the caller moves what is left of its buffer to the front and reads on behind it.
#[derive(Clone, Copy)]
pub struct Progress {
    pub place: Place,
    pub used: usize,
}
