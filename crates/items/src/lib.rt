// The itemised statement of a participant: each run of opened days with the same figures on which it was charged.
#![tactic(auto)]

ghost use Rattle.std.specs.Prelude.{◌≡◌};

use calendar::Day;

mod runs; // runs.rt: a run of days, and the day that makes it longer
mod state; // state.rt: the items as they are kept while days are opened
mod lines; // lines.rt: the lines of the items

pub use lines::{put_heading, put_sums};

// A day on which a participant was charged, with its firm amount on that day and its cover at the opening.
#[derive(Clone, Copy)]
pub struct Charged {
    pub day: Day,
    pub firm: u64,
    pub cover: u64,
}

// A run of opened days, one behind the other, on which a participant was charged by the same figures: its first and its last day.
#[derive(Clone, Copy)]
pub struct Run {
    pub from: Day,
    pub to: Day,
    pub firm: u64,
    pub cover: u64,
}

// The latest run, whose line is not written yet, and the days and the charges of those before it, added.
#[derive(Clone, Copy)]
pub struct Items {
    pub run: Option<Run>,
    pub days: u64,
    pub mills: u64,
}

// How the lines are written: in columns, or with commas.
#[derive(Clone, Copy)]
pub enum Form {
    Columns,
    Csv,
}
