// Lines as they are printed, without their newline: calls in their numeric form, and answers.
#![tactic(auto)]

use calendar::Day;
use journal::Reason;

mod lent; // lent.rt: texts written into lent bytes, one behind the other
mod numbers; // numbers.rt: numbers in decimal
mod hex; // hex.rt: bytes as hexadecimal digits
mod columns; // columns.rt: texts and numbers in columns
mod dates; // dates.rt: a day as people write it
mod rows; // rows.rt: numbers in a row
mod calls; // calls.rt: the lines of calls
mod answers; // answers.rt: the lines of answers

pub use calls::CallLine;
pub use columns::{Column, Fixed, Measured, put_digits};
pub use dates::OnDate;
pub use lent::{Out, Puts};
pub use numbers::last_digit;
pub use rows::parted;

// An answer to a line: E is the sum of a settlement's figures, ASKED what a call asks for and LAST_FREE_DAY its last free day; the amount
// and the months of an annual run; the days opened; a statement's firm amount, cover, shortfall, days charged, accrued charge and count of calls
// made; the calls made in all; a special guarantee in cents; what may be released at a position, in cents; the book's today; how many
// settlements a batch made, or its refusal and the index of the pair; a deletion's amount, and whether it became a call; the line that is no
// call, and why. Nothing is said to an empty line.
// Kept: `Nothing` and `Error` are cases: `shown` and `answer_line` speak of any, and an Option of a Result would ask two more matches.
#[derive(Clone, Copy)]
pub enum Answer {
    Done,
    // Kept: numbers, here and in `RefusedPair`: theorems and callers print any number, and an enum of the causes would be a narrower type.
    Refused(u32),
    Called(u64, u64, Day),
    Covered(i64),
    Recorded(i64),
    Annual(u64, u64),
    Opened(u32),
    Statement(u64, u64, u64, u64, u64, u64),
    Calls(u64),
    Special(u64),
    Releasable(u64),
    Today(Day),
    Batch(u64),
    RefusedPair(u32, u64),
    Deletion(u64, bool),
    Error(u64, Reason),
    Nothing,
}
