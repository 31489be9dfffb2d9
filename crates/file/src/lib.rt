// One participant's file: its positions, open calls, next amount, month totals and charges (paper 01, 'One participant's file').
#![tactic(auto)]

ghost use Rattle.std.specs.Prelude.{◌≡◌, ◌%◌};

use calendar::{Day, Month};
use refusal::Refusal;

mod admit;
mod annual;
pub mod cover;
pub mod holding;
mod leaving;
mod opening;
pub mod release;
pub mod settle;
mod window;

// A position of a file: nothing, cash with its amount, or a letter with its amount, first and last day, both included.
#[derive(Clone, Copy)]
pub enum Position {
    Empty,
    Cash(u64),
    Letter(u64, Day, Day),
}

// A place for a position.
#[derive(Clone, Copy)]
pub struct Slot {
    pub position: Position,
}

// An open call: its amount and its last free day.
#[derive(Clone, Copy, PartialEq, Eq)]
pub struct OpenCall {
    pub amount: u64,
    pub last: Day,
}

// The next amount, set or unset. One that calls left unset has the amount 0; words that are lent may hold another.
// Kept: the C interface lends a book as words, which may hold an amount beside an unset flag; an Option would lose it.
#[derive(Clone, Copy)]
pub struct NextAmount {
    pub set: bool,
    pub amount: u64,
}

// A month's total, where one is recorded.
// Kept: the C interface lends a book as words, which may hold a month and a total beside an unset flag; an Option would lose them.
#[derive(Clone, Copy)]
pub struct MonthTotal {
    pub recorded: bool,
    pub month: Month,
    pub total: i64,
}

// The place of a month in a ring of sixteen totals. No other function here takes a month's number to find its place.
pub fn ring_place(month: Month) -> usize
    ensures { result ≡ month.0 % 16 }
{
    (month.0 % 16) as usize
}

// A participant's file; it is `leaving` once the participant was placed under deletion. The open calls are the first `count` of `calls`, oldest
// first, with zeros behind them; a month's total, where recorded, is at its `ring_place` of `totals`.
// Kept: `admitted`, `leaving` and `count`: by the C interface a file is read from any words, whatever they hold; a list of open calls needs a heap.
#[derive(Clone, Copy)]
pub struct File {
    pub admitted: bool,
    pub leaving: bool,
    // Kept: the role is a number, since the C interface lends it as a word, of which a well-formed book may hold any.
    pub role: u64,
    pub firm: u64,
    pub slots: [Slot; 8],
    pub calls: [OpenCall; 4],
    pub count: usize,
    pub next: NextAmount,
    pub totals: [MonthTotal; 16],
    pub charged: u64,
    pub accrued: u64,
    // How many calls were made, its admission's and its deletion's included (paper 02, Ask 6).
    pub made: u64,
}

// What an admission, a lodging or a release answers: done, or the first cause that refuses it.
pub type Outcome = Result<(), Refusal>;

// What a settlement answers that isn't refused: called (E, asked, last free day), covered (E), or recorded only (E).
#[derive(Clone, Copy)]
pub enum Settled {
    Called(u64, u64, Day),
    Covered(i64),
    Recorded(i64),
}

// What an annual run answers that isn't refused: the amount, and how many months were recorded.
#[derive(Clone, Copy)]
pub struct AnnualRun {
    pub amount: u64,
    pub months: u64,
}

// What a deletion answers that isn't refused: the amount, and whether it became a call.
#[derive(Clone, Copy)]
pub struct Deletion {
    pub amount: u64,
    pub called: bool,
}

// The charges of a file: the days charged and the accrued charge.
#[derive(Clone, Copy)]
pub struct Charges {
    pub charged: u64,
    pub accrued: u64,
}

// A statement: firm amount, cover, shortfall, days charged, accrued charge, and how many calls were made.
#[derive(Clone, Copy)]
pub struct Statement {
    pub firm: u64,
    pub cover: u64,
    pub shortfall: u64,
    pub charged: u64,
    pub accrued: u64,
    pub made: u64,
}
