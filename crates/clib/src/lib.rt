// The guarantee book for programs in C and other languages: each call and question of the book, and the special guarantee, as an exported
// function on numbers and on lists that the caller lends. include/guarantee.h declares them.
//
// Each answer begins with its refusal: 0 for an accepted call, the number of paper 01 (1 to 19) or of paper 02 (from 20 on) for a refused one, or
// 100 for words that are not as many as a book's, which are neither read nor written. A value that has no meaning beside an answer is 0.
#![tactic(auto)]

mod calls; // calls.rt: the calls that change a book
mod fault; // fault.rt: why a call on lent words gives nothing
mod lent; // lent.rt: a call on lent words
mod numbers; // numbers.rt: answers as numbers
mod questions; // questions.rt: the questions, and the special guarantee

// Kept: numbers, with zeros beside what has no meaning, as C has no Option and no Result; a struct for each, as include/guarantee.h names them.

// What a settlement answers: its kind is 1 called, 2 covered, 3 recorded; the month's total in cents; where it is called, the cents asked
// beyond what is deposited, and the last free day.
#[repr(C)]
#[derive(Clone, Copy, Default)]
pub struct GuaranteeSettled {
    pub refusal: u64,
    pub kind: u64,
    pub total: i64,
    pub asked: u64,
    pub last_free_day: u64,
}

// What a batch answers: how many parts were settled; where it is refused, the index from 0 of the pair that the refusal concerns.
#[repr(C)]
#[derive(Clone, Copy, Default)]
pub struct GuaranteeBatch {
    pub refusal: u64,
    pub parts: u64,
    pub pair: u64,
}

// What an annual run answers: the next amount in cents, and how many months were recorded.
#[repr(C)]
#[derive(Clone, Copy, Default)]
pub struct GuaranteeAnnual {
    pub refusal: u64,
    pub amount: u64,
    pub months: u64,
}

// What a deletion answers: its amount in cents, and 1 if it became a call, 0 if not.
#[repr(C)]
#[derive(Clone, Copy, Default)]
pub struct GuaranteeDeletion {
    pub refusal: u64,
    pub amount: u64,
    pub called: u64,
}

// What an advance answers: how many days it opened.
#[repr(C)]
#[derive(Clone, Copy, Default)]
pub struct GuaranteeAdvanced {
    pub refusal: u64,
    pub opened: u64,
}

// A statement: firm amount, cover and shortfall in cents, days charged, the accrued charge in mills, and how many calls were made.
#[repr(C)]
#[derive(Clone, Copy, Default)]
pub struct GuaranteeStatement {
    pub refusal: u64,
    pub firm: u64,
    pub cover: u64,
    pub shortfall: u64,
    pub days_charged: u64,
    pub accrued_mills: u64,
    pub calls_made: u64,
}

// How many calls were made in all.
#[repr(C)]
#[derive(Clone, Copy, Default)]
pub struct GuaranteeCount {
    pub refusal: u64,
    pub count: u64,
}

// A day.
#[repr(C)]
#[derive(Clone, Copy, Default)]
pub struct GuaranteeDay {
    pub refusal: u64,
    pub day: u64,
}

// A special guarantee in cents.
#[repr(C)]
#[derive(Clone, Copy, Default)]
pub struct GuaranteeSpecial {
    pub refusal: u64,
    pub cents: u64,
}
