// An answer as seven numbers: which it is, then its values, then zeros.
ghost use Rattle.std.specs.Prelude.{◌≡◌, ◌≤◌, pos, Result};
ghost use Rattle.refusal.specs.Numbers.{number_of};
ghost use Rattle.file.specs.Answer.{Answer, refused, done, annual, days_opened, counted, batched, refused_pair, deletion};
ghost use Rattle.file.specs.Answer.{settlement_says, statement_says, says};
ghost use Rattle.book.specs.Call.{loaded_says};
ghost use Rattle.replay.specs.Encoding.{largest_signed, seven, seven_numbers, WithinSigned};

use batch::Misfit;
use file::{AnnualRun, Deletion, Settled, Statement};
use layout::parts::flag_word;
use refusal::Refusal;

// The number of days that an advance opened.
#[derive(Clone, Copy)]
pub struct Opened(pub u32);

// How many calls were made in all.
#[derive(Clone, Copy)]
pub struct Made(pub u64);

// A number of a signed word.
fn signed(x: u64) -> i64
    requires { x ≤ largest_signed }
    ensures { result ≡ pos x }
{
    x.cast_signed()
}

// A number that says which answer it is, its first three values, and zeros for the others.
// Kept: a number says which answer it is, here and below, since `out` is lent words of any length, and a type of answers would ask more of callers.
fn values(kind: u64, a: u64, b: u64, c: u64) -> [i64; 7]
    requires { (kind ≤ 11) × (a ≤ largest_signed) × (b ≤ largest_signed) × (c ≤ largest_signed) }
    ensures { result ≡ seven kind (pos a) (pos b) (pos c) (pos 0) (pos 0) (pos 0) }
{
    [signed(kind), signed(a), signed(b), signed(c), 0, 0, 0]
}

// What a call answers, or a part of that.
pub trait Numbered: Copy {
    // The answer that it stands for.
    ghost stands_for: { Self → Answer };

    // The numbers of that answer, which are within signed words.
    fn numbers(self) -> [i64; 7]
        requires { WithinSigned (stands_for self) }
        ensures { result ≡ seven_numbers (stands_for self) };
}

impl Numbered for () {
    ghost stands_for = { λ x. done };

    fn numbers(self) -> [i64; 7] {
        values(1, 0, 0, 0)
    }
}

impl Numbered for Settled {
    ghost stands_for = { settlement_says };

    fn numbers(self) -> [i64; 7] {
        match self {
            Settled::Called(e, asked, last) => values(2, e, asked, last.0 as u64),
            Settled::Covered(e) => [3, e, 0, 0, 0, 0, 0],
            Settled::Recorded(e) => [4, e, 0, 0, 0, 0, 0],
        }
    }
}

impl Numbered for AnnualRun {
    ghost stands_for = { λ run. annual run.amount run.months };

    fn numbers(self) -> [i64; 7] {
        values(5, self.amount, self.months, 0)
    }
}

impl Numbered for Deletion {
    ghost stands_for = { λ d. deletion d.amount d.called };

    fn numbers(self) -> [i64; 7] {
        values(11, self.amount, flag_word(self.called), 0)
    }
}

impl Numbered for Opened {
    ghost stands_for = { λ days. days_opened days.0 };

    fn numbers(self) -> [i64; 7] {
        values(6, self.0 as u64, 0, 0)
    }
}

impl Numbered for Statement {
    ghost stands_for = { statement_says };

    fn numbers(self) -> [i64; 7] {
        [
            7,
            signed(self.firm),
            signed(self.cover),
            signed(self.shortfall),
            signed(self.charged),
            signed(self.accrued),
            signed(self.made),
        ]
    }
}

impl Numbered for Made {
    ghost stands_for = { λ made. counted made.0 };

    fn numbers(self) -> [i64; 7] {
        values(8, self.0, 0, 0)
    }
}

impl Numbered for Result<u32, Misfit> {
    ghost stands_for = { loaded_says };

    fn numbers(self) -> [i64; 7] {
        match self {
            Ok(parts) => values(9, parts as u64, 0, 0),
            Err(misfit) => values(10, misfit.refusal.number() as u64, misfit.pair as u64, 0),
        }
    }
}

impl<T: Numbered> Numbered for Result<T, Refusal> {
    ghost stands_for = { says T.stands_for };

    fn numbers(self) -> [i64; 7] {
        match self {
            Ok(answer) => answer.numbers(),
            Err(refusal) => values(0, refusal.number() as u64, 0, 0),
        }
    }
}
