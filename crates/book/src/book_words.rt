// The words of a book in an array of their own.
ghost use Rattle.book.specs.Account.{fresh_answer};
ghost use Rattle.book.specs.InWords.{BegunWords};

use crate::begin;
use calendar::Day;
use std::marker::Model;

// Words that are well formed: a call or a question is lent them, and asks no more.
#[derive(Drop)]
pub struct BookWords {
    pub words: [u64; 6210],
}

impl Model for BookWords {
    ghost use Rattle.std.specs.Prelude.{ℕ, List};
    ghost use Rattle.layout.specs.WellFormed.{WellFormed};

    ghost Value = { List ℕ };

    ghost view = { λ book. book.words };

    ghost invariant = { λ book. WellFormed book.words };
}

impl BookWords {
    // The fresh book of a day, or of day 0 where no book may begin on that day.
    pub fn fresh(day: Day) -> BookWords
        ensures { BegunWords day.0 (fresh_answer day.0) result }
    {
        let mut words = [0; 6210];
        let _ = begin::fresh(&mut words, day);
        BookWords { words }
    }
}
