// A fresh book (paper 01, 'The calls').
ghost use Rattle.std.specs.Prelude.{◌≡◌, length};
ghost use Rattle.file.specs.Answer.{outcome_says};
ghost use Rattle.layout.specs.Words.{book_length};
ghost use Rattle.book.specs.InWords.{BegunWords};

use calendar::{Day, LAST_DAY};
use file::Outcome;
use refusal::Refusal;

// Writes a fresh book on a day into words of any content; beside a refusal stands the fresh book of day 0.
#[tactic(auto, using(crate::proofs::Functions::OnWords::begins))]
pub fn fresh(words: &mut [u64], day: Day) -> Outcome
    requires { length words.old ≡ book_length }
    ensures { BegunWords day.0 (outcome_says result) words.new }
{
    words.fill(0);
    words[0] = 2;
    if LAST_DAY < day.0 {
        return Err(Refusal::DayOutOfRange);
    }
    words[1] = day.0 as u64;
    Ok(())
}
