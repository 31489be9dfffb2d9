// The questions: what is asked of a book and leaves it as it was (paper 01, 'Statement').
ghost use Rattle.std.specs.Prelude.{◌≡◌, ◌<◌, length};
ghost use Rattle.file.specs.Answer.{counted};
ghost use Rattle.layout.specs.Words.{book_length, book_of_words};
ghost use Rattle.layout.specs.WellFormed.{WellFormed};
ghost use Rattle.book.specs.Call.{statement, calls_made, stated_says};
ghost use Rattle.book.specs.Account.{file_at};
ghost use Rattle.book.specs.Reached.{Given};

use crate::view::{FileView, place, today_of};
use calendar::Day;
use file::Statement;
use refusal::Refusal;

// Today.
#[tactic(auto, unfolding(layout::specs::Words::book_of_words))]
pub fn today(words: &[u64]) -> Day
    requires { WellFormed words.now }
    ensures { result ≡ (book_of_words words.now).today }
{
    today_of(words)
}

// How many calls were made in all: the sum of the participants' counts (paper 02, Ask 6).
#[tactic(auto, using(crate::proofs::Functions::OnWords::questions))]
pub fn calls_made(words: &[u64]) -> u64
    requires { WellFormed words.now }
    ensures { Given (book_of_words words.now) calls_made (counted result) (book_of_words words.now) }
{
    (0..64)
        .map(
            |participant|
                requires { (length words.now ≡ book_length) × (participant < 64) }
            { words[place(participant) + 9] },
        )
        .sum()
}

// Whether a participant is admitted.
#[tactic(auto, using(crate::proofs::Functions::OnWords::questions))]
pub fn is_admitted(words: &[u64], participant: u64) -> bool
    requires { WellFormed words.now }
    ensures { result ≡ (file_at (book_of_words words.now) participant).admitted }
{
    FileView::admitted(words, participant).is_ok()
}

// The role of a participant, 0 if it isn't admitted.
#[tactic(auto, using(crate::proofs::Functions::OnWords::questions))]
pub fn role(words: &[u64], participant: u64) -> u64
    requires { WellFormed words.now }
    ensures { result ≡ (file_at (book_of_words words.now) participant).role }
{
    FileView::of(words, participant).map_or(0, |file| file.role())
}

// The statement of a participant.
#[tactic(auto, using(crate::proofs::Functions::OnWords::questions))]
pub fn statement(words: &[u64], participant: u64) -> Result<Statement, Refusal>
    requires { WellFormed words.now }
    ensures { Given (book_of_words words.now) (statement participant) (stated_says result) (book_of_words words.now) }
{
    let file = FileView::admitted(words, participant)?;
    let firm = file.firm();
    let cover = file.cover(file.today(), file.today());
    Ok(Statement {
        firm,
        cover,
        shortfall: firm.saturating_sub(cover),
        charged: file.charged(),
        accrued: file.accrued(),
        made: file.made(),
    })
}
