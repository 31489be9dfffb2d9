// The questions of the book's users that are none of the papers' calls.
ghost use Rattle.std.specs.Prelude.{◌≡◌};
ghost use Rattle.layout.specs.Words.{book_of_words};
ghost use Rattle.layout.specs.WellFormed.{WellFormed};
ghost use Rattle.book.specs.Account.{answer};
ghost use Rattle.book.specs.Call.{statement};
ghost use Rattle.book.specs.Rule.{new_rule};
ghost use Rattle.inquiry.specs.Releasable.{releasable_in};
ghost use Rattle.answering.specs.Shown.{shown, file_shown, releasable_shown};

use crate::shown::{Shown, given};
use printing::Answer;

// An answer where it is a refusal, or nothing.
fn refusal_alone(answer: Answer) -> Answer
    ensures { result ≡ file_shown answer }
{
    match answer {
        Answer::Refused(_) => answer,
        _ => Answer::Nothing,
    }
}

// The refusal of a participant's file, which is that of its statement, or nothing.
// Kept: here and below the words are asked to be a book, since `book` and `inquiry` take lent words and ask the same.
pub fn asked_file(book: &[u64], participant: u64) -> Answer
    requires { WellFormed book.now }
    ensures { result ≡ file_shown (shown (answer new_rule (book_of_words book.now) (statement participant))) }
{
    refusal_alone(book::statement(book, participant).shown())
}

// What may be released at a position of a participant's, or its refusal.
pub fn releasable(book: &[u64], participant: u64, position: u64) -> Answer
    requires { WellFormed book.now }
    ensures { result ≡ releasable_shown (releasable_in (book_of_words book.now) participant position) }
{
    given(
        inquiry::releasable(book, participant, position),
        Answer::Releasable,
    )
}
