// The application of one call: a request made on the book.
ghost use Rattle.layout.specs.WellFormed.{WellFormed};
ghost use Rattle.book.specs.Rule.{old_rule, new_rule};
ghost use Rattle.answering.specs.Asked.{fresh as Asked·fresh, asked};
ghost use Rattle.answering.specs.InWords.{AnsweredWords};

use crate::batches::load_file;
use crate::guarantee::guarantee;
use crate::questions::{asked_file, releasable};
use crate::shown::{Shown, given};
use calendar::{Day, LAST_DAY};
use file::Position;
use journal::Request;
use printing::{Answer, parted};
use refusal::Refusal;

// A fresh book on a day; a refused one leaves the book as it was.
// Kept: here and below the words are asked to be a book, as `book`'s calls but `fresh`, which C makes too, take lent words and ask it.
fn begin(book: &mut [u64], day: Day) -> Answer
    requires { WellFormed book.old }
    ensures { AnsweredWords new_rule book.old 0 (Asked·fresh day.0) result book.new }
{
    if LAST_DAY < day.0 {
        return Refusal::DayOutOfRange.shown();
    }
    book::fresh(book, day).shown()
}

// The answer to a request, made on the book in its words: the numbers of the request's lists stand at the front of `numbers`, in a row; `line`
// is the number of its line, which an error names.
// Kept: a request and its row apart, here and below: the row is the whole lent slice, while `CallLine` holds the request's own numbers alone.
pub fn apply(book: &mut [u64], request: Request, numbers: &[i64], line: u64) -> Answer
    requires { WellFormed book.old }
    ensures { AnsweredWords new_rule book.old line (asked request numbers.now) result book.new }
{
    match request {
        Request::Nothing | Request::RoleRetired | Request::Report => Answer::Nothing,
        Request::Fresh(day) => begin(book, day),
        Request::Admit(p, role) => book::admit(book, p, role).shown(),
        Request::LodgeCash(p, q, amount) => {
            book::lodge(book, p, q, Position::Cash(amount)).shown()
        }
        Request::LodgeLetter(p, q, amount, first, last) => {
            book::lodge(book, p, q, Position::Letter(amount, first, last)).shown()
        }
        Request::Release(p, q, amount) => book::release(book, p, q, amount).shown(),
        Request::Settle(p, month, n) => {
            book::settle(book, p, month, parted(numbers, n).0).shown()
        }
        Request::Annual(p) => book::annual_run(book, p).shown(),
        Request::Advance(day, budget) => book::advance(book, day, budget).shown(),
        Request::Statement(p) => book::statement(book, p).shown(),
        Request::Calls => Answer::Calls(book::calls_made(book)),
        Request::Special(n) => given(guarantee(n, numbers), Answer::Special),
        Request::Batch(n) => {
            given(
                load_file(book, numbers, n),
                |parts| Answer::Batch(parts as u64),
            )
        },
        Request::Delete(p) => book::delete(book, p).shown(),
        Request::File(p) => asked_file(book, p),
        Request::Releasable(p, position) => releasable(book, p, position),
        Request::Today => Answer::Today(book::today(book)),
        Request::Error(why) => Answer::Error(line, why),
    }
}

// The same by the old admission rule, for a line of a journal's first stretch (paper 02, Ask 3): only an admission is another call.
pub fn apply_by_old_rule(book: &mut [u64], request: Request, numbers: &[i64], line: u64) -> Answer
    requires { WellFormed book.old }
    ensures { AnsweredWords old_rule book.old line (asked request numbers.now) result book.new }
{
    match request {
        Request::Admit(p, role) => book::admit_by_old_rule(book, p, role).shown(),
        other => apply(book, other, numbers, line),
    }
}
