// A line of a journal made again, but for the days that it opens: a reader of a journal opens them one by one, and looks at the book after each.
ghost use Rattle.std.specs.Prelude.{◌≡◌, ◌||◌, length, ltb};
ghost use Rattle.layout.specs.Words.{book_of_words};
ghost use Rattle.layout.specs.WellFormed.{WellFormed};
ghost use Rattle.book.specs.Call.{advance, advanced_says};
ghost use Rattle.book.specs.Rule.{new_rule};
ghost use Rattle.book.specs.Account.{answer};
ghost use Rattle.answering.specs.Asked.{asked};
ghost use Rattle.answering.specs.Shown.{shown};
ghost use Rattle.dialogue.specs.Asks.{LineAsked};
ghost use Rattle.dialogue.specs.Dialogue.{replaying as Dialogue·replaying};
ghost use Rattle.dialogue.specs.Passes.{days_of, place_behind, MadeButDays, LineMade, NextOpened};

use crate::asks::ask;
use crate::lines::apply_at;
use crate::{Place, Way};
use answering::{is_kept, is_refusal};
use calendar::{Day, LAST_DAY};
use journal::Request;
use printing::Answer;
use refusal::Refusal;

// What a line asked, what it was answered, where the next one begins, and how many days are still to be opened for it.
// Kept: the number is what `days_of` gives for any request and answer; a caller may make a value of its own.
#[derive(Clone, Copy)]
pub struct Made {
    pub request: Request,
    pub answer: Answer,
    pub place: Place,
    pub days: u32,
}

// As a journal is replayed.
fn replaying() -> Way
    ensures { result ≡ Dialogue·replaying }
{
    Way {
        keeps: true,
        reads: false,
        torn: false,
        bails: true,
        gathers: true,
        replays: true,
        words: false,
        csv: false,
    }
}

// Whether an advance to a day is refused: a day above 29,219, or before today.
fn is_outside(day: Day, today: Day) -> bool
    ensures { result ≡ (ltb 29219 day.0 || ltb day.0 today.0) }
{
    !(today.0..=LAST_DAY).contains(&day.0)
}

// How many days an advance opens, or why it is refused.
#[tactic(auto, using(crate::proofs::PassLaws::to_open))]
fn days_to_open(book: &[u64], day: Day, budget: u64) -> Result<u32, Refusal>
    requires { WellFormed book.now }
    ensures { advanced_says result ≡ answer new_rule (book_of_words book.now) (advance day.0 budget) }
{
    let today = book::today(book);
    if is_outside(day, today) {
        return Err(Refusal::DayOutOfRange);
    }
    Ok(budget.min((day.0 - today.0) as u64) as u32)
}

// The answer to an advance that opens so many days, or is refused.
fn advance_answer(days: Result<u32, Refusal>) -> Answer
    ensures { result ≡ shown (advanced_says days) }
{
    match days {
        Ok(days) => Answer::Opened(days),
        Err(refusal) => Answer::Refused(refusal.number()),
    }
}

// The answer to a request, made on the book as a journal's lines are replayed; the days of an advance are not opened.
// Kept: here and below the words are asked to be a book, as `apply_at` asks it.
fn make_but_days(place: Place, book: &mut [u64], request: Request, numbers: &[i64]) -> Answer
    requires { WellFormed book.old }
    ensures { MadeButDays place book.old (asked request numbers.now) result book.new }
{
    match request {
        Request::Advance(day, budget) => advance_answer(days_to_open(book, day, budget)),
        other => apply_at(
            replaying(),
            place,
            book,
            other,
            numbers,
            place.line.wrapping_add(1),
        ),
    }
}

// How many days are to be opened for a request with this answer: those of an advance that is not refused.
fn days_of(request: Request, answer: Answer) -> u32
    ensures { result ≡ days_of request answer }
{
    match (request, answer) {
        (Request::Advance(..), Answer::Opened(days)) => days,
        _ => 0,
    }
}

// Where the next line begins, behind one with this request and this answer.
#[tactic(auto, unfolding(crate::specs::Passes::place_behind))]
fn place_behind(place: Place, request: Request, answer: Answer) -> Place
    ensures { result ≡ place_behind place request answer }
{
    let kept = is_kept(answer);
    let ends = replaying().ends_stretch(place, request, kept);
    place.further(kept, is_refusal(answer), ends)
}

// Makes a line of a journal again, but for the days that it opens: an accepted `advance` leaves the book, and has days to open; any other line is
// made whole, and has none.
#[tactic(auto, using(crate::proofs::PassLaws::asked_replaying))]
pub fn make_line(book: &mut [u64], place: Place, line: &[u8], numbers: &mut [i64]) -> Made
    requires { WellFormed book.old }
    ensures made { LineMade (length numbers.old) book.old place line.now book.new result }
    ensures asked { LineAsked Dialogue·replaying place line.now numbers.old result.request numbers.new }
{
    let request = ask(replaying(), place, line, numbers);
    let answer = make_but_days(place, book, request, numbers);
    Made {
        request,
        answer,
        place: place_behind(place, request, answer),
        days: days_of(request, answer),
    }
}

// Opens the day after today; behind the calendar's last day there is none, and the book stays as it is.
#[tactic(auto, using(crate::proofs::PassLaws::next_opened))]
pub fn open_next(book: &mut [u64])
    requires { WellFormed book.old }
    ensures { NextOpened book.old book.new }
{
    let today = book::today(book);
    // the call is refused where today is the last day, and writes nothing
    let _ = book::advance(book, Day(today.0 + 1), 1);
}
