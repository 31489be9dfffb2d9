// The lines of a slice, answered one after the other.
// Kept: the two sheets side by side, here and below: each is written alone, and a struct of them would only be taken apart again.
ghost use Rattle.std.specs.Prelude.{◌≡◌, ◌≤◌, ◌==◌, length, position};
ghost use Rattle.layout.specs.WellFormed.{WellFormed};
ghost use Rattle.answering.specs.Asked.{asked};
ghost use Rattle.answering.specs.InWords.{AnsweredWords};
ghost use Rattle.dialogue.specs.Asks.{rule_at};
ghost use Rattle.dialogue.specs.Answers.{space, SameBytes, state_of, Turned, LineTaken, NextLine, Answers};

use crate::asks::{ask, text_of};
use crate::said::Turn;
use crate::{Place, Progress, Way};
use answering::{apply, apply_by_old_rule, is_kept, is_refusal};
use journal::Request;
use printing::{Answer, Out};

// How many bytes stand before the first newline, if there is one.
fn before_newline(input: &[u8]) -> Option<usize>
    ensures { result ≡ position (λ b. b == 10) input.now }
{
    input.iter().position(|b| *b == b'\n')
}

// How many bytes the next line has, if one more is taken and it is complete.
// Kept: a way and a place apart, here, in `asks` and in `turns`, since the way stays while the place moves on with each line.
fn next_line(way: Way, place: Place, rest: &[u8], journal: &Out, out: &Out) -> Option<usize>
    ensures { NextLine way place rest.now journal.now out.now result }
{
    if way.goes_on(place, journal, out) {
        before_newline(rest)
    } else {
        None
    }
}

// The answer to a request, made on the book: by the old admission rule in the first stretch of a journal that is replayed, else by the new one.
// Kept: here and below the words are asked to be a book, since `book`'s calls, which C makes too, take lent words and ask the same.
// Kept: a request and its row apart, here and below: the row is the whole lent slice, while `CallLine` holds the request's own numbers alone.
pub(crate) fn apply_at(
    way: Way,
    place: Place,
    book: &mut [u64],
    request: Request,
    numbers: &[i64],
    line: u64,
) -> Answer
    requires { WellFormed book.old }
    ensures { AnsweredWords (rule_at way place) book.old line (asked request numbers.now) result book.new }
{
    if way.is_early(place) {
        apply_by_old_rule(book, request, numbers, line)
    } else {
        apply(book, request, numbers, line)
    }
}

impl<'a> Turn<'a> {
    // What the line leaves: its bytes for the journal and for the answers behind those that are there, and the next place.
    fn put(self, way: Way, place: Place, journal: &mut Out, out: &mut Out) -> Place
        requires { WellFormed self.book.now }
        ensures { Turned way place self.entry.text.now self.entry.request self.entry.answer self.entry.numbers.now self.entry.book.now journal.old out.old result
            journal.new out.new }
    {
        let taken = way.keeps && is_kept(self.answer);
        let ends = way.ends_stretch(place, self.request, taken);
        self.put_added(way, taken, way.keeps && ends, journal, out);
        place.further(taken, is_refusal(self.answer), ends)
    }
}

// Answers one line; its bytes for the journal and for the answers are put behind those that are there. Inlined: a line takes 9% longer by a call.
// Kept: lent one by one, here and below: `ask` changes the numbers, `apply` the book and `Turn` the two sheets, each without the others.
#[inline(always)]
pub fn answer_line(
    book: &mut [u64],
    place: Place,
    way: Way,
    line: &[u8],
    numbers: &mut [i64],
    journal: &mut Out,
    out: &mut Out,
) -> Place
    requires { WellFormed book.old }
    ensures { LineTaken way (length numbers.old) book.old place line.now journal.old out.old book.new result journal.new out.new }
{
    let request = ask(way, place, line, numbers);
    let answer = apply_at(
        way,
        place,
        book,
        request,
        numbers,
        place.line.wrapping_add(1),
    );
    let turn = Turn {
        text: text_of(line, place.line),
        request,
        numbers,
        answer,
        book,
    };
    turn.put(way, place, journal, out)
}

// Answers the complete lines of a slice, as long as one more is taken: the bytes for the journal and those of the answers, in place of those that
// were written before.
pub fn answer_lines(
    book: &mut [u64],
    mut place: Place,
    way: Way,
    input: &[u8],
    numbers: &mut [i64],
    journal: &mut Out,
    out: &mut Out,
) -> Progress
    requires { WellFormed book.old }
    ensures well_formed { WellFormed book.new × (result.used ≤ length input.now) × (space journal.new ≡ space journal.old)
        × (space out.new ≡ space out.old) }
    ensures same_references { SameBytes journal.old journal.new × SameBytes out.old out.new }
    ensures answers { Answers way (length numbers.old) (state_of book.old place) input.now result.used
        (state_of book.new result.place) journal.new out.new }
{
    journal.clear();
    out.clear();
    let mut used = 0;
    while let Some(n) = next_line(way, place, &input[used..], journal, out) {
        let line = &input[used..used + n];
        place = answer_line(book, place, way, line, numbers, journal, out);
        used += n + 1;
    }
    Progress { place, used }
}
