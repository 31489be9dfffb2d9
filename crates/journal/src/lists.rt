// The lists of a line: a settlement's figures, and the seven lists of a special guarantee.
// Kept: words and numbers apart, here and below: most calls read no list, and a struct of both would lend them a slice that they never write.
ghost use Rattle.std.specs.Prelude.{◌≡◌, IfOk, length};
ghost use Rattle.words.specs.Words.{left, words as Words·words};
ghost use Rattle.journal.specs.Names.{read_number};
ghost use Rattle.journal.specs.Fields.{more, next_numbers, in_list, list_of};
ghost use Rattle.journal.specs.Grammar.{settle_of, special_of};
ghost use Rattle.journal.specs.Steps.{IsNumber, IsFilled, ParsedIs, said};

use crate::calls::month_numbered;
use crate::fields::{Kind, closed, take, take_word};
use crate::plain::Call;
use crate::{Lengths, Reason, Request};
use words::{Words, figure_of, signed_of, unsigned_of};

// What a number of a list is: a mark of `special`, another number there, or a figure of `settle`.
#[derive(Clone, Copy)]
pub enum Listed {
    Mark,
    Number,
    Figure,
}

// What the numbers of a list of `special` are.
fn in_list(marks: bool) -> Listed
    ensures { result ≡ in_list marks }
{
    if marks { Listed::Mark } else { Listed::Number }
}

// A word as a number of a list: a mark is a natural number, any other may have a minus, and a figure may be in euros.
#[tactic(auto, unfolding(crate::specs::Names::read_number))]
fn read_number(due: Listed, w: &[u8]) -> Option<i64>
    ensures { result ≡ read_number due w.now }
{
    match due {
        Listed::Mark => unsigned_of(w),
        Listed::Number => signed_of(w),
        Listed::Figure => figure_of(w),
    }
}

// The next word as a number of a list.
fn take_number(words: &mut Words, due: Listed) -> Result<i64, Reason>
    ensures { IsNumber due (more (left words.old)) result words.new }
{
    let word = take_word(words)?;
    read_number(due, word).ok_or(Reason::NotNumber)
}

// Writes the next numbers, so many of them, to the front of the slice; those before a fault, if there is one.
// Kept: by index, since a number without room is `TooLong`, and a `zip` with the slice would end before it.
// Kept: a test of the index: `get_mut(i).ok_or(..)?` was tried, and left `loop-i-preserved` and the return of that fault open.
fn fill(words: &mut Words, count: usize, due: Listed, numbers: &mut [i64]) -> Result<(), Reason>
    ensures filled { IsFilled (next_numbers due (length numbers.old) count (more (left words.old))) numbers.old result words.new numbers.new }
    ensures whole { IfOk result (λ _. length (next_numbers due (length numbers.old) count (more (left words.old))).numbers ≡ count) }
{
    for i in 0..count {
        let number = take_number(words, due)?;
        if numbers.len() <= i {
            return Err(Reason::TooLong);
        }
        numbers[i] = number;
    }
    Ok(())
}

// Writes a list, which is its length and then its numbers, to the front of the slice; the length.
// Kept: a flag for the marks, since `special` tells them by the list's place.
fn list(words: &mut Words, marks: bool, numbers: &mut [i64]) -> Result<usize, Reason>
    ensures filled { IsFilled (list_of marks (length numbers.old) (more (left words.old))) numbers.old result words.new numbers.new }
    ensures whole { IfOk result (λ n. length (list_of marks (length numbers.old) (more (left words.old))).numbers ≡ n) }
{
    let count = take(words, Kind::Natural)? as usize;
    fill(words, count, in_list(marks), numbers)?;
    Ok(count)
}

// How many words a text has.
// Kept: a function of its own: with the count in `settle` two clauses did not close, since `search` looks into no run of an iterator there.
fn count_words(text: &[u8]) -> usize
    ensures { result ≡ length (Words·words text.now) }
{
    Words { text }.count()
}

// settle P MONTH FIGURE..
pub fn settle(words: &mut Words, numbers: &mut [i64]) -> Result<Call, Reason>
    ensures { ParsedIs (settle_of (length numbers.old) (more (left words.old))) numbers.old (said result) numbers.new }
{
    let participant = take(words, Kind::Natural)?;
    let month = take(words, Kind::Month)?;
    let count = count_words(words.text);
    fill(words, count, Listed::Figure, numbers)?;
    closed(
        words,
        Request::Settle(participant, month_numbered(month), count),
    )
}

// special LIST LIST LIST LIST LIST LIST LIST, of which the third has the marks
// Kept: by index, since the place says which list has the marks, and `iter_mut().enumerate()` would add no more than a dereference.
pub fn special(words: &mut Words, numbers: &mut [i64]) -> Result<Call, Reason>
    ensures { ParsedIs (special_of (length numbers.old) (more (left words.old))) numbers.old (said result) numbers.new }
{
    let mut lengths = [0usize; 7];
    let mut end = 0;
    for i in 0..7 {
        let length = list(words, i == 2, &mut numbers[end..])?;
        lengths[i] = length;
        end += length;
    }
    closed(words, Request::Special(Lengths::from(lengths)))
}
