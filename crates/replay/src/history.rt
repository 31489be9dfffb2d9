// A list of calls given as words, from a fresh book on: the claim about a whole list of calls.
ghost use Rattle.std.specs.Prelude.{◌≡◌, ◌++◌, ◌+◌, ◌≤◌, length, take, drop};
ghost use Rattle.file.specs.Answer.{outcome_says};
ghost use Rattle.layout.specs.Words.{book_length};
ghost use Rattle.replay.specs.Replayed.{ReplayedFrom};

use crate::apply::apply_under;
use crate::call::call_at;
use calendar::Day;
use file::Outcome;

// Writes seven numbers from a place on.
fn put(out: &mut [i64], at: usize, numbers: [i64; 7])
    requires { at + 7 ≤ length out.old }
    ensures { out.new ≡ take at out.old ++ numbers ++ drop (at + 7) out.old }
{
    out[at..at + 7].copy_from_slice(&numbers);
}

// Writes a fresh book on a day into lent words, makes the calls in turn on it, and writes the seven numbers of each answer; says what the fresh
// book answered, and leaves the book at the end. Six words are a call; a settlement's figures are a part of `figures`, and a batch's file is a
// part of `files`. The first `first` calls, or all if there are fewer, are made under the old admission rule (paper 02, Ask 3), the others under
// the new one.
// Kept: lists are parts of `figures` and `files` with a place and a length, since no word of a call can lend a slice.
#[tactic(auto, using(crate::proofs::Replaying::turns))]
pub fn replay(
    start: Day,
    first: usize,
    calls: &[u64],
    figures: &[i64],
    files: &[u8],
    out: &mut [i64],
    book: &mut [u64],
) -> Outcome
    requires { length book.old ≡ book_length }
    ensures { ReplayedFrom start.0 first calls.now figures.now files.now out.old
        out.new (outcome_says result) book.new }
{
    book::fresh(book, start)?;
    // Kept: by places, here, in `put` and in `call_at`: the library's `as_chunks_mut` says nothing of what `out` ends as, which is what is promised.
    let count = (calls.len() / 6).min(out.len() / 7);
    for i in 0..count {
        let call = call_at(calls, figures, files, i);
        put(out, 7 * i, apply_under(book, call, i < first));
    }
    Ok(())
}
