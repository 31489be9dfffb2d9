// A file in 97 words behind a place: 9 of its own, 8 slots of 4, 4 open calls of 2, 16 month totals of 3.
ghost use Rattle.std.specs.Prelude.{◌≡◌, ◌+◌, ◌≤◌, [], ◌∷◌, length};
ghost use Rattle.laws.specs.Lists.{All};
ghost use Rattle.file.specs.declared.Slot.{Slot};
ghost use Rattle.file.specs.Position.{cover_through};
ghost use Rattle.file.specs.Sound.{SoundPosition};
ghost use Rattle.layout.specs.Parts.{written};
ghost use Rattle.layout.specs.Files.{slots_of_words, file_of_words, words_at, own_words, Put};

use crate::parts::{flag, flag_word, is_admitted, is_leaving, put_words, status_word};
use crate::rows::{Row, put_rows, read_row, read_rows};
use calendar::Day;
use file::{Charges, File, MonthTotal, NextAmount, OpenCall, Slot};

// The file behind a place. Inlined, since a caller that asks for few of its fields reads only their words.
// Kept: words and a place, here, in `rows` and in `parts`: `FileWords` holds them, and a writer's words are no book between writes.
#[tactic(auto, unfolding(crate::specs::Files::file_of_words))]
#[inline]
pub fn file_at(words: &[u64], at: usize) -> File
    requires { at + 98 ≤ length words.now }
    ensures { result ≡ file_of_words (words_at words.now at) }
{
    File {
        admitted: is_admitted(words[at + 1]),
        leaving: is_leaving(words[at + 1]),
        role: words[at + 2],
        firm: words[at + 3],
        slots: read_rows(words, at),
        calls: read_rows(words, at),
        count: words[at + 4] as usize,
        next: NextAmount {
            set: flag(words[at + 5]),
            amount: words[at + 6],
        },
        totals: read_rows(words, at),
        charged: words[at + 7],
        accrued: words[at + 8],
        made: words[at + 9],
    }
}

// Writes the words of the file's own behind a place.
fn put_own(words: &mut [u64], at: usize, file: File)
    requires { at + 10 ≤ length words.old }
    ensures { words.new ≡ written words.old (at + 1) (own_words file) }
{
    put_words(
        words,
        at + 1,
        &[
            status_word(file.admitted, file.leaving),
            file.role,
            file.firm,
            file.count as u64,
            flag_word(file.next.set),
            file.next.amount,
            file.charged,
            file.accrued,
            file.made,
        ],
    );
}

// Writes the file behind a place.
pub fn put_file(words: &mut [u64], at: usize, file: File)
    requires { at + 98 ≤ length words.old }
    ensures { Put words.old at file words.new }
{
    put_own(words, at, file);
    put_rows(words, at + Slot::PLACE, &file.slots);
    put_rows(words, at + OpenCall::PLACE, &file.calls);
    put_rows(words, at + MonthTotal::PLACE, &file.totals);
}

// Writes a next amount, set, of the file behind a place.
pub fn put_next(words: &mut [u64], at: usize, amount: u64)
    requires { at + 98 ≤ length words.old }
    ensures { words.new ≡ written words.old (at + 5) (1 ∷ amount ∷ []) }
{
    put_words(words, at + 5, &[1, amount]);
}

// Writes the charges of the file behind a place.
pub fn put_charges(words: &mut [u64], at: usize, charges: Charges)
    requires { at + 98 ≤ length words.old }
    ensures { words.new ≡ written words.old (at + 7) (charges.charged ∷ charges.accrued ∷ []) }
{
    put_words(words, at + 7, &[charges.charged, charges.accrued]);
}

// What the positions of the file behind a place give from one day through another that isn't before it.
pub fn cover_at(words: &[u64], at: usize, from: Day, through: Day) -> u64
    requires { (at + 98 ≤ length words.now) × All (λ (s : Slot). SoundPosition s.position) (slots_of_words (words_at words.now at)) }
    ensures { result ≡ cover_through from.0 through.0 (slots_of_words (words_at words.now at)) }
{
    // Kept: as `file::cover::cover`, but by the words: with the positions read first and summed there a statement took 1.8 times as long.
    let mut sum = 0;
    for k in 0..8 {
        let slot = read_row::<Slot>(words, at, k);
        sum += slot.position.counts(from, through);
    }
    sum
}
