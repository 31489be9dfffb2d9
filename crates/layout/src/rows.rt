// The rows of a file: its positions, its open calls and its month totals, each so many words long, one after the other.
ghost use Rattle.std.specs.Prelude.{◌≡◌, refl, ℕ, ◌+◌, ◌*◌, ◌≤◌, ◌<◌, List, length};
ghost use Rattle.std.proofs.Common.{arith};
ghost use Rattle.laws.specs.Lists.{table};
ghost use Rattle.file.specs.declared.Slot.{Slot};
ghost use Rattle.file.specs.declared.OpenCall.{OpenCall};
ghost use Rattle.file.specs.declared.MonthTotal.{MonthTotal};
ghost use Rattle.layout.specs.Parts.{slot_words, open_call_words, total_words, written, SlotBack, CallBack, TotalBack};
ghost use Rattle.layout.specs.Files.{slot_in, call_in, month_total_in, slots_of_words, calls_of_words, totals_of_words, words_at, PutRows};
ghost use Rattle.layout.specs.RowLaws.{slots-table, calls-table, totals-table};

use crate::parts::{flag, flag_word, number, position, position_words, put_words, signed, zigzag};
use calendar::{Day, Month};
use file::{MonthTotal, OpenCall, Slot};
use std::array;

// A row of a file.
pub trait Row: Copy {
    // How many words it has, the first word of a file's rows behind the file's place, and how many rows a file has.
    ghost WORDS: { ℕ };

    ghost PLACE: { ℕ };

    ghost COUNT: { ℕ };

    const WORDS: usize;

    const PLACE: usize;

    // The row whose words begin at a place, a file's rows, a row's words, and that these lead back to it.
    ghost row_in: { List ℕ → ℕ → Self };

    ghost rows_of_words: { (ℕ → ℕ) → List Self };

    ghost row_words: { Self → List ℕ };

    ghost Back: { Self → Type 0 };

    // The row whose words begin at a place.
    fn read(words: &[u64], at: usize) -> Self
        requires { at + WORDS ≤ length words.now }
        ensures { result ≡ row_in words.now at };

    // The row's words, from a place on.
    fn put(self, words: &mut [u64], at: usize)
        requires { at + WORDS ≤ length words.old }
        ensures { (words.new ≡ written words.old at (row_words self)) × Back self };

    // A row has that many words, and a file's rows stand one after the other, each within them.
    ghost long: { (x : Self) → length (row_words x) ≡ WORDS };

    ghost in_turn: { (l : List ℕ) (at : ℕ) → rows_of_words (words_at l at) ≡ table COUNT (λ k. row_in l (at + (PLACE + WORDS * k))) };

    ghost inside: { (k : ℕ) → k < COUNT → WORDS * k + WORDS ≤ WORDS * COUNT };
}

impl Row for Slot {
    ghost WORDS = { 4 };

    ghost PLACE = { 10 };

    ghost COUNT = { 8 };

    const WORDS: usize = 4;

    const PLACE: usize = 10;

    ghost row_in = { slot_in };

    ghost rows_of_words = { slots_of_words };

    ghost row_words = { slot_words };

    ghost Back = { SlotBack };

    ghost long = { λ x. refl };

    ghost in_turn = { slots-table };

    ghost inside = { λ k h. Prim.omega arith };

    #[tactic(auto, unfolding(crate::specs::Parts::slot_of_words))]
    fn read(words: &[u64], at: usize) -> Slot {
        Slot {
            position: position(words[at], words[at + 1], words[at + 2], words[at + 3]),
        }
    }

    fn put(self, words: &mut [u64], at: usize) {
        put_words(words, at, &position_words(self.position));
    }
}

impl Row for OpenCall {
    ghost WORDS = { 2 };

    ghost PLACE = { 42 };

    ghost COUNT = { 4 };

    const WORDS: usize = 2;

    const PLACE: usize = 42;

    ghost row_in = { call_in };

    ghost rows_of_words = { calls_of_words };

    ghost row_words = { open_call_words };

    ghost Back = { CallBack };

    ghost long = { λ x. refl };

    ghost in_turn = { calls-table };

    ghost inside = { λ k h. Prim.omega arith };

    #[tactic(auto, unfolding(crate::specs::Parts::open_call_of_words))]
    fn read(words: &[u64], at: usize) -> OpenCall {
        OpenCall {
            amount: words[at],
            last: Day(number(words[at + 1])),
        }
    }

    fn put(self, words: &mut [u64], at: usize) {
        put_words(words, at, &[self.amount, self.last.0 as u64]);
    }
}

impl Row for MonthTotal {
    ghost WORDS = { 3 };

    ghost PLACE = { 50 };

    ghost COUNT = { 16 };

    const WORDS: usize = 3;

    const PLACE: usize = 50;

    ghost row_in = { month_total_in };

    ghost rows_of_words = { totals_of_words };

    ghost row_words = { total_words };

    ghost Back = { TotalBack };

    ghost long = { λ x. refl };

    ghost in_turn = { totals-table };

    ghost inside = { λ k h. Prim.omega arith };

    #[tactic(auto, unfolding(crate::specs::Parts::total_of_words))]
    fn read(words: &[u64], at: usize) -> MonthTotal {
        MonthTotal {
            recorded: flag(words[at]),
            month: Month(number(words[at + 1])),
            total: signed(words[at + 2]),
        }
    }

    fn put(self, words: &mut [u64], at: usize) {
        put_words(
            words,
            at,
            &[
                flag_word(self.recorded),
                self.month.0 as u64,
                zigzag(self.total),
            ],
        );
    }
}

// The row k of the file behind a place.
pub fn read_row<R: Row>(words: &[u64], at: usize, k: usize) -> R
    requires { (at + (R.PLACE + R.WORDS * R.COUNT) ≤ length words.now) × (k < R.COUNT) }
    ensures { result ≡ R.row_in words.now (at + (R.PLACE + R.WORDS * k)) }
{
    R::read(words, at + (R::PLACE + R::WORDS * k))
}

// Writes the row k of the file behind a place.
pub fn put_row<R: Row>(words: &mut [u64], at: usize, k: usize, row: R)
    requires { (at + (R.PLACE + R.WORDS * R.COUNT) ≤ length words.old) × (k < R.COUNT) }
    ensures { (words.new ≡ written words.old (at + (R.PLACE + R.WORDS * k)) (R.row_words row)) × R.Back row }
{
    row.put(words, at + (R::PLACE + R::WORDS * k))
}

// The rows of the file behind a place.
pub fn read_rows<R: Row, const N: usize>(words: &[u64], at: usize) -> [R; N]
    requires { (at + (R.PLACE + R.WORDS * R.COUNT) ≤ length words.now) × (N ≡ R.COUNT) }
    ensures { result ≡ R.rows_of_words (words_at words.now at) }
{
    array::from_fn(
        |k|
            requires { (at + (R.PLACE + R.WORDS * R.COUNT) ≤ length words.now) × (k < R.COUNT) }
        { read_row(words, at, k) },
    )
}

// Writes a file's rows one after the other, from a place on.
pub fn put_rows<R: Row>(words: &mut [u64], at: usize, rows: &[R])
    requires { (at + R.WORDS * R.COUNT ≤ length words.old) × (length rows.now ≡ R.COUNT) }
    ensures { PutRows R.row_words R.Back R.COUNT rows.now words.old at words.new }
{
    for (k, row) in rows.iter().enumerate() {
        row.put(words, at + R::WORDS * k);
    }
}
