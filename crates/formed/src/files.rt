// Whether the words of a file are those of a file within its bounds.
ghost use Rattle.std.specs.Prelude.{◌≡◌, ◌+◌, ◌*◌, ◌≤◌, ◌<◌, length};
ghost use Rattle.layout.specs.Files.{words_at};
ghost use Rattle.formed.specs.Decides.{Decides, Below};
ghost use Rattle.formed.specs.Checks.{SlotAt, CallAt, TotalAt, SoundAmounts, SoundAt, Canonical, Blank, FormedFile};

use crate::parts::{BOUND, is_sound_call, is_sound_position};
use file::{OpenCall, Slot};
use layout::files::{file_at, put_file};
use layout::parts::is_admitted;
use layout::rows::{Row, read_row};

// The words of a file behind a place, and the day on which they are judged.
// Kept: beside `book::FileView`, whose words are a book's and sound: here neither is known yet.
#[derive(Clone, Copy)]
pub struct FileWords<'a> {
    words: &'a [u64],
    at: usize,
    today: u64,
    ghost room: { at + 98 ≤ length words.now },
    ghost day: { today ≤ 29219 },
}

impl<'a> FileWords<'a> {
    // The words behind a place, on a day.
    pub fn new(words: &'a [u64], at: usize, today: u64) -> FileWords<'a>
        requires { (at + 98 ≤ length words.now) × (today ≤ 29219) }
        ensures { (result.words.now ≡ words.now) × (result.at ≡ at) × (result.today ≡ today) }
    {
        FileWords { words, at, today }
    }

    // The file's word k.
    fn word(self, k: usize) -> u64
        requires { k ≤ 97 }
        ensures { result ≡ words_at self.entry.words.now self.entry.at k }
    {
        self.words[self.at + k]
    }

    // The file's row k.
    fn row<R: Row>(self, k: usize) -> R
        requires { (R.PLACE + R.WORDS * R.COUNT ≤ 98) × (k < R.COUNT) }
        ensures { result ≡ R.row_in self.entry.words.now (self.entry.at + (R.PLACE + R.WORDS * k)) }
    {
        read_row(self.words, self.at, k)
    }

    // Whether the eight slots are sound.
    fn has_sound_slots(self) -> bool
        ensures { Decides result (Below 8 (SlotAt self.entry.words.now self.entry.at)) }
    {
        (0..8).all(
            |k|
                requires { k < 8 }
            { is_sound_position(self.row::<Slot>(k).position) },
        )
    }

    // Whether the four places of the calls are sound.
    fn has_sound_calls(self) -> bool
        ensures { Decides result (Below 4 (CallAt self.entry.words.now self.entry.at)) }
    {
        (0..4).all(
            |k|
                requires { k < 4 }
            { is_sound_call(self.row::<OpenCall>(k), (k as u64) < self.word(4)) },
        )
    }

    // Whether the sixteen month totals are within plus or minus 16 * 10^12 cents: such a number's word is at most twice that.
    fn has_sound_totals(self) -> bool
        ensures { Decides result (Below 16 (TotalAt self.entry.words.now self.entry.at)) }
    {
        (0..16).all(
            |k|
                requires { k < 16 }
            { self.word(52 + 3 * k) <= 32000000000000 },
        )
    }

    // Whether the words of the file's own are within their bounds today.
    fn has_sound_amounts(self) -> bool
        ensures { Decides result (SoundAmounts self.entry.today (words_at self.entry.words.now self.entry.at 4)
            (words_at self.entry.words.now self.entry.at 3) (words_at self.entry.words.now self.entry.at 6)
            (words_at self.entry.words.now self.entry.at 7) (words_at self.entry.words.now self.entry.at 8)
            (words_at self.entry.words.now self.entry.at 9)) }
    {
        self.word(4) <= 4
            && self.word(3) <= BOUND
            && self.word(6) <= BOUND
            && self.word(7) <= self.today
            && self.word(8) <= self.word(7) * BOUND
            && self.word(4) <= self.word(9)
            && self.word(9) <= 4 * self.today + self.word(4)
    }

    // Whether the file is within its bounds today.
    fn is_sound(self) -> bool
        ensures { Decides result (SoundAt self.entry.today self.entry.words.now self.entry.at) }
    {
        self.has_sound_slots()
            && self.has_sound_calls()
            && self.has_sound_totals()
            && self.has_sound_amounts()
    }

    // Whether the words are those that the file read there is written in.
    fn is_canonical(self) -> bool
        ensures { Decides result (Canonical self.entry.words.now self.entry.at) }
    {
        let mut again = [0; 98];
        put_file(&mut again, 0, file_at(self.words, self.at));
        self.words[self.at + 1..self.at + 98] == again[1..]
    }

    // Whether the words are zeros.
    fn is_blank(self) -> bool
        ensures { Decides result (Blank self.entry.words.now self.entry.at) }
    {
        self.words[self.at + 1..self.at + 98] == [0; 97]
    }

    // Whether the words are a file that is well formed today.
    pub fn is_formed(self) -> bool
        ensures { Decides result (FormedFile self.entry.today self.entry.words.now self.entry.at) }
    {
        self.is_canonical()
            && if is_admitted(self.word(1)) {
                self.is_sound()
            } else {
                self.is_blank()
            }
    }
}
