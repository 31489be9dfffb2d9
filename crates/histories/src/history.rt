// A history: the day that it starts on, how many calls are made under the old admission rule, and the calls, as the words, figures and files that the
// book replays.
ghost use Rattle.std.specs.Prelude.{◌≡◌, ◌+◌, ◌≤◌, min, length};
ghost use Rattle.arrayvec.specs.ArrayVec.{array_vec_len};

use crate::text::{Number, Numbers};
use arrayvec::ArrayVec;
use calendar::Day;
use std::iter;

// The most calls of a history that are made.
const MOST_CALLS: u64 = 400;

// The calls that have a list: a settlement its figures, a batch the bytes of its file.
// Kept: numbers for kinds, here and in read_call: replay is lent the calls as words, six for each, of which the first is the kind.
const SETTLE: u64 = 4;

const BATCH: u64 = 8;

// A history. Each call has six words; a settlement's figures are a part of `figures`, and a batch's file is a part of `files`. There is room for
// 400 calls, and for the figures and bytes that are kept.
// Kept: lists with places in them, since replay is lent the calls as words, of which none can lend a slice.
#[derive(Drop)]
pub struct History {
    pub start: u64,
    pub first: usize,
    pub words: ArrayVec<u64, 2400>,
    pub figures: ArrayVec<i64, 4096>,
    pub files: ArrayVec<u8, 8192>,
}

// How many words of a call stand behind its kind in the text, a list and its length left out; a kind above has none.
const WORDS_BEHIND: [usize; 10] = [2, 3, 5, 3, 2, 1, 2, 1, 0, 1];

// How many of a history's calls are made.
fn played(count: u64) -> usize
    ensures { result ≤ 400 }
{
    count.min(MOST_CALLS) as usize
}

impl History {
    // Reads a history: its text begins with the start day, the length of its first stretch, and the number of its calls.
    pub fn read(text: &[u8]) -> History {
        let mut numbers = Numbers::of(text);
        let mut history = History {
            start: numbers.natural(),
            first: numbers.natural() as usize,
            words: ArrayVec::new(),
            figures: ArrayVec::new(),
            files: ArrayVec::new(),
        };
        for _ in 0..played(numbers.natural()) {
            let words = history.read_call(&mut numbers);
            put(&mut history.words, &words);
        }
        history
    }

    // The day that it starts on; one too large for a day's type counts as the type's largest.
    pub fn start_day(&self) -> Day
        ensures { result.0 ≡ min self.now.start 4294967295 }
    {
        Day(replay::clipped(self.start))
    }

    // Reads one call: its six words, which are returned, and its list, of which two of the words say where it stands and how long it is.
    fn read_call(&mut self, numbers: &mut Numbers) -> [u64; 6]
        ensures { self.new.words ≡ self.old.words }
    {
        let kind = numbers.natural();
        let mut words = [kind, 0, 0, 0, 0, 0];
        let behind = WORDS_BEHIND.get(kind as usize).copied().unwrap_or(0);
        for word in words.iter_mut().skip(1).take(behind) {
            *word = numbers.natural();
        }
        if kind == SETTLE {
            words[3] = self.figures.len() as u64;
            words[4] = numbers.natural();
            read_list(&mut self.figures, numbers, words[4], |figure| {
                figure.signed()
            });
        }
        if kind == BATCH {
            words[1] = self.files.len() as u64;
            words[2] = numbers.natural();
            read_list(&mut self.files, numbers, words[2], |byte| {
                (byte.size % 256) as u8
            });
        }
        words
    }
}

// Puts words behind those of a history.
fn put(kept: &mut ArrayVec<u64, 2400>, words: &[u64])
    requires { array_vec_len kept.old + length words.now ≤ 2400 }
    ensures { array_vec_len kept.new ≡ array_vec_len kept.old + length words.now }
{
    let _ = kept.try_extend_from_slice(words);
}

// Reads so many numbers of a call's list, zeros behind the text's end, each as what is kept of it, and keeps them behind those that are kept,
// while there is room.
fn read_list<K: Drop, F: Fn(Number) -> K, const MOST: usize>(
    kept: &mut ArrayVec<K, MOST>,
    numbers: &mut Numbers,
    count: u64,
    keep: F,
)
    requires { F.IsAlwaysCallable keep }
{
    let padded = numbers.by_ref().chain(iter::repeat(Number::ZERO));
    for number in padded.take(count as usize) {
        let _ = kept.try_push(keep(number));
    }
}
