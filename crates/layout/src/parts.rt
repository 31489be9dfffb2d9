// The parts of a file as words, and back.
// Kept: functions in place of `From`, here and below: words, flags and positions are other crates' types, for which none may stand here.
ghost use Rattle.std.specs.Prelude.{◌≡◌, ◌+◌, ◌≤◌, length};
ghost use Rattle.file.specs.Position.{slot_of};
ghost use Rattle.layout.specs.Parts.{flag_of, number_of, signed_of_word, zigzag_of, flag_word, position_of};
ghost use Rattle.layout.specs.Parts.{admitted_of, leaving_of, status_word, slot_words, written, SlotBack};

use calendar::Day;
use file::Position;

// A word as a flag.
pub fn flag(word: u64) -> bool
    ensures { result ≡ flag_of word }
{
    word != 0
}

// A flag as a word.
pub fn flag_word(flag: bool) -> u64
    ensures { result ≡ flag_word flag }
{
    u64::from(flag)
}

// Whether the status of a participant, in one word, says that it is admitted: the word is odd.
#[tactic(auto, unfolding(crate::specs::Parts::admitted_of))]
pub fn is_admitted(status: u64) -> bool
    ensures { result ≡ admitted_of status }
{
    flag(status % 2)
}

// .. and whether it is under deletion: the word has 2 more (paper 02, Ask 4).
#[tactic(auto, unfolding(crate::specs::Parts::leaving_of))]
pub fn is_leaving(status: u64) -> bool
    ensures { result ≡ leaving_of status }
{
    flag(status / 2)
}

// A status as a word.
pub fn status_word(admitted: bool, leaving: bool) -> u64
    ensures { result ≡ status_word admitted leaving }
{
    flag_word(admitted) + 2 * flag_word(leaving)
}

// A word as a number of 32 bits.
pub fn number(word: u64) -> u32
    ensures { result ≡ number_of word }
{
    (word % 4294967296) as u32
}

// A word as a signed number: even for those from 0 on, odd for those below.
pub fn signed(word: u64) -> i64
    ensures { result ≡ signed_of_word word }
{
    let half = (word / 2) as i64;
    if word % 2 == 0 { half } else { -1 - half }
}

// A signed number as a word.
pub fn zigzag(x: i64) -> u64
    ensures { result ≡ zigzag_of x }
{
    if x < 0 {
        (-1 - x) as u64 * 2 + 1
    } else {
        x as u64 * 2
    }
}

// A position, from its kind, its amount and its days.
pub fn position(kind: u64, amount: u64, first: u64, last: u64) -> Position
    ensures { result ≡ position_of kind amount first last }
{
    // Kept: numbers for kinds, since the C interface lends a book as words.
    match kind {
        0 => Position::Empty,
        1 => Position::Cash(amount),
        _ => Position::Letter(amount, Day(number(first)), Day(number(last))),
    }
}

// A position's words: its kind, its amount and its days.
#[tactic(auto, unfolding(crate::specs::Parts::slot_of_words))]
pub(crate) fn position_words(position: Position) -> [u64; 4]
    ensures { (result ≡ slot_words (slot_of position)) × SlotBack (slot_of position) }
{
    match position {
        Position::Empty => [0, 0, 0, 0],
        Position::Cash(amount) => [1, amount, 0, 0],
        Position::Letter(amount, first, last) => [2, amount, first.0 as u64, last.0 as u64],
    }
}

// Other words from a place on.
pub(crate) fn put_words(words: &mut [u64], at: usize, new: &[u64])
    requires { at + length new.now ≤ length words.old }
    ensures { words.new ≡ written words.old at new.now }
{
    words[at..at + new.len()].copy_from_slice(new);
}
