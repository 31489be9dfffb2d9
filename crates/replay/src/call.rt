// A call, as six words say it.
ghost use Rattle.std.specs.Prelude.{◌≡◌, ◌+◌, ◌*◌, ◌≤◌, min, length, take, drop};
ghost use Rattle.replay.specs.Encoding.{number, letter_of_numbers, call_at};
ghost use Rattle.replay.specs.Said.{said};

use calendar::{Day, Month};
use file::Position;

// A call of papers 01 and 02, with its arguments.
#[derive(Clone, Copy)]
pub enum Call<'a> {
    Admit(u64, u64),
    Lodge(u64, u64, Position),
    Release(u64, u64, u64),
    Settle(u64, Month, &'a [i64]),
    AnnualRun(u64),
    Advance(Day, u64),
    Statement(u64),
    Load(&'a [u8]),
    Delete(u64),
    CallsMade,
}

// A word as a day or month number; one too large for the number's type counts as the type's largest.
// Kept: as words' `small`, in a crate of texts that this one does not use.
pub fn clipped(word: u64) -> u32
    ensures { result ≡ number word }
{
    u32::try_from(word).unwrap_or(u32::MAX)
}

// The items from a place on, `count` of them or as many as there are.
fn part<T>(items: &[T], from: u64, count: u64) -> &[T]
    ensures { result.now ≡ take count (drop from items.now) }
{
    let start = from.min(items.len() as u64) as usize;
    let end = start + count.min((items.len() - start) as u64) as usize;
    &items[start..end]
}

// A letter, from its amount, its first and its last day.
fn letter(amount: u64, first: u64, last: u64) -> Position
    ensures { result ≡ letter_of_numbers amount first last }
{
    Position::Letter(amount, Day(clipped(first)), Day(clipped(last)))
}

// The call at a place of a list of calls: its kind, and its arguments.
#[tactic(auto, unfolding(crate::specs::Encoding::call_at, crate::specs::Encoding::call_of_six))]
pub fn call_at<'a>(calls: &[u64], figures: &'a [i64], files: &'a [u8], place: usize) -> Call<'a>
    requires { 6 * place + 6 ≤ length calls.now }
    ensures { said result ≡ call_at calls.now figures.entry.now files.entry.now place }
{
    let at = 6 * place;
    let (a, b, c) = (calls[at + 1], calls[at + 2], calls[at + 3]);
    let (d, e) = (calls[at + 4], calls[at + 5]);
    // Kept: numbers for kinds, as calls are words of any content: one above 9 is a question too, and a type of calls would ask more of callers.
    match calls[at] {
        0 => Call::Admit(a, b),
        1 => Call::Lodge(a, b, Position::Cash(c)),
        2 => Call::Lodge(a, b, letter(c, d, e)),
        3 => Call::Release(a, b, c),
        4 => Call::Settle(a, Month(clipped(b)), part(figures, c, d)),
        5 => Call::AnnualRun(a),
        6 => Call::Advance(Day(clipped(a)), b),
        7 => Call::Statement(a),
        8 => Call::Load(part(files, a, b)),
        9 => Call::Delete(a),
        _ => Call::CallsMade,
    }
}
