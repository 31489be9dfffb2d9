// The most that may be released at a position.
ghost use Rattle.std.specs.Prelude.{◌≡◌, ◌≤◌, IfOk};
ghost use Rattle.file.specs.Sound.{Sound};
ghost use Rattle.layout.specs.Words.{book_of_words};
ghost use Rattle.layout.specs.WellFormed.{WellFormed};
ghost use Rattle.inquiry.specs.Releasable.{releasable_at, releasable_in, Most};

use calendar::Day;
use file::cover::cover;
use file::release::release_floor;
use file::{File, Position};
use layout::files::file_at;
use refusal::Refusal;

// The most that a release at a position of a file would be accepted for: cash down to the floor, a letter whole or not at all.
#[tactic(auto, using(crate::proofs::Held::mosts))]
fn most_releasable(file: File, today: Day, position: u64) -> u64
    requires { Sound today.0 file × (position ≤ 7) }
    ensures { result ≡ releasable_at file today.0 position }
{
    let floor = release_floor(file.firm, &file.calls[..file.count], file.next.amount);
    let cover = cover(&file.slots, today);
    if cover < floor {
        return 0;
    }
    let spare = cover - floor;
    let held = file.slots[position as usize].position;
    match held {
        Position::Empty => 0,
        Position::Cash(amount) => amount.min(spare),
        Position::Letter(amount, _, _) if held.counts(today, today) <= spare => amount,
        Position::Letter(_, _, _) => 0,
    }
}

// The most that a release there would be accepted for now, 0 if none. It refuses a participant above 63, one that isn't admitted, and a position
// above 7.
#[tactic(auto, using(crate::proofs::Books::questions))]
pub fn releasable(words: &[u64], participant: u64, position: u64) -> Result<u64, Refusal>
    requires { WellFormed words.now }
    ensures answer { result ≡ releasable_in (book_of_words words.now) participant position }
    ensures most { IfOk result (Most (book_of_words words.now) participant position) }
{
    if 63 < participant {
        return Err(Refusal::NoSuchParticipant);
    }
    let file = file_at(words, 1 + 97 * participant as usize);
    if !file.admitted {
        return Err(Refusal::NotAdmitted);
    }
    if 7 < position {
        return Err(Refusal::NoSuchPosition);
    }
    Ok(most_releasable(file, book::today(words), position))
}
