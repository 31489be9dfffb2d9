// Lodgings and releases (paper 01, 'Lodge' and 'Release'): each reads the words that its causes ask for, and writes one position.
ghost use Rattle.std.specs.Prelude.{◌≡◌, ◌≤◌, ◌<◌, length, set, MatchResult};
ghost use Rattle.refusal.specs.declared.Refusal.TheVariants.{NoSuchPosition};
ghost use Rattle.refusal.specs.Numbers.{number_of};
ghost use Rattle.file.specs.Answer.{refused, done, outcome_says};
ghost use Rattle.file.specs.Lodge.{lodge_answer};
ghost use Rattle.file.specs.Position.{slot_of, position_at, less_released, cover_on};
ghost use Rattle.file.specs.Release.{release_answer};
ghost use Rattle.file.specs.Sound.{SoundPosition};
ghost use Rattle.layout.specs.Words.{book_length, file_in_words, today_in};
ghost use Rattle.layout.specs.WellFormed.{WellFormed};
ghost use Rattle.book.specs.Call.{lodge, release, on};
ghost use Rattle.book.specs.InWords.{GivenWords};
ghost use Rattle.book.specs.Positions.{PutsPosition};

use crate::view::{FileView, place};
use file::cover::cover;
use file::holding::outside_amounts;
use file::{Outcome, Position, Slot};
use layout::rows::{put_row, read_rows};
use refusal::Refusal;

impl FileView<'_> {
    ghost use Rattle.book.specs.Seen.{file_seen, today_seen};

    // What is held at a position: cause 5 refuses one above 7.
    fn held(self, position: u64) -> Result<Position, Refusal>
        ensures { MatchResult result (λ held. (position ≤ 7) × (held ≡ position_at (file_seen self.entry).slots position))
            (λ r. (r ≡ NoSuchPosition) × (7 < position)) }
    {
        if 7 < position {
            return Err(Refusal::NoSuchPosition);
        }
        Ok(self.position(position))
    }

    // What a lodging answers: done, or the first of the causes 5, 6, 8 and 9 that holds.
    #[tactic(auto, unfolding(file::specs::Lodge::lodge_answer, laws::specs::Causes::decide))]
    fn lodging(self, position: u64, holding: Position) -> Outcome
        ensures { outcome_says result
            ≡ lodge_answer (file_seen self.entry) (today_seen self.entry) position holding }
    {
        if self.held(position)?.is_filled() {
            return Err(Refusal::PositionFilled);
        }
        if outside_amounts(holding.amount()) {
            return Err(Refusal::AmountOutOfRange);
        }
        if holding.against_days(self.today()) {
            return Err(Refusal::LetterDays);
        }
        Ok(())
    }

    // The cover today that would be left with another holding at a position.
    #[tactic(auto, using(crate::proofs::Functions::OnPositions::covers), unfolding(layout::specs::Files::file_of_words))]
    fn cover_with(self, position: u64, left: Position) -> u64
        requires { (position ≤ 7) × SoundPosition left }
        ensures { result ≡ cover_on (today_seen self.entry)
            (set (file_seen self.entry).slots position (slot_of left)) }
    {
        let mut slots = read_rows::<Slot, 8>(self.words, self.place());
        slots[position as usize] = Slot { position: left };
        cover(&slots, self.today())
    }

    // What a release leaves at a position, or the first of the causes 5, 7, 8, 15 and 16 that holds.
    #[tactic(auto, using(crate::proofs::Functions::OnPositions::left_sound), unfolding(file::specs::Release::release_answer, file::specs::Release::slots_left, laws::specs::Causes::decide))]
    fn released(self, position: u64, amount: u64) -> Result<Position, Refusal>
        ensures { let f = file_seen self.entry in
            let t = today_seen self.entry in
            MatchResult result
            (λ left. (done ≡ release_answer f t position amount) × (left ≡ less_released amount (position_at f.slots position)))
            (λ r. refused (number_of r) ≡ release_answer f t position amount) }
    {
        let held = self.held(position)?;
        if !held.is_filled() {
            return Err(Refusal::PositionEmpty);
        }
        if outside_amounts(amount) {
            return Err(Refusal::AmountOutOfRange);
        }
        if held.not_releasable(amount) {
            return Err(Refusal::MoreThanHeld);
        }
        let left = held.less_released(amount);
        if self.cover_with(position, left) < self.floor() {
            return Err(Refusal::TooLittleCover);
        }
        Ok(left)
    }
}

// Writes what a position of a participant's file holds.
fn put_position(words: &mut [u64], participant: u64, position: u64, holding: Position)
    requires { (length words.old ≡ book_length) × (participant ≤ 63) × (position ≤ 7) }
    ensures { PutsPosition words.old participant position holding words.new }
{
    put_row(
        words,
        place(participant),
        position as usize,
        Slot { position: holding },
    );
}

// Lodges cash or a letter at a position of a participant's file.
#[tactic(auto, using(crate::proofs::Functions::OnPositions::lodgings))]
pub fn lodge(words: &mut [u64], participant: u64, position: u64, holding: Position) -> Outcome
    requires { WellFormed words.old }
    ensures { GivenWords words.old (on participant (lodge position holding)) (outcome_says result) words.new }
{
    FileView::admitted(words, participant)?.lodging(position, holding)?;
    put_position(words, participant, position, holding);
    Ok(())
}

// Releases an amount at a position of a participant's file.
#[tactic(auto, using(crate::proofs::Functions::OnPositions::releases))]
pub fn release(words: &mut [u64], participant: u64, position: u64, amount: u64) -> Outcome
    requires { WellFormed words.old }
    ensures { GivenWords words.old (on participant (release position amount)) (outcome_says result) words.new }
{
    let left = FileView::admitted(words, participant)?.released(position, amount)?;
    put_position(words, participant, position, left);
    Ok(())
}
