// A participant's file in the words of a book, lent to be read (paper 01, 'One participant's file').
ghost use Rattle.std.specs.Prelude.{◌≡◌, ◌+◌, ◌≤◌, ◌<◌, length, get_or, true, MatchResult};
ghost use Rattle.refusal.specs.declared.Refusal.TheVariants.{NoSuchParticipant};
ghost use Rattle.file.specs.Calls.{amounts_of, call_of};
ghost use Rattle.file.specs.Fields.{open_calls};
ghost use Rattle.file.specs.Position.{cover_through, position_at};
ghost use Rattle.file.specs.Release.{release_floor};
ghost use Rattle.file.specs.Sound.{Sound};
ghost use Rattle.layout.specs.Words.{book_length, place, file_in_words, today_in};
ghost use Rattle.layout.specs.WellFormed.{WellFormed};
ghost use Rattle.book.specs.View.{RefusesAll};
ghost use Rattle.book.specs.OneProof.{slots-one, calls-one, totals-one};
ghost use Rattle.std.proofs.Props.{props};

use calendar::Day;
use file::release::release_floor;
use file::{File, OpenCall, Position, Slot};
use layout::files::{cover_at, file_at};
use layout::parts::{flag, is_admitted, number};
use layout::rows::{read_row, read_rows};
use refusal::Refusal;

// A participant's file in the words of a book: within its bounds today.
#[derive(Clone, Copy)]
pub struct FileView<'a> {
    pub words: &'a [u64],
    pub participant: u64,
    pub ghost long: { length words.now ≡ book_length },
    pub ghost low: { participant ≤ 63 },
    pub ghost sound: { Sound (today_in words.now) (file_in_words words.now participant) } by { Prim.hlevel (props, slots-one, calls-one, totals-one) },
}

// The place behind which a participant's words stand.
pub fn place(participant: u64) -> usize
    requires { participant ≤ 63 }
    ensures { result ≡ place participant }
{
    1 + 97 * participant as usize
}

// Today, by the words of a book.
pub fn today_of(words: &[u64]) -> Day
    requires { length words.now ≡ book_length }
    ensures { result.0 ≡ today_in words.now }
{
    Day(number(words[1]))
}

impl<'a> FileView<'a> {
    ghost use Rattle.book.specs.Seen.{file_seen, today_seen};

    // The file of a participant: cause 1 refuses one above 63.
    #[tactic(auto, using(crate::proofs::Functions::Viewing::views))]
    pub fn of(words: &'a [u64], participant: u64) -> Result<FileView<'a>, Refusal>
        requires { WellFormed words.now }
        ensures { MatchResult result (λ v. (v.words.now ≡ words.now) × (v.participant ≡ participant) × (participant ≤ 63))
            (λ r. (r ≡ NoSuchParticipant) × (63 < participant)) }
    {
        if 63 < participant {
            return Err(Refusal::NoSuchParticipant);
        }
        Ok(FileView { words, participant })
    }

    // The file of an admitted participant: what refuses a call on any other, causes 1 and 2, comes before the call's own.
    #[tactic(auto, using(crate::proofs::Functions::Viewing::refuses), unfolding(crate::specs::Account::if_numbered, crate::specs::Account::if_admitted, laws::specs::Causes::decide))]
    pub fn admitted(words: &'a [u64], participant: u64) -> Result<FileView<'a>, Refusal>
        requires { WellFormed words.now }
        ensures { MatchResult result
            (λ v. (v.words.now ≡ words.now) × (v.participant ≡ participant) × (participant ≤ 63)
            × ((file_in_words words.now participant).admitted ≡ true))
            (λ r. RefusesAll words.now participant r) }
    {
        let file = FileView::of(words, participant)?;
        if !file.is_admitted() {
            return Err(Refusal::NotAdmitted);
        }
        Ok(file)
    }

    // The place behind which its words stand.
    pub fn place(self) -> usize
        ensures { (result ≡ place self.entry.participant) × (result + 98 ≤ length self.entry.words.now) }
    {
        place(self.participant)
    }

    // One of its 97 words.
    fn word(self, k: usize) -> u64
        requires { k ≤ 97 }
        ensures { result ≡ get_or self.entry.words.now (place self.entry.participant + k) 0 }
    {
        self.words[self.place() + k]
    }

    // Today.
    pub fn today(self) -> Day
        ensures { result.0 ≡ today_seen self.entry }
    {
        today_of(self.words)
    }

    // Whether the participant is admitted.
    // Kept: a method for each word, here and below (no plainer): `word` is the one for all, and a method names the field that it is.
    #[tactic(auto, unfolding(layout::specs::Files::file_of_words))]
    pub fn is_admitted(self) -> bool
        ensures { result ≡ (file_seen self.entry).admitted }
    {
        is_admitted(self.word(1))
    }

    // Its role.
    #[tactic(auto, unfolding(layout::specs::Files::file_of_words))]
    pub fn role(self) -> u64
        ensures { result ≡ (file_seen self.entry).role }
    {
        self.word(2)
    }

    // The firm amount.
    #[tactic(auto, unfolding(layout::specs::Files::file_of_words))]
    pub fn firm(self) -> u64
        ensures { result ≡ (file_seen self.entry).firm }
    {
        self.word(3)
    }

    // How many calls are open.
    #[tactic(auto, using(crate::proofs::Functions::Viewing::views), unfolding(layout::specs::Files::file_of_words))]
    pub fn count(self) -> u64
        ensures { (result ≡ (file_seen self.entry).count) × (result ≤ 4) }
    {
        self.word(4)
    }

    // One of its open calls.
    #[tactic(auto, using(crate::proofs::Functions::Viewing::calls))]
    pub fn open_call(self, k: u64) -> OpenCall
        requires { k < (file_seen self).count }
        ensures { result ≡ get_or (open_calls (file_seen self.entry)) k (call_of 0 0) }
    {
        read_row::<OpenCall>(self.words, self.place(), k as usize)
    }

    // Whether a next amount is set.
    #[tactic(auto, unfolding(layout::specs::Files::file_of_words))]
    pub fn next_is_set(self) -> bool
        ensures { result ≡ (file_seen self.entry).next.set }
    {
        flag(self.word(5))
    }

    // The days charged.
    #[tactic(auto, unfolding(layout::specs::Files::file_of_words))]
    pub fn charged(self) -> u64
        ensures { result ≡ (file_seen self.entry).charged }
    {
        self.word(7)
    }

    // The accrued charge.
    #[tactic(auto, unfolding(layout::specs::Files::file_of_words))]
    pub fn accrued(self) -> u64
        ensures { result ≡ (file_seen self.entry).accrued }
    {
        self.word(8)
    }

    // How many calls were made.
    #[tactic(auto, unfolding(layout::specs::Files::file_of_words))]
    pub fn made(self) -> u64
        ensures { result ≡ (file_seen self.entry).made }
    {
        self.word(9)
    }

    // What is held at a position.
    #[tactic(auto, using(crate::proofs::Functions::Viewing::positions))]
    pub fn position(self, k: u64) -> Position
        requires { k ≤ 7 }
        ensures { result ≡ position_at (file_seen self.entry).slots k }
    {
        read_row::<Slot>(self.words, self.place(), k as usize).position
    }

    // What its positions give from one day through another that isn't before it.
    #[tactic(auto, using(crate::proofs::Functions::Viewing::positions), unfolding(layout::specs::Files::file_of_words))]
    #[inline(always)]
    pub fn cover(self, from: Day, through: Day) -> u64
        ensures { result ≡ cover_through from.0 through.0 (file_seen self.entry).slots }
    {
        cover_at(self.words, self.place(), from, through)
    }

    // The amounts of its four places of calls, of which those behind the open ones are 0.
    #[tactic(auto, unfolding(layout::specs::Files::file_of_words, layout::specs::Files::calls_of_words, layout::specs::Parts::open_call_of_words))]
    pub fn called_amounts(self) -> [u64; 4]
        ensures { result ≡ amounts_of (file_seen self.entry).calls }
    {
        read_rows::<OpenCall, 4>(self.words, self.place()).map(|call| call.amount)
    }

    // The file itself.
    #[tactic(auto, unfolding(layout::specs::Files::file_of_words))]
    pub fn file(self) -> File
        ensures { result ≡ file_seen self.entry }
    {
        file_at(self.words, self.place())
    }

    // The cover that a release must leave.
    #[tactic(auto, using(crate::proofs::Functions::Viewing::views), unfolding(layout::specs::Files::file_of_words))]
    pub fn floor(self) -> u64
        ensures { result ≡ release_floor (file_seen self.entry) }
    {
        let open = read_rows::<OpenCall, 4>(self.words, self.place());
        release_floor(self.firm(), &open[..self.count() as usize], self.word(6))
    }
}
