// The calls that have no lists, each from the words after its first.
ghost use Rattle.std.specs.Prelude.{◌≡◌};
ghost use Rattle.words.specs.Words.{left};
ghost use Rattle.journal.specs.Fields.{more};
ghost use Rattle.journal.specs.Grammar.{fresh_of, admit_of, cash_of, letter_of, lodge_of, release_of, annual_of, advance_of, statement_of, delete_of, file_asked_of, releasable_of};
ghost use Rattle.journal.specs.Grammar.{day_numbered, month_numbered};
ghost use Rattle.journal.specs.Steps.{said};

use crate::fields::{Kind, closed, take, take_budget, take_word};
use crate::plain::Call;
use crate::{Reason, Request};
use calendar::{Day, Month};
use words::{Words, small};

// A day of a number.
pub fn day_of(n: u64) -> Day
    ensures { result ≡ day_numbered n }
{
    Day(small(n))
}

// A month of a number.
// Kept: the twin of `day_of`; a trait over the two types would be longer than two bodies of one line.
pub fn month_numbered(n: u64) -> Month
    ensures { result ≡ month_numbered n }
{
    Month(small(n))
}

// fresh D
#[tactic(auto, using(crate::proofs::FieldLaws::closed_late, crate::proofs::FieldLaws::field_fault), unfolding(crate::specs::Grammar::fresh_of, crate::specs::Fields::closed))]
pub fn fresh(words: &mut Words) -> Result<Call, Reason>
    ensures { said result ≡ fresh_of (more (left words.old)) }
{
    let day = take(words, Kind::Day)?;
    closed(words, Request::Fresh(day_of(day)))
}

// admit P ROLE
#[tactic(auto, using(crate::proofs::FieldLaws::closed_late, crate::proofs::FieldLaws::field_fault), unfolding(crate::specs::Grammar::admit_of, crate::specs::Fields::closed))]
pub fn admit(words: &mut Words) -> Result<Call, Reason>
    ensures { said result ≡ admit_of (more (left words.old)) }
{
    let participant = take(words, Kind::Natural)?;
    let role = take(words, Kind::Role)?;
    closed(words, Request::Admit(participant, role))
}

// lodge P POSITION cash AMOUNT, from the amount on
#[tactic(auto, using(crate::proofs::FieldLaws::closed_late, crate::proofs::FieldLaws::field_fault), unfolding(crate::specs::Grammar::cash_of, crate::specs::Fields::closed))]
fn cash(words: &mut Words, participant: u64, position: u64) -> Result<Call, Reason>
    ensures { said result ≡ cash_of participant position (more (left words.old)) }
{
    let amount = take(words, Kind::Amount)?;
    closed(words, Request::LodgeCash(participant, position, amount))
}

// lodge P POSITION letter AMOUNT FIRST LAST, from the amount on
#[tactic(auto, using(crate::proofs::FieldLaws::closed_late, crate::proofs::FieldLaws::field_fault), unfolding(crate::specs::Grammar::letter_of, crate::specs::Fields::closed))]
fn letter(words: &mut Words, participant: u64, position: u64) -> Result<Call, Reason>
    ensures { said result ≡ letter_of participant position (more (left words.old)) }
{
    let amount = take(words, Kind::Amount)?;
    let first = take(words, Kind::Day)?;
    let last = take(words, Kind::Day)?;
    closed(
        words,
        Request::LodgeLetter(participant, position, amount, day_of(first), day_of(last)),
    )
}

// lodge P POSITION cash .. and lodge P POSITION letter ..
// Kept: two names compared one by one: a match on the byte strings was tried, and left 15 goals open, 13 of them for its last arm.
pub fn lodge(words: &mut Words) -> Result<Call, Reason>
    ensures { said result ≡ lodge_of (more (left words.old)) }
{
    let participant = take(words, Kind::Natural)?;
    let position = take(words, Kind::Natural)?;
    let lodged = take_word(words)?;
    if lodged == b"cash".as_slice() {
        cash(words, participant, position)
    } else if lodged == b"letter".as_slice() {
        letter(words, participant, position)
    } else {
        Err(Reason::NotCashOrLetter)
    }
}

// release P POSITION AMOUNT
#[tactic(auto, using(crate::proofs::FieldLaws::closed_late, crate::proofs::FieldLaws::field_fault), unfolding(crate::specs::Grammar::release_of, crate::specs::Fields::closed))]
pub fn release(words: &mut Words) -> Result<Call, Reason>
    ensures { said result ≡ release_of (more (left words.old)) }
{
    let participant = take(words, Kind::Natural)?;
    let position = take(words, Kind::Natural)?;
    let amount = take(words, Kind::Amount)?;
    closed(words, Request::Release(participant, position, amount))
}

// annual P
#[tactic(auto, using(crate::proofs::FieldLaws::closed_late, crate::proofs::FieldLaws::field_fault), unfolding(crate::specs::Grammar::annual_of, crate::specs::Fields::closed))]
pub fn annual(words: &mut Words) -> Result<Call, Reason>
    ensures { said result ≡ annual_of (more (left words.old)) }
{
    let participant = take(words, Kind::Natural)?;
    closed(words, Request::Annual(participant))
}

// advance T B, or advance T for as many days as there are
#[tactic(auto, using(crate::proofs::FieldLaws::closed_late, crate::proofs::FieldLaws::budget_fault), unfolding(crate::specs::Grammar::advance_of, crate::specs::Fields::closed))]
pub fn advance(words: &mut Words) -> Result<Call, Reason>
    ensures { said result ≡ advance_of (more (left words.old)) }
{
    let day = take(words, Kind::Day)?;
    let most = take_budget(words)?;
    closed(words, Request::Advance(day_of(day), most))
}

// statement P
// Kept: the twin of `annual`; one function for both would take the call as a closure, whose contract is longer than these two lines.
#[tactic(auto, using(crate::proofs::FieldLaws::closed_late, crate::proofs::FieldLaws::field_fault), unfolding(crate::specs::Grammar::statement_of, crate::specs::Fields::closed))]
pub fn statement(words: &mut Words) -> Result<Call, Reason>
    ensures { said result ≡ statement_of (more (left words.old)) }
{
    let participant = take(words, Kind::Natural)?;
    closed(words, Request::Statement(participant))
}

// delete P
// Kept: the twin of `annual`, as `statement`.
#[tactic(auto, using(crate::proofs::FieldLaws::closed_late, crate::proofs::FieldLaws::field_fault), unfolding(crate::specs::Grammar::delete_of, crate::specs::Fields::closed))]
pub fn delete(words: &mut Words) -> Result<Call, Reason>
    ensures { said result ≡ delete_of (more (left words.old)) }
{
    let participant = take(words, Kind::Natural)?;
    closed(words, Request::Delete(participant))
}

// file P
// Kept: the twin of `annual`, as `statement`.
#[tactic(auto, using(crate::proofs::FieldLaws::closed_late, crate::proofs::FieldLaws::field_fault), unfolding(crate::specs::Grammar::file_asked_of, crate::specs::Fields::closed))]
pub fn file(words: &mut Words) -> Result<Call, Reason>
    ensures { said result ≡ file_asked_of (more (left words.old)) }
{
    let participant = take(words, Kind::Natural)?;
    closed(words, Request::File(participant))
}

// releasable P POSITION
#[tactic(auto, using(crate::proofs::FieldLaws::closed_late, crate::proofs::FieldLaws::field_fault), unfolding(crate::specs::Grammar::releasable_of, crate::specs::Fields::closed))]
pub fn releasable(words: &mut Words) -> Result<Call, Reason>
    ensures { said result ≡ releasable_of (more (left words.old)) }
{
    let participant = take(words, Kind::Natural)?;
    let position = take(words, Kind::Natural)?;
    closed(words, Request::Releasable(participant, position))
}
