// The words of a line taken one by one, from the left to the right. The first fault is the line's.
ghost use Rattle.std.specs.Prelude.{◌≡◌, false, IfOk, MatchResult, [], ◌∷◌};
ghost use Rattle.words.specs.Words.{left};
ghost use Rattle.journal.specs.Names.{role_of_word, read_as, why_not};
ghost use Rattle.journal.specs.Fields.{more, field_of, budget_of, closed as Fields·closed};
ghost use Rattle.journal.specs.Faults.{is_error};
ghost use Rattle.journal.specs.Steps.{IsField, said};
ghost use Rattle.journal.specs.declared.Reason.{Reason as Names·Reason};

use crate::plain::Call;
use crate::{Reason, Request};
use calendar::LAST_DAY;
use words::{Words, amount_of, day_in, month_in, natural_of, place_of};

// What is due at a word's place.
#[derive(Clone, Copy)]
pub enum Kind {
    Natural,
    Amount,
    Role,
    Day,
    Month,
}

// The roles' names, in the order of their numbers.
const ROLES: &[u8] = b"supplier self-supplied trader producer res-aggregator demand-response";

// A word as a role: its name or its number.
#[tactic(auto, using(crate::proofs::FieldLaws::role_named, crate::proofs::FieldLaws::role_other))]
fn role_in(w: &[u8]) -> Option<u64>
    ensures { result ≡ role_of_word w.now }
{
    place_of(w, ROLES)
        .map(|role| role as u64)
        .or_else(|| natural_of(w))
}

impl Kind {
    // A word as what is due.
    fn read(self, w: &[u8]) -> Option<u64>
        ensures { result ≡ read_as self w.now }
    {
        match self {
            Kind::Natural => natural_of(w),
            Kind::Amount => amount_of(w),
            Kind::Role => role_in(w),
            Kind::Day => day_in(w),
            Kind::Month => month_in(w),
        }
    }

    // What is wrong with a word that is not what is due.
    fn why_not(self) -> Reason
        ensures { result ≡ why_not self }
    {
        match self {
            Kind::Natural | Kind::Amount => Reason::NotNumber,
            Kind::Role => Reason::NotRole,
            Kind::Day => Reason::NotDay,
            Kind::Month => Reason::NotMonth,
        }
    }
}

// The next word.
pub fn take_word<'a>(words: &mut Words<'a>) -> Result<&'a [u8], Reason>
    ensures { MatchResult result (λ w. left words.old ≡ w.now ∷ left words.new)
        (λ e. (left words.old ≡ []) × (e ≡ Names·Reason.TooFewWords)) }
{
    words.next().ok_or(Reason::TooFewWords)
}

// The next word as what is due.
#[tactic(auto, using(crate::proofs::FieldLaws::field_err, crate::proofs::FieldLaws::field_none))]
pub fn take(words: &mut Words, kind: Kind) -> Result<u64, Reason>
    ensures { IsField (field_of kind (more (left words.old))) result words.new }
{
    let word = take_word(words)?;
    kind.read(word).ok_or(kind.why_not())
}

// How many days an advance may open: the next word, or all that there are where no word is left.
pub fn take_budget(words: &mut Words) -> Result<u64, Reason>
    ensures { IsField (budget_of (more (left words.old))) result words.new }
{
    match words.next() {
        Some(word) => Kind::Natural.read(word).ok_or(Reason::NotNumber),
        None => Ok(LAST_DAY as u64),
    }
}

// A call whose words are all read.
#[tactic(auto, using(crate::proofs::FieldLaws::closed_end, crate::proofs::FieldLaws::closed_more))]
pub fn closed(words: &mut Words, request: Request) -> Result<Call, Reason>
    requires { is_error request ≡ false }
    ensures whole { said result ≡ Fields·closed (more (left words.old)) request }
    ensures none_left { IfOk result (λ _. left words.old ≡ []) }
{
    words
        .next()
        .map_or(Ok(Call { request }), |_| Err(Reason::TooManyWords))
}
