// One call made on a book, and the numbers of its answer.
ghost use Rattle.std.specs.Prelude.{◌≡◌};
ghost use Rattle.layout.specs.WellFormed.{WellFormed};
ghost use Rattle.book.specs.Rule.{new_rule};
ghost use Rattle.replay.specs.Encoding.{rule_of};
ghost use Rattle.replay.specs.Replayed.{GivenNumbers};
ghost use Rattle.replay.specs.Said.{said};

use crate::call::Call;
use crate::encoded::{Made, Numbered, Opened};

// Makes a call on a book by the new admission rule, and gives the numbers of its answer.
#[tactic(auto, using(crate::proofs::Numbers::within))]
fn apply(book: &mut [u64], call: Call) -> [i64; 7]
    requires { WellFormed book.old }
    ensures { GivenNumbers new_rule book.old (said call.entry) result book.new }
{
    match call {
        Call::Admit(participant, role) => book::admit(book, participant, role).numbers(),
        Call::Lodge(participant, position, holding) => {
            book::lodge(book, participant, position, holding).numbers()
        }
        Call::Release(participant, position, amount) => {
            book::release(book, participant, position, amount).numbers()
        }
        Call::Settle(participant, month, figures) => {
            book::settle(book, participant, month, figures).numbers()
        }
        Call::AnnualRun(participant) => book::annual_run(book, participant).numbers(),
        Call::Advance(day, budget) => book::advance(book, day, budget).map(Opened).numbers(),
        Call::Statement(participant) => book::statement(book, participant).numbers(),
        Call::Load(file) => book::load(book, file).numbers(),
        Call::Delete(participant) => book::delete(book, participant).numbers(),
        Call::CallsMade => Made(book::calls_made(book)).numbers(),
    }
}

// Makes a call under the old admission rule, where `old` says so, or under the new one. Only admission differs (paper 02, Ask 3).
pub fn apply_under(book: &mut [u64], call: Call, old: bool) -> [i64; 7]
    requires { WellFormed book.old }
    ensures { GivenNumbers (rule_of old) book.old (said call.entry) result book.new }
{
    match call {
        Call::Admit(participant, role) if old => {
            book::admit_by_old_rule(book, participant, role).numbers()
        }
        _ => apply(book, call),
    }
}
