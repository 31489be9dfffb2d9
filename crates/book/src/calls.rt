// Admissions and annual runs (paper 01, 'The calls'; paper 02, Asks 3 and 4): an admission puts a new file, an annual run
// takes the file out of the words, calls its method, and writes the next amount.
ghost use Rattle.std.specs.Prelude.{◌≡◌, true, ◌≤◌};
ghost use Rattle.layout.specs.Words.{book_of_words, file_in_words, today_in};
ghost use Rattle.file.specs.Annual.{annual_answer};
ghost use Rattle.file.specs.Answer.{accepted, outcome_says, annual_says};
ghost use Rattle.book.specs.Call.{admit, annual_run, on};
ghost use Rattle.book.specs.Rule.{old_rule};
ghost use Rattle.book.specs.Account.{answer};
ghost use Rattle.book.specs.Admissions.{PutsAdmission};
ghost use Rattle.book.specs.InWords.{GivenWords, GivenFirstWords};
ghost use Rattle.layout.specs.WellFormed.{WellFormed};

use crate::view::{FileView, place, today_of};
use file::{AnnualRun, File, Outcome};
use layout::files::{put_file, put_next};
use refusal::Refusal;

// What an admission answers by the causes that both admission rules have: 1, 3 and 4.
#[tactic(auto, using(crate::proofs::Functions::OnWords::admissions))]
fn admission_answer(words: &[u64], participant: u64, role: u64) -> Outcome
    requires { WellFormed words.now }
    ensures { outcome_says result ≡ answer old_rule (book_of_words words.now) (on participant (admit role)) }
{
    if FileView::of(words, participant)?.is_admitted() {
        return Err(Refusal::AdmittedAlready);
    }
    if 5 < role {
        return Err(Refusal::NoSuchRole);
    }
    Ok(())
}

// Writes what an admission with a role leaves: the new file, in which the call that its minimum makes is counted.
#[tactic(auto, using(crate::proofs::Functions::OnWords::admitted))]
fn put_admitted(words: &mut [u64], participant: u64, role: u64)
    requires { WellFormed words.old × (participant ≤ 63)
        × (accepted (answer old_rule (book_of_words words.old) (on participant (admit role))) ≡ true) }
    ensures { PutsAdmission words.old participant role words.new }
{
    let file = File::admitted(role, today_of(words));
    put_file(words, place(participant), file);
}

// Admits a participant with a role. Role 1 is retired (paper 02, Ask 3): behind the other causes it is refused with 23.
#[tactic(auto, using(crate::proofs::Functions::OnWords::by_both_rules))]
pub fn admit(words: &mut [u64], participant: u64, role: u64) -> Outcome
    requires { WellFormed words.old }
    ensures { GivenWords words.old (on participant (admit role)) (outcome_says result) words.new }
{
    admission_answer(words, participant, role)?;
    if role == 1 {
        return Err(Refusal::RetiredRole);
    }
    put_admitted(words, participant, role);
    Ok(())
}

// Admits a participant by the old admission rule, as a history's first stretch did (paper 02, Ask 3): for a replay of such calls, and for nothing
// else.
#[tactic(auto, using(crate::proofs::Functions::OnWords::by_both_rules))]
pub fn admit_by_old_rule(words: &mut [u64], participant: u64, role: u64) -> Outcome
    requires { WellFormed words.old }
    ensures { GivenFirstWords words.old (on participant (admit role)) (outcome_says result) words.new }
{
    admission_answer(words, participant, role)?;
    put_admitted(words, participant, role);
    Ok(())
}

impl FileView<'_> {
    ghost use Rattle.book.specs.Seen.{file_seen, today_seen};

    // What an annual run answers: its amount and how many months were recorded, or the first of the causes 14 and 25 that holds.
    fn annual_run(self) -> Result<AnnualRun, Refusal>
        ensures { annual_says result ≡ annual_answer (file_seen self.entry) (today_seen self.entry) }
    {
        self.file().annual_run(self.today()).0
    }
}

// Runs the annual calculation of a participant.
#[tactic(auto, using(crate::proofs::Functions::OnWords::runs))]
pub fn annual_run(words: &mut [u64], participant: u64) -> Result<AnnualRun, Refusal>
    requires { WellFormed words.old }
    ensures { GivenWords words.old (on participant annual_run) (annual_says result) words.new }
{
    let run = FileView::admitted(words, participant)?.annual_run()?;
    put_next(words, place(participant), run.amount);
    Ok(run)
}
