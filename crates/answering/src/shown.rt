// The answers of the book's calls, as answers of the journal.
ghost use Rattle.std.specs.Prelude.{◌≡◌, MatchResult};
ghost use Rattle.std.specs.Result.{ForOk};
ghost use Rattle.file.specs.Answer.{Answer as Said·Answer, refused, refused_pair, done, annual, days_opened, deletion};
ghost use Rattle.file.specs.Answer.{says as Answer·says, settlement_says, statement_says};
ghost use Rattle.refusal.specs.Numbers.{number_of};
ghost use Rattle.answering.specs.Shown.{shown};

use batch::Misfit;
use file::{AnnualRun, Deletion, Settled, Statement};
use printing::Answer;
use refusal::Refusal;

// What the book answers, and how the journal shows it.
// Kept: no From: `()` and a u32 are `done` and `opened` only as what a call gives, and the law `says` ties each to the specs' answers.
pub trait Shown {
    ghost says: { Self → Said·Answer };

    fn shown(self) -> Answer
        ensures { result ≡ shown (says self) };
}

// A fresh book, an admission, a lodging or a release that is done.
impl Shown for () {
    ghost says = { λ x. done };

    fn shown(self) -> Answer {
        Answer::Done
    }
}

// A settlement.
impl Shown for Settled {
    ghost says = { settlement_says };

    fn shown(self) -> Answer {
        match self {
            Settled::Called(e, asked, last) => Answer::Called(e, asked, last),
            Settled::Covered(e) => Answer::Covered(e),
            Settled::Recorded(e) => Answer::Recorded(e),
        }
    }
}

// An annual run.
impl Shown for AnnualRun {
    ghost says = { λ run. annual run.amount run.months };

    fn shown(self) -> Answer {
        Answer::Annual(self.amount, self.months)
    }
}

// A deletion.
impl Shown for Deletion {
    ghost says = { λ d. deletion d.amount d.called };

    fn shown(self) -> Answer {
        Answer::Deletion(self.amount, self.called)
    }
}

// The days that an advance opened.
impl Shown for u32 {
    ghost says = { days_opened };

    fn shown(self) -> Answer {
        Answer::Opened(self)
    }
}

// A statement.
impl Shown for Statement {
    ghost says = { statement_says };

    fn shown(self) -> Answer {
        Answer::Statement(
            self.firm,
            self.cover,
            self.shortfall,
            self.charged,
            self.accrued,
            self.made,
        )
    }
}

// A refusal, by its number.
impl Shown for Refusal {
    ghost says = { λ r. refused (number_of r) };

    fn shown(self) -> Answer {
        Answer::Refused(self.number())
    }
}

// What a call gives, or its refusal.
impl<T: Shown> Shown for Result<T, Refusal> {
    ghost says = { Answer·says T.says };

    fn shown(self) -> Answer {
        self.map_or_else(Shown::shown, Shown::shown)
    }
}

// Why a batch made no settlement, and the index of the pair.
impl Shown for Misfit {
    ghost says = { λ m. refused_pair (number_of m.refusal) m.pair };

    fn shown(self) -> Answer {
        Answer::RefusedPair(self.refusal.number(), self.pair as u64)
    }
}

// What a call gives, shown by a rule, or why it gives nothing.
pub fn given<T, E: Shown, F: FnOnce(T) -> Answer>(value: Result<T, E>, show: F) -> Answer
    requires { ForOk value (F.pre show) }
    ensures { MatchResult value (λ x. F.post show x result) (λ e. result ≡ shown (E.says e)) }
{
    value.map_or_else(Shown::shown, show)
}
