// Answers as numbers.
ghost use Rattle.std.specs.Prelude.{◌≡◌};
ghost use Rattle.file.specs.Answer.{done, annual, counted, batched, days_opened, settlement_says, statement_says, deletion};
ghost use Rattle.clib.specs.Numbers.{lent_says, refusal_says, misfit_says, refusal_number, settled_numbers, batch_numbers, annual_numbers};
ghost use Rattle.clib.specs.Numbers.{advanced_numbers, statement_numbers, count_numbers, day_numbers, special_numbers, SmallTotal};
ghost use Rattle.clib.specs.Numbers.{deletion_numbers};

use crate::fault::{Fault, NOT_A_BOOK};
use crate::{
    GuaranteeAdvanced, GuaranteeAnnual, GuaranteeBatch, GuaranteeCount, GuaranteeDay,
    GuaranteeDeletion, GuaranteeSettled, GuaranteeSpecial, GuaranteeStatement,
};
use batch::Misfit;
use calendar::Day;
use file::{AnnualRun, Deletion, Settled, Statement};
use layout::parts::flag_word;
use refusal::Refusal;

// An outcome's number.
pub fn outcome_number(answer: Result<(), Fault<Refusal>>) -> u64
    ensures { result ≡ refusal_number (lent_says (λ _. done) refusal_says answer) }
{
    answer.map_or_else(|fault| fault.number(), |()| 0)
}

// Kept: a conversion for each answer, here and below: C reads a struct of its own for each, and they share no field but the refusal.

// A settlement's numbers; its total is a signed number of 64 bits, also where it is called.
impl From<Result<Settled, Fault<Refusal>>> for GuaranteeSettled {
    ghost from_gives = { λ answer numbers. SmallTotal (lent_says settlement_says refusal_says answer)
        → numbers ≡ settled_numbers (lent_says settlement_says refusal_says answer) };

    #[tactic(auto, using(crate::proofs::Shown::called_total), unfolding(crate::specs::Numbers::SmallTotal))]
    fn from(answer: Result<Settled, Fault<Refusal>>) -> Self {
        match answer {
            Ok(Settled::Called(total, asked, last)) => GuaranteeSettled {
                refusal: 0,
                kind: 1,
                total: total.cast_signed(),
                asked,
                last_free_day: last.0 as u64,
            },
            Ok(Settled::Covered(total)) => GuaranteeSettled {
                kind: 2,
                total,
                ..Default::default()
            },
            Ok(Settled::Recorded(total)) => GuaranteeSettled {
                kind: 3,
                total,
                ..Default::default()
            },
            Err(fault) => GuaranteeSettled {
                refusal: fault.number(),
                ..Default::default()
            },
        }
    }
}

// A batch's numbers.
impl From<Result<u32, Fault<Misfit>>> for GuaranteeBatch {
    ghost from_gives = { λ answer numbers. numbers ≡ batch_numbers (lent_says batched misfit_says answer) };

    fn from(answer: Result<u32, Fault<Misfit>>) -> Self {
        match answer {
            Ok(parts) => GuaranteeBatch {
                parts: parts as u64,
                ..Default::default()
            },
            Err(Fault::Refused(misfit)) => GuaranteeBatch {
                refusal: misfit.refusal.number() as u64,
                parts: 0,
                pair: misfit.pair as u64,
            },
            Err(Fault::OtherLength) => GuaranteeBatch {
                refusal: NOT_A_BOOK,
                ..Default::default()
            },
        }
    }
}

// An annual run's numbers.
impl From<Result<AnnualRun, Fault<Refusal>>> for GuaranteeAnnual {
    ghost from_gives = { λ answer numbers. numbers ≡ annual_numbers (lent_says (λ run. annual run.amount run.months) refusal_says answer) };

    fn from(answer: Result<AnnualRun, Fault<Refusal>>) -> Self {
        match answer {
            Ok(run) => GuaranteeAnnual {
                refusal: 0,
                amount: run.amount,
                months: run.months,
            },
            Err(fault) => GuaranteeAnnual {
                refusal: fault.number(),
                ..Default::default()
            },
        }
    }
}

// A deletion's numbers.
impl From<Result<Deletion, Fault<Refusal>>> for GuaranteeDeletion {
    ghost from_gives = { λ answer numbers. numbers ≡ deletion_numbers (lent_says (λ d. deletion d.amount d.called) refusal_says answer) };

    fn from(answer: Result<Deletion, Fault<Refusal>>) -> Self {
        match answer {
            Ok(deletion) => GuaranteeDeletion {
                refusal: 0,
                amount: deletion.amount,
                called: flag_word(deletion.called),
            },
            Err(fault) => GuaranteeDeletion {
                refusal: fault.number(),
                ..Default::default()
            },
        }
    }
}

// An advance's numbers.
impl From<Result<u32, Fault<Refusal>>> for GuaranteeAdvanced {
    ghost from_gives = { λ answer numbers. numbers ≡ advanced_numbers (lent_says days_opened refusal_says answer) };

    fn from(answer: Result<u32, Fault<Refusal>>) -> Self {
        match answer {
            Ok(days) => GuaranteeAdvanced {
                refusal: 0,
                opened: days as u64,
            },
            Err(fault) => GuaranteeAdvanced {
                refusal: fault.number(),
                ..Default::default()
            },
        }
    }
}

// A statement's numbers.
impl From<Result<Statement, Fault<Refusal>>> for GuaranteeStatement {
    ghost from_gives = { λ answer numbers. numbers ≡ statement_numbers (lent_says statement_says refusal_says answer) };

    fn from(answer: Result<Statement, Fault<Refusal>>) -> Self {
        match answer {
            Ok(statement) => GuaranteeStatement {
                refusal: 0,
                firm: statement.firm,
                cover: statement.cover,
                shortfall: statement.shortfall,
                days_charged: statement.charged,
                accrued_mills: statement.accrued,
                calls_made: statement.made,
            },
            Err(fault) => GuaranteeStatement {
                refusal: fault.number(),
                ..Default::default()
            },
        }
    }
}

// The numbers of the count of calls made in all.
impl From<Result<u64, Fault<Refusal>>> for GuaranteeCount {
    ghost from_gives = { λ answer numbers. numbers ≡ count_numbers (lent_says counted refusal_says answer) };

    fn from(answer: Result<u64, Fault<Refusal>>) -> Self {
        match answer {
            Ok(count) => GuaranteeCount { refusal: 0, count },
            Err(fault) => GuaranteeCount {
                refusal: fault.number(),
                ..Default::default()
            },
        }
    }
}

// Today's numbers.
impl From<Result<Day, Fault<Refusal>>> for GuaranteeDay {
    ghost from_gives = { λ answer numbers. numbers ≡ day_numbers (lent_says (λ day. counted day.0) refusal_says answer) };

    fn from(answer: Result<Day, Fault<Refusal>>) -> Self {
        match answer {
            Ok(day) => GuaranteeDay {
                refusal: 0,
                day: day.0 as u64,
            },
            Err(fault) => GuaranteeDay {
                refusal: fault.number(),
                ..Default::default()
            },
        }
    }
}

// A special guarantee's numbers.
impl From<Result<u64, Refusal>> for GuaranteeSpecial {
    ghost from_gives = { λ answer numbers. numbers ≡ special_numbers answer };

    fn from(answer: Result<u64, Refusal>) -> Self {
        match answer {
            Ok(cents) => GuaranteeSpecial { refusal: 0, cents },
            Err(refusal) => GuaranteeSpecial {
                refusal: refusal.number() as u64,
                ..Default::default()
            },
        }
    }
}
