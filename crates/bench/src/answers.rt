// Answers as numbers, for the check sum.
ghost use Rattle.std.specs.Iterator.{IsFinite};

use batch::Misfit;
use file::{AnnualRun, Settled, Statement};
use refusal::Refusal;

// An answer of which a number goes into the check sum.
// Kept: neither Numbered nor From: this sum's numbers are its own (1000, 2000, 3000), and the answers are other crates' types.
pub trait Answer {
    // The number.
    fn number(self) -> u64;
}

// An admission's, a lodging's or a release's.
impl Answer for () {
    fn number(self) -> u64 {
        1000
    }
}

impl Answer for Settled {
    fn number(self) -> u64 {
        match self {
            Settled::Called(amount, asked, _) => amount.wrapping_add(asked),
            Settled::Covered(_) => 2000,
            Settled::Recorded(_) => 3000,
        }
    }
}

impl Answer for AnnualRun {
    fn number(self) -> u64 {
        self.amount.wrapping_add(self.months)
    }
}

// The figures of a statement, added and combined by 'exclusive or' in turn.
impl Answer for Statement {
    fn number(self) -> u64 {
        let charge = self.charged.wrapping_add(self.accrued);
        self.cover.wrapping_add(self.shortfall ^ charge) ^ self.firm
    }
}

// The parts of a batch.
impl Answer for u32 {
    fn number(self) -> u64 {
        self as u64
    }
}

// A refusal's number in the paper.
impl Answer for Refusal {
    fn number(self) -> u64 {
        Refusal::number(self) as u64
    }
}

impl Answer for Misfit {
    fn number(self) -> u64 {
        self.refusal.number() as u64
    }
}

impl<T: Answer, E: Answer> Answer for Result<T, E> {
    fn number(self) -> u64 {
        match self {
            Ok(said) => said.number(),
            Err(refused) => refused.number(),
        }
    }
}

// The sum of the numbers of answers that are given one after the other.
pub fn sum<I: Iterator<Item = u64> + Drop>(numbers: I) -> u64
    requires can { I.can_next numbers }
    requires ends { IsFinite (I.remaining numbers) }
{
    numbers.fold(0, u64::wrapping_add)
}
