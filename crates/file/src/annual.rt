// The annual run (paper 01, 'Annual run'; paper 02, Ask 4).
ghost use Rattle.std.specs.Prelude.{◌≡◌};
ghost use Rattle.file.specs.Answer.{annual_says};
ghost use Rattle.file.specs.Annual.{annual_answer, annual_file};

use crate::{AnnualRun, File, NextAmount};
use calendar::{Day, in_annual_days, month_of, months_before};
use manual::annual::annual_amount;
use refusal::Refusal;

impl File {
    // The next amount set, of the recorded totals of months P − 14 to P − 3.
    fn set_next(&mut self, today: Day) -> Result<AnnualRun, Refusal>
        ensures { (annual_says result ≡ annual_answer self.old today.0) × (self.new ≡ annual_file self.old today.0) }
    {
        if !in_annual_days(today) {
            return Err(Refusal::NotAnnualDays);
        }
        if self.leaving {
            return Err(Refusal::UnderDeletion);
        }
        let current = month_of(today);
        let mut room = [0; 13];
        let totals = self.recorded(
            months_before(current, 14),
            months_before(current, 2),
            &mut room,
        );
        let amount = annual_amount(self.role, totals);
        self.next = NextAmount { set: true, amount };
        Ok(AnnualRun {
            amount,
            months: totals.len() as u64,
        })
    }

    // The annual run: what it answers, and the file after it.
    pub fn annual_run(mut self, today: Day) -> (Result<AnnualRun, Refusal>, File)
        ensures { (annual_says result.0 ≡ annual_answer self today.0) × (result.1 ≡ annual_file self today.0) }
    {
        let answer = self.set_next(today);
        (answer, self)
    }
}
