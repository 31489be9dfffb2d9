// Placing a participant under deletion (paper 02, Ask 4; 002, section 6).
ghost use Rattle.std.specs.Prelude.{◌≡◌, ◌≤◌, ◌∷◌, pos};
ghost use Rattle.manual.specs.Check.{exceeds_each};
ghost use Rattle.file.specs.Answer.{deletion_says};
ghost use Rattle.file.specs.Deletion.{deletion_amount_of, deletion_answer, deleted_file};
ghost use Rattle.file.specs.Fields.{open_amounts};
ghost use Rattle.file.specs.Sound.{Sound};

use crate::{Deletion, File, OpenCall};
use calendar::{Day, in_deletion_months, month_of, months_before};
use manual::deletion::deletion_amount;
use refusal::Refusal;

impl File {
    // The amount of a deletion today: the largest total of the three latest recorded months among P − 14 to P − 2, and
    // 0 if there is none or it is negative.
    fn amount_of_deletion(&self, today: Day) -> u64
        ensures { result ≡ deletion_amount_of self.now today.0 }
    {
        let current = month_of(today);
        let mut room = [0; 13];
        let totals = self.recorded(
            months_before(current, 14),
            months_before(current, 1),
            &mut room,
        );
        deletion_amount(&totals[totals.len().saturating_sub(3)..])
    }

    // Whether an amount exceeds the firm amount and every open call.
    fn is_exceeded_by(&self, amount: u64) -> bool
        requires { self.now.count ≤ 4 }
        ensures { result ≡ exceeds_each (pos amount) (self.now.firm ∷ open_amounts self.now) }
    {
        let open = &self.calls[..self.count];
        self.firm < amount && open.iter().all(|call| call.amount < amount)
    }

    // Takes the status, and adds a call, which is counted, where the amount exceeds the firm amount and every open call.
    fn place_under_deletion(&mut self, today: Day) -> Result<Deletion, Refusal>
        requires { Sound today.0 self.old }
        ensures { (deletion_says result ≡ deletion_answer self.old today.0) × (self.new ≡ deleted_file self.old today.0) }
    {
        if !in_deletion_months(today) || self.leaving {
            return Err(Refusal::NoDeletionNow);
        }
        let amount = self.amount_of_deletion(today);
        let called = self.is_exceeded_by(amount);
        if called {
            if 4 <= self.count {
                return Err(Refusal::FifthCall);
            }
            self.calls[self.count] = OpenCall {
                amount,
                last: Day(today.0 + 10),
            };
            self.count += 1;
            self.made += 1;
        }
        self.leaving = true;
        Ok(Deletion { amount, called })
    }

    // A deletion: what it answers, and the file after it.
    pub fn deleted(mut self, today: Day) -> (Result<Deletion, Refusal>, File)
        requires { Sound today.0 self }
        ensures { (deletion_says result.0 ≡ deletion_answer self today.0) × (result.1 ≡ deleted_file self today.0) }
    {
        let answer = self.place_under_deletion(today);
        (answer, self)
    }
}
