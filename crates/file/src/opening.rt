// Opening a day for an admitted participant (paper 01, 'Advance').
ghost use Rattle.std.specs.Prelude.{◌≡◌, ◌+◌, ◌-◌, ◌≤◌, ◌<◌, map};
ghost use Rattle.file.specs.Position.{slot_of, lapsed_by, emptied_on};
ghost use Rattle.file.specs.Calls.{ends_at};
ghost use Rattle.file.specs.Ending.{calls_ended, next_taken};
ghost use Rattle.manual.specs.Charge.{day_charge};
ghost use Rattle.file.specs.Charges.{charges_of, charged_for};
ghost use Rattle.file.specs.Opening.{opened_file};
ghost use Rattle.file.specs.Sound.{Sound};

use crate::cover::cover;
use crate::{Charges, File, NextAmount, OpenCall, Position, Slot};
use calendar::{Day, is_first_october};
use manual::charge::day_charge;

// At the opening of a day a position whose letter has lapsed is emptied, and nothing else is written.
fn empty_lapsed(slots: &mut [Slot; 8], day: Day)
    ensures { slots.new ≡ map (λ (s : Slot). slot_of (emptied_on day.0 s.position)) slots.old }
{
    for slot in slots {
        if slot.position.has_lapsed(day) {
            *slot = Slot::EMPTY;
        }
    }
}

impl Position {
    // Whether it is a letter whose last day is before a day.
    pub fn has_lapsed(self, day: Day) -> bool
        ensures { result ≡ lapsed_by day.0 self }
    {
        matches!(self, Position::Letter(_, _, last) if last < day)
    }
}

impl OpenCall {
    // Whether its last free day is the day before a day.
    pub fn ends_at(self, day: Day) -> bool
        ensures { result ≡ ends_at day.0 self }
    {
        day.0.checked_sub(1) == Some(self.last.0)
    }
}

impl Charges {
    // The charges after a day was charged for a shortfall, which may be 0.
    #[tactic(auto, using(crate::proofs::AtOpening::charges))]
    pub fn after(self, shortfall: u64) -> Charges
        requires { (self.charged < 18446744073709551615) × (self.accrued + day_charge shortfall < 18446744073709551616) }
        ensures { result ≡ charged_for self shortfall }
    {
        Charges {
            charged: self.charged + (0 < shortfall) as u64,
            accrued: self.accrued + day_charge(shortfall),
        }
    }
}

impl File {
    // Each open call whose last free day is the day before is removed, and the firm amount raised to it if lower.
    fn end_calls(&mut self, day: Day)
        requires { self.old.count ≤ 4 }
        ensures { self.new ≡ calls_ended day.0 self.old }
    {
        let before = self.calls;
        let open = &before[..self.count];
        self.calls = [OpenCall::NONE; 4];
        self.count = 0;
        // Kept: the calls that stay are written into the array of four, since the project has no heap for a filtered list.
        for call in open {
            if call.ends_at(day) {
                self.firm = self.firm.max(call.amount);
            } else {
                self.calls[self.count] = *call;
                self.count += 1;
            }
        }
    }

    // On 1 October a next amount that is set becomes the firm amount, and is unset.
    #[tactic(auto, unfolding(crate::specs::Ending::next_taken, crate::specs::Opening::takes_effect))]
    fn take_next(&mut self, day: Day)
        ensures { self.new ≡ next_taken day.0 self.old }
    {
        if self.next.set && is_first_october(day) {
            self.firm = self.next.amount;
            self.next = NextAmount::UNSET;
        }
    }

    // The day that follows the one on which the file is sound, opened in it.
    fn open_day(&mut self, day: Day)
        requires { Sound (day.0 - 1) self.old × (1 ≤ day.0) × (day.0 ≤ 29219) }
        ensures { self.new ≡ opened_file self.old day.0 }
    {
        empty_lapsed(&mut self.slots, day);
        self.end_calls(day);
        self.take_next(day);
        let shortfall = self.firm.saturating_sub(cover(&self.slots, day));
        let Charges { charged, accrued } = self.charges().after(shortfall);
        self.charged = charged;
        self.accrued = accrued;
    }

    // Its charges.
    fn charges(&self) -> Charges
        ensures { result ≡ charges_of self.now }
    {
        Charges {
            charged: self.charged,
            accrued: self.accrued,
        }
    }

    // The file after the day was opened, which follows the day on which the file is sound.
    pub fn opened(mut self, day: Day) -> File
        requires { Sound (day.0 - 1) self × (1 ≤ day.0) × (day.0 ≤ 29219) }
        ensures { result ≡ opened_file self day.0 }
    {
        // Kept: here and in `annual_run`, paper 01 names it: the file is taken and the changed one handed back.
        self.open_day(day);
        self
    }
}
