// A run of days, and the day that makes it longer.
ghost use Rattle.std.specs.Prelude.{◌≡◌};
ghost use Rattle.items.specs.Items.{begun, extends, ending, days_of, shortfall_of, charge_a_day, charge_of};
ghost use Rattle.items.specs.State.{in_word};

use crate::{Charged, Run};
use manual::charge::day_charge;

impl Run {
    // A run of one day.
    #[tactic(auto, unfolding(crate::specs::Items::begun))]
    pub fn begun(charged: Charged) -> Run
        ensures { result ≡ begun charged }
    {
        Run {
            from: charged.day,
            to: charged.day,
            firm: charged.firm,
            cover: charged.cover,
        }
    }

    // Whether a day is the one behind the run, and has its figures.
    #[tactic(auto, unfolding(crate::specs::Items::extends))]
    pub fn extended_by(self, charged: Charged) -> bool
        ensures { result ≡ extends charged self }
    {
        charged.day.0 as u64 == self.to.0 as u64 + 1
            && charged.firm == self.firm
            && charged.cover == self.cover
    }

    // The run that ends on another day.
    #[tactic(auto, unfolding(crate::specs::Items::ending))]
    pub fn ending(self, charged: Charged) -> Run
        ensures { result ≡ ending charged self }
    {
        Run {
            from: self.from,
            to: charged.day,
            firm: self.firm,
            cover: self.cover,
        }
    }

    // How many days it has.
    #[tactic(auto, unfolding(crate::specs::Items::days_of))]
    pub fn days(self) -> u64
        ensures { result ≡ days_of self }
    {
        (self.to.0 as u64 + 1).saturating_sub(self.from.0 as u64)
    }

    // The firm amount less the cover.
    pub fn shortfall(self) -> u64
        ensures { result ≡ shortfall_of self }
    {
        self.firm.saturating_sub(self.cover)
    }

    // The mills charged for each of its days.
    #[tactic(auto, unfolding(crate::specs::Items::charge_a_day))]
    pub fn charge_a_day(self) -> u64
        ensures { result ≡ charge_a_day self }
    {
        day_charge(self.shortfall())
    }

    // The mills charged for all of them; what is too large for a word is the largest word.
    #[tactic(auto, unfolding(crate::specs::Items::charge_of, crate::specs::State::in_word))]
    pub fn charge(self) -> u64
        ensures { result ≡ in_word (charge_of self) }
    {
        self.days().saturating_mul(self.charge_a_day())
    }
}
