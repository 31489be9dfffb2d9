ghost use Rattle.std.specs.Prelude.{◌≡◌};
ghost use Rattle.manual.specs.Charge.{day_charge};

// The least charge of a day with a shortfall, in mills.
const LEAST: u64 = 100000000;

// The mills charged for a day with a shortfall of so many cents.
#[tactic(auto, unfolding(crate::specs::Charge::day_charge))]
pub fn day_charge(shortfall: u64) -> u64
    ensures { result ≡ day_charge shortfall }
{
    if shortfall == 0 {
        return 0;
    }
    shortfall.max(LEAST)
}
