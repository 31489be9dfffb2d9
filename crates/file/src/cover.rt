// The cover that positions give on a day (paper 01, 'One participant's file').
ghost use Rattle.std.specs.Prelude.{◌≡◌};
ghost use Rattle.laws.specs.Lists.{All};
ghost use Rattle.file.specs.Position.{cover_on};
ghost use Rattle.file.specs.Sound.{SoundPosition};

use crate::Slot;
use calendar::Day;

// The cover of eight positions on a day.
pub fn cover(slots: &[Slot; 8], day: Day) -> u64
    requires { All (λ (s : Slot). SoundPosition s.position) slots.now }
    ensures { result ≡ cover_on day.0 slots.now }
{
    slots
        .iter()
        .map(|slot| slot.position.counts(day, day))
        .sum()
}
