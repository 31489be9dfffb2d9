// Whether a part of a file is within its bounds.
ghost use Rattle.std.specs.Prelude.{◌≡◌};
ghost use Rattle.file.specs.Sound.{SoundPosition};
ghost use Rattle.formed.specs.Decides.{Decides};
ghost use Rattle.formed.specs.Checks.{SoundPlaced};

use calendar::LAST_DAY;
use file::{OpenCall, Position};

// The largest amount of a position, 10^12 cents.
const LARGEST: u64 = 1000000000000;

// The largest month total, called amount and firm amount: 16 figures of 10^12 cents.
pub const BOUND: u64 = 16000000000000;

// Whether a position is within its bounds.
pub fn is_sound_position(position: Position) -> bool
    ensures { Decides result (SoundPosition position) }
{
    match position {
        Position::Empty => true,
        Position::Cash(amount) => (1..=LARGEST).contains(&amount),
        Position::Letter(amount, first, last) => {
            (1..=LARGEST).contains(&amount) && first <= last && last.0 <= LAST_DAY
        }
    }
}

// Whether a call is within its bounds where it is open, and zeros where it isn't.
pub fn is_sound_call(call: OpenCall, is_open: bool) -> bool
    ensures { Decides result (SoundPlaced call is_open) }
{
    if is_open {
        call.amount <= BOUND && call.last.0 <= LAST_DAY + 10
    } else {
        call == OpenCall::NONE
    }
}
