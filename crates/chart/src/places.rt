// Where a day and an amount stand: places in tenths of a unit.
ghost use Rattle.std.specs.Prelude.{◌≡◌, ◌≤◌};
ghost use Rattle.chart.specs.Scale.{days_shown, last_shown, x_after, x_of, x_end, round_up, top_of, y_of};

use crate::Scale;
use calendar::{Day, LAST_DAY};

// The largest amount that the plot's height is made for, in cents.
const HIGHEST: u64 = 2_000_000_000_000_000;

// How many days the axis has.
#[tactic(auto, unfolding(crate::specs::Scale::days_shown))]
pub fn days_shown(scale: Scale) -> u64
    ensures { result ≡ days_shown scale }
{
    u64::from(scale.days).max(1)
}

// The last day of the axis.
#[tactic(auto, unfolding(crate::specs::Scale::last_shown, crate::specs::Scale::days_shown))]
pub fn last_shown(scale: Scale) -> Day
    ensures { result.0 ≡ last_shown scale }
{
    let last = u64::from(scale.first.0) + (days_shown(scale) - 1);
    Day(last.min(u64::from(LAST_DAY)) as u32)
}

// The place so many days behind the beginning of the axis.
#[tactic(auto, unfolding(crate::specs::Scale::x_after, crate::specs::Scale::days_shown))]
fn x_after(scale: Scale, days: u64) -> u64
    ensures { result ≡ x_after scale days }
{
    let all = days_shown(scale);
    1300 + 9600 * days.min(all) / all
}

// The beginning of a day.
#[tactic(auto, unfolding(crate::specs::Scale::x_of))]
pub fn x_of(scale: Scale, day: Day) -> u64
    ensures { result ≡ x_of scale day.0 }
{
    x_after(scale, u64::from(day.0.saturating_sub(scale.first.0)))
}

// The end of a day.
#[tactic(auto, unfolding(crate::specs::Scale::x_end))]
pub fn x_end(scale: Scale, day: Day) -> u64
    ensures { result ≡ x_end scale day.0 }
{
    let next = u64::from(day.0) + 1;
    x_after(scale, next.saturating_sub(u64::from(scale.first.0)))
}

// The least of 1, 2, 5 and 10 units that isn't below an amount.
#[tactic(auto, unfolding(crate::specs::Scale::round_up))]
fn round_up(unit: u64, amount: u64) -> u64
    requires small { amount ≤ 2000000000000000 }
    requires within { unit ≤ amount }
    ensures { result ≡ round_up unit amount }
{
    if amount <= unit {
        unit
    } else if amount <= 2 * unit {
        2 * unit
    } else if amount <= 5 * unit {
        5 * unit
    } else {
        10 * unit
    }
}

// The amount at the top of the plot.
#[tactic(auto, using(crate::proofs::Rounding::power_is), unfolding(crate::specs::Scale::top_of, crate::specs::Scale::most_drawn))]
pub fn top_of(most: u64) -> u64
    ensures { result ≡ top_of most }
{
    let amount = most.clamp(100, HIGHEST);
    round_up(10_u64.pow(amount.ilog10()), amount)
}

// The height of an amount, from the picture's top.
#[tactic(auto, using(crate::proofs::Rounding::top_from, crate::proofs::Rounding::top_to), unfolding(crate::specs::Scale::y_of))]
pub fn y_of(scale: Scale, amount: u64) -> u64
    ensures { result ≡ y_of scale amount }
{
    let top = top_of(scale.most);
    4200 - 3600 * amount.min(top) / top
}
