// Dates on the axis.
ghost use Rattle.std.specs.Prelude.{◌≡◌};
ghost use Rattle.printing.specs.Written.{followed};
ghost use Rattle.chart.specs.Ticks.{by_days, every, numbered_day, on_axis, has_date, tick, tick_if, ticks};

use crate::Scale;
use crate::marks::put_placed;
use crate::places::{days_shown, x_of};
use calendar::{Day, LAST_DAY, Month, first_day};
use printing::{OnDate, Out};

// Whether the numbers are of days, and not of months.
#[tactic(auto, unfolding(crate::specs::Ticks::by_days))]
fn by_days(scale: Scale) -> bool
    ensures { result ≡ by_days scale }
{
    days_shown(scale) <= 70
}

// Every so manieth of them has a date.
#[tactic(auto, unfolding(crate::specs::Ticks::every))]
fn every(days: u64) -> u32
    ensures { result ≡ every days }
{
    match days {
        0..=10 => 1,
        11..=70 => 7,
        71..=305 => 1,
        306..=610 => 2,
        611..=915 => 3,
        916..=1830 => 6,
        1831..=3660 => 12,
        3661..=7320 => 24,
        7321..=18300 => 60,
        _ => 120,
    }
}

// The day with a number, or the first day of the month with it.
#[tactic(auto, unfolding(crate::specs::Ticks::numbered_day))]
fn numbered_day(scale: Scale, number: u32) -> u64
    ensures { result ≡ numbered_day scale number }
{
    if by_days(scale) {
        u64::from(scale.first.0) + u64::from(number)
    } else {
        u64::from(first_day(Month(number)).0)
    }
}

// Whether a day is on the axis, and one of the calendar.
#[tactic(auto, unfolding(crate::specs::Ticks::on_axis, crate::specs::Scale::days_shown))]
fn on_axis(scale: Scale, day: u64) -> bool
    ensures { result ≡ on_axis scale day }
{
    let first = u64::from(scale.first.0);
    first <= day && day < first + days_shown(scale) && day <= u64::from(LAST_DAY)
}

// Whether a number's day has a date.
#[tactic(auto, using(crate::proofs::Pieces::every_some), unfolding(crate::specs::Ticks::has_date))]
fn has_date(scale: Scale, number: u32) -> bool
    ensures { result ≡ has_date scale number }
{
    number % every(days_shown(scale)) == 0 && on_axis(scale, numbered_day(scale, number))
}

// A stroke below the axis, and the date below that.
fn put_tick(out: &mut Out, scale: Scale, day: Day)
    ensures { out.new ≡ followed out.old (tick scale day.0) }
{
    let x = x_of(scale, day);
    put_placed(out, b"<path d='M", x);
    put_placed(out, b" 420v7' stroke='#333333'/><text x='", x);
    out.text(b"' y='446' text-anchor='middle'>");
    out.put(OnDate { day });
    out.text(b"</text>\n")
}

// The date of a number's day, if it has one.
#[tactic(auto, using(printing::specs::WrittenLaws::followed_none, crate::proofs::Pieces::dated_day), unfolding(crate::specs::Ticks::tick_if))]
fn put_tick_if(out: &mut Out, scale: Scale, number: u32)
    ensures { out.new ≡ followed out.old (tick_if scale number) }
{
    if has_date(scale, number) {
        put_tick(out, scale, Day(numbered_day(scale, number) as u32));
    }
}

// The dates of all numbers; there are as many months as the calendar has.
#[tactic(auto, using(crate::proofs::Pieces::ticks_none, crate::proofs::Pieces::ticks_more))]
pub fn put_ticks(out: &mut Out, scale: Scale)
    ensures { out.new ≡ followed out.old (ticks 960 scale) }
{
    for number in 0..960 {
        put_tick_if(out, scale, number);
    }
}
