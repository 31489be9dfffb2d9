// The pieces of the days: shaded days, steps and calls.
ghost use Rattle.std.specs.Prelude.{◌≡◌};
ghost use Rattle.printing.specs.Written.{followed};
ghost use Rattle.chart.specs.Picture.{seen, area, shade, steps_begun, step, steps_ended, last_stroke, call_mark};

use crate::marks::{line_look, put_placed};
use crate::places::{days_shown, x_end, x_of, y_of};
use crate::{Line, Scale};
use calendar::Day;
use printing::{Fixed, OnDate, Out};

// Whether one of the days is on the axis.
#[tactic(auto, unfolding(crate::specs::Picture::seen, crate::specs::Scale::days_shown))]
fn is_seen(scale: Scale, from: Day, to: Day) -> bool
    ensures { result ≡ seen scale from.0 to.0 }
{
    let end = u64::from(scale.first.0) + days_shown(scale);
    from.0 <= to.0 && scale.first.0 <= to.0 && u64::from(from.0) < end
}

// The area of the days from FROM to TO.
#[tactic(auto, using(printing::specs::WrittenLaws::followed_twice), unfolding(crate::specs::Picture::area))]
fn put_area(out: &mut Out, scale: Scale, from: Day, to: Day)
    ensures { out.new ≡ followed out.old (area scale from.0 to.0) }
{
    let x = x_of(scale, from);
    let width = x_end(scale, to).saturating_sub(x).max(10);
    put_placed(out, b"<rect x='", x);
    put_placed(out, b"' y='60' width='", width);
    out.text(b"' height='360' fill='#000000' fill-opacity='0.13'/>\n")
}

// The days from FROM to TO, shaded.
#[tactic(auto, using(printing::specs::WrittenLaws::followed_none), unfolding(crate::specs::Picture::shade))]
pub fn put_shade(out: &mut Out, scale: Scale, from: Day, to: Day)
    ensures { out.new ≡ followed out.old (shade scale from.0 to.0) }
{
    if is_seen(scale, from, to) {
        put_area(out, scale, from, to);
    }
}

// Steps begin.
#[tactic(auto, using(printing::specs::WrittenLaws::followed_twice), unfolding(crate::specs::Picture::steps_begun))]
pub fn begin_steps(out: &mut Out, line: Line)
    ensures { out.new ≡ followed out.old (steps_begun line) }
{
    out.text(b"<path ");
    out.text(line_look(line));
    out.text(b" d='")
}

// A day's amount, with that of the day before it, if this isn't the first.
#[tactic(auto, using(printing::specs::WrittenLaws::followed_none, printing::specs::WrittenLaws::followed_twice), unfolding(crate::specs::Picture::step))]
pub fn put_step(out: &mut Out, scale: Scale, day: Day, before: Option<u64>, amount: u64)
    ensures { out.new ≡ followed out.old (step scale day.0 before amount) }
{
    match before {
        None => {
            put_placed(out, b"M", x_of(scale, day));
            put_placed(out, b" ", y_of(scale, amount))
        }
        Some(b) if b == amount => {}
        Some(_) => {
            put_placed(out, b"H", x_of(scale, day));
            put_placed(out, b"V", y_of(scale, amount))
        }
    }
}

// Steps end with a day.
#[tactic(auto, using(printing::specs::WrittenLaws::followed_twice), unfolding(crate::specs::Picture::steps_ended))]
pub fn end_steps(out: &mut Out, scale: Scale, last: Day)
    ensures { out.new ≡ followed out.old (steps_ended scale last.0) }
{
    put_placed(out, b"H", x_end(scale, last));
    out.text(b"'/>\n")
}

// The stroke at the end of the last free day, if this is on the axis.
#[tactic(auto, using(printing::specs::WrittenLaws::followed_none), unfolding(crate::specs::Picture::last_stroke, crate::specs::Scale::days_shown))]
fn put_last_stroke(out: &mut Out, scale: Scale, last: Day)
    ensures { out.new ≡ followed out.old (last_stroke scale last.0) }
{
    if u64::from(last.0) < u64::from(scale.first.0) + days_shown(scale) {
        out.text(b"m0-5v10");
    }
}

// A call that was made on a day, with its last free day.
pub fn put_call(out: &mut Out, scale: Scale, made: Day, amount: u64, last: Day)
    ensures { out.new ≡ followed out.old (call_mark scale made.0 amount last.0) }
{
    put_placed(out, b"<path d='M", x_of(scale, made));
    put_placed(out, b" ", y_of(scale, amount));
    put_placed(out, b"l-5-9h10zH", x_end(scale, last));
    put_last_stroke(out, scale, last);
    out.text(b"' fill='#b35900' stroke='#b35900'><title>called ");
    out.put(Fixed::<2> { parts: amount });
    out.text(b", free until ");
    out.put(OnDate { day: last });
    out.text(b"</title></path>\n")
}
