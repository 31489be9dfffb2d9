// The lines of a day as it is opened, for a participant whose file is that before the opening.
ghost use Rattle.std.specs.Prelude.{◌≡◌, []};
ghost use Rattle.printing.specs.Written.{followed};
ghost use Rattle.entries.specs.Lines.{lines_of};
ghost use Rattle.entries.specs.Openings.{lapse_of, lapses_below, taken_of, opened_lines};

use crate::entry::{Entry, put_line};
use calendar::{Day, is_first_october};
use file::{File, Position};
use printing::Out;

// What stands at a place, where it lapses.
#[tactic(auto, using(printing::specs::WrittenLaws::followed_none), unfolding(crate::specs::Openings::lapse_of, crate::specs::Lines::lines_of))]
fn put_lapse(out: &mut Out, day: Day, place: u64, position: Position)
    ensures { out.new ≡ followed out.old (lines_of day.0 [] (lapse_of day.0 place position)) }
{
    if position.has_lapsed(day) {
        put_line(out, day, Entry::Lapsed(place, position.amount()), b"");
    }
}

// The letters that lapse.
#[tactic(auto, using(crate::proofs::LineLaws::lapses_none, crate::proofs::LineLaws::lapses_more))]
fn put_lapses(out: &mut Out, day: Day, file: File)
    ensures { out.new ≡ followed out.old (lines_of day.0 [] (lapses_below 8 file day.0)) }
{
    for k in 0..8 {
        put_lapse(out, day, k as u64, file.slots[k].position);
    }
}

// The next amount that takes effect.
#[tactic(auto, using(printing::specs::WrittenLaws::followed_none), unfolding(crate::specs::Openings::taken_of, file::specs::Opening::takes_effect, crate::specs::Lines::lines_of))]
fn put_taken(out: &mut Out, day: Day, file: File)
    ensures { out.new ≡ followed out.old (lines_of day.0 [] (taken_of file day.0)) }
{
    if is_first_october(day) && file.next.set {
        put_line(out, day, Entry::NextTaken(file.next.amount), b"");
    }
}

// The lines of an admitted participant on a day as it is opened, by its file before that.
#[tactic(auto, using(printing::specs::WrittenLaws::followed_none, crate::proofs::LineLaws::both_put), unfolding(crate::specs::Openings::opened_lines, crate::specs::Openings::opened_entries, crate::specs::Lines::lines_of))]
pub fn put_opened(out: &mut Out, before: File, today: Day)
    ensures { out.new ≡ followed out.old (opened_lines before today.0) }
{
    if before.admitted {
        put_lapses(out, today, before);
        put_taken(out, today, before)
    }
}
