// A place behind a text, and how a line looks.
ghost use Rattle.std.specs.Prelude.{◌≡◌};
ghost use Rattle.printing.specs.Written.{followed};
ghost use Rattle.chart.specs.Marks.{placed, line_look};

use crate::Line;
use printing::{Fixed, Out};

// A text, and a place in tenths behind it.
#[tactic(auto, using(printing::specs::WrittenLaws::followed_twice), unfolding(crate::specs::Marks::placed))]
pub fn put_placed(out: &mut Out, text: &[u8], place: u64)
    ensures { out.new ≡ followed out.old (placed text.now place) }
{
    out.text(text);
    out.put(Fixed::<1> { parts: place })
}

// How a line looks.
#[tactic(auto, unfolding(crate::specs::Marks::line_look))]
pub fn line_look(line: Line) -> &'static [u8]
    ensures { result.now ≡ line_look line }
{
    match line {
        Line::Firm => b"fill='none' stroke='#1a1a1a' stroke-width='2'",
        Line::Cover => b"fill='none' stroke='#2b7bba' stroke-width='2' stroke-dasharray='6 3'",
        Line::Shortfalls => b"fill='none' stroke='#8b1a1a' stroke-width='2'",
    }
}
