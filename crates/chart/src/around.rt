// What stands around the plot: the title, the amounts, the axes, the dates and the legend.
ghost use Rattle.std.specs.Prelude.{◌≡◌, ◌≤◌};
ghost use Rattle.printing.specs.Written.{followed};
ghost use Rattle.chart.specs.declared.Title.TheVariants.{Participant};
ghost use Rattle.chart.specs.Picture.{opening, subject, title_text, grid_line, grid, axes, line_key, participant_legend, legend, head, foot};

use crate::marks::line_look;
use crate::places::{last_shown, top_of};
use crate::ticks::put_ticks;
use crate::{Line, Scale, Title};
use printing::{Fixed, OnDate, Out};

// The beginning of the picture.
#[tactic(auto, unfolding(crate::specs::Picture::opening))]
fn put_opening(out: &mut Out)
    ensures { out.new ≡ followed out.old opening }
{
    out.text(
        b"<svg xmlns='http://www.w3.org/2000/svg' viewBox='0 0 1140 520' width='1026' height='468' font-family='sans-serif' font-size='14'>\n\
        <rect width='1140' height='520' fill='white'/>\n",
    )
}

// The firm amount and the cover of a participant.
#[tactic(auto, using(printing::specs::WrittenLaws::followed_twice), unfolding(crate::specs::Picture::subject))]
fn put_participant(out: &mut Out, participant: u64)
    ensures { out.new ≡ followed out.old (subject (Participant participant)) }
{
    out.text(b"Participant ");
    out.put(participant);
    out.text(b": firm amount and cover, ")
}

// What the picture shows, of whom.
#[tactic(auto, unfolding(crate::specs::Picture::subject))]
fn put_subject(out: &mut Out, title: Title)
    ensures { out.new ≡ followed out.old (subject title) }
{
    match title {
        Title::Participant(p) => put_participant(out, p),
        Title::Market => out.text(b"Market: sum of shortfalls, "),
    }
}

// The title, with the first and the last day of the axis.
fn put_title(out: &mut Out, title: Title, scale: Scale)
    ensures { out.new ≡ followed out.old (title_text title scale) }
{
    out.text(b"<text x='130' y='30' font-size='20'>");
    put_subject(out, title);
    out.put(OnDate { day: scale.first });
    out.text(b" to ");
    out.put(OnDate {
        day: last_shown(scale),
    });
    out.text(b"</text>\n")
}

// A line across the plot, and its amount.
#[tactic(auto, using(crate::proofs::Rounding::quarters_to))]
fn put_grid_line(out: &mut Out, scale: Scale, quarters: u64)
    requires { quarters ≤ 4 }
    ensures { out.new ≡ followed out.old (grid_line scale quarters) }
{
    out.text(b"<path d='M130 ");
    out.put(420 - 90 * quarters);
    out.text(b"h960' stroke='#cccccc'/><text x='122' y='");
    out.put(425 - 90 * quarters);
    out.text(b"' text-anchor='end'>");
    out.put(Fixed::<2> {
        parts: quarters * top_of(scale.most) / 4,
    });
    out.text(b"</text>\n")
}

// The lines across the plot.
#[tactic(auto, using(crate::proofs::Pieces::grid_none, crate::proofs::Pieces::grid_more))]
fn put_grid(out: &mut Out, scale: Scale)
    ensures { out.new ≡ followed out.old (grid 5 scale) }
{
    for quarters in 0..5 {
        put_grid_line(out, scale, quarters);
    }
}

// The left side and the floor of the plot, and the unit of the amounts.
#[tactic(auto, unfolding(crate::specs::Picture::axes))]
fn put_axes(out: &mut Out)
    ensures { out.new ≡ followed out.old axes }
{
    out.text(
        b"<path d='M130 60v360h960' fill='none' stroke='#333333'/>\n\
        <text x='122' y='42' text-anchor='end'>EUR</text>\n",
    )
}

// A legend's line at a place, with its name.
#[tactic(auto, using(printing::specs::WrittenLaws::followed_twice), unfolding(crate::specs::Picture::line_key))]
fn put_line_key(out: &mut Out, from: &[u8], line: Line, rest: &[u8])
    ensures { out.new ≡ followed out.old (line_key from.now line rest.now) }
{
    out.text(b"<path d='M");
    out.text(from);
    out.text(b" 485h40' ");
    out.text(line_look(line));
    out.text(rest)
}

// The legend of a participant's picture.
fn put_participant_legend(out: &mut Out)
    ensures { out.new ≡ followed out.old participant_legend }
{
    put_line_key(
        out,
        b"130",
        Line::Firm,
        b"/><text x='178' y='490'>firm amount</text>\n",
    );
    put_line_key(
        out,
        b"310",
        Line::Cover,
        b"/><text x='358' y='490'>cover</text>\n",
    );
    out.text(b"<rect x='450' y='475' width='40' height='20' fill='#000000' fill-opacity='0.13'/>");
    out.text(b"<text x='498' y='490'>charged days</text>\n");
    out.text(b"<path d='M650 489l-5-9h10zh40m0-5v10' fill='#b35900' stroke='#b35900'/>");
    out.text(b"<text x='698' y='490'>call, to the end of its last free day</text>\n")
}

// The legend below the plot.
#[tactic(auto, unfolding(crate::specs::Picture::legend))]
fn put_legend(out: &mut Out, title: Title)
    ensures { out.new ≡ followed out.old (legend title) }
{
    match title {
        Title::Participant(_) => put_participant_legend(out),
        Title::Market => put_line_key(
            out,
            b"130",
            Line::Shortfalls,
            b"/><text x='178' y='490'>sum of shortfalls</text>\n",
        ),
    }
}

// All that comes before the pieces of the days.
pub fn put_head(out: &mut Out, title: Title, scale: Scale)
    ensures { out.new ≡ followed out.old (head title scale) }
{
    put_opening(out);
    put_title(out, title, scale);
    put_grid(out, scale);
    put_axes(out);
    put_ticks(out, scale);
    put_legend(out, title)
}

// The end of the picture.
#[tactic(auto, unfolding(crate::specs::Picture::foot))]
pub fn put_foot(out: &mut Out)
    ensures { out.new ≡ followed out.old foot }
{
    out.text(b"</svg>\n")
}
