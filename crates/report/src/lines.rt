// The lines of a file: a label, and what stands behind it.
ghost use Rattle.std.specs.Prelude.{◌≡◌, ◌++◌, [], ◌∷◌, replicate};
ghost use Rattle.printing.specs.Columns.{padded, fixed};
ghost use Rattle.printing.specs.Written.{followed};
ghost use Rattle.report.specs.FileText.{label, no_kind, figure, said_line, amount_line, count_line, charge_line};

use crate::rows::euros;
use printing::{Column, Fixed, Measured, Out};

// Blanks.
#[tactic(auto, using(printing::proofs::ColumnLaws::no_blanks, printing::proofs::ColumnLaws::blanks_more))]
pub fn put_blanks(out: &mut Out, count: usize)
    ensures { out.new ≡ followed out.old (replicate count 32) }
{
    for _ in 0..count {
        out.byte(b' ');
    }
}

// A label, with blanks on its right up to 17 bytes.
#[tactic(auto, using(printing::specs::WrittenLaws::followed_twice), unfolding(crate::specs::FileText::label))]
fn put_label(out: &mut Out, name: &[u8])
    ensures { out.new ≡ followed out.old (label name.now) }
{
    out.text(name);
    put_blanks(out, 17usize.saturating_sub(name.len()))
}

// A line of text behind its label.
#[tactic(auto, using(printing::specs::WrittenLaws::followed_twice), unfolding(crate::specs::FileText::said_line))]
pub fn put_said(out: &mut Out, name: &[u8], said: &[u8])
    ensures { out.new ≡ followed out.old (said_line name.now said.now) }
{
    put_label(out, name);
    out.text(said);
    out.byte(b'\n')
}

// A figure behind its label, in its column.
#[tactic(auto, using(printing::specs::WrittenLaws::followed_twice), unfolding(crate::specs::FileText::figure))]
fn put_figure<T: Measured>(out: &mut Out, name: &[u8], column: Column<T>)
    ensures { out.new ≡ followed out.old (figure name.now no_kind column.width (T.text column.holds)) }
{
    put_label(out, name);
    out.text(b"       ");
    out.put(column)
}

// An amount of cents behind its label.
pub fn put_euros(out: &mut Out, name: &[u8], cents: u64)
    ensures { out.new ≡ followed out.old (figure name.now no_kind 17 (fixed 2 cents)) }
{
    put_figure(out, name, euros(cents))
}

// The line of an amount of cents.
#[tactic(auto, using(printing::specs::WrittenLaws::followed_twice), unfolding(crate::specs::FileText::figure_line, crate::specs::FileText::amount_line))]
pub fn put_amount(out: &mut Out, name: &[u8], cents: u64)
    ensures { out.new ≡ followed out.old (amount_line name.now cents) }
{
    put_euros(out, name, cents);
    out.byte(b'\n')
}

// The line of a count.
#[tactic(auto, using(printing::specs::WrittenLaws::followed_twice), unfolding(crate::specs::FileText::figure_line, crate::specs::FileText::count_line))]
pub fn put_count(out: &mut Out, name: &[u8], count: u64)
    ensures { out.new ≡ followed out.old (count_line name.now count) }
{
    put_figure(
        out,
        name,
        Column {
            width: 14,
            holds: count,
        },
    );
    out.byte(b'\n')
}

// The line of a charge in mills.
#[tactic(auto, using(printing::specs::WrittenLaws::followed_twice), unfolding(crate::specs::FileText::figure_line, crate::specs::FileText::charge_line))]
pub fn put_charge(out: &mut Out, name: &[u8], mills: u64)
    ensures { out.new ≡ followed out.old (charge_line name.now mills) }
{
    put_figure(
        out,
        name,
        Column {
            width: 20,
            holds: Fixed::<5> { parts: mills },
        },
    );
    out.byte(b'\n')
}
