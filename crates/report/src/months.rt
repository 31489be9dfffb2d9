// The recorded totals of the months before today's, a line each.
ghost use Rattle.std.specs.Prelude.{◌≡◌, ◌-◌, ◌++◌, Some};
ghost use Rattle.words.specs.Text.{text};
ghost use Rattle.file.specs.Totals.{total_at};
ghost use Rattle.printing.specs.Columns.{padded};
ghost use Rattle.printing.specs.Written.{followed};
ghost use Rattle.report.specs.FileText.{label, euros_signed, month_text, month_line, month_lines, recorded_lines};

use crate::lines::put_blanks;
use crate::signed::SignedEuros;
use calendar::{Day, Month, month_of, months_before, months_between};
use file::{File, ring_place};
use printing::{Column, Out, put_digits};

// A month's total, where it is recorded.
// Kept: as `File::total_of`, which crate `file` keeps to itself.
#[tactic(auto, unfolding(file::specs::Totals::total_at, file::specs::Totals::total_here))]
fn total_of(file: &File, month: Month) -> Option<i64>
    ensures { result ≡ total_at file.now.totals month.0 }
{
    let place = file.totals[ring_place(month)];
    (place.recorded && place.month == month).then_some(place.total)
}

// A month as people write it.
#[tactic(auto, using(printing::specs::WrittenLaws::followed_twice), unfolding(crate::specs::FileText::month_text))]
fn put_month(out: &mut Out, month: Month)
    ensures { out.new ≡ followed out.old (month_text month.0) }
{
    put_digits(out, 4, 2020 + month.0 as u64 / 12);
    out.byte(b'-');
    put_digits(out, 2, month.0 as u64 % 12 + 1)
}

// The label of a month.
#[tactic(auto, using(printing::specs::WrittenLaws::followed_twice, crate::proofs::FileLaws::month_labelled))]
fn put_month_label(out: &mut Out, month: Month)
    ensures { out.new ≡ followed out.old (label (text "month " ++ month_text month.0)) }
{
    out.text(b"month ");
    put_month(out, month);
    put_blanks(out, 4)
}

// Cents in the column of euros, with a minus where they are below zero.
fn put_signed(out: &mut Out, cents: i64)
    ensures { out.new ≡ followed out.old (padded 17 (euros_signed cents)) }
{
    out.put(Column {
        width: 17,
        holds: SignedEuros { cents },
    })
}

// The line of a month's total.
#[tactic(auto, using(printing::specs::WrittenLaws::followed_twice), unfolding(crate::specs::FileText::figure, crate::specs::FileText::figure_line, crate::specs::FileText::month_line))]
fn put_total(out: &mut Out, month: Month, cents: i64)
    ensures { out.new ≡ followed out.old (month_line month.0 (Some cents)) }
{
    put_month_label(out, month);
    out.text(b"       ");
    put_signed(out, cents);
    out.byte(b'\n')
}

// The line of a month, if its total is recorded.
#[tactic(auto, using(crate::proofs::FileLaws::month_silent))]
fn put_recorded(out: &mut Out, file: &File, month: Month)
    ensures { out.new ≡ followed out.old (month_line month.0 (total_at file.now.totals month.0)) }
{
    if let Some(cents) = total_of(file, month) {
        put_total(out, month, cents);
    }
}

// The lines of the months from a first one on, before an end.
#[tactic(auto, using(crate::proofs::FileLaws::months_none))]
fn put_months(out: &mut Out, file: &File, first: Month, end: Month)
    ensures { out.new ≡ followed out.old (month_lines (total_at file.now.totals) first.0 (end.0 - first.0)) }
{
    let months = months_between(first, end);
    for passed in 0..months {
        put_recorded(out, file, months_before(end, months - passed));
    }
}

// The lines of the thirteen months that end two months before today's.
#[tactic(auto, unfolding(crate::specs::FileText::recorded_lines))]
pub fn put_recorded_months(out: &mut Out, file: &File, today: Day)
    ensures { out.new ≡ followed out.old (recorded_lines file.now today.0) }
{
    let current = month_of(today);
    put_months(
        out,
        file,
        months_before(current, 14),
        months_before(current, 1),
    )
}
