// Amounts in euros, and days as dates.
ghost use Rattle.std.specs.Prelude.{◌≡◌};
ghost use Rattle.printing.specs.Written.{followed};
ghost use Rattle.wording.specs.Wording.{euros_of, labelled, counted, called_text, total_text, annual_text, deletion_text, statement_text};

use calendar::Day;
use printing::{Fixed, OnDate, Out};

// An amount in euros, with a minus where it is below zero.
#[tactic(auto, using(printing::specs::WrittenLaws::followed_twice), unfolding(crate::specs::Wording::euros_of))]
fn put_euros(out: &mut Out, cents: i64)
    ensures { out.new ≡ followed out.old (euros_of cents) }
{
    if cents < 0 {
        out.byte(b'-');
    }
    out.put(Fixed::<2> {
        parts: cents.unsigned_abs(),
    })
}

// A label and an amount in euros.
#[tactic(auto, using(printing::specs::WrittenLaws::followed_twice), unfolding(crate::specs::Wording::labelled))]
pub fn put_labelled(out: &mut Out, label: &[u8], cents: u64)
    ensures { out.new ≡ followed out.old (labelled label.now cents) }
{
    out.text(label);
    out.put(Fixed::<2> { parts: cents })
}

// A count and its label.
#[tactic(auto, using(printing::specs::WrittenLaws::followed_twice), unfolding(crate::specs::Wording::counted))]
fn put_counted(out: &mut Out, before: &[u8], n: u64, label: &[u8])
    ensures { out.new ≡ followed out.old (counted before.now n label.now) }
{
    out.text(before);
    out.put(n);
    out.text(label)
}

// called E ASKED LAST
#[tactic(auto, using(printing::specs::WrittenLaws::followed_twice), unfolding(crate::specs::Wording::called_text))]
pub fn put_called(out: &mut Out, total: u64, asked: u64, last: Day)
    ensures { out.new ≡ followed out.old (called_text total asked last.0) }
{
    put_labelled(out, b"  total ", total);
    put_labelled(out, b", lodge ", asked);
    out.text(b" by ");
    out.put(OnDate { day: last })
}

// covered E and recorded E
#[tactic(auto, using(printing::specs::WrittenLaws::followed_twice), unfolding(crate::specs::Wording::total_text))]
pub fn put_total(out: &mut Out, total: i64)
    ensures { out.new ≡ followed out.old (total_text total) }
{
    out.text(b"  total ");
    put_euros(out, total)
}

// annual A M
pub fn put_annual(out: &mut Out, amount: u64, months: u64)
    ensures { out.new ≡ followed out.old (annual_text amount months) }
{
    put_labelled(out, b"  next amount ", amount);
    put_counted(out, b" from ", months, b" months")
}

// deletion A C
#[tactic(auto, using(printing::specs::WrittenLaws::followed_twice), unfolding(crate::specs::Wording::deletion_text))]
pub fn put_deletion(out: &mut Out, amount: u64, is_called: bool)
    ensures { out.new ≡ followed out.old (deletion_text amount is_called) }
{
    put_labelled(out, b"  amount ", amount);
    if is_called {
        out.text(b", called")
    } else {
        out.text(b", not called")
    }
}

// statement FIRM COVER SHORTFALL DAYS MILLS CALLS
pub fn put_statement(
    out: &mut Out,
    firm: u64,
    cover: u64,
    shortfall: u64,
    days: u64,
    mills: u64,
    calls: u64,
)
    ensures { out.new ≡ followed out.old (statement_text firm cover shortfall days mills calls) }
{
    put_labelled(out, b"  firm ", firm);
    put_labelled(out, b", cover ", cover);
    put_labelled(out, b", shortfall ", shortfall);
    put_counted(out, b", ", days, b" days charged, charge ");
    out.put(Fixed::<5> { parts: mills });
    put_counted(out, b", ", calls, b" calls made")
}
