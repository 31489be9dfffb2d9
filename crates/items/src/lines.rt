// The lines of the items.
ghost use Rattle.std.specs.Prelude.{◌≡◌, [], ◌∷◌};
ghost use Rattle.layout.specs.Words.{book_of_words};
ghost use Rattle.layout.specs.WellFormed.{WellFormed};
ghost use Rattle.book.specs.Account.{file_at};
ghost use Rattle.printing.specs.Written.{followed};
ghost use Rattle.items.specs.declared.Form.TheVariants.{Columns, Csv};
ghost use Rattle.items.specs.Lines.{listed, line, heading, sum_line, sums_text};

use crate::{Form, Items, Run};
use printing::{Column, Fixed, OnDate, Out, Puts};

// An amount of cents in the column of euros.
fn euros(cents: u64) -> Column<Fixed<2>>
    ensures { result ≡ record { width = 17; holds = record { parts = cents } } }
{
    Column {
        width: 17,
        holds: Fixed { parts: cents },
    }
}

// A charge in a column of euros.
fn charge_in(width: usize, mills: u64) -> Column<Fixed<5>>
    ensures { result ≡ record { width = width; holds = record { parts = mills } } }
{
    Column {
        width,
        holds: Fixed { parts: mills },
    }
}

// The line of a run in columns.
fn put_columns(out: &mut Out, run: Run)
    ensures { out.new ≡ followed out.old (line Columns run) }
{
    out.put(OnDate { day: run.from });
    out.spaced(OnDate { day: run.to });
    out.spaced(Column {
        width: 6,
        holds: run.days(),
    });
    out.each_spaced(&[euros(run.firm), euros(run.cover), euros(run.shortfall())]);
    out.each_spaced(&[
        charge_in(17, run.charge_a_day()),
        charge_in(21, run.charge()),
    ]);
    out.byte(b'\n')
}

// Writes what has a text with a comma before it.
#[tactic(auto, using(printing::specs::WrittenLaws::followed_twice, crate::proofs::LineLaws::listed_one))]
fn put_listed<T: Puts>(out: &mut Out, x: T)
    ensures { out.new ≡ followed out.old (listed (T.text x ∷ [])) }
{
    out.byte(b',');
    out.put(x)
}

// The line of a run with commas.
fn put_csv(out: &mut Out, run: Run)
    ensures { out.new ≡ followed out.old (line Csv run) }
{
    out.put(OnDate { day: run.from });
    put_listed(out, OnDate { day: run.to });
    put_listed(out, run.days());
    put_listed(out, Fixed::<2> { parts: run.firm });
    put_listed(out, Fixed::<2> { parts: run.cover });
    put_listed(
        out,
        Fixed::<2> {
            parts: run.shortfall(),
        },
    );
    put_listed(
        out,
        Fixed::<5> {
            parts: run.charge_a_day(),
        },
    );
    put_listed(
        out,
        Fixed::<5> {
            parts: run.charge(),
        },
    );
    out.byte(b'\n')
}

// The line of a run.
pub fn put_run(out: &mut Out, run: Run, form: Form)
    ensures { out.new ≡ followed out.old (line form run) }
{
    match form {
        Form::Columns => put_columns(out, run),
        Form::Csv => put_csv(out, run),
    }
}

// The line above the others.
#[tactic(auto, unfolding(crate::specs::Lines::heading, printing::specs::Columns::padded, printing::specs::Decimals::joined, printing::specs::Decimals::spaced))]
pub fn put_heading(out: &mut Out, form: Form)
    ensures { out.new ≡ followed out.old (heading form) }
{
    match form {
        Form::Columns => out.text(
            b"      from         to   days          firm EUR         cover EUR     shortfall EUR  charge a day EUR            charge EUR\n",
        ),
        Form::Csv => out.text(b"from,to,days,firm,cover,shortfall,charge_a_day,charge\n"),
    }
}

// A line of sums.
fn put_sum(out: &mut Out, label: &[u8], days: u64, mills: u64)
    ensures { out.new ≡ followed out.old (sum_line label.now days mills) }
{
    out.text(label);
    out.spaced(Column {
        width: 6,
        holds: days,
    });
    out.spaced(charge_in(93, mills));
    out.byte(b'\n')
}

// The sums of the items, and the statement's figures.
pub fn put_sums(out: &mut Out, items: Items, words: &[u64], participant: u64)
    requires { WellFormed words.now }
    ensures { out.new ≡ followed out.old (sums_text items (file_at (book_of_words words.now) participant)) }
{
    put_sum(
        out,
        b"sum                  ",
        items.all_days(),
        items.all_mills(),
    );
    if let Ok(s) = book::statement(words, participant) {
        put_sum(out, b"statement            ", s.charged, s.accrued);
    }
}
