// The report, a table of all admitted participants, for people and as comma-separated values; and the file of one participant.
#![tactic(auto)]

ghost use Rattle.std.specs.Prelude.{◌≡◌};
ghost use Rattle.layout.specs.Words.{book_of_words};
ghost use Rattle.layout.specs.WellFormed.{WellFormed};
ghost use Rattle.printing.specs.Written.{followed};
ghost use Rattle.report.specs.Table.{title_line, heading, report_text};

pub use csv::put_report_csv;
pub use file_text::put_file;
use printing::{OnDate, Out};
pub use rows::role_name;
use rows::{admitted_count, put_rows};
use std::marker::Model;

mod csv; // csv.rt: the report as comma-separated values
mod file_text; // file_text.rt: the file of a participant
mod lines; // lines.rt: a line of a file, behind its label
mod months; // months.rt: the lines of the recorded months
mod positions; // positions.rt: the lines of the positions and of the open calls
mod rows; // rows.rt: the lines of the table
mod signed; // signed.rt: amounts that may be below zero

// The words of a book that is well formed.
// Kept: beside book's BookWords, which has an array of its own: these words are lent, and one type for both would take a trait of what holds words.
#[derive(Drop)]
pub struct BookWords<'a> {
    words: &'a [u64],
}

impl<'a> Model for BookWords<'a> {
    ghost use Rattle.std.specs.Prelude.{List, ℕ};
    ghost use Rattle.layout.specs.WellFormed.{WellFormed};

    ghost Value = { List ℕ };

    ghost view = { λ b. b.words.now };

    ghost invariant = { λ b. WellFormed b.words.now };
}

// report DAY DATE COUNT
fn put_title(out: &mut Out, book: &BookWords)
    ensures { out.new ≡ followed out.old (title_line (book_of_words book.now)) }
{
    let today = book::today(book.words);
    out.words(b"report", &[today.0 as u64]);
    out.spaced(OnDate { day: today });
    out.spaced(admitted_count(book));
    out.byte(b'\n')
}

// The names of the columns.
#[tactic(auto, unfolding(crate::specs::Table::heading, crate::specs::Table::table_line, crate::specs::Table::in_columns, printing::specs::Columns::padded, printing::specs::Decimals::joined, printing::specs::Decimals::spaced))]
fn put_heading(out: &mut Out)
    ensures { out.new ≡ followed out.old heading }
{
    out.text(
        b"participant             role          firm EUR         cover EUR     shortfall EUR days charged            charge EUR\n",
    )
}

// The report of a book in words.
#[tactic(auto, using(printing::specs::WrittenLaws::followed_twice), unfolding(crate::specs::Table::report_text))]
pub fn put_report(out: &mut Out, book: &[u64])
    requires { WellFormed book.now }
    ensures { out.new ≡ followed out.old (report_text (book_of_words book.now)) }
{
    let book = BookWords { words: book };
    put_title(out, &book);
    put_heading(out);
    put_rows(out, &book)
}
