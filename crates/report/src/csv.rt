// The report as comma-separated values.
ghost use Rattle.std.specs.Prelude.{◌≡◌, [], ◌∷◌};
ghost use Rattle.file.specs.Fields.{cover_of, shortfall_of};
ghost use Rattle.file.specs.Sound.{Sound};
ghost use Rattle.layout.specs.Words.{book_of_words};
ghost use Rattle.layout.specs.WellFormed.{WellFormed};
ghost use Rattle.printing.specs.Columns.{fixed};
ghost use Rattle.printing.specs.Written.{followed};
ghost use Rattle.report.specs.Csv.{behind_commas, csv_heading, csv_values, csv_row, csv_rows, report_csv};

use crate::BookWords;
use crate::file_text::admitted_file;
use crate::rows::role_name;
use calendar::Day;
use file::File;
use file::cover::cover;
use printing::{Fixed, Out, Puts};

// A value with a comma before it.
#[tactic(auto, using(printing::specs::WrittenLaws::followed_twice, crate::proofs::CsvLaws::comma_one))]
fn put_behind_comma<T: Puts>(out: &mut Out, value: T)
    ensures { out.new ≡ followed out.old (behind_commas (T.text value ∷ [])) }
{
    out.byte(b',');
    out.put(value)
}

// An amount of cents in euros with a comma before it.
fn put_euros(out: &mut Out, cents: u64)
    ensures { out.new ≡ followed out.old (behind_commas (fixed 2 cents ∷ [])) }
{
    put_behind_comma(out, Fixed::<2> { parts: cents })
}

// The firm amount, the cover and the shortfall.
#[tactic(auto, using(crate::proofs::CsvLaws::three_values), unfolding(file::specs::Fields::cover_of, file::specs::Fields::shortfall_of))]
fn put_standing(out: &mut Out, today: Day, file: &File)
    requires { Sound today.0 file.now }
    ensures { out.new ≡ followed out.old
        (behind_commas (fixed 2 file.now.firm ∷ fixed 2 (cover_of file.now today.0) ∷ fixed 2 (shortfall_of file.now today.0) ∷ [])) }
{
    let cover = cover(&file.slots, today);
    put_euros(out, file.firm);
    put_euros(out, cover);
    put_euros(out, file.firm.saturating_sub(cover))
}

// The line of a file.
fn put_values(out: &mut Out, participant: u64, today: Day, file: &File)
    requires { Sound today.0 file.now }
    ensures { out.new ≡ followed out.old (csv_values participant today.0 file.now) }
{
    out.put(participant);
    put_behind_comma(out, role_name(file.role));
    put_standing(out, today, file);
    put_behind_comma(out, file.charged);
    put_behind_comma(
        out,
        Fixed::<5> {
            parts: file.accrued,
        },
    );
    out.byte(b'\n')
}

// The line of a participant, if it is admitted.
#[tactic(auto, using(printing::specs::WrittenLaws::followed_none), unfolding(crate::specs::Csv::csv_row))]
fn put_csv_row(out: &mut Out, book: &BookWords, participant: u64)
    ensures { out.new ≡ followed out.old (csv_row (book_of_words book.now) participant) }
{
    if book::is_admitted(book.words, participant) {
        let today = book::today(book.words);
        let file = admitted_file(book, participant);
        put_values(out, participant, today, &file);
    }
}

// The lines of all participants.
#[tactic(auto, using(crate::proofs::CsvLaws::csv_none, crate::proofs::CsvLaws::csv_more))]
fn put_csv_rows(out: &mut Out, book: &BookWords)
    ensures { out.new ≡ followed out.old (csv_rows 64 (book_of_words book.now)) }
{
    for participant in 0..64 {
        put_csv_row(out, book, participant);
    }
}

// The names of the columns.
#[tactic(auto, unfolding(crate::specs::Csv::csv_heading))]
fn put_csv_heading(out: &mut Out)
    ensures { out.new ≡ followed out.old csv_heading }
{
    out.text(b"participant,role,firm,cover,shortfall,days_charged,charge\n")
}

// The report of a book in words as comma-separated values.
#[tactic(auto, using(printing::specs::WrittenLaws::followed_twice), unfolding(crate::specs::Csv::report_csv))]
pub fn put_report_csv(out: &mut Out, book: &[u64])
    requires { WellFormed book.now }
    ensures { out.new ≡ followed out.old (report_csv (book_of_words book.now)) }
{
    put_csv_heading(out);
    put_csv_rows(out, &BookWords { words: book })
}
