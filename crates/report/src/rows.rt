// The lines of the table.
ghost use Rattle.std.specs.Prelude.{◌≡◌, [], ◌∷◌};
ghost use Rattle.file.specs.Answer.{statement_says};
ghost use Rattle.layout.specs.Words.{book_of_words};
ghost use Rattle.printing.specs.Written.{followed};
ghost use Rattle.report.specs.Table.{role_text, line_of, row, rows, admitted_count};

use crate::BookWords;
use file::Statement;
use printing::{Column, Fixed, Out};

// The names of the roles, by their numbers.
// Kept: the names of `journal`'s ROLES again: there they are one text, which is searched for a name, and has no name by its number.
const ROLE_NAMES: [&[u8]; 6] = [
    b"supplier",
    b"self-supplied",
    b"trader",
    b"producer",
    b"res-aggregator",
    b"demand-response",
];

// A role's name; nothing for a number that is no role.
#[tactic(auto, using(crate::proofs::TableLaws::no_role), unfolding(crate::specs::Table::role_text, journal::specs::Names::role_names))]
pub fn role_name(role: u64) -> &'static [u8]
    ensures { result.now ≡ role_text role }
{
    ROLE_NAMES.get(role as usize).copied().unwrap_or(b"")
}

// An amount of cents in the column of euros.
pub fn euros(cents: u64) -> Column<Fixed<2>>
    ensures { result ≡ record { width = 17; holds = record { parts = cents } } }
{
    Column {
        width: 17,
        holds: Fixed { parts: cents },
    }
}

// The line of a statement.
fn put_statement(out: &mut Out, participant: u64, role: u64, s: Statement)
    ensures { out.new ≡ followed out.old (line_of participant role (statement_says s)) }
{
    out.put(Column {
        width: 11,
        holds: participant,
    });
    out.spaced(Column {
        width: 16,
        holds: role_name(role),
    });
    out.each_spaced(&[euros(s.firm), euros(s.cover), euros(s.shortfall)]);
    out.spaced(Column {
        width: 12,
        holds: s.charged,
    });
    out.spaced(Column {
        width: 21,
        holds: Fixed::<5> { parts: s.accrued },
    });
    out.byte(b'\n')
}

// The line of a participant, if it is admitted.
fn put_row(out: &mut Out, book: &BookWords, participant: u64)
    ensures { out.new ≡ followed out.old (row (book_of_words book.now) participant) }
{
    if let Ok(s) = book::statement(book.words, participant) {
        put_statement(out, participant, book::role(book.words, participant), s);
    }
}

// The lines of all participants.
#[tactic(auto, using(crate::proofs::TableLaws::rows_none, crate::proofs::TableLaws::rows_more))]
pub fn put_rows(out: &mut Out, book: &BookWords)
    ensures { out.new ≡ followed out.old (rows 64 (book_of_words book.now)) }
{
    for participant in 0..64 {
        put_row(out, book, participant);
    }
}

// How many participants are admitted.
pub fn admitted_count(book: &BookWords) -> u64
    ensures { result ≡ admitted_count (book_of_words book.now) }
{
    (0..64)
        .map(|participant| book::is_admitted(book.words, participant) as u64)
        .sum()
}
