// The file of a participant, for people.
ghost use Rattle.std.specs.Prelude.{◌≡◌, ◌≤◌, true};
ghost use Rattle.file.specs.declared.NextAmount.{NextAmount};
ghost use Rattle.file.specs.Sound.{Sound};
ghost use Rattle.layout.specs.Words.{book_of_words};
ghost use Rattle.layout.specs.WellFormed.{WellFormed};
ghost use Rattle.book.specs.Account.{file_at};
ghost use Rattle.printing.specs.Written.{followed};
ghost use Rattle.report.specs.FileText.{file_title, status_text, opening_lines, next_line, entry_lines, standing_lines};
ghost use Rattle.report.specs.FileText.{charge_lines, lines_of_file, file_text};

use crate::BookWords;
use crate::lines::{put_amount, put_charge, put_count, put_said};
use crate::months::put_recorded_months;
use crate::positions::{put_calls, put_positions};
use crate::rows::role_name;
use calendar::Day;
use file::cover::cover;
use file::{File, NextAmount};
use layout::files::file_at;
use printing::{OnDate, Out};

// file P DAY DATE
#[tactic(auto, using(crate::proofs::FileLaws::file_titled))]
fn put_file_title(out: &mut Out, participant: u64, today: Day)
    ensures { out.new ≡ followed out.old (file_title participant today.0) }
{
    out.words(b"file", &[participant, today.0 as u64]);
    out.spaced(OnDate { day: today });
    out.byte(b'\n')
}

// The name of a participant's status.
#[tactic(auto, unfolding(crate::specs::FileText::status_text))]
fn status_name(leaving: bool) -> &'static [u8]
    ensures { result.now ≡ status_text leaving }
{
    if leaving {
        b"under deletion"
    } else {
        b"admitted"
    }
}

// Whose file it is.
#[tactic(auto, using(printing::specs::WrittenLaws::followed_twice), unfolding(crate::specs::FileText::opening_lines))]
fn put_opening(out: &mut Out, participant: u64, today: Day, file: &File)
    ensures { out.new ≡ followed out.old (opening_lines participant today.0 file.now) }
{
    put_file_title(out, participant, today);
    put_said(out, b"role", role_name(file.role));
    put_said(out, b"status", status_name(file.leaving))
}

// The line of a next amount, if it is set.
#[tactic(auto, using(printing::specs::WrittenLaws::followed_none), unfolding(crate::specs::FileText::next_line))]
fn put_next(out: &mut Out, next: NextAmount)
    ensures { out.new ≡ followed out.old (next_line next) }
{
    if next.set {
        put_amount(out, b"next amount", next.amount);
    }
}

// What is held, what is called and what was recorded.
#[tactic(auto, using(printing::specs::WrittenLaws::followed_twice), unfolding(crate::specs::FileText::entry_lines, file::specs::Fields::open_calls))]
fn put_entries(out: &mut Out, today: Day, file: &File)
    requires { file.now.count ≤ 4 }
    ensures { out.new ≡ followed out.old (entry_lines today.0 file.now) }
{
    put_positions(out, &file.slots);
    put_calls(out, &file.calls[..file.count]);
    put_next(out, file.next);
    put_recorded_months(out, file, today)
}

// The firm amount, the cover and the shortfall.
fn put_standing(out: &mut Out, today: Day, file: &File)
    requires { Sound today.0 file.now }
    ensures { out.new ≡ followed out.old (standing_lines today.0 file.now) }
{
    let cover = cover(&file.slots, today);
    put_amount(out, b"firm amount", file.firm);
    put_amount(out, b"cover", cover);
    put_amount(out, b"shortfall", file.firm.saturating_sub(cover))
}

// The days charged, the charge and the calls made.
fn put_charges(out: &mut Out, file: &File)
    ensures { out.new ≡ followed out.old (charge_lines file.now) }
{
    put_count(out, b"days charged", file.charged);
    put_charge(out, b"charge", file.accrued);
    put_count(out, b"calls made", file.made)
}

// A file that is sound today.
#[tactic(auto, using(printing::specs::WrittenLaws::followed_twice), unfolding(crate::specs::FileText::lines_of_file))]
fn put_lines(out: &mut Out, participant: u64, today: Day, file: &File)
    requires { Sound today.0 file.now }
    ensures { out.new ≡ followed out.old (lines_of_file participant today.0 file.now) }
{
    put_opening(out, participant, today, file);
    put_entries(out, today, file);
    put_standing(out, today, file);
    put_charges(out, file)
}

// An admitted participant's file in the words of a book.
#[tactic(auto, using(crate::proofs::FileLaws::admitted_low, crate::proofs::FileLaws::file_there, crate::proofs::FileLaws::words_long))]
pub fn admitted_file(book: &BookWords, participant: u64) -> File
    requires { (file_at (book_of_words book.now) participant).admitted ≡ true }
    ensures { result ≡ file_at (book_of_words book.now) participant }
{
    file_at(book.words, 1 + 97 * participant as usize)
}

// A participant's file in a book in words; nothing where it isn't admitted.
#[tactic(auto, using(printing::specs::WrittenLaws::followed_none), unfolding(crate::specs::FileText::file_text))]
pub fn put_file(out: &mut Out, book: &[u64], participant: u64)
    requires { WellFormed book.now }
    ensures { out.new ≡ followed out.old (file_text (book_of_words book.now) participant) }
{
    if book::is_admitted(book, participant) {
        let today = book::today(book);
        let file = admitted_file(&BookWords { words: book }, participant);
        put_lines(out, participant, today, &file);
    }
}
