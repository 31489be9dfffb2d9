// What one line adds to the answers, and to the journal.
// Kept: the two sheets side by side, here and below: each is written alone, and a struct of them would only be taken apart again.
ghost use Rattle.std.specs.Prelude.{◌≡◌, [], if◌then◌else◌};
ghost use Rattle.printing.specs.Written.{followed};
ghost use Rattle.layout.specs.Words.{book_of_words};
ghost use Rattle.layout.specs.WellFormed.{WellFormed};
ghost use Rattle.words.specs.Comments.{reference_of};
ghost use Rattle.wording.specs.Wording.{wording};
ghost use Rattle.answering.specs.Kept.{kept_line, retired_line};
ghost use Rattle.dialogue.specs.Said.{Spoken, Said, Tabled, Added, wants_table, table_of, whose_file, file_for};

use crate::Way;
use answering::put_kept;
use journal::Request;
use printing::{Answer, Out};
use report::{put_file, put_report, put_report_csv};
use wording::put_wording;
use words::reference;

// Whether an answer says something; its numbers are small.
fn speaks(answer: Answer) -> bool
    ensures { Spoken answer result }
{
    !matches!(answer, Answer::Nothing)
}

// Whether a request asks for the table for people.
fn wants_table(request: Request) -> bool
    ensures { result ≡ wants_table request }
{
    matches!(request, Request::Report)
}

// Whose file a request asks for, if it does.
fn whose_file(request: Request) -> Option<u64>
    ensures { result ≡ whose_file request }
{
    match request {
        Request::File(participant) => Some(participant),
        _ => None,
    }
}

// The wording of the answer to a line, where the way has words.
#[tactic(auto, using(printing::specs::WrittenLaws::followed_none))]
fn put_wording_if(words: bool, out: &mut Out, answer: Answer, text: &[u8])
    ensures { out.new ≡ followed out.old (if words then wording answer text.now else []) }
{
    if words {
        put_wording(out, answer, text);
    }
}

// The answer to a line with its newline, and with its wording where the way has words, or nothing.
fn put_said(words: bool, out: &mut Out, answer: Answer, text: &[u8])
    ensures { Said words answer text.now out.old out.new }
{
    if speaks(answer) {
        out.put(answer);
        put_wording_if(words, out, answer, text);
        out.byte(b'\n');
    }
}

// The table of the book, for people or as comma-separated values.
fn put_table(csv: bool, out: &mut Out, book: &[u64])
    requires { WellFormed book.now }
    ensures { out.new ≡ followed out.old (table_of csv (book_of_words book.now)) }
{
    if csv {
        put_report_csv(out, book)
    } else {
        put_report(out, book)
    }
}

// The file for people, where one is asked for.
#[tactic(auto, using(printing::specs::WrittenLaws::followed_none))]
fn put_file_for(out: &mut Out, whose: Option<u64>, book: &[u64])
    requires { WellFormed book.now }
    ensures { out.new ≡ followed out.old (file_for whose (book_of_words book.now)) }
{
    if let Some(participant) = whose {
        put_file(out, book, participant);
    }
}

// The table for people, or a file, where it is asked for.
// Kept: here and below the words are asked to be a book, since `report` takes lent words and asks the same.
#[tactic(auto, using(crate::proofs::LineLaws::tabled_short, printing::specs::WrittenLaws::followed_none), unfolding(crate::specs::Said::tabled))]
fn put_tabled(csv: bool, out: &mut Out, request: Request, book: &[u64])
    requires { WellFormed book.now }
    ensures { Tabled csv request (book_of_words book.now) out.old out.new }
{
    if wants_table(request) {
        put_table(csv, out, book);
    } else {
        put_file_for(out, whose_file(request), book);
    }
}

// The line of a call where it is kept, with the reference of its text, or nothing.
// Kept: a request and its row apart: the row is the whole lent slice, while `CallLine` holds the request's own numbers alone.
#[tactic(auto, using(printing::specs::WrittenLaws::followed_none))]
fn put_kept_if(kept: bool, journal: &mut Out, request: Request, numbers: &[i64], text: &[u8])
    ensures { journal.new ≡ followed journal.old (if kept then kept_line request numbers.now (reference_of text.now) else []) }
{
    if kept {
        put_kept(journal, request, numbers, reference(text));
    }
}

// `role-retired`, where a line ends the first stretch of a journal.
#[tactic(auto, using(printing::specs::WrittenLaws::followed_none, crate::proofs::SaidLaws::mark_line))]
fn put_mark_if(ends: bool, journal: &mut Out)
    ensures { journal.new ≡ followed journal.old (if ends then retired_line else []) }
{
    if ends {
        put_kept(journal, Request::RoleRetired, &[], &[]);
    }
}

// The text of a line, what it asks, with the numbers of its lists in a row, what it is answered, and the words of the book that it leaves.
#[derive(Clone, Copy)]
pub struct Turn<'a> {
    pub text: &'a [u8],
    pub request: Request,
    pub numbers: &'a [i64],
    pub answer: Answer,
    pub book: &'a [u64],
}

impl<'a> Turn<'a> {
    // What the line adds to the journal, `role-retired` where it ends the first stretch and its own line where it is kept, and to the answers,
    // each behind what is there.
    pub fn put_added(self, way: Way, taken: bool, ends: bool, journal: &mut Out, out: &mut Out)
        requires { WellFormed self.book.now }
        ensures { Added way self.entry.text.now self.entry.request self.entry.answer taken ends self.entry.numbers.now self.entry.book.now journal.old out.old
            journal.new out.new }
    {
        put_mark_if(ends, journal);
        put_kept_if(taken, journal, self.request, self.numbers, self.text);
        put_said(way.words, out, self.answer, self.text);
        put_tabled(way.csv, out, self.request, self.book);
    }
}
