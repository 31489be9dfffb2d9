// The views of one participant in a journal: what made its figures, its items, and its extract.
ghost use Rattle.layout.specs.WellFormed.{WellFormed};

use crate::following::{Call, Shows};
use answering::is_refusal;
use calendar::Month;
use entries::{file_of, put_batch_called, put_called, put_opened};
use extract::{is_of, named_by, put_extracted};
use file::File;
use items::{Form, Items};
use journal::Request;
use printing::Out;

// A number as a byte.
fn byte(z: i64) -> u32 {
    u64::try_from(z).map_or(0, |n| (n % 256) as u32)
}

// The month of the batch whose bytes stand as numbers in a row: its first two, the least first.
fn month_of_batch(numbers: &[i64]) -> Month {
    match numbers {
        [low, high, ..] => Month(byte(*low).saturating_add(byte(*high).saturating_mul(256))),
        _ => Month(0),
    }
}

// What made the figures of a participant, whose file was so before a step.
#[derive(Clone, Copy)]
pub struct Entries {
    pub participant: u64,
    pub before: File,
}

impl Shows for Entries {
    fn before(&mut self, book: &[u64]) {
        self.before = file_of(book, self.participant);
    }

    fn called(&mut self, book: &[u64], call: Call, out: &mut Out) {
        let today = book::today(book);
        if let Request::Batch(_) = call.request {
            let after = file_of(book, self.participant);
            put_batch_called(
                out,
                today,
                month_of_batch(call.numbers),
                self.before,
                after,
                call.reference,
            )
        } else {
            put_called(
                out,
                today,
                self.participant,
                call.request,
                call.answer,
                call.reference,
            )
        }
    }

    fn opened(&mut self, book: &[u64], out: &mut Out) {
        put_opened(out, self.before, book::today(book))
    }
}

// The items of a participant so far.
#[derive(Clone, Copy)]
pub struct Itemised {
    pub participant: u64,
    pub form: Form,
    pub items: Items,
}

impl Shows for Itemised {
    fn before(&mut self, _book: &[u64]) {}

    fn called(&mut self, _book: &[u64], _call: Call, _out: &mut Out) {}

    fn opened(&mut self, book: &[u64], out: &mut Out) {
        self.items = self.items.opened(book, self.participant, self.form, out);
    }
}

// What stands in an extract as a call's reference: that of a call which opens days or begins a book is the operator's, and may tell of others.
fn reference_of<'a>(call: Call<'a>) -> &'a [u8] {
    match call.request {
        Request::Advance(..) | Request::Fresh(_) => b"",
        _ => call.reference,
    }
}

// The extract of a participant.
#[derive(Clone, Copy)]
pub struct Extract {
    pub participant: u64,
}

impl Shows for Extract {
    fn before(&mut self, _book: &[u64]) {}

    fn called(&mut self, _book: &[u64], call: Call, out: &mut Out) {
        if !is_refusal(call.answer) {
            put_extracted(
                out,
                self.participant,
                call.request,
                call.numbers,
                reference_of(call),
            )
        }
    }

    fn opened(&mut self, _book: &[u64], _out: &mut Out) {}
}

// The one participant that the lines of an extract name, and the first line that may not stand in it, 0 if there is none.
#[derive(Clone, Copy)]
pub struct Only {
    pub participant: Option<u64>,
    pub line: u64,
    pub wrong: u64,
}

impl Shows for Only {
    fn before(&mut self, _book: &[u64]) {}

    fn called(&mut self, _book: &[u64], call: Call, _out: &mut Out) {
        self.line = self.line.wrapping_add(1);
        self.participant = self.participant.or(named_by(call.request));
        if self.wrong == 0 && !self.participant.map_or(true, |p| is_of(call.request, p)) {
            self.wrong = self.line;
        }
    }

    fn opened(&mut self, _book: &[u64], _out: &mut Out) {}
}
