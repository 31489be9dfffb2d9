// The layers of a picture of a journal: each is drawn in one reading of it.
ghost use Rattle.layout.specs.WellFormed.{WellFormed};

use crate::following::{Call, Shows};
use calendar::Day;
use chart::{Line, Scale, put_call, put_shade, put_step};
use entries::{file_of, newest_call};
use file::File;
use printing::Out;

// Of whom a picture is: of a participant, or of all together.
#[derive(Clone, Copy)]
pub enum Whose {
    Participant(u64),
    Market,
}

// The sum of the shortfalls of all participants.
fn shortfalls(book: &[u64]) -> u64
    requires { WellFormed book.now }
{
    let mut sum: u64 = 0;
    for participant in 0..64 {
        if let Ok(statement) = book::statement(book, participant) {
            sum = sum.saturating_add(statement.shortfall);
        }
    }
    sum
}

// What a line shows of a book; nothing of a participant that isn't admitted.
fn amount_of(book: &[u64], whose: Whose, line: Line) -> Option<u64>
    requires { WellFormed book.now }
{
    let Whose::Participant(participant) = whose else {
        return Some(shortfalls(book));
    };
    let statement = book::statement(book, participant).ok()?;
    match line {
        Line::Firm => Some(statement.firm),
        Line::Cover => Some(statement.cover),
        Line::Shortfalls => Some(statement.shortfall),
    }
}

// The first day of a picture, if there is one yet, and the largest amount in it.
#[derive(Clone, Copy)]
pub struct Extent {
    pub whose: Whose,
    pub first: Option<Day>,
    pub most: u64,
}

impl Extent {
    // With an amount more.
    fn take(&mut self, amount: Option<u64>) {
        self.most = self.most.max(amount.unwrap_or(0));
    }

    // With what stands in the book today.
    fn take_today(&mut self, book: &[u64])
        requires { WellFormed book.now }
    {
        let firm = amount_of(book, self.whose, Line::Firm);
        self.take(firm);
        self.take(amount_of(book, self.whose, Line::Cover));
        if firm.is_some() && self.first.is_none() {
            self.first = Some(book::today(book));
        }
    }

    // The scale of the picture, whose last day is given.
    pub fn scale(self, last: Day) -> Scale {
        let first = self.first.unwrap_or(last);
        Scale {
            first,
            days: last.0.saturating_sub(first.0).saturating_add(1),
            most: self.most,
        }
    }
}

impl Shows for Extent {
    fn before(&mut self, _book: &[u64]) {}

    fn called(&mut self, book: &[u64], _call: Call, _out: &mut Out) {
        if let Whose::Participant(participant) = self.whose {
            let call = newest_call(file_of(book, participant));
            self.take(call.map(|call| call.amount));
            self.take_today(book);
        }
    }

    fn opened(&mut self, book: &[u64], _out: &mut Out) {
        self.take_today(book);
    }
}

// The charged days of a participant: those from one through another are to be shaded, if any.
#[derive(Clone, Copy)]
pub struct Shades {
    pub participant: u64,
    pub scale: Scale,
    pub from: Option<Day>,
    pub to: Day,
}

impl Shades {
    // Draws what is to be shaded.
    pub fn end(&mut self, out: &mut Out) {
        if let Some(from) = self.from {
            put_shade(out, self.scale, from, self.to);
        }
        self.from = None;
    }
}

impl Shows for Shades {
    fn before(&mut self, _book: &[u64]) {}

    fn called(&mut self, _book: &[u64], _call: Call, _out: &mut Out) {}

    fn opened(&mut self, book: &[u64], out: &mut Out) {
        let short = amount_of(book, Whose::Participant(self.participant), Line::Shortfalls);
        if short.unwrap_or(0) == 0 {
            self.end(out);
        } else {
            self.to = book::today(book);
            self.from = self.from.or(Some(self.to));
        }
    }
}

// A line of the picture, whose last amount was so.
#[derive(Clone, Copy)]
pub struct Steps {
    pub whose: Whose,
    pub line: Line,
    pub scale: Scale,
    pub before: Option<u64>,
}

impl Shows for Steps {
    fn before(&mut self, _book: &[u64]) {}

    fn called(&mut self, _book: &[u64], _call: Call, _out: &mut Out) {}

    fn opened(&mut self, book: &[u64], out: &mut Out) {
        if let Some(amount) = amount_of(book, self.whose, self.line) {
            put_step(out, self.scale, book::today(book), self.before, amount);
            self.before = Some(amount);
        }
    }
}

// The calls of a participant, whose file was so before a line.
#[derive(Clone, Copy)]
pub struct Calls {
    pub participant: u64,
    pub scale: Scale,
    pub before: File,
}

impl Shows for Calls {
    fn before(&mut self, book: &[u64]) {
        self.before = file_of(book, self.participant);
    }

    fn called(&mut self, book: &[u64], _call: Call, out: &mut Out) {
        let after = file_of(book, self.participant);
        if self.before.made < after.made {
            if let Some(call) = newest_call(after) {
                put_call(out, self.scale, book::today(book), call.amount, call.last);
            }
        }
    }

    fn opened(&mut self, _book: &[u64], _out: &mut Out) {}
}
