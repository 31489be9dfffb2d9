// One call of each kind, whose arguments come from a drawn number: its answer as a number.
use crate::answers::Answer;
use crate::draws::{Draw, Kind};
use book::BookWords;
use calendar::{Day, Month, month_of};
use file::Position;

impl Draw {
    // A lodging at position 4 to 8 of cash, or of a letter that ends a year later.
    fn lodge(self, book: &mut BookWords) -> u64 {
        let argument = self.argument();
        let holding = if argument / 32 % 2 == 0 {
            Position::Cash(self.amount())
        } else {
            let today = book::today(&book.words);
            Position::Letter(self.amount(), today, Day(today.0.wrapping_add(366)))
        };
        let position = 4 + argument % 5;
        book::lodge(&mut book.words, self.participant(), position, holding).number()
    }

    // A release at position 4 to 7.
    fn release(self, book: &mut BookWords) -> u64 {
        let position = 4 + self.argument() % 4;
        book::release(&mut book.words, self.participant(), position, self.amount()).number()
    }

    // A settlement, by six figures, of one of the four months that end two months before today's.
    fn settle(self, book: &mut BookWords) -> u64 {
        let argument = self.argument();
        let current = month_of(book::today(&book.words));
        let month = Month(current.0.wrapping_sub(2 + (argument % 4) as u32));
        let figures = [(argument * 300) as i64, 30000, -40000, 7000, -900, 60];
        book::settle(&mut book.words, self.participant(), month, &figures).number()
    }

    // The call that is drawn; an admission is one of a participant that is admitted already.
    pub fn make(self, book: &mut BookWords) -> u64 {
        let participant = self.participant();
        match self.kind() {
            Kind::Lodging => self.lodge(book),
            Kind::Release => self.release(book),
            Kind::Settlement => self.settle(book),
            Kind::AnnualRun => book::annual_run(&mut book.words, participant).number(),
            Kind::Admission => book::admit(&mut book.words, participant, 0).number(),
            Kind::Statement => book::statement(&book.words, participant).number(),
        }
    }
}

// Opens the days after today in turn until the calendar's end, or so many of them: how many it opened.
pub fn advance(book: &mut BookWords, days: u64) -> u64 {
    book::advance(&mut book.words, Day(29219), days).unwrap_or(0) as u64
}
