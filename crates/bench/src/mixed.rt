// Mixed calls in memory.
use crate::answers::sum;
use crate::bench::Bench;
use crate::draws::Draws;
use crate::{calls, clock, participants, questions};
use book::BookWords;
use calendar::Day;

// A day to start on, and rounds of so many calls and one advance of so many days.
#[derive(Clone, Copy)]
pub struct Plan {
    pub start: u32,
    pub rounds: u64,
    pub calls: u64,
    pub days: u64,
}

impl Plan {
    // A round: the calls drawn after a seed, and the advance. The sum of the answers.
    fn round(self, book: &mut BookWords, seed: u64) -> u64 {
        let drawn = Draws::after(seed).take(self.calls as usize);
        let answers = sum(drawn.map(|draw| draw.make(book)));
        answers.wrapping_add(calls::advance(book, self.days))
    }

    // The rounds. The sum of the answers.
    fn rounds(self, book: &mut BookWords) -> u64 {
        sum((0..self.rounds).map(|seed| self.round(book, seed)))
    }

    // Writes what the calls led to.
    fn report(self, bench: &Bench, book: &BookWords, sum: u64) {
        let Plan {
            start,
            rounds,
            calls,
            days,
        } = self;
        let _ = println!(bench.rt;
            "mixed calls: from day {start}, rounds {rounds}, calls each {calls}, days after each {days}"
        );
        let _ = print!(bench.rt; "  to day {}", book::today(&book.words).0);
        if bench.timed {
            let _ = print!(bench.rt;
                ", calls made {}, sum of the answers {sum}",
                book::calls_made(&book.words)
            );
            let _ = print!(bench.rt; ", sum of the statements {}", questions::of_all(book));
        }
        let _ = println!(bench.rt);
    }

    // Measures the rounds for 64 participants with four letters each.
    pub fn run(self, bench: &Bench) {
        let mut book = participants::admitted(4);
        let _ = book::advance(&mut book.words, Day(self.start), 29219);
        let (sum, micros) = clock::timed(&bench.rt, || self.rounds(&mut book));
        self.report(bench, &book, sum);
        bench.took(micros);
    }
}
