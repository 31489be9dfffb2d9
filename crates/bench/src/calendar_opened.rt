// The opening of every day of the calendar.
use crate::bench::Bench;
use crate::{calls, clock, participants, questions};

// One advance over the whole calendar for 64 participants with eight letters each.
pub fn run(bench: &Bench) {
    let mut book = participants::admitted(8);
    let (opened, micros) = clock::timed(&bench.rt, || calls::advance(&mut book, 29219));
    let made = book::calls_made(&book.words);
    let _ = print!(bench.rt; "whole calendar: days opened {opened}, calls made {made}");
    if bench.timed {
        let _ = print!(bench.rt; ", sum of the statements {}", questions::of_all(&book));
    }
    let _ = println!(bench.rt);
    bench.took(micros);
}
