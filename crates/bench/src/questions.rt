// Questions in memory: statements and the sum of the counts of calls made.
use crate::answers::{Answer, sum};
use crate::bench::Bench;
use crate::draws::Draws;
use crate::participants;
use book::BookWords;
use calendar::Day;

// The statements of all participants. The sum of the answers.
pub fn of_all(book: &BookWords) -> u64 {
    sum((0..64).map(|participant| book::statement(&book.words, participant).number()))
}

// So many statements, of participants by drawn numbers. The sum of the answers.
fn statements(book: &BookWords, count: u64) -> u64 {
    let drawn = Draws::after(0).take(count as usize);
    sum(drawn.map(|draw| book::statement(&book.words, draw.participant()).number()))
}

// The question for the sum of the counts of calls made, so many times. The sum of the answers.
fn counts(book: &BookWords, count: u64) -> u64 {
    sum((0..count).map(|_| book::calls_made(&book.words)))
}

// So many questions of each kind on a book of 64 participants with four letters each, on 5 September 2021.
pub fn run(bench: &Bench, count: u64) {
    let mut book = participants::admitted(4);
    let _ = book::advance(&mut book.words, Day(613), 29219);
    bench.measure("statements", count, || statements(&book, count));
    bench.measure("counts", count, || counts(&book, count));
}
