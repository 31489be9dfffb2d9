// A month of 64 participants with 16 figures each, by settlements and by the file of a batch.
ghost use Rattle.std.specs.Prelude.{◌≡◌, ◌+◌, ◌<◌, ◌≤◌, length};
ghost use Rattle.arrayvec.specs.ArrayVec.{array_vec_len};

use crate::answers::{Answer, sum};
use crate::bench::Bench;
use crate::participants;
use arrayvec::ArrayVec;
use book::BookWords;
use calendar::{Day, Month};

// The figures of a month, sixteen of each participant.
type Figures = [[i64; 16]; 64];

// The file of a month, of at most as many bytes as one of 64 participants with sixteen figures each has.
type File = ArrayVec<u8, 8836>;

// A participant's figures of a month.
fn figures_of(participant: usize) -> [i64; 16]
    requires { participant < 64 }
{
    std::array::from_fn(|k: usize| (1000 + 16 * participant + k % 16) as i64)
}

// The settlement of a participant's month. The answer.
fn settle(book: &mut BookWords, participant: u64, month: Month, figures: &[i64]) -> u64 {
    book::settle(&mut book.words, participant, month, figures).number()
}

// The settlements of a month, one of each participant. The sum of the answers.
fn settle_all(book: &mut BookWords, month: Month, figures: &Figures) -> u64 {
    let participants = (0..64).zip(figures);
    sum(participants.map(|(participant, figures)| settle(book, participant, month, figures)))
}

// So many times the settlements of a month. The sum of the answers.
fn settlements(book: &mut BookWords, month: Month, figures: &Figures, rounds: u64) -> u64 {
    sum((0..rounds).map(|_| settle_all(book, month, figures)))
}

// The batch of a month. The answer.
fn load(book: &mut BookWords, file: &[u8]) -> u64 {
    book::load(&mut book.words, file).number()
}

// So many times the batch of a month. The sum of the answers.
fn batches(book: &mut BookWords, file: &[u8], rounds: u64) -> u64 {
    sum((0..rounds).map(|_| load(book, file)))
}

// Puts bytes behind those of a file.
fn put(file: &mut File, bytes: &[u8])
    requires { array_vec_len file.old + length bytes.now ≤ 8836 }
    ensures { array_vec_len file.new ≡ array_vec_len file.old + length bytes.now }
{
    let _ = file.try_extend_from_slice(bytes);
}

// Puts a participant's pair of offset and length.
fn put_pair(file: &mut File, participant: u32)
    requires { (array_vec_len file.old + 8 ≤ 8836) × (participant < 64) }
    ensures { array_vec_len file.new ≡ array_vec_len file.old + 8 }
{
    put(file, &(516 + 130 * participant).to_le_bytes());
    put(file, &130u32.to_le_bytes());
}

// Puts a participant's part: its number, the count of its figures, and the figures.
fn put_part(file: &mut File, participant: u8, figures: &[i64; 16])
    requires { array_vec_len file.old + 130 ≤ 8836 }
    ensures { array_vec_len file.new ≡ array_vec_len file.old + 130 }
{
    put(file, &[participant, 16]);
    for figure in figures {
        put(file, &figure.to_le_bytes());
    }
}

// The file of a month: its number, the count of parts, a pair of offset and length for each, and the parts.
fn file_of(month: Month, figures: &Figures) -> File {
    let mut file = ArrayVec::new();
    put(&mut file, &month.0.to_le_bytes()[..2]);
    put(&mut file, &64u16.to_le_bytes());
    for participant in 0..64 {
        put_pair(&mut file, participant);
    }
    for participant in 0..64 {
        put_part(&mut file, participant, &figures[participant as usize]);
    }
    file
}

// October 2021 settled on 1 December 2021 for 64 participants with four letters each, whose cover is enough.
pub fn run(bench: &Bench, rounds: u64) {
    let mut book = participants::admitted(4);
    let _ = book::advance(&mut book.words, Day(700), 29219);
    let month = Month(21);
    let figures: Figures = std::array::from_fn(|participant: usize| figures_of(participant % 64));
    bench.measure("64 settlements", rounds, || {
        settlements(&mut book, month, &figures, rounds)
    });
    let file = file_of(month, &figures);
    bench.measure("batches of 64 parts", rounds, || {
        batches(&mut book, &file, rounds)
    });
}
