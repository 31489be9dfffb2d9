// Plays long random histories on the book, and prints every answer. data/ holds the histories, and the file stdout what the reference says
// (reference/histories.py): the gate compares the two. Nothing is allocated, and the status is 0 whatever is read or written.
#![tactic(auto)]

use arrayvec::ArrayString;
use history::History;
use std::fmt::Write;
use std::fs;
use std::os::fd::AsRawFd;
use text::Numbers;

mod history; // history.rt: a history, read from its text
mod text; // text.rt: the numbers of a text

// Plays a text's history on a fresh book, and prints its answers: each as seven numbers on a line. The line with its start day, the text's first
// number, is printed before the calls are read. Where a line can't be written, the next one is tried.
fn play(rt: &HostRuntime, text: &[u8]) {
    let start = Numbers::of(text).natural();
    let _ = println!(rt; "history {start}");
    let history = History::read(text);
    let mut out = [0i64; 2800];
    let out = &mut out[..history.words.len() / 6 * 7];
    let mut book = [0u64; 6210];
    let _ = replay::replay(
        history.start_day(),
        history.first,
        &history.words,
        &history.figures,
        &history.files,
        out,
        &mut book,
    );
    for answer in out.chunks_exact(7) {
        let [a, b, c, d, e, f, g] = answer else { break };
        let _ = println!(rt; "{a} {b} {c} {d} {e} {f} {g}");
    }
}

// Plays the history with a number: the first 65,536 bytes of its file, or what was read of them before a read failed. Says whether there is such a
// file that opens.
fn play_file(rt: &HostRuntime, number: usize) -> bool {
    let mut name = ArrayString::<4>::new();
    let _ = write!(name, "h{number:03}");
    let Ok(file) = fs::open(rt, name.as_str()) else {
        return false;
    };
    let mut text = io::large_buffer();
    let n = io::read_full(file.as_raw_fd(), &mut text);
    drop(file);
    play(rt, &text[..n]);
    true
}

// Plays the histories h000, h001, .. in turn, up to the first number that has none.
fn main(rt: HostRuntime) {
    for number in 0..1000 {
        if !play_file(&rt, number) {
            break;
        }
    }
}
