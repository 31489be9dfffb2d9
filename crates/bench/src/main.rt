// A benchmark of the book: one advance over the whole calendar for 64 participants, mixed calls without and with advances, questions, and
// a month by settlements and by a batch. It writes what was done; with an argument it makes ten times as many calls and a hundred times as many
// questions, and writes a sum of all answers and the processor time of each part too.
#![tactic(auto)]

use bench::Bench;
use mixed::Plan;
use std::env::{Env, FillError};

mod answers;
mod batches;
mod bench;
mod calendar_opened;
mod calls;
mod clock;
mod draws;
mod mixed;
mod participants;
mod questions;

// Whether the program was started with an argument besides its name.
// Kept: as storage's is_argument at 1, which is private to a crate that the benchmark does not use.
fn has_argument(rt: &HostRuntime) -> bool {
    !matches!(rt.arg(1, &mut [0u8; 1]), Err(FillError::NotPresent))
}

// All parts of the benchmark, in turn; with `timed` the longer ones.
fn measured(rt: HostRuntime, timed: bool) {
    let bench = Bench { rt, timed };
    let rounds = if timed { 1000 } else { 100 };
    calendar_opened::run(&bench);
    // 5 September 2021: annual runs are accepted, and a settlement is recorded only
    let september = Plan {
        start: 613,
        rounds,
        calls: 1000,
        days: 0,
    };
    september.run(&bench);
    // 1 December 2021: annual runs are refused, and a settlement is checked
    Plan {
        start: 700,
        ..september
    }
    .run(&bench);
    // days are opened after each thousand calls
    Plan {
        days: 28,
        ..september
    }
    .run(&bench);
    let count = if timed { 10000000 } else { 100000 };
    questions::run(&bench, count);
    batches::run(&bench, rounds);
}

// A write that fails changes nothing else: the next one is tried.
fn main(rt: HostRuntime) {
    let timed = has_argument(&rt);
    measured(rt, timed);
}
