// A run of the benchmark: the clock, and what it writes. Where a line can't be written, the next one is tried.
use crate::clock;

// Where times are asked for, the numbers that depend on the calls drawn are written too.
// Kept: `timed` is a choice of its own, and says of no other field whether it holds a value.
#[derive(Drop)]
pub struct Bench {
    pub rt: HostRuntime,
    pub timed: bool,
}

impl Bench {
    // Writes a time, where times are asked for.
    pub fn took(&self, micros: u64) {
        if self.timed {
            let _ = println!(self.rt; "  microseconds {micros}");
        }
    }

    // Does some work, and writes how many of what it did, the sum of the answers and its time.
    pub fn measure<F: FnOnce() -> u64>(&self, what: &str, count: u64, work: F)
        requires { F.pre work }
    {
        let (sum, micros) = clock::timed(&self.rt, work);
        let _ = println!(self.rt; "{what}: {count}");
        if self.timed {
            let _ = println!(self.rt; "  sum of the answers {sum}");
        }
        self.took(micros);
    }
}
