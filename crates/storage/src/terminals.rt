// Terminals: whether a stream is one, and long work shown on the one of standard error.
use crate::known::facts_of;
use crate::messages::progress;
use crate::waiting::{Stream, write_whole};
use std::fs::File;
use std::io::IsTerminal;
use std::time::Instant;

// How many seconds work takes before it is shown.
const PATIENCE: u64 = 1;

// Whether a stream is a terminal.
pub fn is_terminal(rt: &HostRuntime, stream: Stream) -> bool {
    match stream {
        Stream::Output => rt.stdout().is_terminal(),
        Stream::Errors => rt.stderr().is_terminal(),
    }
}

// Work on a file that may take long: when it began, and how many bytes the file has.
#[derive(Clone, Copy)]
pub struct Watch {
    begun: Instant,
    size: u64,
}

impl Watch {
    // Work on a file that begins now; none where the clock or the file can't be asked, or where standard error is no terminal.
    pub fn begin(rt: &HostRuntime, file: &File) -> Option<Watch> {
        if !is_terminal(rt, Stream::Errors) {
            return None;
        }
        let begun = Instant::now(rt).ok()?;
        let size = facts_of(file).ok()?.size;
        Some(Watch { begun, size })
    }

    // Whether the work has taken long by now.
    fn is_long(self, rt: &HostRuntime) -> bool {
        self.begun
            .elapsed(rt)
            .is_ok_and(|taken| PATIENCE <= taken.as_secs())
    }

    // Shows how many of the file's bytes are done, once the work has taken long. The next line on the terminal is written over it.
    pub fn show(self, rt: &HostRuntime, name: &[u8], done: u64) {
        if self.is_long(rt) {
            progress(rt, name, done, self.size);
        }
    }

    // Takes away what was shown: an escape that erases the terminal's line.
    pub fn end(self, rt: &HostRuntime) {
        if self.is_long(rt) {
            let _ = write_whole(rt, Stream::Errors, b"\x1B[K");
        }
    }
}
