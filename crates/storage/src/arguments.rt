// The program's arguments.
ghost use Rattle.std.specs.Prelude.{◌≡◌};
ghost use Rattle.std.specs.Io.{ReadsAtMost};

use crate::errors::{EINVAL, ENAMETOOLONG};
use std::env::FillError;
use std::io;
use std::io::Error;
use std::rt::Env;

// Puts an argument at the start of a buffer, and answers how many bytes it has. The program's own name is argument 0.
// Kept: the length and not the text, as `Read` answers it: a public promise on the buffer (`ReadsAtMost`), by which callers cut it.
pub fn argument(rt: &HostRuntime, at: usize, buffer: &mut [u8]) -> io::Result<usize>
    ensures { ReadsAtMost result buffer.new }
{
    rt.arg(at, buffer).map_err(|error| match error {
        FillError::TooLong => Error::from_raw_os_error(ENAMETOOLONG),
        FillError::NotPresent => Error::from_raw_os_error(EINVAL),
    })
}

// Whether there is an argument at a place.
fn is_argument(rt: &HostRuntime, at: usize) -> bool {
    !matches!(rt.arg(at, &mut [0u8; 1]), Err(FillError::NotPresent))
}

// How many arguments the program was started with, its own name among them.
pub fn argument_count(rt: &HostRuntime) -> usize {
    (0..usize::MAX)
        .find(|at| !is_argument(rt, *at))
        .unwrap_or(usize::MAX)
}
