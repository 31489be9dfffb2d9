// Reads and writes that wait where a signal interrupted them, or where nothing is there yet.
ghost use Rattle.std.specs.Prelude.{◌≡◌, length};
ghost use Rattle.std.specs.Io.{ReadsAtMost};

use std::io::{Error, ErrorKind, Read, Write};
use std::time::Duration;
use std::{io, thread};

// The calls that one read or write makes at most, which no machine lives to make.
const MOST: u64 = u64::MAX;

// Where the program writes beside the journal.
#[derive(Clone, Copy)]
pub enum Stream {
    Output,
    Errors,
}

// Waits for some milliseconds.
pub fn pause(rt: &HostRuntime, milliseconds: u64) {
    thread::sleep(rt, Duration::from_millis(milliseconds));
}

// Whether the call that just failed is to be made again: a signal interrupted it, or nothing is there yet, which is waited for.
fn is_passing(rt: &HostRuntime, error: Error) -> bool {
    if error.kind() == ErrorKind::WouldBlock {
        pause(rt, 5);
        return true;
    }
    error.kind() == ErrorKind::Interrupted
}

// Reads a part of an input: 0 at the end.
pub fn read_from<R: Read>(rt: &HostRuntime, from: &mut R, buffer: &mut [u8]) -> io::Result<usize>
    ensures { ReadsAtMost result buffer.new }
{
    // Kept: a loop with no bound is `rt.forever()`, which needs the handle Wait, and no handle is allowed.
    for _ in 0..MOST {
        match from.read(buffer) {
            Err(error) if is_passing(rt, error) => {}
            read => return read,
        }
    }
    Err(Error::from(ErrorKind::Interrupted))
}

// Writes all bytes. If that fails, some may be written.
pub fn write_to<W: Write>(rt: &HostRuntime, to: &mut W, bytes: &[u8]) -> io::Result<()> {
    let mut rest = bytes;
    // Kept: the bound is as in `read_from`, and a chain would have to change `rest` from within its closure.
    for _ in 0..MOST {
        if rest.is_empty() {
            return Ok(());
        }
        match to.write(rest) {
            Ok(0) => return Err(Error::from(ErrorKind::WriteZero)),
            Ok(n) => rest = &rest[n..],
            Err(error) if is_passing(rt, error) => {}
            Err(error) => return Err(error),
        }
    }
    Err(Error::from(ErrorKind::Interrupted))
}

// Writes all bytes on a standard stream. If that fails, some may be written.
pub fn write_whole(rt: &HostRuntime, stream: Stream, bytes: &[u8]) -> io::Result<()> {
    match stream {
        Stream::Output => write_to(rt, &mut rt.stdout(), bytes),
        Stream::Errors => write_to(rt, &mut rt.stderr(), bytes),
    }
}
