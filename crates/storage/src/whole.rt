// A whole file, read at once.
ghost use Rattle.std.specs.Prelude.{◌<◌, ◌≤◌, length, IfOk};
ghost use Rattle.std.specs.Result.{OkIff};

use crate::files::open_read;
use crate::messages::{Stopped, Trouble, said};
use crate::waiting::read_from;
use std::fs::File;
use std::io;

// Reads an open file until it ends, a read fails, or the slice is full; answers how many bytes were read.
fn fill(rt: &HostRuntime, mut file: File, buffer: &mut [u8]) -> io::Result<usize>
    ensures { IfOk result (λ n. n ≤ length buffer.old) }
{
    // Kept: a place, since the answer is how far it came; a slice moved on as in `write_to` would give it as a difference of lengths.
    let mut done = 0;
    while done < buffer.len() {
        match read_from(rt, &mut file, &mut buffer[done..])? {
            0 => return Ok(done),
            more => done += more,
        }
    }
    Ok(done)
}

// How many bytes were read, which must be fewer than there was room for.
fn shorter_than(room: usize, read: usize) -> Result<usize, Trouble>
    ensures { OkIff result (read < room) read }
{
    (read < room).then_some(read).ok_or(Trouble::TooLong(room))
}

// The regular file with a name, read to its end into the front of a slice, which must be longer than the file.
fn read_shorter(rt: &HostRuntime, name: &[u8], buffer: &mut [u8]) -> Result<usize, Trouble>
    ensures { IfOk result (λ n. n < length buffer.old) }
{
    let read = fill(rt, open_read(rt, name)?, buffer)?;
    shorter_than(buffer.len(), read)
}

// Reads the regular file with a name to its end into the front of a slice, which must be longer than the file, and answers how many bytes it has. If
// it can't be had, or is not shorter than the slice, that is said.
pub fn read_whole(rt: &HostRuntime, name: &[u8], buffer: &mut [u8]) -> Result<usize, Stopped>
    ensures { IfOk result (λ n. n < length buffer.old) }
{
    said(rt, name, read_shorter(rt, name, buffer))
}
