// Messages on standard error, and the troubles of files that are said there.
// Kept: `rt` and a name side by side: what a line is about is a file, a lock, a stream or /proc by turns, so a struct would be made at each call.
ghost use Rattle.std.specs.Prelude.{◌≡◌};
ghost use Rattle.std.specs.Result.{result_ok};

use crate::errors::EBADF;
use crate::texts::show;
use crate::waiting::{Stream, write_whole};
use std::fmt;
use std::fmt::{Display, Formatter, InlineText};
use std::io::Error;
use std::os::fd::AsFd;

// Something failed or is not as it must be, which was said on standard error: nothing is gone on with.
#[derive(Clone, Copy, Debug, PartialEq, Eq)]
pub struct Stopped;

// Why a file can't be had or gone on with.
#[derive(Clone, Copy)]
pub enum Trouble {
    // a call of the system failed
    System(Error),
    // it is no regular file
    NotRegular,
    // its descriptor is that of a standard stream
    NotOpened,
    // the same of a lock that was just made
    NotMade,
    // it is, or may be, the file of standard error, where nothing is said
    IsErrors,
    // it is, or may be, that of standard input or output: what is kept would be read again, or answers would stand among the calls
    IsStream,
    // it is shorter than what was replayed of it
    Shorter,
    // its size is not as this program left it
    Changed,
    // its name leads to another one or to none
    Elsewhere,
    // a write failed, and it can't be told that nothing of it is there
    MaybeKept,
    // a lock has something else than a process number in it
    Foreign,
    // a lock has another number than a moment ago
    JustTaken,
    // a lock is no longer this program's
    LockLost,
    // it is not shorter than so many bytes
    TooLong(usize),
}

impl Display for Trouble {
    fn fmt<W: fmt::Write>(&self, f: &mut Formatter<W>) -> fmt::Result {
        match *self {
            Trouble::System(error) => {
                f.write_str(system_text(InlineText::<128>::of(error).as_str()))
            }
            Trouble::NotRegular => f.write_str("not a regular file"),
            Trouble::NotOpened => f.write_str("not opened, since a standard stream is closed"),
            Trouble::NotMade => f.write_str("not made, since a standard stream is closed"),
            Trouble::IsErrors => Ok(()),
            Trouble::IsStream => f.write_str("is standard input or output too; nothing is kept"),
            Trouble::Shorter => f.write_str("changed by another program"),
            Trouble::Changed => f.write_str("changed by another program; nothing more is kept"),
            Trouble::Elsewhere => {
                f.write_str("the name leads to another file or to none; nothing more is kept")
            }
            Trouble::MaybeKept => {
                f.write_str("the last lines may be kept though they were not answered")
            }
            Trouble::Foreign => {
                f.write_str("no process number in it; remove it if no ledger keeps the journal")
            }
            Trouble::JustTaken => f.write_str("another ledger just took the lock"),
            Trouble::LockLost => f.write_str("another ledger took the lock; nothing more is kept"),
            Trouble::TooLong(room) => write!(f, "too long, it must have fewer than {room} bytes"),
        }
    }
}

impl From<Error> for Trouble {
    fn from(error: Error) -> Trouble {
        Trouble::System(error)
    }
}

impl Trouble {
    // Says it of the file with a name, but for what can't be said.
    pub fn say(self, rt: &HostRuntime, name: &[u8]) -> Stopped {
        if !matches!(self, Trouble::IsErrors) {
            let text = InlineText::<128>::of(self);
            about(rt, name, text.as_str().as_bytes());
        }
        Stopped
    }
}

// What was asked of the file with a name; a trouble is said.
pub fn said<T: Drop, E: Into<Trouble>>(
    rt: &HostRuntime,
    name: &[u8],
    asked: Result<T, E>,
) -> Result<T, Stopped>
    ensures { result_ok result ≡ result_ok asked }
{
    asked.map_err(|error| error.into().say(rt, name))
}

// The system's text for an error, of which std's text has the number too.
fn system_text(text: &str) -> &str {
    text.split_once(" (os error ")
        .map_or(text, |(front, _)| front)
}

// Bytes as they are.
fn say(rt: &HostRuntime, text: &[u8]) {
    let _ = write_whole(rt, Stream::Errors, text);
}

// Kept: pieces and no format string, since a file's name is bytes, which need be no text.
// A line: what it is about, and what is said of it, piece by piece.
fn say_line(rt: &HostRuntime, name: &[u8], pieces: &[&[u8]]) {
    begin(rt, name);
    for piece in pieces {
        say(rt, piece);
    }
    say(rt, b"\n");
}

// The beginning of a line: what it is about.
fn begin(rt: &HostRuntime, name: &[u8]) {
    say(rt, b"ledger: ");
    say(rt, name);
    say(rt, b": ");
}

// What failed, a file or a stream, with the system's text for the error.
pub fn failed(rt: &HostRuntime, what: &[u8], error: Error) -> Stopped {
    Trouble::System(error).say(rt, what)
}

// A line about a file.
pub fn about(rt: &HostRuntime, name: &[u8], text: &[u8]) {
    say_line(rt, name, &[text]);
}

// How many of a file's bytes are done, on a line of a terminal that the next one is written over.
pub fn progress(rt: &HostRuntime, name: &[u8], done: u64, size: u64) {
    let counts = InlineText::<64>::of(format_args!("{done} of {size} bytes\r"));
    begin(rt, name);
    say(rt, counts.as_str().as_bytes());
}

// A line about a line of a file.
pub fn about_line(rt: &HostRuntime, name: &[u8], line: u64, text: &[u8]) {
    let number = InlineText::<20>::of(line);
    say_line(
        rt,
        name,
        &[b"line ", number.as_str().as_bytes(), b": ", text],
    );
}

// That another process keeps the journal.
pub fn kept_by(rt: &HostRuntime, name: &[u8], process: u64, lock: &[u8]) -> Stopped {
    let number = InlineText::<20>::of(process);
    say_line(
        rt,
        name,
        &[
            b"kept by process ",
            number.as_str().as_bytes(),
            b", see ",
            lock,
        ],
    );
    Stopped
}

// That the rest of a journal, a last line with no newline, is dropped; it is shown with `?` for each byte that is no printed sign.
pub fn show_dropped(rt: &HostRuntime, name: &[u8], rest: &[u8]) {
    begin(rt, name);
    say(rt, b"the last line has no end and is dropped: ");
    let mut buffer = [0u8; 4096];
    for piece in rest.chunks(4096) {
        let n = piece.len().min(buffer.len());
        let shown = &mut buffer[..n];
        shown.copy_from_slice(&piece[..n]);
        show(shown);
        say(rt, shown);
    }
    say(rt, b"\n");
}

// Whether a standard stream is open: of one that is not the system gives no second descriptor, and answers this error.
fn is_open<F: AsFd>(stream: &F) -> bool {
    !stream
        .as_fd()
        .try_clone_to_owned()
        .is_err_and(|error| error.raw_os_error() == Some(EBADF))
}

// Whether the three standard streams are open. What is closed is said on standard error, if that is open.
pub fn are_streams_open(rt: &HostRuntime) -> bool {
    let input = is_open(&rt.stdin());
    let output = is_open(&rt.stdout());
    let errors = is_open(&rt.stderr());
    if errors && !input {
        say(rt, b"ledger: standard input is closed\n");
    }
    if errors && !output {
        say(rt, b"ledger: standard output is closed\n");
    }
    input && output && errors
}
