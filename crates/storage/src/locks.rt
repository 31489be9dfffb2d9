// The lock of a kept journal: a file beside it, with the number of the process that keeps it.
ghost use Rattle.std.specs.Prelude.{◌≡◌, ℕ, ◌<◌, ◌≤◌, ◌≢◌, length, take, slice_index, IfOk, IsSome, OnOk};
ghost use Rattle.storage.specs.Locks.{holder_in, number_line};

use crate::files::{created, open_read, own, remove};
use crate::handles::Handles;
use crate::known::{Facts, Identity, facts_at, facts_of, facts_on, leads_to};
use crate::messages::{Stopped, Trouble, failed, kept_by, said};
use crate::texts::{lock_of, process_in};
use crate::waiting::{pause, read_from, write_to};
use std::fmt::InlineText;
use std::fs::{File, TryLockError};
use std::io;
use std::io::ErrorKind;
use std::os::fd::AsRawFd;

// What stands in a lock: nothing, the number of a process, or something else.
#[derive(Clone, Copy, PartialEq, Eq)]
enum Holder {
    Nobody,
    Process(u64),
    Foreign,
}

// How many bytes a text has before its first blank.
fn before_blank(text: &[u8]) -> usize
    ensures within { result ≤ length text.now }
    ensures before { (k : ℕ) → k < result → slice_index text.now k ≢ 32 }
    ensures found { result < length text.now → slice_index text.now result ≡ 32 }
{
    text.iter()
        .position(|byte| *byte == b' ')
        .unwrap_or(text.len())
}

// What the first bytes of a buffer have before their first blank, and a newline.
#[tactic(auto, using(crate::proofs::Blanks::line_cut))]
fn number_line<'a>(line: &'a mut [u8; 32], n: usize) -> &'a [u8]
    requires { n < 32 }
    ensures { result.now ≡ number_line (take n line.old) }
{
    let end = before_blank(&line[..n]);
    line[end] = b'\n';
    &line[..end + 1]
}

// This process's number and a newline, at the front of a buffer. The system keeps the number at the front of the file /proc/self/stat, before a
// blank.
fn own_number<'a>(rt: &HostRuntime, line: &'a mut [u8; 32]) -> io::Result<&'a [u8]>
    ensures { IfOk result (λ own. length own.now ≤ 32) }
{
    let mut file = File::open(rt, "/proc/self/stat")?;
    let n = read_from(rt, &mut file, &mut line[..24])?;
    Ok(number_line(line, n))
}

// Writes this process's number and a newline, in one piece.
fn write_number(rt: &HostRuntime, mut file: &File) -> io::Result<()> {
    let mut line = [0u8; 32];
    write_to(rt, &mut file, own_number(rt, &mut line)?)
}

// Makes a new lock its owner's alone, with this process's number, and answers its facts.
fn sign(rt: &HostRuntime, file: &File) -> io::Result<Facts> {
    own(file)?;
    write_number(rt, file)?;
    facts_of(file)
}

// The numbers of a lock that was just made, if it is beside the standard streams and could be signed.
fn signed(rt: &HostRuntime, file: &File) -> Result<Identity, Trouble> {
    if file.as_raw_fd() < 3 {
        return Err(Trouble::NotMade);
    }
    Ok(sign(rt, file)?.identity)
}

// What stands in the text of a lock.
fn holder_in(text: &[u8]) -> Holder
    ensures { result ≡ holder_in text.now }
{
    if text.is_empty() {
        return Holder::Nobody;
    }
    process_in(text).map_or(Holder::Foreign, Holder::Process)
}

// Kept: `rt` and a lock's name side by side, here and below, as `said` and `open_read` take them; a struct would be made in three methods.
// What stands in the lock with a name.
fn read_holder(rt: &HostRuntime, lock: &[u8]) -> Result<Holder, Trouble> {
    let mut file = open_read(rt, lock)?;
    let mut text = [0u8; 32];
    let n = read_from(rt, &mut file, &mut text)?;
    Ok(holder_in(&text[..n]))
}

// What stands in a lock; if it can't be read, that is said. Another ledger may be just making it, so an empty one is waited for, a second long.
fn awaited_holder(rt: &HostRuntime, lock: &[u8]) -> Result<Holder, Stopped> {
    for _ in 0..10 {
        let holder = said(rt, lock, read_holder(rt, lock))?;
        if holder != Holder::Nobody {
            return Ok(holder);
        }
        pause(rt, 100);
    }
    Ok(Holder::Nobody)
}

// Whether a number is this process's own.
fn is_own(rt: &HostRuntime, number: u64) -> io::Result<bool> {
    let mut line = [0u8; 32];
    Ok(process_in(own_number(rt, &mut line)?) == Some(number))
}

// Whether the system shows no process with a number. Of each that exists it has a directory in /proc, unless it hides those of others: then it hides
// that of process 1 too, where that is another's.
fn is_not_shown(rt: &HostRuntime, number: u64) -> bool {
    if facts_on(rt, "/proc/1").is_err() {
        return false;
    }
    let path = InlineText::<32>::of(format_args!("/proc/{number}"));
    facts_on(rt, path.as_str()).is_err_and(|error| error.kind() == ErrorKind::NotFound)
}

// Whether the process with a number that stands in a lock is gone. Numbers are given again, so this process's own is another's that is gone.
fn is_gone(rt: &HostRuntime, number: u64) -> bool {
    is_own(rt, number).is_ok_and(|own| own || is_not_shown(rt, number))
}

// Whether another process has the system's lock on the file of a lock, or that can't be told; if it can't be opened, that is said.
fn is_locked(rt: &HostRuntime, lock: &[u8]) -> bool {
    said(rt, lock, open_read(rt, lock)).map_or(true, |file| {
        matches!(file.try_lock_shared(), Err(TryLockError::WouldBlock))
    })
}

impl<'a> Handles<'a> {
    // Makes the lock with a name of its own, which leads to no file. Its descriptor stays open as long as the program runs, so that no other file
    // gets its numbers, and so does a lock of the system on it, where the file's disk has such locks. If it can't be signed that is said, and the
    // lock is closed and removed; one in the place of a standard stream before a word is said, or the word would stand in it.
    fn make_lock(&mut self, rt: &HostRuntime, lock: &[u8], file: File) -> Result<Identity, Stopped>
        ensures lock { OnOk result (IsSome self.new.lock) }
        ensures journal { self.new.journal ≡ self.old.journal }
    {
        match signed(rt, &file) {
            Ok(numbers) => {
                let _ = file.try_lock();
                self.lock = Some(file);
                Ok(numbers)
            }
            Err(trouble) => {
                let first = matches!(trouble, Trouble::System(_)).then(|| trouble.say(rt, lock));
                drop(file);
                let _ = remove(rt, lock);
                Err(first.unwrap_or_else(|| trouble.say(rt, lock)))
            }
        }
    }

    // That a lock is left over from a process that is gone; if not, that is said. One that stays empty was left by a process that ended between
    // making and writing it. It is read once more at the end, in case another ledger took it.
    fn check_left_over(&self, rt: &HostRuntime, lock: &[u8]) -> Result<(), Stopped> {
        let holder = awaited_holder(rt, lock)?;
        let number = match holder {
            Holder::Nobody => None,
            Holder::Process(number) => Some(number),
            Holder::Foreign => return Err(Trouble::Foreign.say(rt, lock)),
        };
        if is_locked(rt, lock) || number.is_some_and(|number| !is_gone(rt, number)) {
            return Err(kept_by(rt, self.name, number.unwrap_or(0), lock));
        }
        if said(rt, lock, read_holder(rt, lock)).is_ok_and(|now| now == holder) {
            return Ok(());
        }
        Err(Trouble::JustTaken.say(rt, lock))
    }

    // Takes the lock with a name of its own, if no other process has it; if it can't be had, that is said.
    fn take_named(&mut self, rt: &HostRuntime, lock: &[u8]) -> Result<Identity, Stopped>
        ensures lock { OnOk result (IsSome self.new.lock) }
        ensures journal { self.new.journal ≡ self.old.journal }
    {
        let made = match created(rt, lock) {
            Err(error) if error.kind() == ErrorKind::AlreadyExists => {
                self.check_left_over(rt, lock)?;
                said(rt, lock, remove(rt, lock))?;
                created(rt, lock)
            }
            made => made,
        };
        let file = said(rt, lock, made)?;
        self.make_lock(rt, lock, file)
    }

    // Takes the journal's lock and answers its numbers; if it can't be had, that is said. Where this process can't know its number, none is made.
    pub(crate) fn take_lock(&mut self, rt: &HostRuntime) -> Result<Identity, Stopped>
        ensures lock { OnOk result (IsSome self.new.lock) }
        ensures journal { self.new.journal ≡ self.old.journal }
    {
        own_number(rt, &mut [0u8; 32]).map_err(|error| failed(rt, b"/proc/self/stat", error))?;
        let mut buffer = [0u8; 8192];
        let lock = lock_of(self.name, &mut buffer);
        self.take_named(rt, lock)
    }

    // That the journal's lock is still the one with these numbers; if not, that is said.
    pub(crate) fn check_lock(&self, rt: &HostRuntime, numbers: Identity) -> Result<(), Stopped> {
        let mut buffer = [0u8; 8192];
        let lock = lock_of(self.name, &mut buffer);
        if leads_to(rt, lock, numbers) {
            return Ok(());
        }
        Err(Trouble::LockLost.say(rt, lock))
    }

    // Removes the journal's lock, if it is still the one with these numbers.
    pub(crate) fn drop_lock(&self, rt: &HostRuntime, numbers: Identity) {
        let mut buffer = [0u8; 8192];
        let lock = lock_of(self.name, &mut buffer);
        if leads_to(rt, lock, numbers) {
            let _ = said(rt, lock, remove(rt, lock));
        }
    }
}
