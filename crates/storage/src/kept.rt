// The file of a kept journal.
ghost use Rattle.std.specs.Prelude.{◌≡◌, ◌-◌, ◌&&◌, nat_le, nat_lt, length, IfOk, IsSome, OnErr, OnOk};
ghost use Rattle.storage.specs.Kept.{opened_journal, grown_by, Continued};

use crate::files::{checked, cut, may_open, open_or_make, opened_to_append};
use crate::handles::Handles;
use crate::known::{Facts, Identity, facts_at, facts_of, facts_on, is_same, leads_to};
use crate::messages::{Stopped, Trouble};
use crate::waiting::write_to;
use std::fs::File;
use std::io;

// A journal that was just opened to be kept: the numbers of its file, if they could be had, and those of its lock.
#[derive(Clone, Copy, PartialEq, Eq)]
pub struct Opened {
    pub file: Option<Identity>,
    pub lock: Identity,
}

// The journal that was opened, with the facts of its file, if they could be had, and its lock.
fn journal_of(facts: Result<Facts, Stopped>, lock: Identity) -> Opened
    ensures { result ≡ opened_journal facts lock }
{
    Opened {
        file: facts.ok().map(|facts| facts.identity),
        lock,
    }
}

// A kept journal, which is a value only while all is well: the numbers of its file and of its lock, and where it ends as this program left it.
#[derive(Clone, Copy, PartialEq, Eq)]
pub struct Journal {
    pub file: Identity,
    pub lock: Identity,
    pub end: u64,
}

impl Journal {
    // The journal with so many bytes more.
    fn grown(self, bytes: usize) -> Journal
        ensures { result ≡ grown_by self bytes }
    {
        Journal {
            end: self.end.wrapping_add(bytes as u64),
            ..self
        }
    }
}

// Whether a stream, by the name that the system keeps for it, is a file, or that can't be told.
fn may_be(rt: &HostRuntime, stream: &str, file: Identity) -> bool {
    facts_on(rt, stream).map_or(true, |facts| facts.identity == file)
}

// Whether a file of so many bytes has grown by no more than some behind an end.
fn has_grown(size: u64, end: u64, bytes: u64) -> bool
    ensures { result ≡ nat_lt end size && nat_le (size - end) bytes }
{
    end < size && size - end <= bytes
}

impl<'a> Handles<'a> {
    // That the journal's name does not lead to the file of a standard stream, and can't lead to it: what is kept would be read again, or answers
    // would stand among the calls.
    fn check_streams(&self, rt: &HostRuntime) -> Result<(), Trouble> {
        if let Ok(facts) = facts_at(rt, self.name) {
            if may_be(rt, "/proc/self/fd/2", facts.identity) {
                return Err(Trouble::IsErrors);
            }
            if may_be(rt, "/proc/self/fd/0", facts.identity)
                || may_be(rt, "/proc/self/fd/1", facts.identity)
            {
                return Err(Trouble::IsStream);
            }
        }
        Ok(())
    }

    // The journal's file opened for appending, if it is the one that is kept.
    fn open_append(&self, rt: &HostRuntime, kept: Identity) -> Result<File, Trouble> {
        let file = checked(opened_to_append(rt, self.name))?;
        if is_same(facts_of(&file), kept) {
            Ok(file)
        } else {
            Err(Trouble::Elsewhere)
        }
    }

    // The facts of the journal's file.
    fn facts(&self) -> io::Result<Facts> {
        facts_of(self.journal_file()?)
    }

    // Cuts the journal's file to its first bytes and forces it to disk.
    fn cut(&self, bytes: u64) -> io::Result<()> {
        cut(self.journal_file()?, bytes)
    }

    // Opens the journal to be kept, making it if it is absent, and takes its lock. If it can't be had that is said, and there is no lock.
    pub fn open_kept(&mut self, rt: &HostRuntime) -> Result<Opened, Stopped>
        ensures journal { OnOk result (IsSome self.new.journal) }
        ensures lock { OnOk result (IsSome self.new.lock) }
        ensures refused { OnErr result (self.new.journal ≡ self.old.journal) }
    {
        self.said(rt, may_open(rt, self.name))?;
        self.said(rt, self.check_streams(rt))?;
        let lock = self.take_lock(rt)?;
        let file = open_or_make(rt, self.name).inspect_err(|_| self.drop_lock(rt, lock))?;
        Ok(self.opened(rt, file, lock))
    }

    // The journal that was just opened with its lock, and whose file is now among the open ones.
    fn opened(&mut self, rt: &HostRuntime, file: File, lock: Identity) -> Opened
        ensures journal { IsSome self.new.journal }
        ensures lock { self.new.lock ≡ self.old.lock }
        ensures held { result.lock ≡ lock }
    {
        let facts = self.said(rt, facts_of(&file));
        self.journal = Some(file);
        journal_of(facts, lock)
    }

    // That the journal's name still leads to its file, and its lock is still this program's; if not, that is said.
    fn check_held(&self, rt: &HostRuntime, file: Identity, lock: Identity) -> Result<(), Stopped> {
        if !leads_to(rt, self.name, file) {
            return Err(Trouble::Elsewhere.say(rt, self.name));
        }
        self.check_lock(rt, lock)
    }

    // Cuts off what the file has behind its complete lines, so that it ends there.
    fn cut_rest(&self, end: u64) -> Result<(), Trouble> {
        let size = self.facts()?.size;
        if size < end {
            return Err(Trouble::Shorter);
        }
        if end < size {
            self.cut(end)?;
        }
        Ok(())
    }

    // The journal ready to be appended to, after its complete lines, which are so many bytes, were replayed; what the file has behind them is cut
    // off. If that fails it is said.
    pub fn continue_kept(
        &mut self,
        rt: &HostRuntime,
        opened: Opened,
        end: u64,
    ) -> Result<Journal, Stopped>
        ensures continued { IfOk result (λ journal. Continued opened end journal) }
        ensures journal { OnOk result (IsSome self.new.journal) }
        ensures refused { OnErr result (self.new.journal ≡ self.old.journal) }
        ensures lock { self.new.lock ≡ self.old.lock }
    {
        let Some(file) = opened.file else {
            return Err(Stopped);
        };
        self.check_held(rt, file, opened.lock)?;
        self.said(rt, self.cut_rest(end))?;
        let append = self.said(rt, self.open_append(rt, file))?;
        self.journal = Some(append);
        Ok(Journal {
            file,
            lock: opened.lock,
            end,
        })
    }

    // That the journal is as this program left it; if not, that is said.
    fn check_left(&self, rt: &HostRuntime, journal: Journal) -> Result<(), Stopped> {
        let facts = self.said(rt, self.facts())?;
        if facts.size != journal.end {
            return Err(Trouble::Changed.say(rt, self.name));
        }
        self.check_held(rt, journal.file, journal.lock)
    }

    // Whether the file, to which so many bytes failed to be appended, is cut back to its end.
    fn is_cut_back(&self, end: u64, bytes: u64) -> bool {
        self.facts().is_ok_and(|facts| {
            facts.size == end || has_grown(facts.size, end, bytes) && self.cut(end).is_ok()
        })
    }

    // Writes the bytes at the journal's end and forces them to disk.
    fn write_forced(&self, rt: &HostRuntime, bytes: &[u8]) -> io::Result<()> {
        let mut file = self.journal_file()?;
        write_to(rt, &mut file, bytes)?;
        file.sync_data()
    }

    // The journal with the bytes appended and forced to disk. If anything is not as it was left nothing is written, and if the write fails the file
    // is cut back; either is said, and so is where it can't be told that none of the bytes is there.
    pub fn append(
        &self,
        rt: &HostRuntime,
        journal: Journal,
        bytes: &[u8],
    ) -> Result<Journal, Stopped>
        ensures { IfOk result (λ forced. forced ≡ grown_by journal (length bytes.now)) }
    {
        self.check_left(rt, journal)?;
        match self.write_forced(rt, bytes) {
            Ok(()) => Ok(journal.grown(bytes.len())),
            Err(error) => {
                let stopped = Trouble::System(error).say(rt, self.name);
                if self.is_cut_back(journal.end, bytes.len() as u64) {
                    return Err(stopped);
                }
                Err(Trouble::MaybeKept.say(rt, self.name))
            }
        }
    }

    // Closes the journal's file, and removes its lock if that is still this program's.
    pub fn close_kept(&mut self, rt: &HostRuntime, opened: Opened)
        ensures closed { self.new.journal ≡ None }
        ensures lock { self.new.lock ≡ self.old.lock }
    {
        self.journal = None;
        self.drop_lock(rt, opened.lock);
    }
}
