// The files that the program has open beside the standard streams, and where its lines come from.
ghost use Rattle.std.specs.Prelude.{◌≡◌, ◌↔◌, IfOk, IsSome, IsOk};
ghost use Rattle.std.specs.Io.{ReadsAtMost};
ghost use Rattle.std.specs.Result.{result_ok};

use crate::errors::EBADF;
use crate::files::open_read;
use crate::messages::{Stopped, Trouble, said};
use crate::terminals::Watch;
use crate::waiting::read_from;
use std::fs::File;
use std::io;
use std::io::Error;

// The journal's name, its file, the file of its lock, which stays open as long as the program runs, and the watch by which its replay is shown.
#[derive(Drop)]
pub struct Handles<'a> {
    pub name: &'a [u8],
    pub journal: Option<File>,
    pub lock: Option<File>,
    watch: Option<Watch>,
}

// What is read: standard input, or the journal that is open.
#[derive(Clone, Copy, PartialEq, Eq)]
pub enum Input {
    Standard,
    Journal,
}

impl<'a> Handles<'a> {
    // No file of the journal with a name is open.
    pub fn of(journal: &'a [u8]) -> Handles<'a>
        ensures name { result.name.now ≡ journal.now }
        ensures journal { result.journal ≡ None }
        ensures lock { result.lock ≡ None }
    {
        Handles {
            name: journal,
            journal: None,
            lock: None,
            watch: None,
        }
    }

    // What was asked of the file with the journal's name; a trouble is said.
    pub(crate) fn said<T: Drop, E: Into<Trouble>>(
        &self,
        rt: &HostRuntime,
        asked: Result<T, E>,
    ) -> Result<T, Stopped>
        ensures { result_ok result ≡ result_ok asked }
    {
        said(rt, self.name, asked)
    }

    // The journal's file.
    pub fn journal_file(&self) -> io::Result<&File>
        ensures { IfOk result (λ file. self.now.journal ≡ Some file.now) }
    {
        self.journal.as_ref().ok_or(Error::from_raw_os_error(EBADF))
    }

    // Opens the journal for reading; if it can't be had, that is said.
    pub fn open_journal(&mut self, rt: &HostRuntime) -> Result<(), Stopped>
        ensures opened { IsOk result ↔ IsSome self.new.journal }
        ensures lock { self.new.lock ≡ self.old.lock }
    {
        self.journal = self.said(rt, open_read(rt, self.name)).ok();
        self.journal.is_some().then_some(()).ok_or(Stopped)
    }

    // Closes the journal's file.
    pub fn close_journal(&mut self)
        ensures closed { self.new.journal ≡ None }
        ensures lock { self.new.lock ≡ self.old.lock }
    {
        self.journal = None;
    }

    // Reads a part of an input: 0 at the end.
    pub fn read_part(&self, rt: &HostRuntime, input: Input, buffer: &mut [u8]) -> io::Result<usize>
        ensures { ReadsAtMost result buffer.new }
    {
        match input {
            Input::Standard => read_from(rt, &mut rt.stdin(), buffer),
            Input::Journal => {
                let mut file = self.journal_file()?;
                read_from(rt, &mut file, buffer)
            }
        }
    }

    // Begins to watch over the replay of the journal that is open.
    pub fn watch_journal(&mut self, rt: &HostRuntime)
        ensures journal { self.new.journal ≡ self.old.journal }
        ensures lock { self.new.lock ≡ self.old.lock }
    {
        self.watch = match &self.journal {
            Some(file) => Watch::begin(rt, file),
            None => None,
        };
    }

    // Shows how many bytes of the journal are taken, where its replay takes long: once or twice in 4 MiB, since a part has at most 64 KiB.
    pub fn show_progress(&self, rt: &HostRuntime, taken: u64) {
        if let Some(watch) = self.watch {
            if (taken >> 16) % 64 == 0 {
                watch.show(rt, self.name, taken);
            }
        }
    }

    // Takes away what was shown.
    pub fn end_progress(&self, rt: &HostRuntime) {
        if let Some(watch) = self.watch {
            watch.end(rt);
        }
    }
}
