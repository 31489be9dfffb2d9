// Regular files, opened, made and cut.
// Kept: `rt` and a name side by side, here and below: std takes `rt` and a path, and a lock's or a directory's name would need a struct anew.
ghost use Rattle.std.specs.Prelude.{◌≡◌, ℕ, ◌-◌, ◌<◌, ◌≤◌, ◌≢◌, length, slice_index, IfOk};

use crate::known::{facts_at, facts_of};
use crate::messages::{Stopped, Trouble, said};
use crate::texts::path_in;
use std::fs::{File, OpenOptions, Permissions};
use std::io::ErrorKind;
use std::os::fd::AsRawFd;
use std::os::unix::fs::PermissionsExt;
use std::{fs, io};

// Whether a name may be opened: it leads to a regular file or to none. If not, nothing is opened: a pipe would wait.
pub fn may_open(rt: &HostRuntime, name: &[u8]) -> Result<(), Trouble> {
    match facts_at(rt, name) {
        Ok(facts) if facts.regular => Ok(()),
        Ok(_) => Err(Trouble::NotRegular),
        Err(error) if error.kind() == ErrorKind::NotFound && !name.is_empty() => Ok(()),
        Err(error) => Err(Trouble::System(error)),
    }
}

// A file as it was opened, if it is a regular one beside the standard streams. One in the place of a standard stream is closed before a word is said,
// or the word would stand in the file.
pub fn checked(opened: io::Result<File>) -> Result<File, Trouble>
    ensures { IfOk result (λ file. opened ≡ Ok file) }
{
    let file = opened?;
    if file.as_raw_fd() < 3 {
        return Err(Trouble::NotOpened);
    }
    if !facts_of(&file)?.regular {
        return Err(Trouble::NotRegular);
    }
    Ok(file)
}

// Kept: four ways to open, three by options of their own: one function would take the options, which each caller would then write out.
// The file at a name, opened for reading.
fn opened_to_read(rt: &HostRuntime, name: &[u8]) -> io::Result<File> {
    File::open(rt, path_in(name)?)
}

// The file at a name, opened for reading and writing.
fn opened_to_update(rt: &HostRuntime, name: &[u8]) -> io::Result<File> {
    OpenOptions::new()
        .read(true)
        .write(true)
        .open(rt, path_in(name)?)
}

// The file at a name, opened for writing at its end.
pub fn opened_to_append(rt: &HostRuntime, name: &[u8]) -> io::Result<File> {
    OpenOptions::new().append(true).open(rt, path_in(name)?)
}

// A file made at a name that leads to none.
pub fn created(rt: &HostRuntime, name: &[u8]) -> io::Result<File> {
    OpenOptions::new()
        .write(true)
        .create_new(true)
        .open(rt, path_in(name)?)
}

// Removes the file at a name.
pub fn remove(rt: &HostRuntime, name: &[u8]) -> io::Result<()> {
    fs::remove_file(rt, path_in(name)?)
}

// Makes a file its owner's alone.
pub fn own(file: &File) -> io::Result<()> {
    file.set_permissions(Permissions::from_mode(0o600))
}

// Opens a regular file for reading.
pub fn open_read(rt: &HostRuntime, name: &[u8]) -> Result<File, Trouble> {
    may_open(rt, name)?;
    checked(opened_to_read(rt, name))
}

// The place behind the last slash of a name, or 0.
fn behind_slash(name: &[u8]) -> usize
    ensures within { result ≤ length name.now }
    ensures slash { 0 < result → slice_index name.now (result - 1) ≡ 47 }
    ensures behind { (k : ℕ) → result ≤ k → k < length name.now → slice_index name.now k ≢ 47 }
{
    name.iter()
        .rposition(|byte| *byte == b'/')
        .map_or(0, |slash| slash + 1)
}

// Forces a directory to disk.
fn force_directory(rt: &HostRuntime, directory: &[u8]) -> Result<(), Trouble> {
    Ok(opened_to_read(rt, directory)?.sync_all()?)
}

// Forces a file's directory to disk, so that a file that was made stays; if that fails, it is said.
fn sync_directory(rt: &HostRuntime, name: &[u8]) -> Result<(), Stopped> {
    let directory = match behind_slash(name) {
        0 => b".".as_slice(),
        n => &name[..n],
    };
    said(rt, directory, force_directory(rt, directory))
}

// Makes a new file its owner's alone and forces it to disk.
fn own_and_force(file: File) -> Result<(), Trouble> {
    own(&file)?;
    Ok(file.sync_all()?)
}

// Makes a new file its owner's alone and forces it and its directory to disk; if that fails, it is said.
fn settle(rt: &HostRuntime, name: &[u8], file: File) -> Result<(), Stopped> {
    said(rt, name, own_and_force(file))?;
    sync_directory(rt, name)
}

// Makes a file, empty and on disk; if that fails, it is said, and there is no file.
fn make(rt: &HostRuntime, name: &[u8]) -> Result<(), Stopped> {
    let file = said(rt, name, created(rt, name))?;
    settle(rt, name, file).inspect_err(|_| {
        let _ = remove(rt, name);
    })
}

// Kept: as `take_named` in locks.rt: one function would take a kind, and call and mend as closures, and be longer than both matches.
// Opens a regular file for reading and writing, making it if it is absent; if it can't be had, that is said.
pub fn open_or_make(rt: &HostRuntime, name: &[u8]) -> Result<File, Stopped> {
    let opened = match opened_to_update(rt, name) {
        Err(error) if error.kind() == ErrorKind::NotFound => {
            make(rt, name)?;
            opened_to_update(rt, name)
        }
        opened => opened,
    };
    said(rt, name, checked(opened))
}

// Cuts a file to its first bytes and forces it to disk.
pub fn cut(file: &File, bytes: u64) -> io::Result<()> {
    file.set_len(bytes)?;
    file.sync_data()
}
