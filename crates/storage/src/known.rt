// What the system knows of a file, open or at a name.
// Kept: `rt` and a name side by side, here and below, as std takes `rt` and a path (src/files.rt).
ghost use Rattle.std.specs.Prelude.{◌≡◌, false, MatchResult};
ghost use Rattle.storage.specs.Known.{facts_in, is_of};

use crate::texts::path_in;
use std::fs::{File, Metadata};
use std::os::unix::fs::MetadataExt;
use std::{fs, io};

// The numbers by which the system knows a file: that of its device, and its own there.
#[derive(Clone, Copy, PartialEq, Eq)]
pub struct Identity {
    pub device: u64,
    pub inode: u64,
}

// Whether a file is a regular one, its size in bytes, and the numbers by which the system knows it.
// Kept: a flag and no `Option`: a file that is not regular has a size and numbers too.
#[derive(Clone, Copy)]
pub struct Facts {
    pub regular: bool,
    pub size: u64,
    pub identity: Identity,
}

// The facts in what the system answered, with the numbers in it.
// Kept: no `From<&Metadata>`: std's specs say nothing of `dev()` and `ino()`, so they are parameters of which the contract speaks.
fn facts_in(found: &Metadata, device: u64, inode: u64) -> Facts
    ensures { result ≡ facts_in found.now device inode }
{
    Facts {
        regular: found.is_file(),
        size: found.len(),
        identity: Identity { device, inode },
    }
}

// The facts of a file that is open.
pub fn facts_of(file: &File) -> io::Result<Facts> {
    let found = file.metadata()?;
    Ok(facts_in(&found, found.dev(), found.ino()))
}

// The facts of the file at a path.
pub fn facts_on(rt: &HostRuntime, path: &str) -> io::Result<Facts> {
    let found = fs::metadata(rt, path)?;
    Ok(facts_in(&found, found.dev(), found.ino()))
}

// The facts of the file at a name.
pub fn facts_at(rt: &HostRuntime, name: &[u8]) -> io::Result<Facts> {
    facts_on(rt, path_in(name)?)
}

// Whether facts were had, and are those of a file.
pub fn is_same(asked: io::Result<Facts>, file: Identity) -> bool
    ensures { MatchResult asked (λ facts. result ≡ is_of facts file) (λ _. result ≡ false) }
{
    asked.is_ok_and(|facts| facts.identity == file)
}

// Whether a name leads to a file.
pub fn leads_to(rt: &HostRuntime, name: &[u8], file: Identity) -> bool {
    is_same(facts_at(rt, name), file)
}
