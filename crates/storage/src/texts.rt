// Texts put together, made paths, shown, and read as numbers.
ghost use Rattle.std.specs.Prelude.{◌≡◌, ℕ, ◌≤◌, ◌++◌, map, length, take, IfOk, OnErr};
ghost use Rattle.storage.specs.Texts.{lock_ending, IsPathOf, CanBePath, shown_byte, digit_more, process_in};

use crate::errors::{EILSEQ, EINVAL, ENAMETOOLONG};
use std::io::Error;
use std::{io, str};

// The bytes of a path that the system takes, with a zero behind it.
const PATH_MAX: usize = 4096;

// The name of a journal's lock, at the front of a buffer: no name that can be opened is cut there.
pub fn lock_of<'a>(name: &[u8], buffer: &'a mut [u8; 8192]) -> &'a [u8]
    ensures { result.now ≡ take 8187 name.now ++ lock_ending }
{
    let n = name.len().min(8187);
    buffer[..n].copy_from_slice(&name[..n]);
    buffer[n..n + 5].copy_from_slice(b".lock");
    &buffer[..n + 5]
}

// A name as a path. The library opens only names that are text in UTF-8.
pub fn path_in(name: &[u8]) -> io::Result<&str>
    ensures path { IfOk result (λ path. IsPathOf name.now path.now) }
    ensures refused { OnErr result (¬ (CanBePath name.now)) }
{
    if PATH_MAX <= name.len() {
        return Err(Error::from_raw_os_error(ENAMETOOLONG));
    }
    if name.contains(&0) {
        return Err(Error::from_raw_os_error(EINVAL));
    }
    str::from_utf8(name).map_err(|_| Error::from_raw_os_error(EILSEQ))
}

// A byte as it is shown: `?` for one that is no printed sign of ASCII.
#[tactic(auto, unfolding(crate::specs::Texts::shown_byte))]
fn shown(byte: u8) -> u8
    ensures { result ≡ shown_byte byte }
{
    if (b' '..=b'~').contains(&byte) {
        byte
    } else {
        b'?'
    }
}

// Puts `?` in the place of each byte of a text that is no printed sign.
pub fn show(text: &mut [u8])
    ensures { text.new ≡ map shown_byte text.old }
{
    for byte in text.iter_mut() {
        *byte = shown(*byte);
    }
}

// A number with one more digit, if the byte is one and the number is not too long for that of a process.
#[tactic(auto, unfolding(crate::specs::Texts::digit_more))]
fn digit_more(number: u64, byte: u8) -> Option<u64>
    ensures { result ≡ digit_more number byte }
{
    (number <= 214748363 && byte.is_ascii_digit()).then(|| number * 10 + (byte - b'0') as u64)
}

// The process number that stands before the first newline of a text, if there is one.
pub fn process_in(text: &[u8]) -> Option<u64>
    ensures { result ≡ process_in text.now }
{
    let mut number = 0;
    for byte in text {
        if *byte == b'\n' {
            return (number != 0).then_some(number);
        }
        number = digit_more(number, *byte)?;
    }
    None
}
