// The file of a batch: one word of hexadecimal digits, two for each byte.
ghost use Rattle.std.specs.Prelude.{◌≡◌, length};
ghost use Rattle.words.specs.Words.{left};
ghost use Rattle.journal.specs.Fields.{more};
ghost use Rattle.journal.specs.Grammar.{batch_of};
ghost use Rattle.journal.specs.Steps.{ParsedIs, said};

use crate::fields::closed;
use crate::plain::Call;
use crate::{Reason, Request};
use words::{Words, is_hexadecimal, write_bytes};

// batch HEX
// Kept: words and numbers apart: most calls read no list, and a struct of both would lend them a slice that they never write.
pub fn batch(words: &mut Words, numbers: &mut [i64]) -> Result<Call, Reason>
    ensures { ParsedIs (batch_of (length numbers.old) (more (left words.old))) numbers.old (said result) numbers.new }
{
    let file = words.next().unwrap_or(&[]);
    if !is_hexadecimal(file) {
        return Err(Reason::NotHex);
    }
    if numbers.len() < file.len() / 2 {
        return Err(Reason::TooLong);
    }
    let call = closed(words, Request::Batch(file.len() / 2))?;
    write_bytes(file, numbers);
    Ok(call)
}
