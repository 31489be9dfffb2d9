// The request that a line of an input is.
ghost use Rattle.answering.specs.Lines.{LineIs};

use crate::kept::first_only;
use journal::{Reason, Request, parse};

// The request that a line is, where so many calls are kept. A line whose beginning had no room is an error. The numbers of its lists are
// written to the front of the slice, in a row.
pub fn request_of(line: &[u8], long: bool, kept: u64, numbers: &mut [i64]) -> Request
    ensures { LineIs long kept line.now numbers.old result numbers.new }
{
    if long {
        Request::Error(Reason::TooLong)
    } else {
        first_only(parse(line, numbers), kept)
    }
}
