// What a line of an input asks.
ghost use Rattle.std.specs.Prelude.{◌≡◌};
ghost use Rattle.dialogue.specs.Asks.{text_of, held_back, LineAsked};

use crate::{Place, Way};
use answering::{is_change, request_of};
use journal::{Reason, Request};

// The bytes of a byte order mark.
const MARK: &[u8] = b"\xEF\xBB\xBF";

// The text of a line: behind a byte order mark, if it is the first line.
#[tactic(auto, using(crate::proofs::AskLaws::mark_test), unfolding(crate::specs::Asks::text_of, crate::specs::Asks::mark_length))]
pub(crate) fn text_of(line: &[u8], before: u64) -> &[u8]
    ensures { result.now ≡ text_of before line.now }
{
    match line.strip_prefix(MARK) {
        Some(text) if before == 0 => text,
        _ => line,
    }
}

// A request, where only questions may be answered or a line lacks its newline.
#[tactic(auto, unfolding(crate::specs::Asks::held_back))]
fn hold_back(way: Way, request: Request) -> Request
    ensures { result ≡ held_back way request }
{
    if way.torn {
        Request::Error(Reason::NoNewline)
    } else if way.reads && is_change(request) {
        Request::Error(Reason::ReadOnly)
    } else {
        request
    }
}

// The request that a line is. The numbers of its lists are written to the front of the slice, in a row.
pub fn ask(way: Way, place: Place, line: &[u8], numbers: &mut [i64]) -> Request
    ensures { LineAsked way place line.now numbers.old result numbers.new }
{
    let text = text_of(line, place.line);
    hold_back(way, request_of(text, place.long, place.kept, numbers))
}
