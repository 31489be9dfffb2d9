// The lines of the extract.
ghost use Rattle.std.specs.Prelude.{◌≡◌};
ghost use Rattle.printing.specs.Written.{followed};
ghost use Rattle.answering.specs.Asked.{byte_of, batch_bytes};
ghost use Rattle.extract.specs.Extract.{own_part as Extract·own_part};
ghost use Rattle.extract.specs.Lines.{own_numbers, file_of, part_line, behind_call, line_with, extracted_line, title_line, titled};

use crate::figures::put_settlement;
use crate::naming::stays;
use crate::parts::own_part;
use answering::put_made;
use journal::Request;
use printing::{CallLine, Out, parted};
use words::natural_of;

// The most bytes of a batch's file.
const MOST_BYTES: usize = 32768;

// What a title begins with.
const TITLE_MARK: &[u8] = b"# extract of participant ";

// # extract of participant P
#[tactic(auto, using(printing::specs::WrittenLaws::followed_twice), unfolding(crate::specs::Lines::title_line, crate::specs::Lines::title_text))]
pub fn put_title(out: &mut Out, participant: u64)
    ensures { out.new ≡ followed out.old (title_line participant) }
{
    out.words(b"# extract of participant", &[participant]);
    out.byte(b'\n')
}

// The participant whose extract a title, without its newline, says that it is.
pub fn participant_in(title: &[u8]) -> Option<u64>
    ensures { result ≡ titled title.now }
{
    let Some(number) = title.strip_prefix(TITLE_MARK) else {
        return None;
    };
    natural_of(number)
}

// What stands behind a call: its reference, if it has one, and the newline.
fn put_behind(out: &mut Out, reference: &[u8])
    ensures { out.new ≡ followed out.old (behind_call reference.now) }
{
    if !reference.is_empty() {
        out.text(b" # ");
        out.text(reference);
    }
    out.byte(b'\n')
}

// The numbers at the front of a row that are a call's.
fn own_numbers(request: Request, numbers: &[i64]) -> &[i64]
    ensures { result.now ≡ own_numbers request numbers.now }
{
    match request {
        Request::Settle(_, _, n) => parted(numbers, n).0,
        _ => &[],
    }
}

// A number as a byte.
fn byte(z: i64) -> u8
    ensures { result ≡ byte_of z }
{
    u64::try_from(z).map_or(0, |n| (n % 256) as u8)
}

// How many bytes the file of a batch has, where a request is one.
fn file_of(request: Request) -> Option<usize>
    ensures { result ≡ file_of request }
{
    match request {
        Request::Batch(n) => Some(n),
        _ => None,
    }
}

// The settlement of a participant in a batch, if it has a part of it.
#[tactic(auto, using(crate::proofs::PartLaws::part_none))]
fn put_part(out: &mut Out, participant: u64, file: &[u8], reference: &[u8])
    ensures { out.new ≡ followed out.old
        (line_with reference.now (part_line participant file.now (Extract·own_part participant file.now))) }
{
    if let Some(k) = own_part(file, participant) {
        put_settlement(out, participant, file, k);
        put_behind(out, reference)
    }
}

// The same, where the n bytes of the file stand as numbers at the front.
#[tactic(auto, unfolding(answering::specs::Asked::batch_bytes))]
fn put_filed(out: &mut Out, participant: u64, numbers: &[i64], n: usize, reference: &[u8])
    ensures { out.new ≡ followed out.old
        (line_with reference.now (part_line participant (batch_bytes n numbers.now) (Extract·own_part participant (batch_bytes n numbers.now)))) }
{
    let (own, _) = parted(numbers, n.min(MOST_BYTES));
    let mut bytes = [0; MOST_BYTES];
    put_made(own, &mut bytes, byte);
    put_part(out, participant, &bytes[..own.len()], reference)
}

// What an accepted line of the journal adds to a participant's extract. The numbers of its lists, or the bytes of its file, stand at the front of the
// numbers, and its reference may be empty.
#[tactic(auto, using(crate::proofs::PartLaws::line_stays, crate::proofs::PartLaws::line_left))]
pub fn put_extracted(
    out: &mut Out,
    participant: u64,
    request: Request,
    numbers: &[i64],
    reference: &[u8],
)
    ensures { out.new ≡ followed out.old (extracted_line participant request numbers.now reference.now) }
{
    if let Some(n) = file_of(request) {
        put_filed(out, participant, numbers, n, reference)
    } else if stays(participant, request) {
        out.put(CallLine {
            request,
            numbers: own_numbers(request, numbers),
        });
        put_behind(out, reference)
    }
}
