// The special guarantee of seven lists whose numbers stand in a row.
ghost use Rattle.std.specs.Prelude.{◌≡◌, map, ◌≤◌, length, take};
ghost use Rattle.special.specs.Guarantee.{special_guarantee};
ghost use Rattle.answering.specs.Asked.{mark_of, semesters_of, guarantee_of};

use crate::rows::put_made;
use journal::Lengths;
use printing::parted;
use refusal::Refusal;
use special::{Lists, special_guarantee};

// The most marks that a special guarantee may have.
const MOST_MARKS: usize = 64;

// A number as a mark. A negative one is out of a mark's range, as 2 is.
fn mark(z: i64) -> u64
    ensures { result ≡ mark_of z }
{
    u64::try_from(z).unwrap_or(2)
}

// The guarantee of lists whose marks are numbers. More than 64 marks are more than the low rates may be, or another number than they.
#[tactic(auto, using(crate::proofs::GuaranteeLaws::marks_refused))]
fn of_marked(lists: Lists, marked: &[i64]) -> Result<u64, Refusal>
    ensures { result ≡ special_guarantee lists.entry.medium.now lists.entry.low.now (map mark_of marked.now) lists.entry.zero_medium.now
        lists.entry.zero_low.now lists.entry.excess_medium.now lists.entry.excess_low.now }
{
    if MOST_MARKS < marked.len() {
        return Err(Refusal::ListLengths);
    }
    let mut marks = [0; MOST_MARKS];
    put_made(marked, &mut marks, mark);
    special_guarantee(Lists {
        marks: &marks[..marked.len()],
        ..lists
    })
}

// The guarantee of seven lists whose numbers stand in a row.
#[tactic(auto, unfolding(crate::specs::Asked::guarantee_of, crate::specs::Asked::semesters_of))]
pub fn guarantee(n: Lengths, numbers: &[i64]) -> Result<u64, Refusal>
    ensures { result ≡ guarantee_of n numbers.now }
{
    let (medium, rest) = parted(numbers, n.medium);
    let (low, rest) = parted(rest, n.low);
    let (marked, rest) = parted(rest, n.marks);
    let (zero_medium, rest) = parted(rest, n.zero_medium);
    let (zero_low, rest) = parted(rest, n.zero_low);
    let (excess_medium, rest) = parted(rest, n.excess_medium);
    let (excess_low, _) = parted(rest, n.excess_low);
    let lists = Lists {
        medium,
        low,
        marks: &[],
        zero_medium,
        zero_low,
        excess_medium,
        excess_low,
    };
    of_marked(lists, marked)
}
