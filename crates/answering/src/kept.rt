// What a kept journal takes: the accepted calls but for the questions, and `fresh` only as the first of them.
ghost use Rattle.std.specs.Prelude.{◌≡◌, ◌+◌, ◌-◌, ◌^◌, min};
ghost use Rattle.std.specs.List.{fold};
ghost use Rattle.journal.specs.Grammar.{length_list, total};
ghost use Rattle.words.specs.Comments.{commented};
ghost use Rattle.printing.specs.Written.{followed};
ghost use Rattle.answering.specs.Kept.{takes, refuses, changes, is_fresh, is_role_retired, fresh_first, numbers_in, kept_line};

use journal::{Lengths, Reason, Request};
use printing::{Answer, CallLine, Out};

// Whether a call with this answer is kept: it is accepted, and no question. What has no answer is no call of the book.
pub fn is_kept(answer: Answer) -> bool
    ensures { result ≡ takes answer }
{
    matches!(
        answer,
        Answer::Done
            | Answer::Called(..)
            | Answer::Covered(_)
            | Answer::Recorded(_)
            | Answer::Annual(..)
            | Answer::Opened(_)
            | Answer::Batch(_)
            | Answer::Deletion(..)
    )
}

// Whether an answer is a refusal or an error.
pub fn is_refusal(answer: Answer) -> bool
    ensures { result ≡ refuses answer }
{
    matches!(
        answer,
        Answer::Refused(_) | Answer::RefusedPair(..) | Answer::Error(..)
    )
}

// Whether a request is a call that may change the book.
pub fn is_change(request: Request) -> bool
    ensures { result ≡ changes request }
{
    matches!(
        request,
        Request::Fresh(_)
            | Request::Admit(..)
            | Request::LodgeCash(..)
            | Request::LodgeLetter(..)
            | Request::Release(..)
            | Request::Settle(..)
            | Request::Annual(_)
            | Request::Advance(..)
            | Request::Batch(_)
            | Request::Delete(_)
    )
}

// Whether a request asks for a fresh book.
fn is_fresh(request: Request) -> bool
    ensures { result ≡ is_fresh request }
{
    matches!(request, Request::Fresh(_))
}

// Whether a request is the line that ends the first stretch of a journal.
pub fn is_role_retired(request: Request) -> bool
    ensures { result ≡ is_role_retired request }
{
    matches!(request, Request::RoleRetired)
}

// A request, where so many calls are kept: a `fresh` behind them is an error.
#[tactic(auto, unfolding(crate::specs::Kept::fresh_first))]
pub fn first_only(request: Request, kept: u64) -> Request
    ensures { result ≡ fresh_first kept request }
{
    if is_fresh(request) && 0 < kept {
        Request::Error(Reason::FreshLater)
    } else {
        request
    }
}

// The sum of counts, or the largest number.
fn added(counts: &[usize]) -> usize
    ensures { result ≡ fold (λ s n. min (s + n) (2 ^ 64 - 1)) 0 counts.now }
{
    counts.iter().fold(0, |sum, n| sum.saturating_add(*n))
}

// How many numbers seven lists have in all, or the most.
#[tactic(auto, using(crate::proofs::KeptLaws::listed_is))]
fn listed(n: Lengths, most: usize) -> usize
    ensures { result ≡ min (total (length_list n)) most }
{
    added(&n.in_turn()).min(most)
}

// How many numbers at the front are those of a request's lists, or the most.
fn number_count(request: Request, most: usize) -> usize
    ensures { result ≡ numbers_in request most }
{
    match request {
        Request::Settle(_, _, n) | Request::Batch(n) => n.min(most),
        Request::Special(n) => listed(n, most),
        _ => 0,
    }
}

// A reference as it stands behind a call; nothing where there is none.
#[tactic(auto, using(crate::proofs::KeptLaws::commented_none, crate::proofs::KeptLaws::commented_some))]
fn put_commented(out: &mut Out, reference: &[u8])
    ensures { out.new ≡ followed out.old (commented reference.now) }
{
    if !reference.is_empty() {
        out.text(b" # ");
        out.text(reference)
    }
}

// Writes the line of a kept call: its numeric form, its reference and a newline.
// Kept: a request and its row apart: the row is the whole lent slice, while `CallLine` holds the request's own numbers alone.
#[tactic(auto, using(printing::specs::WrittenLaws::followed_twice), unfolding(crate::specs::Kept::kept_line))]
pub fn put_kept(out: &mut Out, request: Request, numbers: &[i64], reference: &[u8])
    ensures { out.new ≡ followed out.old (kept_line request numbers.now reference.now) }
{
    let n = number_count(request, numbers.len());
    out.put(CallLine {
        request,
        numbers: &numbers[..n],
    });
    put_commented(out, reference);
    out.byte(b'\n')
}
