// The lines of a participant's accepted call.
ghost use Rattle.std.specs.Prelude.{◌≡◌};
ghost use Rattle.printing.specs.Written.{followed};
ghost use Rattle.entries.specs.Lines.{lines_of};
ghost use Rattle.entries.specs.Calls.{is_of, call_on, admission_entries, done_entries, settled_entries, deletion_entries, answer_entries};
ghost use Rattle.entries.specs.Calls.{called_lines, newest_call, call_entries, batch_lines};

use crate::entry::{Entry, Origin, put_line};
use calendar::{Day, Month};
use file::{File, OpenCall, Position};
use journal::Request;
use manual::minimum::minimum;
use printing::{Answer, Out};

// Whether a request is a change of a participant's own file.
#[tactic(auto, unfolding(crate::specs::Calls::is_of))]
fn is_of(participant: u64, request: Request) -> bool
    ensures { result ≡ is_of participant request }
{
    match request {
        Request::Admit(p, _)
        | Request::LodgeCash(p, _, _)
        | Request::LodgeLetter(p, _, _, _, _)
        | Request::Release(p, _, _)
        | Request::Settle(p, _, _)
        | Request::Annual(p)
        | Request::Delete(p) => p == participant,
        _ => false,
    }
}

// A call of an amount that an admission or a deletion makes on a day.
#[tactic(auto, unfolding(crate::specs::Calls::call_on))]
fn call_on(day: Day, amount: u64) -> OpenCall
    ensures { result ≡ call_on day.0 amount }
{
    OpenCall {
        amount,
        last: Day(day.0.saturating_add(10)),
    }
}

// An admission.
#[tactic(auto, using(printing::specs::WrittenLaws::followed_twice), unfolding(crate::specs::Calls::admission_entries, crate::specs::Lines::lines_of))]
fn put_admission(out: &mut Out, day: Day, role: u64, reference: &[u8])
    ensures { out.new ≡ followed out.old (lines_of day.0 reference.now (admission_entries day.0 role)) }
{
    let amount = minimum(role);
    if 0 < amount {
        put_line(out, day, Entry::Admitted(role), b"");
        put_line(
            out,
            day,
            Entry::Called(call_on(day, amount), Origin::Admission),
            reference,
        )
    } else {
        put_line(out, day, Entry::Admitted(role), reference)
    }
}

// An admission, a lodging or a release that is done.
#[tactic(auto, using(printing::specs::WrittenLaws::followed_none), unfolding(crate::specs::Calls::done_entries, crate::specs::Lines::lines_of))]
fn put_done(out: &mut Out, day: Day, request: Request, reference: &[u8])
    ensures { out.new ≡ followed out.old (lines_of day.0 reference.now (done_entries day.0 request)) }
{
    match request {
        Request::Admit(_, role) => put_admission(out, day, role, reference),
        Request::LodgeCash(_, place, amount) => put_line(
            out,
            day,
            Entry::Lodged(place, Position::Cash(amount)),
            reference,
        ),
        Request::LodgeLetter(_, place, amount, first, last) => put_line(
            out,
            day,
            Entry::Lodged(place, Position::Letter(amount, first, last)),
            reference,
        ),
        Request::Release(_, place, amount) => {
            put_line(out, day, Entry::Released(place, amount), reference)
        }
        _ => {}
    }
}

// A settlement that calls.
#[tactic(auto, using(printing::specs::WrittenLaws::followed_none), unfolding(crate::specs::Calls::settled_entries, crate::specs::Lines::lines_of))]
fn put_settled(out: &mut Out, day: Day, request: Request, call: OpenCall, reference: &[u8])
    ensures { out.new ≡ followed out.old (lines_of day.0 reference.now (settled_entries request call)) }
{
    if let Request::Settle(_, month, _) = request {
        put_line(
            out,
            day,
            Entry::Called(call, Origin::Settlement(month)),
            reference,
        )
    }
}

// A deletion of an amount, which may be called.
#[tactic(auto, using(printing::specs::WrittenLaws::followed_twice), unfolding(crate::specs::Calls::deletion_entries, crate::specs::Lines::lines_of))]
fn put_deletion(out: &mut Out, day: Day, amount: u64, called: bool, reference: &[u8])
    ensures { out.new ≡ followed out.old (lines_of day.0 reference.now (deletion_entries day.0 amount called)) }
{
    if called {
        put_line(
            out,
            day,
            Entry::Called(call_on(day, amount), Origin::Deletion),
            b"",
        );
    }
    put_line(out, day, Entry::Leaving, reference)
}

// A call by its answer.
#[tactic(auto, using(printing::specs::WrittenLaws::followed_none), unfolding(crate::specs::Calls::answer_entries, crate::specs::Lines::lines_of))]
fn put_answer(out: &mut Out, day: Day, request: Request, answer: Answer, reference: &[u8])
    ensures { out.new ≡ followed out.old (lines_of day.0 reference.now (answer_entries day.0 request answer)) }
{
    match answer {
        Answer::Done => put_done(out, day, request, reference),
        Answer::Called(amount, _, last) => {
            put_settled(out, day, request, OpenCall { amount, last }, reference)
        }
        Answer::Annual(amount, _) => put_line(out, day, Entry::NextSet(amount), reference),
        Answer::Deletion(amount, called) => put_deletion(out, day, amount, called, reference),
        _ => {}
    }
}

// The lines of a participant from a call on a day, with the call's reference: none of a call of another, or of one that is refused.
#[tactic(auto, using(printing::specs::WrittenLaws::followed_none), unfolding(crate::specs::Calls::called_lines, crate::specs::Calls::called_entries, crate::specs::Lines::lines_of))]
pub fn put_called(
    out: &mut Out,
    today: Day,
    participant: u64,
    request: Request,
    answer: Answer,
    reference: &[u8],
)
    ensures { out.new ≡ followed out.old (called_lines today.0 participant request answer reference.now) }
{
    if is_of(participant, request) {
        put_answer(out, today, request, answer, reference)
    }
}

// The newest open call.
#[tactic(auto, unfolding(crate::specs::Calls::newest_call, file::specs::Fields::open_calls))]
pub fn newest_call(file: File) -> Option<OpenCall>
    ensures { result ≡ newest_call file }
{
    file.calls[..file.count.min(4)].last().copied()
}

// The lines of a participant from a batch of a month, by its files before and after, with the batch's reference.
#[tactic(auto, using(printing::specs::WrittenLaws::followed_none), unfolding(crate::specs::Calls::batch_lines, crate::specs::Calls::batch_entries, crate::specs::Calls::call_entries, crate::specs::Lines::lines_of))]
pub fn put_batch_called(
    out: &mut Out,
    today: Day,
    month: Month,
    before: File,
    after: File,
    reference: &[u8],
)
    ensures { out.new ≡ followed out.old (batch_lines today.0 month before after reference.now) }
{
    if before.made < after.made {
        if let Some(call) = newest_call(after) {
            put_line(
                out,
                today,
                Entry::Called(call, Origin::Settlement(month)),
                reference,
            )
        }
    }
}
