// The positions of a file and its open calls, a line each.
ghost use Rattle.std.specs.Prelude.{◌≡◌, ◌≤◌, ◌<◌, length};
ghost use Rattle.printing.specs.Columns.{fixed};
ghost use Rattle.printing.specs.Written.{followed};
ghost use Rattle.report.specs.FileText.{label, figure, position_label, position_line, position_lines, call_line, call_lines};
ghost use Rattle.file.specs.declared.Position.TheVariants.{Cash, Letter};

use crate::lines::{put_blanks, put_euros};
use crate::rows::euros;
use calendar::Day;
use file::{OpenCall, Position, Slot};
use printing::{OnDate, Out};

// The label of a position, one of eight.
#[tactic(auto, using(printing::specs::WrittenLaws::followed_twice, crate::proofs::FileLaws::position_labelled))]
fn put_position_label(out: &mut Out, k: u64)
    requires { k < 8 }
    ensures { out.new ≡ followed out.old (label (position_label k)) }
{
    out.text(b"position ");
    out.put(k);
    put_blanks(out, 7)
}

// An amount that is held at a position, by its kind.
#[tactic(auto, using(printing::specs::WrittenLaws::followed_twice), unfolding(crate::specs::FileText::figure))]
fn put_held(out: &mut Out, k: u64, kind: &[u8], cents: u64)
    requires { k < 8 }
    ensures { out.new ≡ followed out.old (figure (position_label k) kind.now 17 (fixed 2 cents)) }
{
    put_position_label(out, k);
    out.text(kind);
    out.put(euros(cents))
}

// The line of cash.
#[tactic(auto, using(printing::specs::WrittenLaws::followed_twice), unfolding(crate::specs::FileText::position_line))]
fn put_cash(out: &mut Out, k: u64, cents: u64)
    requires { k < 8 }
    ensures { out.new ≡ followed out.old (position_line k (Cash cents)) }
{
    put_held(out, k, b"cash   ", cents);
    out.byte(b'\n')
}

// The line of a letter.
#[tactic(auto, using(printing::specs::WrittenLaws::followed_twice), unfolding(crate::specs::FileText::position_line))]
fn put_letter(out: &mut Out, k: u64, cents: u64, first: Day, last: Day)
    requires { k < 8 }
    ensures { out.new ≡ followed out.old (position_line k (Letter cents first last)) }
{
    put_held(out, k, b"letter ", cents);
    out.text(b"  from ");
    out.put(OnDate { day: first });
    out.text(b" to ");
    out.put(OnDate { day: last });
    out.byte(b'\n')
}

// The line of a position, if something is held there.
#[tactic(auto, using(printing::specs::WrittenLaws::followed_none), unfolding(crate::specs::FileText::position_line))]
fn put_position(out: &mut Out, k: u64, position: Position)
    requires { k < 8 }
    ensures { out.new ≡ followed out.old (position_line k position) }
{
    match position {
        Position::Empty => (),
        Position::Cash(cents) => put_cash(out, k, cents),
        Position::Letter(cents, first, last) => put_letter(out, k, cents, first, last),
    }
}

// The lines of the eight positions.
#[tactic(auto, using(crate::proofs::FileLaws::positions_none, crate::proofs::FileLaws::positions_more))]
pub fn put_positions(out: &mut Out, slots: &[Slot; 8])
    ensures { out.new ≡ followed out.old (position_lines 8 slots.now) }
{
    for k in 0..8 {
        put_position(out, k, slots[k as usize].position);
    }
}

// The line of an open call.
fn put_call(out: &mut Out, call: OpenCall)
    ensures { out.new ≡ followed out.old (call_line call) }
{
    put_euros(out, b"open call", call.amount);
    out.text(b"  free until ");
    out.put(OnDate { day: call.last });
    out.byte(b'\n')
}

// The lines of open calls.
pub fn put_calls(out: &mut Out, calls: &[OpenCall])
    ensures { out.new ≡ followed out.old (call_lines calls.now) }
{
    for call in calls {
        put_call(out, *call);
    }
}
