// What a line says of a day, and the line.
ghost use Rattle.std.specs.Prelude.{◌≡◌, ◌++◌};
ghost use Rattle.words.specs.Text.{text};
ghost use Rattle.printing.specs.Written.{followed};
ghost use Rattle.printing.specs.Dates.{date_text};
ghost use Rattle.entries.specs.Entries.{labelled, placed, euros, origin_text, admitted_text, called_text, kind_text, lodged_text, entry_text};
ghost use Rattle.entries.specs.Lines.{reference_text, entry_line};

use crate::months::OnMonth;
use calendar::{Day, Month};
use file::{OpenCall, Position};
use printing::{Column, Fixed, Measured, OnDate, Out, Puts};
use report::role_name;

// Where a call came from.
#[derive(Clone, Copy)]
pub enum Origin {
    Admission,
    Settlement(Month),
    Deletion,
}

// What made a participant's figures: its admission with the role; a call, and where it came from; a position and what was lodged there; a position
// and what was released of it; the amount of an annual run; a next amount that took effect; the status under deletion; a position and the amount of
// its letter that lapsed.
#[derive(Clone, Copy)]
pub enum Entry {
    Admitted(u64),
    Called(OpenCall, Origin),
    Lodged(u64, Position),
    Released(u64, u64),
    NextSet(u64),
    NextTaken(u64),
    Leaving,
    Lapsed(u64, u64),
}

// A label in its column.
#[derive(Clone, Copy)]
struct Label<T> {
    holds: T,
}

// The label with blanks behind it up to 20 bytes; a longer one stands in full.
impl<T: Measured> Puts for Label<T> {
    ghost text = { λ l. labelled (T.text l.holds) };

    #[tactic(auto, using(crate::proofs::EntryLaws::label_put))]
    fn put_in(self, out: &mut Out) {
        let blanks = self.holds.left_of(20);
        out.put(self.holds);
        out.put(Column {
            width: blanks,
            holds: b"".as_slice(),
        })
    }
}

// A label that ends with the number of a position.
#[derive(Clone, Copy)]
struct Placed<'a> {
    label: &'a [u8],
    position: u64,
}

impl<'a> Puts for Placed<'a> {
    ghost text = { λ l. placed l.label.now l.position };

    #[tactic(auto, unfolding(crate::specs::Entries::placed))]
    fn put_in(self, out: &mut Out) {
        out.words(self.label, &[self.position])
    }
}

impl<'a> Measured for Placed<'a> {
    #[tactic(auto, using(crate::proofs::EntryLaws::placed_left))]
    fn left_of(&self, width: usize) -> usize {
        let behind_label = width.saturating_sub(self.label.len()).saturating_sub(1);
        self.position.left_of(behind_label)
    }
}

// Where a call came from.
impl Puts for Origin {
    ghost text = { origin_text };

    #[tactic(auto, using(printing::specs::WrittenLaws::followed_twice), unfolding(crate::specs::Entries::origin_text))]
    fn put_in(self, out: &mut Out) {
        match self {
            Origin::Admission => out.text(b"admission"),
            Origin::Settlement(month) => {
                out.text(b"settlement of ");
                out.put(OnMonth { month })
            }
            Origin::Deletion => out.text(b"deletion"),
        }
    }
}

// A label, and an amount of cents in the column of euros.
#[tactic(auto, using(printing::specs::WrittenLaws::followed_twice), unfolding(crate::specs::Entries::euros))]
fn put_amount<T: Measured>(out: &mut Out, label: T, amount: u64)
    ensures { out.new ≡ followed out.old (labelled (T.text label) ++ euros amount) }
{
    out.put(Label { holds: label });
    out.put(Column {
        width: 17,
        holds: Fixed::<2> { parts: amount },
    })
}

// A position's number behind a label, and an amount.
fn put_placed(out: &mut Out, label: &[u8], position: u64, amount: u64)
    ensures { out.new ≡ followed out.old (labelled (placed label.now position) ++ euros amount) }
{
    put_amount(out, Placed { label, position }, amount)
}

// The role of an admission.
#[tactic(auto, using(printing::specs::WrittenLaws::followed_twice), unfolding(crate::specs::Entries::admitted_text))]
fn put_admitted(out: &mut Out, role: u64)
    ensures { out.new ≡ followed out.old (admitted_text role) }
{
    out.put(Label {
        holds: b"admitted".as_slice(),
    });
    out.put(role_name(role))
}

// A call: its amount, its last free day and where it came from.
#[tactic(auto, using(printing::specs::WrittenLaws::followed_twice), unfolding(crate::specs::Entries::called_text))]
fn put_call(out: &mut Out, call: OpenCall, origin: Origin)
    ensures { out.new ≡ followed out.old (called_text call origin) }
{
    put_amount(out, b"called".as_slice(), call.amount);
    out.text(b"  free until ");
    out.put(OnDate { day: call.last });
    out.text(b", ");
    out.put(origin)
}

// The days of a letter.
#[tactic(auto, using(printing::specs::WrittenLaws::followed_twice))]
fn put_letter(out: &mut Out, first: Day, last: Day)
    ensures { out.new ≡ followed out.old (text "  letter from " ++ date_text first.0 ++ text " to " ++ date_text last.0) }
{
    out.text(b"  letter from ");
    out.put(OnDate { day: first });
    out.text(b" to ");
    out.put(OnDate { day: last })
}

// What is lodged.
#[tactic(auto, using(printing::specs::WrittenLaws::followed_none), unfolding(crate::specs::Entries::kind_text))]
fn put_kind(out: &mut Out, position: Position)
    ensures { out.new ≡ followed out.old (kind_text position) }
{
    match position {
        Position::Empty => {}
        Position::Cash(_) => out.text(b"  cash"),
        Position::Letter(_, first, last) => put_letter(out, first, last),
    }
}

// A lodging at a place.
#[tactic(auto, using(printing::specs::WrittenLaws::followed_twice), unfolding(crate::specs::Entries::lodged_text))]
fn put_lodged(out: &mut Out, place: u64, position: Position)
    ensures { out.new ≡ followed out.old (lodged_text place position) }
{
    put_placed(out, b"lodged at", place, position.amount());
    put_kind(out, position)
}

// A next amount, and what became of it.
#[tactic(auto, using(printing::specs::WrittenLaws::followed_twice))]
fn put_next(out: &mut Out, amount: u64, what: &[u8])
    ensures { out.new ≡ followed out.old (labelled (text "next amount") ++ euros amount ++ what.now) }
{
    put_amount(out, b"next amount".as_slice(), amount);
    out.text(what)
}

// The text of an entry.
impl Puts for Entry {
    ghost text = { entry_text };

    #[tactic(auto, unfolding(crate::specs::Entries::entry_text, crate::specs::Entries::released_text, crate::specs::Entries::next_set_text, crate::specs::Entries::next_taken_text, crate::specs::Entries::leaving_text, crate::specs::Entries::lapsed_text))]
    fn put_in(self, out: &mut Out) {
        match self {
            Entry::Admitted(role) => put_admitted(out, role),
            Entry::Called(call, origin) => put_call(out, call, origin),
            Entry::Lodged(place, position) => put_lodged(out, place, position),
            Entry::Released(place, amount) => put_placed(out, b"released at", place, amount),
            Entry::NextSet(amount) => put_next(out, amount, b"  annual run"),
            Entry::NextTaken(amount) => put_next(out, amount, b"  took effect"),
            Entry::Leaving => out.text(b"under deletion"),
            Entry::Lapsed(place, amount) => put_placed(out, b"lapsed at", place, amount),
        }
    }
}

// The reference of a call, where it has one.
#[tactic(auto, using(printing::specs::WrittenLaws::followed_twice, printing::specs::WrittenLaws::followed_none, crate::proofs::EntryLaws::no_reference, crate::proofs::EntryLaws::some_reference))]
fn put_reference(out: &mut Out, reference: &[u8])
    ensures { out.new ≡ followed out.old (reference_text reference.now) }
{
    if !reference.is_empty() {
        out.text(b"  # ");
        out.text(reference)
    }
}

// The line of an entry.
#[tactic(auto, using(printing::specs::WrittenLaws::followed_twice), unfolding(crate::specs::Lines::entry_line))]
pub fn put_line(out: &mut Out, day: Day, entry: Entry, reference: &[u8])
    ensures { out.new ≡ followed out.old (entry_line day.0 reference.now entry) }
{
    out.put(OnDate { day });
    out.text(b"  ");
    out.put(entry);
    put_reference(out, reference);
    out.byte(b'\n')
}
