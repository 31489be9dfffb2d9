// The lines of calls, in their numeric form.
ghost use Rattle.std.specs.Prelude.{[], ◌∷◌, map, ◌≡◌, length};
ghost use Rattle.words.specs.Text.{text};
ghost use Rattle.printing.specs.Decimals.{decimal, integer, spaced, joined};
ghost use Rattle.printing.specs.Hex.{hex_words};
ghost use Rattle.printing.specs.Lines.{printed, cut, list_words};
ghost use Rattle.printing.specs.Written.{followed};
ghost use Rattle.journal.specs.Grammar.{length_list};

use crate::hex::Hex;
use crate::lent::{Out, Puts};
use crate::rows::parted;
use journal::{Lengths, Request};

// lodge P POSITION cash AMOUNT
fn put_cash(out: &mut Out, p: u64, q: u64, a: u64)
    ensures { out.new ≡ followed out.old
        (joined (text "lodge" ∷ decimal p ∷ decimal q ∷ text "cash" ∷ decimal a ∷ [])) }
{
    out.words(b"lodge", &[p, q]);
    out.words(b" cash", &[a])
}

// lodge P POSITION letter AMOUNT FIRST LAST
fn put_letter(out: &mut Out, p: u64, q: u64, a: u64, first: u64, last: u64)
    ensures { out.new ≡ followed out.old
        (joined (text "lodge" ∷ decimal p ∷ decimal q ∷ text "letter" ∷ decimal a ∷ decimal first ∷ decimal last ∷ [])) }
{
    out.words(b"lodge", &[p, q]);
    out.words(b" letter", &[a, first, last])
}

// settle P MONTH FIGURE..
fn put_settle(out: &mut Out, p: u64, month: u64, figures: &[i64])
    ensures { out.new ≡ followed out.old
        (joined (text "settle" ∷ decimal p ∷ decimal month ∷ map integer figures.now)) }
{
    out.words(b"settle", &[p, month]);
    out.each_spaced(figures)
}

// A list: its length, and then its numbers.
fn put_list(out: &mut Out, list: &[i64])
    ensures { out.new ≡ followed out.old (spaced (decimal (length list.now) ∷ map integer list.now)) }
{
    out.spaced(list.len() as u64);
    out.each_spaced(list)
}

// Lists of given lengths, whose numbers stand in a row.
fn put_lists(out: &mut Out, lengths: &[usize], numbers: &[i64])
    ensures { out.new ≡ followed out.old (spaced (list_words (cut lengths.now numbers.now))) }
{
    let mut rest = numbers;
    for n in lengths {
        let (list, behind) = parted(rest, *n);
        put_list(out, list);
        rest = behind;
    }
}

// special LIST LIST LIST LIST LIST LIST LIST
fn put_special(out: &mut Out, n: Lengths, numbers: &[i64])
    ensures { out.new ≡ followed out.old (joined (text "special" ∷ list_words (cut (length_list n) numbers.now))) }
{
    out.text(b"special");
    put_lists(out, &n.in_turn(), numbers)
}

// batch HEX, or the word alone for an empty file
#[tactic(auto, using(crate::specs::WrittenLaws::joined_one, crate::proofs::LineLaws::word_alone, crate::proofs::HexLaws::some_file, crate::proofs::HexLaws::no_file))]
fn put_batch(out: &mut Out, file: &[i64])
    ensures { out.new ≡ followed out.old (joined (text "batch" ∷ hex_words file.now)) }
{
    out.text(b"batch");
    if !file.is_empty() {
        out.spaced(Hex { bytes: file })
    }
}

// A call with the numbers of its lists in a row, or the bytes of its file.
// Kept: the two side by side, since a request is read into a lent slice of numbers and has no heap to hold them.
#[derive(Clone, Copy)]
pub struct CallLine<'a> {
    pub request: Request,
    pub numbers: &'a [i64],
}

// A call as its line; nothing for what is no call.
impl<'a> Puts for CallLine<'a> {
    ghost text = { λ call. printed call.request call.numbers.now };

    #[tactic(auto, using(crate::proofs::LineLaws::nothing_put), unfolding(crate::specs::Lines::printed, crate::specs::Lines::call_words, crate::specs::Decimals::joined, crate::specs::Decimals::spaced))]
    fn put_in(self, out: &mut Out) {
        let numbers = self.numbers;
        match self.request {
            Request::Nothing | Request::Error(_) => {}
            Request::Fresh(d) => out.words(b"fresh", &[d.0 as u64]),
            Request::Admit(p, role) => out.words(b"admit", &[p, role]),
            Request::LodgeCash(p, q, a) => put_cash(out, p, q, a),
            Request::LodgeLetter(p, q, a, f, l) => {
                put_letter(out, p, q, a, f.0 as u64, l.0 as u64)
            }
            Request::Release(p, q, a) => out.words(b"release", &[p, q, a]),
            Request::Settle(p, m, _) => put_settle(out, p, m.0 as u64, numbers),
            Request::Annual(p) => out.words(b"annual", &[p]),
            Request::Advance(t, b) => out.words(b"advance", &[t.0 as u64, b]),
            Request::Statement(p) => out.words(b"statement", &[p]),
            Request::Calls => out.text(b"calls"),
            Request::Special(n) => put_special(out, n, numbers),
            Request::Batch(n) => put_batch(out, parted(numbers, n).0),
            Request::RoleRetired => out.text(b"role-retired"),
            Request::Delete(p) => out.words(b"delete", &[p]),
            Request::Report => out.text(b"report"),
            Request::File(p) => out.words(b"file", &[p]),
            Request::Releasable(p, q) => out.words(b"releasable", &[p, q]),
            Request::Today => out.text(b"today"),
        }
    }
}
