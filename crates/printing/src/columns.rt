// Texts and numbers in columns.
ghost use Rattle.std.specs.Prelude.{◌≡◌, ◌-◌, ◌/◌, ◌^◌, length};
ghost use Rattle.printing.specs.Decimals.{decimal};
ghost use Rattle.printing.specs.Written.{followed};
ghost use Rattle.printing.specs.Columns.{padded, digits, fixed};

use crate::lent::{Out, Puts};
use crate::numbers::last_digit;

// What has a text that is measured before it is written.
pub trait Measured: Puts {
    // How many bytes the text leaves of a width.
    fn left_of(&self, width: usize) -> usize
        ensures { result ≡ width - length (Self.text self.now) };
}

impl<'a> Measured for &'a [u8] {
    fn left_of(&self, width: usize) -> usize {
        let bytes: &[u8] = *self;
        width.saturating_sub(bytes.len())
    }
}

// How many digits a number has.
#[tactic(auto, using(crate::proofs::ColumnLaws::count_none, crate::proofs::ColumnLaws::count_power))]
fn digit_count(n: u64) -> usize
    ensures { result ≡ length (decimal n) }
{
    n.checked_ilog10().map_or(1, |k| k as usize + 1)
}

impl Measured for u64 {
    fn left_of(&self, width: usize) -> usize {
        width.saturating_sub(digit_count(*self))
    }
}

// The last so many digits of a number, with their zeros.
#[tactic(auto, using(crate::proofs::ColumnLaws::digits_none, crate::proofs::ColumnLaws::digits_more))]
pub fn put_digits(out: &mut Out, count: usize, n: u64)
    ensures { out.new ≡ followed out.old (digits count n) }
{
    if 0 < count {
        put_digits(out, count - 1, n / 10);
        out.byte(last_digit(n));
    }
}

// A number without its last digits.
fn wholes(places: usize, n: u64) -> u64
    ensures { result ≡ n / 10 ^ places }
{
    (0..places).fold(n, |left, _| left / 10)
}

// A number of parts, of which a whole has 10^PLACES.
#[derive(Clone, Copy)]
pub struct Fixed<const PLACES: usize> {
    pub parts: u64,
}

// The wholes, a point, and the digits behind it.
impl<const PLACES: usize> Puts for Fixed<PLACES> {
    ghost text = { λ f. fixed PLACES f.parts };

    #[tactic(auto, using(crate::specs::WrittenLaws::followed_twice), unfolding(crate::specs::Columns::fixed))]
    fn put_in(self, out: &mut Out) {
        out.put(wholes(PLACES, self.parts));
        out.byte(b'.');
        put_digits(out, PLACES, self.parts)
    }
}

impl<const PLACES: usize> Measured for Fixed<PLACES> {
    #[tactic(auto, using(crate::proofs::ColumnLaws::fixed_count))]
    fn left_of(&self, width: usize) -> usize {
        let behind_wholes = width.saturating_sub(1).saturating_sub(PLACES);
        wholes(PLACES, self.parts).left_of(behind_wholes)
    }
}

// A column so wide, and what stands in it.
#[derive(Clone, Copy)]
pub struct Column<T> {
    pub width: usize,
    pub holds: T,
}

// The text with blanks on its left up to the width; a longer text stands in full.
impl<T: Measured> Puts for Column<T> {
    ghost text = { λ c. padded c.width (T.text c.holds) };

    #[tactic(auto, using(crate::specs::WrittenLaws::followed_twice), unfolding(crate::specs::Columns::padded))]
    fn put_in(self, out: &mut Out) {
        let Column { width, holds } = self;
        out.repeated(b' ', holds.left_of(width));
        out.put(holds)
    }
}
