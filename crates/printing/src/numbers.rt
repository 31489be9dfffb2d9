// Numbers in decimal.
ghost use Rattle.std.specs.Prelude.{◌≡◌, ◌+◌, ◌%◌};
ghost use Rattle.printing.specs.Decimals.{decimal, integer};
ghost use Rattle.printing.specs.Written.{followed};

use crate::lent::{Out, Puts};

// The last digit of a number.
pub fn last_digit(n: u64) -> u8
    ensures { result ≡ 48 + n % 10 }
{
    b'0' + (n % 10) as u8
}

// Writes the digits of a number, the first one first.
fn put_digits(out: &mut Out, n: u64)
    ensures { out.new ≡ followed out.old (decimal n) }
{
    if 10 <= n {
        put_digits(out, n / 10);
    }
    out.byte(last_digit(n))
}

// A natural number.
impl Puts for u64 {
    ghost text = { decimal };

    fn put_in(self, out: &mut Out) {
        put_digits(out, self)
    }
}

// A number, with a minus where it is below zero.
impl Puts for i64 {
    ghost text = { integer };

    #[tactic(auto, using(crate::specs::WrittenLaws::followed_twice), unfolding(crate::specs::Decimals::integer))]
    fn put_in(self, out: &mut Out) {
        if self < 0 {
            out.byte(b'-');
        }
        put_digits(out, self.unsigned_abs())
    }
}
