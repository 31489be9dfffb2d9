// Bytes as hexadecimal digits, two for each byte.
ghost use Rattle.std.specs.Prelude.{◌≡◌};
ghost use Rattle.printing.specs.Hex.{last_hex, hex_byte, hex_bytes};
ghost use Rattle.printing.specs.Written.{followed};

use crate::lent::{Out, Puts};

// The last hexadecimal digit of a number, in lower case.
#[tactic(auto, using(crate::proofs::HexLaws::last_small, crate::proofs::HexLaws::last_letter))]
fn last_hex(n: u64) -> u8
    ensures { result ≡ last_hex n }
{
    let d = (n % 16) as u8;
    if d < 10 { b'0' + d } else { b'a' - 10 + d }
}

// The last two hexadecimal digits of a number without its minus.
#[tactic(auto, using(crate::specs::WrittenLaws::followed_twice), unfolding(crate::specs::Hex::hex_byte))]
fn put_hex(out: &mut Out, z: i64)
    ensures { out.new ≡ followed out.old (hex_byte z) }
{
    let n = z.unsigned_abs();
    out.byte(last_hex(n / 16));
    out.byte(last_hex(n))
}

// Bytes one after the other.
#[derive(Clone, Copy)]
pub struct Hex<'a> {
    pub bytes: &'a [i64],
}

impl<'a> Puts for Hex<'a> {
    ghost text = { λ h. hex_bytes h.bytes.now };

    fn put_in(self, out: &mut Out) {
        for z in self.bytes {
            put_hex(out, *z);
        }
    }
}
