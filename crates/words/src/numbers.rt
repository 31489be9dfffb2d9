// Numbers as words: natural numbers and numbers that may have a minus. One too large for its type counts as the type's largest, and one
// too small as its least.
ghost use Rattle.std.specs.Prelude.{◌≡◌, ◌+◌, ◌-◌, ◌*◌, min, pos, neg_ℤ};
ghost use Rattle.words.specs.Bytes.{each, digit};
ghost use Rattle.words.specs.Numerals.{natural, value, natural_of, unsigned_of, signed_of};

// Whether each byte of a word is a digit.
fn all_digits(w: &[u8]) -> bool
    ensures { result ≡ each digit w.now }
{
    w.iter().all(|b| b.is_ascii_digit())
}

// Whether a word is a natural number.
#[tactic(auto, using(crate::proofs::NumberLaws::natural_each, crate::proofs::NumberLaws::natural_empty))]
pub fn is_natural(w: &[u8]) -> bool
    ensures { result ≡ natural w.now }
{
    !w.is_empty() && all_digits(w)
}

// A number with one more digit behind it, or the largest number.
fn with_digit(n: u64, b: u8) -> u64
    ensures { result ≡ min (10 * n + (b - 48)) 18446744073709551615 }
{
    n.saturating_mul(10)
        .saturating_add(b.saturating_sub(b'0') as u64)
}

// The number that digits give, or the largest number.
pub fn digits(w: &[u8]) -> u64
    ensures { result ≡ min (value w.now) 18446744073709551615 }
{
    w.iter().fold(0, |n, b| with_digit(n, *b))
}

// A word as a natural number.
#[tactic(auto, unfolding(crate::specs::Numerals::natural_of))]
pub fn natural_of(w: &[u8]) -> Option<u64>
    ensures { result ≡ natural_of w.now }
{
    is_natural(w).then(|| digits(w))
}

// A natural number as a signed one, or the largest.
#[tactic(auto, using(crate::proofs::NumberLaws::held_signed))]
pub fn held_signed(n: u64) -> i64
    ensures { result ≡ pos (min n 9223372036854775807) }
{
    0i64.saturating_add_unsigned(n)
}

// A natural number's negative, or the least.
#[tactic(auto, using(crate::proofs::NumberLaws::held_negative))]
pub fn negated(n: u64) -> i64
    ensures { result ≡ neg_ℤ (pos (min n 9223372036854775808)) }
{
    0i64.saturating_sub_unsigned(n)
}

// A word as a natural number that is held as a signed one.
#[tactic(auto, using(crate::proofs::NumberLaws::mapped))]
pub fn unsigned_of(w: &[u8]) -> Option<i64>
    ensures { result ≡ unsigned_of w.now }
{
    natural_of(w).map(held_signed)
}

// A word as a number that may have a minus.
#[tactic(auto, using(crate::proofs::NumberLaws::signed_minus, crate::proofs::NumberLaws::signed_plain))]
pub fn signed_of(w: &[u8]) -> Option<i64>
    ensures { result ≡ signed_of w.now }
{
    match w {
        [b'-', digits @ ..] => natural_of(digits).map(negated),
        _ => unsigned_of(w),
    }
}
