// Amounts as words: a natural number of cents, or euros with two digits behind a dot. One too large for its type counts as the type's
// largest, and one too small as its least.
ghost use Rattle.std.specs.Prelude.{◌≡◌, ◌+◌, ◌*◌, min};
ghost use Rattle.words.specs.Numerals.{value};
ghost use Rattle.words.specs.Euros.{is_euros, euros_of, amount_of, figure_of};

use crate::numbers::{digits, held_signed, is_natural, natural_of, negated};

// Whether a word has the form 20000.00.
#[tactic(auto, unfolding(crate::specs::Euros::is_euros))]
fn is_euros(w: &[u8]) -> bool
    ensures { result ≡ is_euros w.now }
{
    4 <= w.len()
        && w[w.len() - 3] == b'.'
        && is_natural(&w[..w.len() - 3])
        && is_natural(&w[w.len() - 2..])
}

// So many euros and cents as cents, or the largest number.
fn in_cents(euros: &[u8], cents: &[u8]) -> u64
    ensures { result ≡ min (100 * value euros.now + value cents.now) 18446744073709551615 }
{
    digits(euros)
        .saturating_mul(100)
        .saturating_add(digits(cents))
}

// A word of the form 20000.00 as cents.
#[tactic(auto, using(crate::proofs::EuroLaws::euros_long), unfolding(crate::specs::Euros::euros_of))]
fn euros_of(w: &[u8]) -> Option<u64>
    ensures { result ≡ euros_of w.now }
{
    if !is_euros(w) {
        return None;
    }
    Some(in_cents(&w[..w.len() - 3], &w[w.len() - 2..]))
}

// A word as an amount in cents.
#[tactic(auto, unfolding(crate::specs::Euros::amount_of, crate::specs::Numerals::natural_of))]
pub fn amount_of(w: &[u8]) -> Option<u64>
    ensures { result ≡ amount_of w.now }
{
    natural_of(w).or_else(|| euros_of(w))
}

// A word as an amount in cents that may have a minus.
pub fn figure_of(w: &[u8]) -> Option<i64>
    ensures { result ≡ figure_of w.now }
{
    match w {
        [b'-', amount @ ..] => amount_of(amount).map(negated),
        _ => amount_of(w).map(held_signed),
    }
}
