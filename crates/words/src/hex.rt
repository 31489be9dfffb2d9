// Bytes as hexadecimal digits, two for each byte, in one word.
ghost use Rattle.std.specs.Prelude.{◌≡◌, ◌+◌, ◌*◌, pos};
ghost use Rattle.std.proofs.lemmas.List.Edits.{sets};
ghost use Rattle.words.specs.Bytes.{each};
ghost use Rattle.words.specs.Hex.{hex_digit, hex_value, hexadecimal, bytes_of_hex};

// What a hexadecimal digit stands for; 0 for what is none.
#[tactic(auto, unfolding(crate::specs::Hex::hex_value, crate::specs::Hex::lower_hex, crate::specs::Hex::upper_hex, crate::specs::Bytes::digit))]
fn hex_value(b: u8) -> u8
    ensures { result ≡ hex_value b }
{
    match b {
        b'0'..=b'9' => b - b'0',
        b'a'..=b'f' => b - b'a' + 10,
        b'A'..=b'F' => b - b'A' + 10,
        _ => 0,
    }
}

// The byte of two hexadecimal digits, as a number.
#[tactic(auto, using(crate::proofs::HexLaws::value_small))]
fn byte_of_digits(a: u8, b: u8) -> i64
    ensures { result ≡ pos (16 * hex_value a + hex_value b) }
{
    i64::from(16 * hex_value(a) + hex_value(b))
}

// Whether each byte of a word is a hexadecimal digit.
fn all_hex(w: &[u8]) -> bool
    ensures { result ≡ each hex_digit w.now }
{
    w.iter().all(|b| b.is_ascii_hexdigit())
}

// Whether a word is an even number of hexadecimal digits.
#[tactic(auto, unfolding(crate::specs::Hex::hexadecimal))]
pub fn is_hexadecimal(w: &[u8]) -> bool
    ensures { result ≡ hexadecimal w.now }
{
    w.len() % 2 == 0 && all_hex(w)
}

// Writes the bytes of a word to the front of a slice, as numbers. What has no room is not written.
// Kept: by index: std says nothing of the elements behind a `zip` of `iter_mut`, so with one this clause did not close.
pub fn write_bytes(w: &[u8], numbers: &mut [i64])
    ensures { numbers.new ≡ sets numbers.old 0 (bytes_of_hex w.now) }
{
    for i in 0..numbers.len().min(w.len() / 2) {
        numbers[i] = byte_of_digits(w[2 * i], w[2 * i + 1]);
    }
}
