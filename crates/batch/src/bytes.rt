// Numbers in the bytes of a file, least byte first. A byte behind the end counts as 0, where a function does not ask that its bytes are there.
// Kept: each takes a file and a place (the new form is no plainer): a struct of the two would be made anew for each number.
ghost use Rattle.std.specs.Prelude.{◌≡◌, ◌+◌, ◌<◌, ◌≤◌, ◌^◌, length, get_or};
ghost use Rattle.batch.specs.Bytes.{number_at, signed_of, BytesAt};

// The byte at a place.
pub fn byte_at(file: &[u8], at: usize) -> u8
    ensures { result ≡ get_or file.now at 0 }
{
    file.get(at).copied().unwrap_or(0)
}

// So many bytes that are there.
fn bytes_there<const N: usize>(file: &[u8], at: usize) -> [u8; N]
    requires { at + N ≤ length file.now }
    ensures { BytesAt file.now at N result }
{
    let mut bytes = [0; N];
    bytes.copy_from_slice(&file[at..at + N]);
    bytes
}

// The number in two bytes.
#[tactic(auto, using(crate::proofs::ByteLaws::two_bytes))]
pub fn number2(file: &[u8], at: usize) -> u16
    requires { at + 1 < 2 ^ 64 }
    ensures { result ≡ number_at file.now at 2 }
{
    u16::from_le_bytes([byte_at(file, at), byte_at(file, at + 1)])
}

// The number in four bytes.
// Kept: two ways for four bytes alone: by one function over any width a batch took 2.96 µs, more than its bar, the settlements' 2.34.
#[tactic(auto, using(crate::proofs::ByteLaws::le_four, crate::proofs::ByteLaws::four_bytes))]
pub fn number4(file: &[u8], at: usize) -> u32
    requires { at + 4 < 2 ^ 64 }
    ensures { result ≡ number_at file.now at 4 }
{
    if at + 4 <= file.len() {
        return u32::from_le_bytes(bytes_there(file, at));
    }
    u32::from_le_bytes([
        byte_at(file, at),
        byte_at(file, at + 1),
        byte_at(file, at + 2),
        byte_at(file, at + 3),
    ])
}

// The signed number in eight bytes that are there.
#[tactic(auto, using(crate::proofs::ByteLaws::eight_signed))]
pub fn signed8(file: &[u8], at: usize) -> i64
    requires { at + 8 ≤ length file.now }
    ensures { result ≡ signed_of (number_at file.now at 8) }
{
    i64::from_le_bytes(bytes_there(file, at))
}
