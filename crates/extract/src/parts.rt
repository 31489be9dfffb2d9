// The part of a batch that is a participant's, and the bytes of its file.
ghost use Rattle.std.specs.Prelude.{◌≡◌};
ghost use Rattle.extract.specs.Extract.{own_part};

use batch::{BatchReader, form_of};

// The part of a batch that is a participant's.
pub fn own_part(file: &[u8], participant: u64) -> Option<u32>
    ensures { result ≡ own_part participant file.now }
{
    let Ok(n) = form_of(file) else {
        return None;
    };
    (0..n).find(|k| BatchReader::new(file).moved(*k).participant() as u64 == participant)
}
