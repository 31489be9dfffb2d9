// Texts written into lent bytes, one behind the other. What has no room is not written.
ghost use Rattle.std.specs.Prelude.{◌≡◌, ◌==◌, ℕ, List, [], ◌∷◌, ◌++◌, length, map, replicate};
ghost use Rattle.printing.specs.Decimals.{spaced, joined};
ghost use Rattle.printing.specs.Written.{written_on, room_on, EndsWithin, lent, lent_behind, followed, emptied};

// Lent bytes, of which those up to `end` are written; where it lies behind them, all are. A clause sees the reference to them too, so who lent
// them knows what stands there once this is gone.
// Kept: an end beside the bytes, since what is written stands in lent bytes and grows without a heap, which a Vec needs.
#[derive(Drop)]
pub struct Out<'a> {
    bytes: &'a mut [u8],
    end: usize,
}

// What has a text that can be written.
// Kept: no Display, since a formatter's writes may fail, while what has no room in `Out` is left out and no call fails.
pub trait Puts {
    ghost text: { Self → List ℕ };

    // Writes the text.
    fn put_in(self, out: &mut Out)
        ensures { out.new ≡ followed out.old (text self) };
}

impl<'a> Out<'a> {
    // Nothing written yet.
    #[tactic(auto, unfolding(crate::specs::Written::lent))]
    pub fn new(bytes: &'a mut [u8]) -> Out<'a>
        ensures { result ≡ lent bytes.entry }
    {
        Out { bytes, end: 0 }
    }

    // So many bytes written already.
    #[tactic(auto, unfolding(crate::specs::Written::lent_behind))]
    pub fn behind(bytes: &'a mut [u8], end: usize) -> Out<'a>
        ensures { result ≡ lent_behind bytes.entry end }
    {
        Out { bytes, end }
    }

    // For how many more bytes there is room.
    pub fn room(&self) -> usize
        ensures { result ≡ room_on self.now }
    {
        self.bytes.len().saturating_sub(self.end)
    }

    // What is written.
    pub fn written(&self) -> &[u8]
        ensures { result.now ≡ written_on self.now }
    {
        &self.bytes[..self.end.min(self.bytes.len())]
    }

    // How many bytes are written.
    pub fn len(&self) -> usize
        ensures { result ≡ length (written_on self.now) }
    {
        self.written().len()
    }

    // Whether nothing is written.
    pub fn is_empty(&self) -> bool
        ensures { result ≡ (length (written_on self.now) == 0) }
    {
        self.written().is_empty()
    }

    // Forgets what is written, so that there is room for as much again.
    #[tactic(auto, unfolding(crate::specs::Written::emptied))]
    pub fn clear(&mut self)
        ensures { self.new ≡ emptied self.old }
    {
        self.end = 0;
    }

    // Writes bytes.
    pub fn text(&mut self, text: &[u8])
        ensures { self.new ≡ followed self.old text.now }
    {
        let n = text.len().min(self.room());
        let bytes = &mut *self.bytes;
        let end = self.end.min(bytes.len());
        bytes[end..end + n].copy_from_slice(&text[..n]);
        self.end += n;
    }

    // Writes a byte.
    #[tactic(auto, using(crate::proofs::OutLaws::byte_put, crate::proofs::OutLaws::byte_left))]
    pub fn byte(&mut self, byte: u8)
        ensures { self.new ≡ followed self.old (byte ∷ []) }
    {
        if self.end < self.bytes.len() {
            self.bytes[self.end] = byte;
            self.end += 1;
        }
    }

    // Writes a byte so many times.
    pub fn repeated(&mut self, byte: u8, count: usize)
        ensures { self.new ≡ followed self.old (replicate count byte) }
    {
        let n = count.min(self.room());
        let bytes = &mut *self.bytes;
        let end = self.end.min(bytes.len());
        bytes[end..end + n].fill(byte);
        self.end += n;
    }

    // Writes what has a text.
    pub fn put<T: Puts>(&mut self, x: T)
        ensures { self.new ≡ followed self.old (T.text x) }
    {
        x.put_in(self)
    }

    // Writes it with a newline behind it.
    #[tactic(auto, using(crate::specs::WrittenLaws::followed_twice))]
    pub fn line<T: Puts>(&mut self, x: T)
        ensures { self.new ≡ followed self.old (T.text x ++ (10 ∷ [])) }
    {
        self.put(x);
        self.byte(b'\n')
    }

    // Writes it with a blank before it.
    #[tactic(auto, using(crate::specs::WrittenLaws::followed_twice, crate::specs::WrittenLaws::spaced_one))]
    pub fn spaced<T: Puts>(&mut self, x: T)
        ensures { self.new ≡ followed self.old (spaced (T.text x ∷ [])) }
    {
        self.byte(b' ');
        self.put(x)
    }

    // Writes several with a blank before each.
    pub fn each_spaced<T: Puts + Copy>(&mut self, list: &[T])
        ensures { self.new ≡ followed self.old (spaced (map T.text list.now)) }
    {
        for x in list {
            self.spaced(*x);
        }
    }

    // Writes a word, and several with a blank before each.
    #[tactic(auto, using(crate::specs::WrittenLaws::followed_twice), unfolding(crate::specs::Decimals::joined))]
    pub fn words<T: Puts + Copy>(&mut self, name: &[u8], list: &[T])
        ensures { self.new ≡ followed self.old (joined (name.now ∷ map T.text list.now)) }
    {
        self.text(name);
        self.each_spaced(list)
    }
}

// Bytes are their own text.
impl<'a> Puts for &'a [u8] {
    ghost text = { λ t. t.now };

    fn put_in(self, out: &mut Out) {
        out.text(self)
    }
}

#[cfg(test)]
mod tests {
    use super::*;

    // Lent bytes in which two texts are written one behind the other and, once these are cleared, the second again.
    #[tactic(auto, using(crate::specs::WrittenLaws::within_lent, crate::specs::WrittenLaws::within_followed, crate::specs::WrittenLaws::within_emptied))]
    fn written_again<'a>(bytes: &'a mut [u8], first: &[u8], second: &[u8]) -> Out<'a>
        ensures { EndsWithin result }
    {
        let mut out = Out::new(bytes);
        out.text(first);
        out.text(second);
        out.clear();
        out.text(second);
        out
    }

    #[test]
    fn what_is_written_ends_within_the_bytes(rt: HostRuntime) {
        let mut bytes = *b"......";
        let out = written_again(&mut bytes, b"four", b"seventh");
        assert!(rt; out.written() == b"sevent".as_slice() && out.room() == 0);
        let mut bytes = *b"......";
        let out = written_again(&mut bytes, b"four", b"one");
        assert!(rt; out.written() == b"one".as_slice() && out.room() == 3);
    }
}
