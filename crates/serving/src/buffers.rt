// A buffer between two reads of an input, and the bytes of a file that is entered.
ghost use Rattle.std.specs.Prelude.{◌≡◌, ◌<◌, ◌≤◌, length, take};

// A buffer, and how many bytes of it are filled: those of a line that has begun, which leave room.
// Kept: an array with the length of what it holds, in place of a Vec, since the program keeps fixed memory and nothing on the heap.
#[derive(Drop)]
pub struct Buffer {
    pub bytes: [u8; 65536],
    pub filled: usize,
    ghost size: { length bytes ≡ 65536 },
    ghost room: { filled < length bytes },
}

impl Buffer {
    // An empty buffer.
    pub fn new() -> Buffer
        ensures { result.filled ≡ 0 }
    {
        Buffer {
            bytes: [0; 65536],
            filled: 0,
        }
    }

    // The bytes of the line that has begun.
    pub fn rest(&self) -> &[u8]
        ensures { result.now ≡ take self.now.filled self.now.bytes }
    {
        &self.bytes[..self.filled]
    }
}

// The bytes of a file that is entered: the digits of 32,764 bytes make a line that fills a buffer but for one byte.
#[derive(Clone, Copy)]
pub struct Entry<'a> {
    pub bytes: &'a [u8],
    ghost few: { length bytes.now ≤ 32764 },
}
