// The numbers of a history's text: decimal, some with a minus, with blanks or line ends between them. A text may hold any bytes.

use std::slice;

// A number: whether a minus stands before it, and its size; the largest where that does not fit.
// Kept: a sign beside a size: one too large for u64 counts as the largest with or without a minus, which an i128 would clip twice.
#[derive(Clone, Copy)]
pub struct Number {
    negative: bool,
    pub size: u64,
}

impl Number {
    // The number 0.
    pub const ZERO: Number = Number {
        negative: false,
        size: 0,
    };

    // The number with its sign; the largest where its size does not fit.
    pub fn signed(self) -> i64 {
        i64::try_from(self.size).map_or(i64::MAX, |size| if self.negative { -size } else { size })
    }
}

// The numbers that are left.
#[derive(Drop)]
pub struct Numbers<'a> {
    bytes: slice::Iter<'a, u8>,
}

impl<'a> Numbers<'a> {
    // All numbers of a text.
    pub fn of(text: &'a [u8]) -> Numbers<'a> {
        Numbers { bytes: text.iter() }
    }

    // The next number without its sign; 0 at the text's end.
    pub fn natural(&mut self) -> u64 {
        self.next().map_or(0, |number| number.size)
    }
}

// The numbers in turn. A number is a run of digits, and has a minus where that is the byte before them; the byte behind them is passed over too, so
// it is no minus of the next number.
impl Iterator for Numbers<'_> {
    type Item = Number;

    fn next(&mut self) -> Option<Number> {
        let mut negative = false;
        let mut found = None;
        for byte in self.bytes.by_ref() {
            match byte {
                b'0'..=b'9' => {
                    let size: u64 = found.unwrap_or(0);
                    let digit = u64::from(byte - b'0');
                    found = Some(size.saturating_mul(10).saturating_add(digit));
                }
                _ if found.is_some() => break,
                _ => negative = *byte == b'-',
            }
        }
        found.map(|size| Number { negative, size })
    }
}
