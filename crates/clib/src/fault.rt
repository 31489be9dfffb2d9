// Why a call on lent words gives nothing.
ghost use Rattle.std.specs.Prelude.{◌≡◌};
ghost use Rattle.clib.specs.Numbers.{refusal_number, fault_says, refusal_says};

use refusal::Refusal;

// The refusal of words that are no book.
pub const NOT_A_BOOK: u64 = 100;

// What the check says of a book that an earlier version saved.
pub const EARLIER_LAYOUT: u64 = 101;

// The words are not as many as a book's, or the book refuses the call.
// Kept: an error of its own, though of Option's shape: None would not say that the length is why, and a Result in a Result has two layers.
#[derive(Clone, Copy)]
pub enum Fault<E> {
    OtherLength,
    Refused(E),
}

impl Fault<Refusal> {
    // The refusal that an exported function returns.
    pub fn number(self) -> u64
        ensures { result ≡ refusal_number (fault_says refusal_says self) }
    {
        match self {
            Fault::OtherLength => NOT_A_BOOK,
            Fault::Refused(refusal) => refusal.number() as u64,
        }
    }
}
