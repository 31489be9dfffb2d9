// The words that a program in C lends: a call on them, where they are as many as a book's.
ghost use Rattle.std.specs.Prelude.{◌≡◌, length};
ghost use Rattle.std.specs.Fn.{FnOnceReturnsAt, FnOnceReturnsAtMut, FnOnceTakesAt, FnOnceTakesAtMut};
ghost use Rattle.layout.specs.Words.{book_length};
ghost use Rattle.clib.specs.Returned.{Lent};

use crate::fault::Fault;

// What a call that may change the book gives.
pub fn in_book<T, E, F: FnOnce(&mut [u64]) -> Result<T, E>>(
    words: &mut [u64],
    call: F,
) -> Result<T, Fault<E>>
    requires { length words.old ≡ book_length → FnOnceTakesAtMut F.FnOnce call words.old }
    ensures { Lent words.old (λ answer left. FnOnceReturnsAtMut F.FnOnce call words.old answer left) result words.new }
{
    if words.len() != 6210 {
        return Err(Fault::OtherLength);
    }
    call(words).map_err(Fault::Refused)
}

// What a question gives, which leaves the book as it was.
// Kept: the twin of `in_book`, since no reference is shared or mutable by a parameter; a trait over both would be longer than these four lines.
pub fn of_book<T, E, F: FnOnce(&[u64]) -> Result<T, E>>(
    words: &[u64],
    question: F,
) -> Result<T, Fault<E>>
    requires { length words.now ≡ book_length → FnOnceTakesAt F.FnOnce question words.now }
    ensures { Lent words.now (λ answer left. (left ≡ words.now) × FnOnceReturnsAt F.FnOnce question words.now answer) result words.now }
{
    if words.len() != 6210 {
        return Err(Fault::OtherLength);
    }
    question(words).map_err(Fault::Refused)
}
