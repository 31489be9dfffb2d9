// The questions, which leave a book as it was, and the special guarantee, which needs none.
// Kept: by the C interface a question is lent the words anew, and asks that they are a book (`guarantee_check` asks nothing of them).
ghost use Rattle.std.specs.Prelude.{◌≡◌};
ghost use Rattle.special.specs.Guarantee.{special_guarantee};
ghost use Rattle.book.specs.Call.{statement, calls_made};
ghost use Rattle.book.specs.InWords.{GivenWords};
ghost use Rattle.clib.specs.Numbers.{statement_numbers, count_numbers, day_numbers, special_numbers};
ghost use Rattle.clib.specs.Returned.{FormedIfBook, Returned, TodayOf, Checked};

use crate::fault::{EARLIER_LAYOUT, NOT_A_BOOK};
use crate::lent::of_book;
use crate::{GuaranteeCount, GuaranteeDay, GuaranteeSpecial, GuaranteeStatement};
use formed::{is_of_earlier_layout, is_well_formed};
use special::{Lists, special_guarantee};

// The statement of a participant.
#[unsafe(no_mangle)]
pub extern "C" fn guarantee_statement(words: &[u64], participant: u64) -> GuaranteeStatement
    requires { FormedIfBook words.now }
    ensures { Returned statement_numbers words.now
        (GivenWords words.now (statement participant)) result words.now }
{
    of_book(words, |book| book::statement(book, participant)).into()
}

// How many calls were made in all: the sum of the statements' counts (paper 02, Ask 6).
#[unsafe(no_mangle)]
pub extern "C" fn guarantee_calls_made(words: &[u64]) -> GuaranteeCount
    requires { FormedIfBook words.now }
    ensures { Returned count_numbers words.now (GivenWords words.now calls_made) result words.now }
{
    of_book(words, |book| Ok(book::calls_made(book))).into()
}

// Today.
#[unsafe(no_mangle)]
pub extern "C" fn guarantee_today(words: &[u64]) -> GuaranteeDay
    requires { FormedIfBook words.now }
    ensures { Returned day_numbers words.now (TodayOf words.now) result words.now }
{
    of_book(words, |book| Ok(book::today(book))).into()
}

// Whether words of any number and content are a book: 0 if they are, 101 if they are those of a book that an earlier version saved, 100 if neither.
#[unsafe(no_mangle)]
pub extern "C" fn guarantee_check(words: &[u64]) -> u64
    ensures { Checked words.now result }
{
    if is_well_formed(words) {
        0
    } else if is_of_earlier_layout(words) {
        EARLIER_LAYOUT
    } else {
        NOT_A_BOOK
    }
}

// The special guarantee: the rates of the medium and of the low voltage, a mark for each of the low voltage's, and by semester the
// zero settlements and the repaid excesses of the medium and of the low voltage.
#[unsafe(no_mangle)]
pub extern "C" fn guarantee_special(
    medium: &[i64],
    low: &[i64],
    marks: &[u64],
    zero_medium: &[i64],
    zero_low: &[i64],
    excess_medium: &[i64],
    excess_low: &[i64],
) -> GuaranteeSpecial
    ensures { result ≡ special_numbers (special_guarantee medium.now low.now marks.now zero_medium.now
        zero_low.now excess_medium.now excess_low.now) }
{
    special_guarantee(Lists {
        medium,
        low,
        marks,
        zero_medium,
        zero_low,
        excess_medium,
        excess_low,
    })
    .into()
}
