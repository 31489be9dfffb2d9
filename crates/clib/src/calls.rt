// The calls that change a book (paper 01, 'The calls', and paper 02).
// Kept: by the C interface each call is lent the words anew, and each but `guarantee_fresh` asks that they are a book.
ghost use Rattle.file.specs.declared.Position.TheVariants.{Cash, Letter};
ghost use Rattle.book.specs.Call.{admit, lodge, release, settle, annual_run, delete, on, advance, batch};
ghost use Rattle.book.specs.InWords.{GivenWords, BegunWords};
ghost use Rattle.clib.specs.Numbers.{refusal_number, settled_numbers, batch_numbers, annual_numbers, deletion_numbers, advanced_numbers};
ghost use Rattle.clib.specs.Returned.{FormedIfBook, Returned};

use crate::lent::in_book;
use crate::numbers::outcome_number;
use crate::{
    GuaranteeAdvanced, GuaranteeAnnual, GuaranteeBatch, GuaranteeDeletion, GuaranteeSettled,
};
use calendar::{Day, Month};
use file::Position;

// A fresh book on a day, in words of any content; beside the refusal 17 stands the fresh book of day 0.
#[unsafe(no_mangle)]
pub extern "C" fn guarantee_fresh(words: &mut [u64], day: u32) -> u64
    ensures { Returned refusal_number words.old (BegunWords day) result words.new }
{
    outcome_number(in_book(words, |book| book::fresh(book, Day(day))))
}

// Admits a participant with a role.
#[unsafe(no_mangle)]
pub extern "C" fn guarantee_admit(words: &mut [u64], participant: u64, role: u64) -> u64
    requires { FormedIfBook words.old }
    ensures { Returned refusal_number words.old
        (GivenWords words.old (on participant (admit role))) result words.new }
{
    outcome_number(in_book(words, |book| book::admit(book, participant, role)))
}

// Lodges cash at a position of a participant.
#[unsafe(no_mangle)]
pub extern "C" fn guarantee_lodge_cash(
    words: &mut [u64],
    participant: u64,
    position: u64,
    amount: u64,
) -> u64
    requires { FormedIfBook words.old }
    ensures { Returned refusal_number words.old
        (GivenWords words.old (on participant (lodge position (Cash amount)))) result words.new }
{
    let cash = Position::Cash(amount);
    outcome_number(in_book(words, |book| book::lodge(book, participant, position, cash)))
}

// Lodges a letter with its first and last day at a position of a participant.
#[unsafe(no_mangle)]
pub extern "C" fn guarantee_lodge_letter(
    words: &mut [u64],
    participant: u64,
    position: u64,
    amount: u64,
    first: u32,
    last: u32,
) -> u64
    requires { FormedIfBook words.old }
    ensures { Returned refusal_number words.old
        (GivenWords words.old (on participant (lodge position (Letter amount (record { 0 = first }) (record { 0 = last })))))
        result words.new }
{
    let letter = Position::Letter(amount, Day(first), Day(last));
    outcome_number(in_book(
        words,
        |book| book::lodge(book, participant, position, letter),
    ))
}

// Releases an amount at a position of a participant.
#[unsafe(no_mangle)]
pub extern "C" fn guarantee_release(
    words: &mut [u64],
    participant: u64,
    position: u64,
    amount: u64,
) -> u64
    requires { FormedIfBook words.old }
    ensures { Returned refusal_number words.old
        (GivenWords words.old (on participant (release position amount))) result words.new }
{
    outcome_number(in_book(
        words,
        |book| book::release(book, participant, position, amount),
    ))
}

// Settles a month of a participant by its figures.
#[tactic(auto, using(crate::proofs::Totals::given_small, crate::proofs::Totals::refused_small))]
#[unsafe(no_mangle)]
pub extern "C" fn guarantee_settle(
    words: &mut [u64],
    participant: u64,
    month: u32,
    figures: &[i64],
) -> GuaranteeSettled
    requires { FormedIfBook words.old }
    ensures { Returned settled_numbers words.old
        (GivenWords words.old (on participant (settle month figures.now))) result words.new }
{
    in_book(
        words,
        |book| book::settle(book, participant, Month(month), figures),
    )
    .into()
}

// Loads the file of a month for all participants: all its settlements, or none.
#[unsafe(no_mangle)]
pub extern "C" fn guarantee_batch(words: &mut [u64], file: &[u8]) -> GuaranteeBatch
    requires { FormedIfBook words.old }
    ensures { Returned batch_numbers words.old
        (GivenWords words.old (batch file.now)) result words.new }
{
    in_book(words, |book| book::load(book, file)).into()
}

// Runs the annual calculation of a participant.
#[unsafe(no_mangle)]
pub extern "C" fn guarantee_annual_run(words: &mut [u64], participant: u64) -> GuaranteeAnnual
    requires { FormedIfBook words.old }
    ensures { Returned annual_numbers words.old
        (GivenWords words.old (on participant annual_run)) result words.new }
{
    in_book(words, |book| book::annual_run(book, participant)).into()
}

// Places a participant under deletion.
#[unsafe(no_mangle)]
pub extern "C" fn guarantee_delete(words: &mut [u64], participant: u64) -> GuaranteeDeletion
    requires { FormedIfBook words.old }
    ensures { Returned deletion_numbers words.old
        (GivenWords words.old (on participant delete)) result words.new }
{
    in_book(words, |book| book::delete(book, participant)).into()
}

// Opens the days after today in turn until a day, or until a budget of days is spent.
#[unsafe(no_mangle)]
pub extern "C" fn guarantee_advance(words: &mut [u64], day: u32, budget: u64) -> GuaranteeAdvanced
    requires { FormedIfBook words.old }
    ensures { Returned advanced_numbers words.old
        (GivenWords words.old (advance day budget)) result words.new }
{
    in_book(words, |book| book::advance(book, Day(day), budget)).into()
}
