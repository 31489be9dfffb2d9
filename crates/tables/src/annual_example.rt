ghost use Rattle.std.specs.Prelude.{◌≡◌};

use crate::print::{amount, listed};
use manual::annual::annual_amount;
use std::io;

// 002, 5.1, the table: its twelve months.
// Kept: a list beside the totals, since `annual_amount` is lent a list of totals alone.
const MONTHS: [&str; 12] = [
    "Jul-20", "Aug-20", "Sep-20", "Oct-20", "Nov-20", "Dec-20", "Jan-21", "Feb-21", "Mar-21",
    "Apr-21", "May-21", "Jun-21",
];

// 002, 5.1, the table: the totals of participant A from July 2020 to June 2021, in cents.
const TOTALS: [i64; 12] = [
    68780100, 55688700, 55726000, 64462000, 69286800, 65431300, 62967400, 66956600, 67228600,
    77372900, 59657000, 72350800,
];

// 002, 5.1, the line MMX of the table.
const MMX: u64 = 77372900;

// 002, 5.1, below the table: the amount of the requisite guarantee.
const AMOUNT: u64 = 77372900;

// The guarantee of participant A, as a supplier, in cents: the existing one of example 2.
pub fn guarantee() -> u32
    ensures { result ≡ 77372900 }
{
    annual_amount(0, &TOTALS) as u32
}

// 002, 5.1: the twelve months, the largest of them (by a role without a minimum) and the amount of a supplier.
pub fn annual(rt: &impl Print) -> io::Result<()> {
    listed(rt, "example 1, ", &MONTHS, &TOTALS, " euro")?;
    amount(rt, "example 1, MMX", annual_amount(3, &TOTALS), MMX)?;
    amount(rt, "example 1, amount", annual_amount(0, &TOTALS), AMOUNT)
}
