ghost use Rattle.std.specs.Prelude.{◌≡◌, ◌+◌, ◌*◌, ◌/◌, ◌<◌};

use crate::annual_example::guarantee;
use crate::print::{Verdict, amount, given, says};
use calendar::{Month, is_september};
use manual::Call;
use manual::figures::sum_figures;
use manual::monthly::{check, exceeds_tolerance};
use std::{fmt, io};

// 002, 5.2, the table: the settlement amount of July 2021, month 18, which is settled in month 20.
const JULY: u32 = 75446400;

// 002, 5.2, the table: the settlement amount of August 2021, month 19, which is settled in month 21.
const AUGUST: u32 = 93679500;

// 002, 5.2, the table: the new guarantee by the settlement of July 2021.
const JULY_STATED: u64 = 75446400;

// 002, 5.2, the table: the new guarantee by the settlement of August 2021.
const AUGUST_STATED: u64 = 93679500;

// 002, 5.2, the table: the difference of July 2021, -2%, as a percentage of the existing guarantee.
const JULY_PERCENT: u64 = 98;

// 002, 5.2, the table: the difference of August 2021, 21%, likewise.
const AUGUST_PERCENT: u64 = 121;

// 002, 5.2, below the table: the additional guarantee.
const ADDITIONAL: u64 = 16306600;

// A percentage of a guarantee, written as its difference to the whole.
#[derive(Clone, Copy, PartialEq)]
struct Difference(u64);

impl fmt::Display for Difference {
    fn fmt<W: fmt::Write>(&self, f: &mut fmt::Formatter<W>) -> fmt::Result {
        let sign = if self.0 < 100 { "-" } else { "" };
        write!(f, "{sign}{}%", self.0.abs_diff(100))
    }
}

// A line on the month in which a month is settled.
fn settled(rt: &impl Print, label: &str, month: Month) -> io::Result<()> {
    if is_september(month) {
        println!(rt;
            "{label}: settled in September, when no check is due; only its arithmetic is kept"
        )
    } else {
        println!(rt; "{label}: not settled in September, so the check is due")
    }
}

// The sum of a month's figures, where 002 gives the sum of the accounts as one amount; 0 where they are refused.
fn sum_of(settled: u32) -> u32
    ensures { result ≡ settled }
{
    sum_figures(&[settled as i64, 0, 0, 0, 0]).unwrap_or(0) as u32
}

// A line with a check that 002 finds covered.
fn covered(rt: &impl Print, label: &str, found: Option<Call>) -> io::Result<()> {
    match found {
        None => println!(rt; "{label}: covered, 002 says covered"),
        Some(_) => println!(rt; "{label}: called, 002 says covered: DIFFERS"),
    }
}

// A line with what a check asks, where 002 calls, and what 002 states, in cents.
fn called(rt: &impl Print, label: &str, found: Option<Call>, stated: u64) -> io::Result<()> {
    match found {
        None => println!(rt; "{label}: covered, 002 says called: DIFFERS"),
        Some(call) => amount(rt, label, call.asked, stated),
    }
}

// How many percent of a guarantee a total is, to the nearest whole.
fn percent_of(total: u32, guarantee: u32) -> u64
    requires { 0 < guarantee }
    ensures { result ≡ (200 * total + guarantee) / (2 * guarantee) }
{
    (200 * (total as u64) + guarantee as u64) / (2 * (guarantee as u64))
}

// What the check of August 2021 asks of participant A, in cents; 0 where it asks nothing.
pub fn asked() -> u32
    ensures { result ≡ 16306600 }
{
    let deposited = guarantee() as u64;
    check(sum_of(AUGUST) as i64, deposited, deposited, &[]).map_or(0, |call| call.asked) as u32
}

// The lines on a month that July and August share: its amount, the new guarantee and the difference.
fn month(rt: &impl Print, label: &str, total: u32, stated: u64, percent: u64) -> io::Result<()> {
    let sum = sum_of(total);
    given(rt, label, total as i64)?;
    print!(rt; "{label}, ")?;
    amount(rt, "new guarantee", sum as u64, stated)?;
    print!(rt; "{label}, ")?;
    let found = Difference(percent_of(sum, guarantee()));
    says(rt, "difference", found, "", Difference(percent))
}

// 002, 5.2: the check of July 2021 against the guarantee of example 1.
fn july(rt: &impl Print) -> io::Result<()> {
    let label = "example 2, Jul-21";
    let deposited = guarantee() as u64;
    month(rt, label, JULY, JULY_STATED, JULY_PERCENT)?;
    let found = check(sum_of(JULY) as i64, deposited, deposited, &[]);
    covered(rt, label, found)?;
    settled(rt, label, Month(20))
}

// 002, 5.2: the check of August 2021 against the guarantee of example 1.
fn august(rt: &impl Print) -> io::Result<()> {
    let label = "example 2, Aug-21";
    let total = sum_of(AUGUST) as i64;
    let deposited = guarantee() as u64;
    month(rt, label, AUGUST, AUGUST_STATED, AUGUST_PERCENT)?;
    let exceeded = exceeds_tolerance(total, deposited);
    let limit = if exceeded { "exceeded" } else { "not exceeded" };
    println!(rt;
        "{label}, tolerance limit: {limit}, 002 says exceeded{}",
        Verdict(exceeded)
    )?;
    let found = check(total, deposited, deposited, &[]);
    print!(rt; "{label}, ")?;
    called(rt, "additional guarantee", found, ADDITIONAL)?;
    settled(rt, label, Month(21))
}

// 002, 5.2: the checks of two months.
pub fn monthly(rt: &impl Print) -> io::Result<()> {
    july(rt)?;
    august(rt)
}
