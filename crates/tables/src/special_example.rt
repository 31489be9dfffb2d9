ghost use Rattle.std.specs.Prelude.{◌≡◌, ◌+◌, ◌*◌, ◌/◌};

use crate::print::{Hundredths, TenThousandths, Verdict, amount, given, listed};
use refusal::Refusal;
use special::{Lists, special_guarantee};
use std::io;

// 002, section 8, the first table: the medium voltage rates of E, Z, H, Theta and I, in hundredths of a percent.
const MEDIUM_RATES: [i64; 5] = [126, -18, 4, -234, 0];

// 002, section 8, the second table: the low voltage rates of E, Z, H, Theta, I and Pi.
const LOW_RATES: [i64; 6] = [3253, 4048, 4723, 1326, 780, 11291];

// The names of the rates in both tables.
// Kept: a list beside the numbers, since both tables' numbers have these names, and the functions are lent lists of numbers alone.
const RATES: [&str; 6] = ["E", "Z", "H", "Theta", "I", "Pi, not taken into account"];

// 002, section 8, below the second table: Pi alone was represented in the low voltage for the first time.
const MARKS: [u64; 6] = [0, 0, 0, 0, 0, 1];

// 002, section 8, the third table: the medium voltage zero settlements of the four semesters of 2019 and 2020, in cents.
const MEDIUM_ZEROS: [i64; 4] = [18633458, 39457632, 73289522, 95618724];

// 002, section 8, the fourth table: the low voltage zero settlements of the same semesters.
const LOW_ZEROS: [i64; 4] = [2338818, 5389234, 7762366, 8919274];

// The names of the semesters in both tables.
// Kept: as `RATES`: both tables' numbers have these names, and the functions are lent lists of numbers alone.
const SEMESTERS: [&str; 4] = [
    "2019, 1st semester",
    "2019, 2nd semester",
    "2020, 1st semester",
    "2020, 2nd semester",
];

// 002, section 8, the fourth table: the interim low voltage settlement of the first semester of 2020.
const INTERIM: i64 = 10588754;

// 002, section 7: the minimum amount.
const MINIMUM: u64 = 500000;

// 002, section 8, below the first table: the medium voltage ratio, 0,43%.
const MEDIUM_RATIO: u16 = 43;

// 002, section 8, below the second table: the low voltage ratio, 40,08%.
const LOW_RATIO: u16 = 4008;

// 002, section 8, below the third table: the sum of the medium voltage zero settlements.
const MEDIUM_SUM: u64 = 226999336;

// 002, section 8, below the fourth table: the sum of the low voltage zero settlements.
const LOW_SUM: u64 = 24409692;

// 002, section 8, below the fourth table: the guarantee by the formula of 7.1.
const BEFORE: u64 = 10759502;

// 002, section 8, near its end: the impairment.
const IMPAIRMENT: u64 = 2826388;

// 002, section 8, at its end: the guarantee less the impairment.
const AFTER: u64 = 7933114;

// The largest zero settlement. A guarantee of this settlement alone is 10^8 cents for each hundredth of a percent of the ratio.
const LARGEST: i64 = 1000000000000;

// Three rates of 100%. By them a guarantee is the sum of the zero settlements.
const WHOLE: [i64; 3] = [10000, 10000, 10000];

// No mark on three rates, and nothing in one semester and in four.
const UNMARKED: [u64; 3] = [0, 0, 0];

const NOTHING: [i64; 1] = [0];

const NO_ZEROS: [i64; 4] = [0, 0, 0, 0];

// A line where a function refuses the lists of 002, which it should take.
fn refused(rt: &impl Print, label: &str) -> io::Result<()> {
    println!(rt; "{label}: refused: DIFFERS")
}

// A line with a guarantee and the one that 002 states, in cents.
fn guarantee(
    rt: &impl Print,
    label: &str,
    found: Result<u64, Refusal>,
    stated: u64,
) -> io::Result<()> {
    match found {
        Ok(cents) => amount(rt, label, cents, stated),
        Err(_) => refused(rt, label),
    }
}

// A line with the ratio that a guarantee of the largest settlement alone shows, in ten-thousandths of a percent as the average of three
// rates with this sum beside it, so that a ratio that is not rounded shows, and the ratio that 002 states, in hundredths of a percent.
fn shown_ratio(
    rt: &impl Print,
    label: &str,
    found: Result<u64, Refusal>,
    three: u16,
    stated: u16,
) -> io::Result<()> {
    let Ok(cents) = found else {
        return refused(rt, label);
    };
    let ratio = cents / 1000000;
    let average = 100 * (three as u64) / 3;
    let verdict = Verdict(ratio == 100 * (stated as u64));
    print!(rt;
        "{label}: {}%, from an average of {}%",
        TenThousandths(ratio),
        TenThousandths(average)
    )?;
    println!(rt; ", 002 says {}%{verdict}", Hundredths(stated as u64))
}

// A line with what a guarantee is less than another by and what 002 states, in cents.
fn reduced(
    rt: &impl Print,
    label: &str,
    before: Result<u64, Refusal>,
    after: Result<u64, Refusal>,
    stated: u64,
) -> io::Result<()> {
    let (Ok(gross), Ok(net)) = (before, after) else {
        return refused(rt, label);
    };
    match gross.checked_sub(net) {
        Some(less) => amount(rt, label, less, stated),
        None => println!(rt; "{label}: raised: DIFFERS"),
    }
}

// Kept: these sums are written out: tried `.iter().sum()` in `medium_total`: that each partial sum fits (`sum-requires-clause-fits`) stayed open.
// The sum of the three largest medium voltage rates, which are those of E, H and I by 002, section 8.
fn medium_three() -> u16
    ensures { result ≡ 130 }
{
    (MEDIUM_RATES[0] + MEDIUM_RATES[2] + MEDIUM_RATES[4]) as u16
}

// The sum of the three largest low voltage rates without Pi's, which are those of E, Z and H by 002, section 8.
fn low_three() -> u16
    ensures { result ≡ 12024 }
{
    (LOW_RATES[0] + LOW_RATES[1] + LOW_RATES[2]) as u16
}

// The sum of the medium voltage zero settlements, in cents.
fn medium_total() -> u32
    ensures { result ≡ 226999336 }
{
    (MEDIUM_ZEROS[0] + MEDIUM_ZEROS[1] + MEDIUM_ZEROS[2] + MEDIUM_ZEROS[3]) as u32
}

// The sum of the low voltage zero settlements, in cents.
fn low_total() -> u32
    ensures { result ≡ 24409692 }
{
    (LOW_ZEROS[0] + LOW_ZEROS[1] + LOW_ZEROS[2] + LOW_ZEROS[3]) as u32
}

// The guarantee by 7.1's averages, which are not rounded: the sums of three rates times the settlements' sums, over 3 and over 10,000, to
// the nearest cent.
fn unrounded(medium: u16, medium_sum: u32, low: u16, low_sum: u32) -> u64
    ensures { result ≡ (medium * medium_sum + low * low_sum + 15000) / 30000 }
{
    ((medium as u64) * (medium_sum as u64) + (low as u64) * (low_sum as u64) + 15000) / 30000
}

// 002, section 8: the rates of both voltages and their ratios.
fn ratios(rt: &impl Print) -> io::Result<()> {
    let whole = Lists {
        medium: &WHOLE,
        low: &WHOLE,
        marks: &UNMARKED,
        zero_medium: &NOTHING,
        zero_low: &NOTHING,
        excess_medium: &NOTHING,
        excess_low: &NOTHING,
    };
    let largest = [LARGEST];
    listed(rt, "section 8, MV rate of ", &RATES, &MEDIUM_RATES, "%")?;
    let found = special_guarantee(Lists {
        medium: &MEDIUM_RATES,
        zero_medium: &largest,
        ..whole
    });
    shown_ratio(
        rt,
        "section 8, MV ratio",
        found,
        medium_three(),
        MEDIUM_RATIO,
    )?;
    listed(rt, "section 8, LV rate of ", &RATES, &LOW_RATES, "%")?;
    let found = special_guarantee(Lists {
        low: &LOW_RATES,
        marks: &MARKS,
        zero_low: &largest,
        ..whole
    });
    shown_ratio(rt, "section 8, LV ratio", found, low_three(), LOW_RATIO)
}

// 002, section 8: the zero settlements of both voltages, their sums and the interim settlement.
fn sums(rt: &impl Print) -> io::Result<()> {
    let whole = Lists {
        medium: &WHOLE,
        low: &WHOLE,
        marks: &UNMARKED,
        zero_medium: &NO_ZEROS,
        zero_low: &NO_ZEROS,
        excess_medium: &NO_ZEROS,
        excess_low: &NO_ZEROS,
    };
    listed(
        rt,
        "section 8, MV zero settlement of ",
        &SEMESTERS,
        &MEDIUM_ZEROS,
        " euro",
    )?;
    let found = special_guarantee(Lists {
        zero_medium: &MEDIUM_ZEROS,
        ..whole
    });
    guarantee(rt, "section 8, MV sum", found, MEDIUM_SUM)?;
    listed(
        rt,
        "section 8, LV zero settlement of ",
        &SEMESTERS,
        &LOW_ZEROS,
        " euro",
    )?;
    let found = special_guarantee(Lists {
        zero_low: &LOW_ZEROS,
        ..whole
    });
    guarantee(rt, "section 8, LV sum", found, LOW_SUM)?;
    given(
        rt,
        "section 8, LV interim settlement of 2020, 1st semester",
        INTERIM,
    )
}

// 002, section 8: the guarantee before and after the impairment.
fn guarantees(rt: &impl Print) -> io::Result<()> {
    let excess = [0, 0, INTERIM - LOW_ZEROS[2], 0];
    let lists = Lists {
        medium: &MEDIUM_RATES,
        low: &LOW_RATES,
        marks: &MARKS,
        zero_medium: &MEDIUM_ZEROS,
        zero_low: &LOW_ZEROS,
        excess_medium: &NO_ZEROS,
        excess_low: &NO_ZEROS,
    };
    let before = special_guarantee(lists);
    let after = special_guarantee(Lists {
        excess_low: &excess,
        ..lists
    });
    guarantee(rt, "section 8, guarantee", before, BEFORE)?;
    reduced(rt, "section 8, impairment", before, after, IMPAIRMENT)?;
    guarantee(rt, "section 8, guarantee less the impairment", after, AFTER)
}

// The guarantee of section 8 by the averages, before the impairment, in cents.
fn unrounded_guarantee() -> u64
    ensures { result ≡ 10767068 }
{
    unrounded(medium_three(), medium_total(), low_three(), low_total())
}

// 002, 7.1 and section 8: where the average, not rounded to a ratio, parts from the example.
fn parting(rt: &impl Print) -> io::Result<()> {
    let gross = unrounded_guarantee();
    let net = gross - (INTERIM - LOW_ZEROS[2]) as u64;
    let end = if net == AFTER {
        "no difference"
    } else {
        "here they part"
    };
    print!(rt;
        "section 8: by 7.1's average, not rounded to a ratio, {} euro",
        Hundredths(gross)
    )?;
    print!(rt; ", less the impairment {}", Hundredths(net))?;
    println!(rt; ", where 002 says {}: {end}", Hundredths(AFTER))
}

// 002, section 7: the minimum, where nothing was settled; section 8: the worked example.
pub fn special(rt: &impl Print) -> io::Result<()> {
    let zeros = [0, 0, 0];
    let found = special_guarantee(Lists {
        medium: &zeros,
        low: &zeros,
        marks: &UNMARKED,
        zero_medium: &[],
        zero_low: &[],
        excess_medium: &[],
        excess_low: &[],
    });
    guarantee(rt, "section 7, minimum", found, MINIMUM)?;
    ratios(rt)?;
    sums(rt)?;
    guarantees(rt)?;
    parting(rt)
}
