ghost use Rattle.std.specs.Prelude.{◌≡◌, ◌+◌, ◌*◌, max};
ghost use Rattle.manual.specs.Charge.{day_charge};

use crate::monthly_example::asked;
use crate::print::{Grouped, Hundredths, Verdict, amount};
use manual::charge::day_charge;
use std::io;

// 002, section 4: the minimum payment per day, in cents.
const LEAST: u32 = 100000;

// 002, 5.3: what is short at first, the supplementary guarantee of example 2.
const FIRST: u64 = 16306600;

// 002, 5.3: what is paid with a delay of two days.
const PAID: u32 = 10000000;

// 002, 5.3, the formula: what is short for the days after that.
const REST: u64 = 6306600;

// 002, 5.3, the formula: the sum without the minimum.
const SUM: u32 = 51533;

// 002, 5.3: the final charge.
const CHARGE: u32 = 500000;

// A line with a charge found, in mills, and the one that 002 states, in cents.
fn charge(rt: &impl Print, label: &str, found: u64, stated: u32) -> io::Result<()> {
    let cents = stated as u64;
    let verdict = Verdict(found == 1000 * cents);
    print!(rt;
        "{label}: {} mills, {} euro",
        Grouped(found),
        Hundredths(found / 1000)
    )?;
    println!(rt; ", 002 says {}{verdict}", Hundredths(cents))
}

// 1 per mille of a shortfall, in mills: the day charge of 10^8 times the shortfall, which the least charge is not above, over 10^8.
fn per_mille(shortfall: u32) -> u64
    ensures { result ≡ shortfall }
{
    day_charge(100000000 * (shortfall as u64)) / 100000000
}

// Some days with one shortfall and then some with another, in cents.
#[derive(Clone, Copy)]
struct Delay {
    days: u8,
    short: u32,
    later_days: u8,
    later: u32,
}

impl Delay {
    // The charge of all the days, in mills.
    fn charged(self) -> u64
        ensures { result ≡ self.days * day_charge self.short + self.later_days * day_charge self.later }
    {
        let before = (self.days as u64) * day_charge(self.short as u64);
        let after = (self.later_days as u64) * day_charge(self.later as u64);
        before + after
    }

    // 1 per mille of each day's shortfall, in mills, without the least charge.
    fn without_least(self) -> u64
        ensures { result ≡ self.days * self.short + self.later_days * self.later }
    {
        (self.days as u64) * per_mille(self.short)
            + (self.later_days as u64) * per_mille(self.later)
    }

    // The larger of the same sum and the least charge of all days: the comparison that 002, 5.3 makes once.
    fn compared_once(self) -> u64
        ensures { result ≡ max (self.days * self.short + self.later_days * self.later) ((self.days + self.later_days) * 100000000) }
    {
        let sum = self.without_least();
        sum.max(((self.days as u64) + (self.later_days as u64)) * day_charge(1))
    }
}

// 002, section 4: the least charge of a day; 5.3: the shortfalls of the days, by example 2 and what was paid.
fn shortfalls(rt: &impl Print, delay: Delay) -> io::Result<()> {
    charge(rt, "section 4, least charge of a day", day_charge(1), LEAST)?;
    amount(rt, "example 3, short for 2 days", delay.short as u64, FIRST)?;
    amount(
        rt,
        "example 3, then short for 3 days",
        delay.later as u64,
        REST,
    )
}

// 002, 5.3: where its example and its formula part, each beside the other.
fn parting(rt: &impl Print, delay: Delay) -> io::Result<()> {
    let sum = delay.without_least();
    charge(rt, "example 3, 1 per mille without the minimum", sum, SUM)?;
    print!(rt;
        "example 3: 002 multiplies 100,000 by 2 and 63,066 by 5, the formula the remaining amounts, "
    )?;
    let paid = Delay {
        short: PAID,
        later_days: 5,
        ..delay
    };
    println!(rt;
        "163,066 by 2 and 63,066 by 3: one sum{}",
        Verdict(sum == paid.without_least())
    )?;
    let charged = delay.charged();
    charge(rt, "example 3, charge", charged, CHARGE)?;
    print!(rt;
        "example 3: 002 compares the sum once with 5 x 1,000, the formula each day with 1,000: "
    )?;
    println!(rt;
        "here no difference{}",
        Verdict(charged == delay.compared_once())
    )
}

// 002, 5.3: the charge by the formula, day by day, beside the example's.
pub fn charges(rt: &impl Print) -> io::Result<()> {
    let first = asked();
    let delay = Delay {
        days: 2,
        short: first,
        later_days: 3,
        later: first - PAID,
    };
    shortfalls(rt, delay)?;
    parting(rt, delay)?;
    let falling = Delay {
        days: 1,
        short: 150000000,
        later_days: 1,
        later: 50000000,
    };
    print!(rt; "example 3: where 1,500,000 is short and then 500,000, ")?;
    println!(rt;
        "{} euro by the formula; compared once, {}",
        Hundredths(falling.charged() / 1000),
        Hundredths(falling.compared_once() / 1000)
    )
}
