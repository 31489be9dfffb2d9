// How numbers and lines are written.
// Kept: `rt` and a label go beside the numbers, here and in the examples, since a struct of them would be made at each call.
use std::{fmt, io};

// A number, with a comma before its last three digits and before the three ahead of them.
#[derive(Clone, Copy)]
pub struct Grouped(pub u64);

impl fmt::Display for Grouped {
    fn fmt<W: fmt::Write>(&self, f: &mut fmt::Formatter<W>) -> fmt::Result {
        let n = self.0;
        if n < 1000 {
            write!(f, "{n}")
        } else if n < 1000000 {
            write!(f, "{},{:03}", n / 1000, n % 1000)
        } else {
            write!(f, "{},{:03},{:03}", n / 1000000, n / 1000 % 1000, n % 1000)
        }
    }
}

// A number of hundredths, with two decimals: cents as euro, a rate as percent.
#[derive(Clone, Copy, PartialEq)]
pub struct Hundredths(pub u64);

impl fmt::Display for Hundredths {
    fn fmt<W: fmt::Write>(&self, f: &mut fmt::Formatter<W>) -> fmt::Result {
        write!(f, "{}.{:02}", Grouped(self.0 / 100), self.0 % 100)
    }
}

// A number of ten-thousandths, with four decimals: those of its hundredths, and two more.
#[derive(Clone, Copy)]
pub struct TenThousandths(pub u64);

impl fmt::Display for TenThousandths {
    fn fmt<W: fmt::Write>(&self, f: &mut fmt::Formatter<W>) -> fmt::Result {
        write!(f, "{}{:02}", Hundredths(self.0 / 100), self.0 % 100)
    }
}

// A signed number of hundredths.
#[derive(Clone, Copy)]
pub struct Signed(pub i64);

impl fmt::Display for Signed {
    fn fmt<W: fmt::Write>(&self, f: &mut fmt::Formatter<W>) -> fmt::Result {
        let sign = if self.0 < 0 { "-" } else { "" };
        write!(f, "{sign}{}", Hundredths(self.0.unsigned_abs()))
    }
}

// A line's end: nothing where 002 says the same, else that it differs.
#[derive(Clone, Copy)]
pub struct Verdict(pub bool);

impl fmt::Display for Verdict {
    fn fmt<W: fmt::Write>(&self, f: &mut fmt::Formatter<W>) -> fmt::Result {
        f.write_str(if self.0 { "" } else { ": DIFFERS" })
    }
}

// A line with an amount, in cents, that 002 gives.
pub fn given(rt: &impl Print, label: &str, cents: i64) -> io::Result<()> {
    println!(rt; "{label}: {} euro", Signed(cents))
}

// A line for each of the named numbers that 002 gives, in hundredths.
pub fn listed(
    rt: &impl Print,
    before: &str,
    names: &[&str],
    numbers: &[i64],
    unit: &str,
) -> io::Result<()> {
    for (name, number) in names.iter().zip(numbers) {
        println!(rt; "{before}{name}: {}{unit}", Signed(*number))?;
    }
    Ok(())
}

// A line with what was found and what 002 states.
pub fn says<V: fmt::Display + PartialEq + Drop>(
    rt: &impl Print,
    label: &str,
    found: V,
    unit: &str,
    stated: V,
) -> io::Result<()> {
    let verdict = Verdict(found == stated);
    println!(rt; "{label}: {found}{unit}, 002 says {stated}{verdict}")
}

// A line with an amount found and the one that 002 states, in cents.
pub fn amount(rt: &impl Print, label: &str, found: u64, stated: u64) -> io::Result<()> {
    says(rt, label, Hundredths(found), " euro", Hundredths(stated))
}
