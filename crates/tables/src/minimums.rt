use crate::print::{Hundredths, Verdict, amount};
use manual::minimum::minimum;
use std::io;

// 002, 3.1: the six roles in their order, each with its minimum in cents, where 002 sets one.
const ROLES: [(&str, Option<u64>); 6] = [
    ("Supplier", Some(2000000)),
    ("Self-Supplied Customer", Some(2000000)),
    ("Trader", Some(1000000)),
    ("Producer", None),
    ("RES Aggregator", None),
    ("Demand Response Aggregator", None),
];

// A line with the minimum of a role, found and as 002 states it.
fn role_minimum(rt: &impl Print, name: &str, found: u64, stated: Option<u64>) -> io::Result<()> {
    print!(rt; "section 3.1, ")?;
    match stated {
        Some(cents) => amount(rt, name, found, cents),
        None => {
            let verdict = Verdict(found == 0);
            println!(rt;
                "{name}: {} euro, 002 sets none{verdict}",
                Hundredths(found)
            )
        }
    }
}

// 002, 3.1: the six roles' minimum guarantees.
pub fn minimums(rt: &impl Print) -> io::Result<()> {
    for (role, (name, stated)) in ROLES.iter().enumerate() {
        role_minimum(rt, name, minimum(role as u64), *stated)?;
    }
    Ok(())
}
