// The tables and worked examples of source 002 (Guarantee Manual, version 2.0), run through the functions. Each line says what the
// functions give and what 002 says, with DIFFERS at its end where these are not the same; a line without '002 says' is given by 002, or
// says where its example and its formula part. The last line says where an average that is not rounded would part from the example.
// Thousands are separated by commas and decimals by a point, where 002's examples do it the other way round.
#![tactic(auto)]

mod annual_example;
mod charge_example;
mod minimums;
mod monthly_example;
mod print;
mod special_example;
mod tried;

use std::io;
use tried::Tried;

// All tables and examples, in the order of 002's sections.
fn tables(rt: &impl Print) -> io::Result<()> {
    minimums::minimums(rt)?;
    annual_example::annual(rt)?;
    monthly_example::monthly(rt)?;
    charge_example::charges(rt)?;
    special_example::special(rt)
}

// A write that fails changes nothing else: the next one is tried.
fn main(rt: HostRuntime) {
    let _ = tables(&Tried(&rt));
}
