// The special guarantee of paper 01, 'Special guarantee' (002, section 7), on lent lists.
#![tactic(auto)]

ghost use Rattle.std.specs.Prelude.{◌≡◌};
ghost use Rattle.special.specs.Guarantee.{special_guarantee};

mod amounts; // amounts.rt: the guarantee of the ratios and the sums
mod inputs; // inputs.rt: what the lists must be
mod quotients; // quotients.rt: quotients to the nearest whole
mod rates; // rates.rt: the ratio of a list of rates

use amounts::guarantee_of;
use rates::ratio;
use refusal::Refusal;

// What a special guarantee is worked out from: the rates of the medium and of the low voltage, a mark for each of the low voltage's, and
// by semester the zero settlements and the repaid excesses of the medium and of the low voltage.
// Kept: parallel lists, and marks as numbers: the C interface lends seven lists, whose lengths (19) and marks (11) have causes of their own.
#[derive(Clone, Copy)]
pub struct Lists<'a> {
    pub medium: &'a [i64],
    pub low: &'a [i64],
    pub marks: &'a [u64],
    pub zero_medium: &'a [i64],
    pub zero_low: &'a [i64],
    pub excess_medium: &'a [i64],
    pub excess_low: &'a [i64],
}

// The special guarantee in cents, or the first of its causes of refusal that holds.
pub fn special_guarantee(lists: Lists) -> Result<u64, Refusal>
    ensures { result ≡ special_guarantee lists.entry.medium.now lists.entry.low.now lists.entry.marks.now lists.entry.zero_medium.now
        lists.entry.zero_low.now lists.entry.excess_medium.now lists.entry.excess_low.now }
{
    if lists.wrong_lengths() {
        return Err(Refusal::ListLengths);
    }
    if !lists.in_range() {
        return Err(Refusal::OutOfRange);
    }
    let medium = ratio(lists.medium, &[])?;
    let low = ratio(lists.low, lists.marks)?;
    Ok(guarantee_of(lists, medium, low))
}
