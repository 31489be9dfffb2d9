// The Guarantee Manual's formulas (002, version 2.0, as paper 01 condenses it), on plain numbers.
#![tactic(auto)]

pub mod annual;
pub mod charge;
pub mod deletion;
pub mod figures;
mod largest; // largest.rt: the largest of totals, and at least an amount
pub mod minimum;
pub mod monthly;

// The call that the monthly check of paper 01, 'Settle', makes: its amount E and the asked E - D.
#[derive(Clone, Copy, PartialEq, Eq)]
pub struct Call {
    pub amount: u64,
    pub asked: u64,
}
