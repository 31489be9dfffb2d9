ghost use Rattle.std.specs.Prelude.{◌≡◌, pos};
ghost use Rattle.std.specs.Int.Signed.{lt_z};
ghost use Rattle.manual.specs.Check.{exceeds_tolerance, exceeds_each, call_is_made, checked};

use crate::Call;

// Whether a total exceeds an amount.
pub fn exceeds(total: i64, amount: u64) -> bool
    ensures { result ≡ lt_z (pos amount) total }
{
    0 <= total && amount < total as u64
}

// The tolerance test: whether a total exceeds the deposited guarantee, and by at least a fifth of it.
pub fn exceeds_tolerance(total: i64, deposited: u64) -> bool
    ensures { result ≡ exceeds_tolerance total deposited }
{
    exceeds(total, deposited) && deposited.div_ceil(5) <= total as u64 - deposited
}

// Whether a total exceeds each amount of a list.
#[tactic(auto, unfolding(crate::specs::Check::exceeds_each))]
fn exceeds_each(total: i64, amounts: &[u64]) -> bool
    ensures { result ≡ exceeds_each total amounts.now }
{
    amounts.iter().all(|amount| exceeds(total, *amount))
}

// Whether a total calls, given the deposited guarantee, the firm amount and the open calls' amounts.
#[tactic(auto, unfolding(crate::specs::Check::call_is_made, crate::specs::Check::exceeds_each))]
fn calls_for(total: i64, deposited: u64, firm: u64, amounts: &[u64]) -> bool
    ensures { result ≡ call_is_made total deposited firm amounts.now }
{
    exceeds_tolerance(total, deposited) && exceeds(total, firm) && exceeds_each(total, amounts)
}

// The monthly check of a total against the deposited guarantee, the firm amount and the open calls' amounts; none where the total is covered.
pub fn check(total: i64, deposited: u64, firm: u64, amounts: &[u64]) -> Option<Call>
    ensures { result ≡ checked total deposited firm amounts.now }
{
    if !calls_for(total, deposited, firm, amounts) {
        return None;
    }
    let amount = total as u64;
    Some(Call {
        amount,
        asked: amount - deposited,
    })
}
