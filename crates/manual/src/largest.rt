ghost use Rattle.std.specs.Prelude.{◌≡◌, pos, nat_abs};
ghost use Rattle.manual.specs.Largest.{larger, largest_at_least};

// An amount, raised to a total that exceeds it.
fn raised(amount: u64, total: i64) -> u64
    ensures { result ≡ nat_abs (larger total (pos amount)) }
{
    amount.max(total.max(0) as u64)
}

// The largest of totals, and at least an amount.
pub fn largest_at_least(least: u64, totals: &[i64]) -> u64
    ensures { result ≡ largest_at_least least totals.now }
{
    totals
        .iter()
        .fold(least, |amount, total| raised(amount, *total))
}
