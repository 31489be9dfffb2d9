// Quotients to the nearest whole.
ghost use Rattle.std.specs.Prelude.{◌≡◌, ◌≤◌, ◌<◌, nat_abs};
ghost use Rattle.laws.specs.Signed.{nearest};

// x / n to the nearest whole, halves upward.
pub fn nearest_whole(x: i64, n: u32) -> i64
    requires { (0 < n) × (n ≤ 10000) × (nat_abs x ≤ 4000000000000000000) }
    ensures { result ≡ nearest x n }
{
    (2 * x + n as i64).div_euclid((2 * n) as i64)
}
