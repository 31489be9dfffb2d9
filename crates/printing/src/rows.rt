// Numbers in a row.
ghost use Rattle.std.specs.Prelude.{◌≡◌, take, drop};

// The first n numbers of a row, or as many as there are, and the rest.
// Kept: a row with a number: requests count numbers of a lent row (no heap), and `split_at` asks that the count is within the row.
pub fn parted(numbers: &[i64], n: usize) -> (&[i64], &[i64])
    ensures front { result.0.now ≡ take n numbers.now }
    ensures behind { result.1.now ≡ drop n numbers.now }
{
    numbers.split_at(n.min(numbers.len()))
}
