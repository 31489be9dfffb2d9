ghost use Rattle.std.specs.Prelude.{◌≡◌, ◌<◌, ℕ, ℤ, pos, List, length, get_or, nat_abs, ◌||◌, leb, ltb};
ghost use Rattle.manual.specs.Figures.{bound, summed};

use refusal::Refusal;

// The bound of a figure, 10^12 cents.
const BOUND: i64 = 1000000000000;

// Cause 10: whether so many figures are fewer than 5 or more than 16.
pub fn wrong_count(count: usize) -> bool
    ensures { result ≡ (ltb count 5 || ltb 16 count) }
{
    !(5..=16).contains(&count)
}

// Whether a figure is within plus or minus 10^12.
pub fn within(figure: i64) -> bool
    ensures { result ≡ leb (nat_abs figure) bound }
{
    (-BOUND..=BOUND).contains(&figure)
}

// A month's figures, each by its index.
pub trait Figures {
    ghost list: { Self → List ℤ };

    // How many they are.
    fn count(&self) -> usize
        ensures { result ≡ length (list self.now) };

    // The figure at an index; 0 behind the last.
    fn figure(&self, i: usize) -> i64
        ensures { result ≡ get_or (list self.now) i (pos 0) };
}

// Figures in a list.
impl<'a> Figures for &'a [i64] {
    ghost list = { λ figures. figures.now };

    fn count(&self) -> usize {
        self.len()
    }

    fn figure(&self, i: usize) -> i64 {
        self.get(i).copied().unwrap_or(0)
    }
}

// The sum of a month's figures, or the first of the causes 10 and 11 that holds.
pub fn sum_of_month<F: Figures>(figures: &F) -> Result<i64, Refusal>
    ensures { result ≡ summed (F.list figures.now) }
{
    let count = figures.count();
    if wrong_count(count) {
        return Err(Refusal::FigureCount);
    }
    // Kept: figures by an index, as a part's are read out of bytes; a `try_fold`'s closure would have to require how large the sum is by then.
    let mut total = 0;
    for i in 0..count {
        let next = figures.figure(i);
        if !within(next) {
            return Err(Refusal::OutOfRange);
        }
        total += next;
    }
    Ok(total)
}

// The sum of the figures in a list, or the first of the causes 10 and 11 that holds.
pub fn sum_figures(figures: &[i64]) -> Result<i64, Refusal>
    ensures { result ≡ summed figures.now }
{
    sum_of_month(&figures)
}

// The sum of a month's figures, so many and each given by its index, or the first of the causes 10 and 11 that holds.
pub fn sum_of_figures<F: Fn(usize) -> i64>(count: usize, figure: F) -> Result<i64, Refusal>
    ghost figures: { List ℤ }
    requires many { length figures ≡ count }
    requires callable { (i : ℕ) → i < count → F.pre figure i }
    requires given { (i : ℕ) (x : ℤ) → i < count → F.post figure i x → x ≡ get_or figures i (pos 0) }
    ensures { result ≡ summed figures }
{
    if wrong_count(count) {
        return Err(Refusal::FigureCount);
    }
    let mut listed = [0; 16];
    for at in 0..count {
        listed[at] = figure(at);
    }
    sum_figures(&listed[..count])
}

#[cfg(test)]
mod tests {
    use super::*;

    // The sum of figures in a list, each asked by its index.
    fn asked(figures: &[i64]) -> Result<i64, Refusal>
        ensures { result ≡ summed figures.now }
    {
        sum_of_figures(
            figures.len(),
            |i|
                requires { i < length figures.now }
            { figures[i] },
        )
    }

    #[test]
    fn figures_by_an_index_are_summed_or_refused(rt: HostRuntime) {
        assert!(rt; asked(&[1, 20, 300, -4000, 50000]) == Ok(46321));
        assert!(rt; asked(&[1000000000000; 16]) == Ok(16000000000000));
        assert!(rt; asked(&[-1000000000000; 5]) == Ok(-5000000000000));
        assert!(rt; asked(&[0, 0, 0, 0, 1000000000001]) == Err(Refusal::OutOfRange));
        assert!(rt; asked(&[-1000000000001, 0, 0, 0, 0]) == Err(Refusal::OutOfRange));
        assert!(rt; asked(&[1, 1, 1, 1]) == Err(Refusal::FigureCount));
        assert!(rt; asked(&[1000000000001; 17]) == Err(Refusal::FigureCount));
    }
}
