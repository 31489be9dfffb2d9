// Amounts that may be below zero.
ghost use Rattle.report.specs.FileText.{euros_signed};

use printing::{Fixed, Measured, Out, Puts};

// Cents in euros, with a minus where they are below zero.
#[derive(Clone, Copy)]
pub struct SignedEuros {
    pub cents: i64,
}

impl SignedEuros {
    ghost use Rattle.std.specs.Prelude.{◌≡◌, nat_abs};

    // The amount without its minus.
    fn size(self) -> Fixed<2>
        ensures { result.parts ≡ nat_abs self.cents }
    {
        Fixed {
            parts: self.cents.unsigned_abs(),
        }
    }
}

impl Puts for SignedEuros {
    ghost text = { λ e. euros_signed e.cents };

    #[tactic(auto, using(printing::specs::WrittenLaws::followed_twice), unfolding(crate::specs::FileText::euros_signed))]
    fn put_in(self, out: &mut Out) {
        if self.cents < 0 {
            out.byte(b'-');
        }
        out.put(self.size())
    }
}

impl Measured for SignedEuros {
    #[tactic(auto, unfolding(crate::specs::FileText::euros_signed))]
    fn left_of(&self, width: usize) -> usize {
        let behind_minus = if self.cents < 0 {
            width.saturating_sub(1)
        } else {
            width
        };
        self.size().left_of(behind_minus)
    }
}
