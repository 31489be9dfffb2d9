// A month as people write it.
ghost use Rattle.std.specs.Prelude.{◌≡◌};
ghost use Rattle.printing.specs.Written.{followed};
ghost use Rattle.entries.specs.Months.{month_text};

use calendar::{MONTHS, Month};
use printing::{Out, Puts, put_digits};

// A month that is written as its year and its number there.
#[derive(Clone, Copy)]
pub struct OnMonth {
    pub month: Month,
}

// The year and the number, with a stroke between the two; nothing for what is no month of the calendar.
impl Puts for OnMonth {
    ghost text = { λ m. month_text m.month.0 };

    #[tactic(auto, using(printing::specs::WrittenLaws::followed_twice, printing::specs::WrittenLaws::followed_none), unfolding(crate::specs::Months::month_text))]
    fn put_in(self, out: &mut Out) {
        let m = self.month.0;
        if m < MONTHS {
            put_digits(out, 4, (2020 + m / 12) as u64);
            out.byte(b'-');
            put_digits(out, 2, (m % 12 + 1) as u64)
        }
    }
}
