// A day as people write it.
ghost use Rattle.std.specs.Prelude.{◌≡◌, Some};
ghost use Rattle.printing.specs.Written.{followed};
ghost use Rattle.printing.specs.Dates.{dated_text, date_text};

use crate::columns::put_digits;
use crate::lent::{Out, Puts};
use calendar::{Date, Day, date_of};

// A year, a month and a day of the month, with a stroke between each two.
#[tactic(auto, using(crate::specs::WrittenLaws::followed_twice))]
fn put_date(out: &mut Out, date: Date)
    ensures { out.new ≡ followed out.old (dated_text (Some date)) }
{
    put_digits(out, 4, date.year as u64);
    out.byte(b'-');
    put_digits(out, 2, date.month as u64);
    out.byte(b'-');
    put_digits(out, 2, date.day as u64)
}

// A day that is written as its date.
#[derive(Clone, Copy)]
pub struct OnDate {
    pub day: Day,
}

// The date; nothing for what is no day of the calendar.
impl Puts for OnDate {
    ghost text = { λ d. date_text d.day.0 };

    #[tactic(auto, using(crate::specs::WrittenLaws::followed_none), unfolding(crate::specs::Dates::date_text))]
    fn put_in(self, out: &mut Out) {
        if let Some(date) = date_of(self.day) {
            put_date(out, date);
        }
    }
}
