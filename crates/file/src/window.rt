// The recorded totals of months one after another, up to thirteen: what an annual run and a deletion look at.
ghost use Rattle.std.specs.Prelude.{◌≡◌, ◌-◌, ◌≤◌};
ghost use Rattle.file.specs.Totals.{total_at, totals_from};

use crate::{File, ring_place};
use calendar::{Month, months_before, months_between};

impl File {
    // A month's total, where it is recorded.
    #[tactic(auto, unfolding(crate::specs::Totals::total_at, crate::specs::Totals::total_here))]
    fn total_of(&self, month: Month) -> Option<i64>
        ensures { result ≡ total_at self.now.totals month.0 }
    {
        let place = self.totals[ring_place(month)];
        (place.recorded && place.month == month).then_some(place.total)
    }

    // The recorded totals of up to thirteen months, from the first on and before the end, in the room that is lent for them.
    pub(crate) fn recorded<'a>(
        &self,
        first: Month,
        end: Month,
        room: &'a mut [i64; 13],
    ) -> &'a [i64]
        requires { end.0 - first.0 ≤ 13 }
        ensures { result.now ≡ totals_from (total_at self.now.totals) first.0 (end.0 - first.0) }
    {
        // Kept: the totals go into lent room: the amounts are of a list of them, and the project has no heap to collect one.
        let mut count = 0;
        let months = months_between(first, end);
        for passed in 0..months {
            if let Some(total) = self.total_of(months_before(end, months - passed)) {
                room[count] = total;
                count += 1;
            }
        }
        &room[..count]
    }
}
