// How far lines are taken: where the next one begins, whether it is taken, and by which rule.
// Kept: the two sheets side by side, here and below: each is written alone, and a struct of them would only be taken apart again.
ghost use Rattle.std.specs.Prelude.{◌≡◌, ◌&&◌};
ghost use Rattle.dialogue.specs.Turns.{ends_stretch, further, ended};
ghost use Rattle.dialogue.specs.Answers.{goes_on};

use crate::{Place, Way};
use answering::is_role_retired;
use journal::Request;
use printing::Out;

// The most bytes that one line adds to the journal and to the answers. `MOST` in serving/src/replay.rt is the first of them too: what stands
// behind a journal's last newline and is as long is no rest of a kept line.
const MOST_KEPT: usize = 20480;

const MOST_SAID: usize = 16384;

impl Way {
    // Whether the lines have ended before their end: behind the first refusal or error, where that is the last.
    #[tactic(auto, unfolding(crate::specs::Turns::ended))]
    pub fn has_ended(self, place: Place) -> bool
        ensures { result ≡ ended self place }
    {
        self.bails && 0 < place.refused
    }

    // Whether a call is made by the old admission rule: in the first stretch of a journal that is replayed.
    pub(crate) fn is_early(self, place: Place) -> bool
        ensures { result ≡ (self.replays && place.early) }
    {
        self.replays && place.early
    }

    // Whether a line ends the first stretch of a journal that has no such line yet: where it is replayed that line, else the first one that is kept.
    pub(crate) fn ends_stretch(self, place: Place, request: Request, kept: bool) -> bool
        ensures { result ≡ ends_stretch self place request kept }
    {
        let ends = if self.replays {
            is_role_retired(request)
        } else {
            kept
        };
        place.early && ends
    }

    // Whether one more line is taken, where this is written to the journal and to the answers.
    #[tactic(auto, unfolding(crate::specs::Answers::goes_on))]
    pub(crate) fn goes_on(self, place: Place, journal: &Out, out: &Out) -> bool
        ensures { result ≡ goes_on self place journal.now out.now }
    {
        !self.has_ended(place)
            && (self.gathers || journal.is_empty())
            && MOST_KEPT <= journal.room()
            && MOST_SAID <= out.room()
    }
}

impl Place {
    // Where the next line begins.
    #[tactic(auto, unfolding(crate::specs::Turns::next))]
    pub(crate) fn further(self, kept: bool, refused: bool, ends: bool) -> Place
        ensures { result ≡ further self kept refused ends }
    {
        Place {
            line: self.line.wrapping_add(1),
            refused: self.refused.wrapping_add(u64::from(refused)),
            kept: self.kept.wrapping_add(u64::from(kept)),
            long: false,
            early: self.early && !ends,
        }
    }
}
