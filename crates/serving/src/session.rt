// How the lines of an input are taken, and where their bytes go.
ghost use Rattle.std.specs.Prelude.{◌≡◌};
ghost use Rattle.dialogue.specs.Turns.{ended};
ghost use Rattle.dialogue.specs.Whole.{last_way};

use dialogue::{Place, Way};
use storage::Handles;

// The system, the files of the journal, and the way to take the lines of an input: of the journal where one is replayed, else of standard input.
// Kept: the desk goes beside it, since a session is copied with another way (`last`), which one that holds a desk lent to be changed is not.
#[derive(Clone, Copy)]
pub struct Session<'a> {
    pub rt: &'a HostRuntime,
    pub handles: &'a Handles<'a>,
    pub way: Way,
}

impl<'a> Session<'a> {
    // The same, for a last line that has no newline.
    pub fn last(self) -> Session<'a>
        ensures { (result.way ≡ last_way self.entry.way) × (result.handles ≡ self.entry.handles) }
    {
        Session {
            way: Way {
                torn: self.way.keeps,
                ..self.way
            },
            ..self
        }
    }

    // Whether the lines of an input have ended before its end.
    pub fn has_ended(self, place: Place) -> bool
        ensures { result ≡ ended self.entry.way place }
    {
        self.way.has_ended(place)
    }
}
