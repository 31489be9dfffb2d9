// The replay of a journal.
ghost use Rattle.std.specs.Prelude.{◌≡◌, false, length, OnOk};
ghost use Rattle.std.specs.Result.{is_ok};
ghost use Rattle.dialogue.specs.Answers.{state_of};
ghost use Rattle.serving.specs.Replay.{is_rest, passes, Replayed};

use crate::buffers::Buffer;
use crate::desk::Desk;
use crate::session::Session;
use dialogue::Place;
use storage::{Stopped, about, about_line, show_dropped};

// More bytes than any version of the ledger kept in a line, with its newline: what stands behind the last newline and is as long is no rest of one.
const MOST: usize = 20480;

// Whether what stands behind the last newline may be a rest of a kept line: a kept call or the line `role-retired` stands before it, and it is not
// too long.
fn is_rest(place: Place, rest: &[u8]) -> bool
    ensures { result ≡ is_rest place (length rest.now) }
{
    (0 < place.kept || !place.early) && !place.long && rest.len() < MOST
}

impl<'a> Session<'a> {
    // What stands behind the last newline is said: it is dropped, or passed over where the journal is only read. It stops where it may not stand
    // there.
    // Kept: a flag for what is said of the rest, since a closure in its stead would be made of the same flag at the one call.
    fn pass(self, place: Place, rest: &[u8], drops: bool) -> Result<(), Stopped>
        ensures { is_ok result ≡ passes place (length rest.now) }
    {
        if !place.long && rest.is_empty() {
            return Ok(());
        }
        if !is_rest(place, rest) {
            about_line(
                self.rt,
                self.handles.name,
                place.line.wrapping_add(1),
                b"has no end and is no part of a kept line; nothing is changed",
            );
            return Err(Stopped);
        }
        if drops {
            show_dropped(self.rt, self.handles.name, rest);
        } else {
            about(
                self.rt,
                self.handles.name,
                b"the last line has no end and is passed over",
            );
        }
        Ok(())
    }

    // Replays the journal that is open to its end, and says why it can't be gone on with. What stands behind its last newline is in the buffer.
    pub fn replay(self, desk: &mut Desk, buffer: &mut Buffer, drops: bool) -> Result<(), Stopped>
        ensures { desk.old.place.long ≡ false → OnOk result (Replayed self.entry.way (length desk.old.numbers)
            (state_of desk.old.book desk.old.place) (state_of desk.new.book desk.new.place) buffer.new.filled buffer.new.bytes
            desk.old.bytes desk.new.bytes) }
    {
        self.take_parts(desk, buffer)?;
        self.pass(desk.place, buffer.rest(), drops)
    }
}
