// What becomes of the bytes of lines: those for the journal are appended and forced to disk, and then the answers are written.
ghost use Rattle.std.specs.Prelude.{◌≡◌, ◌≢◌, ℕ, ◌-◌, ◌<◌, ◌≤◌, nat_eq, length, take, slice_index, IfOk};
ghost use Rattle.std.specs.Result.{is_ok};
ghost use Rattle.dialogue.specs.Split.{rest_in};
ghost use Rattle.serving.specs.Delivery.{Delivered, Became};

use crate::session::Session;
use dialogue::Place;
use std::io::Error;
use storage::{EBADF, Journal, Stopped, Stream, about_line, failed, write_whole};

// Writes bytes on standard output. A write that fails is said.
pub fn put_out(rt: &HostRuntime, bytes: &[u8]) -> Result<(), Stopped> {
    write_whole(rt, Stream::Output, bytes).map_err(|error| failed(rt, b"standard output", error))
}

impl<'a> Session<'a> {
    // Writes answers on standard output. The bytes for the journal, which was as it is said first, must be on disk: it has grown by just these bytes.
    // Kept: here and below two slices: a struct of them would be made once, in `take_some`, and taken apart in `keep` and `put_answers`.
    fn put_answers(
        self,
        _before: Option<Journal>,
        _kept: &[u8],
        forced: Option<Journal>,
        answers: &[u8],
    ) -> Result<Option<Journal>, Stopped>
        requires { Delivered _before _kept.now forced }
        ensures { IfOk result (λ journal. journal ≡ forced) }
    {
        put_out(self.rt, answers)?;
        Ok(forced)
    }

    // The journal with the bytes for it, if there are any, on disk.
    fn keep(self, journal: Option<Journal>, kept: &[u8]) -> Result<Option<Journal>, Stopped>
        ensures { IfOk result (λ forced. Delivered journal kept.now forced) }
    {
        if kept.is_empty() {
            return Ok(journal);
        }
        let journal = journal.ok_or_else(|| failed(
            self.rt,
            self.handles.name,
            Error::from_raw_os_error(EBADF),
        ))?;
        Ok(Some(self.handles.append(self.rt, journal, kept)?))
    }

    // The bytes for the journal are on disk before the answers are written; if they can't be had there, nothing is answered.
    fn keep_and_answer(
        self,
        journal: Option<Journal>,
        kept: &[u8],
        answers: &[u8],
    ) -> Result<Option<Journal>, Stopped>
        ensures { IfOk result (λ forced. Delivered journal kept.now forced) }
    {
        let forced = self.keep(journal, kept)?;
        self.put_answers(journal, kept, forced, answers)
    }

    // That the lines of a journal behind which the place is were replayed: a refusal or an error stops the replay, and is said. Its answer is the
    // last line of the answers.
    fn check_replayed(self, place: Place, answers: &[u8]) -> Result<(), Stopped>
        ensures { is_ok result ≡ nat_eq place.refused 0 }
    {
        if place.refused == 0 {
            return Ok(());
        }
        about_line(self.rt, self.handles.name, place.line, last_line(answers));
        Err(Stopped)
    }

    // What becomes of the bytes of lines behind which the place is: where a journal is replayed nothing is kept or answered again.
    pub fn deliver(
        self,
        journal: Option<Journal>,
        place: Place,
        kept: &[u8],
        answers: &[u8],
    ) -> Result<Option<Journal>, Stopped>
        ensures { Became self.entry.way.replays place journal kept.now result }
    {
        if !self.way.replays {
            return self.keep_and_answer(journal, kept, answers);
        }
        self.check_replayed(place, answers)?;
        Ok(journal)
    }
}

// The place behind the last newline of a text, or 0.
pub fn behind_newline(text: &[u8]) -> usize
    ensures within { result ≤ length text.now }
    ensures newline { 0 < result → slice_index text.now (result - 1) ≡ 10 }
    ensures behind { (k : ℕ) → result ≤ k → k < length text.now → slice_index text.now k ≢ 10 }
{
    text.iter()
        .rposition(|byte| *byte == b'\n')
        .map_or(0, |newline| newline + 1)
}

// The last line of a text that ends with a newline, without it.
fn last_line(text: &[u8]) -> &[u8]
    ensures { result.now ≡ rest_in (take (length text.now - 1) text.now) }
{
    let lines = &text[..text.len().saturating_sub(1)];
    &lines[behind_newline(lines)..]
}
