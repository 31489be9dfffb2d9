// An input, read in parts to its end, and a file entered behind it.
ghost use Rattle.std.specs.Prelude.{◌≡◌, ◌+◌, ◌%◌, ◌^◌, ◌≤◌, true, false, not, cond, length, take, OnOk, OnErr, IsOk};
ghost use Rattle.std.specs.Result.{is_ok};
ghost use Rattle.dialogue.specs.Turns.{ended};
ghost use Rattle.dialogue.specs.Answers.{state_of};
ghost use Rattle.words.specs.Text.{text};
ghost use Rattle.storage.specs.declared.handles.Input.TheVariants.{Journal, Standard};
ghost use Rattle.serving.specs.Input.{MoreRead, RestKept, PartTaken, InputCounted, complete};
ghost use Rattle.serving.specs.Load.{MayEnter, Loads, EnteredIf};
ghost use Rattle.serving.specs.Delivery.{Behind, left};

use crate::buffers::{Buffer, Entry};
use crate::desk::Desk;
use crate::session::Session;
use crate::usage::put_end;
use dialogue::Place;
use storage::{Input, Stopped, failed};

// What is answered: standard input to its end, a file as one batch, or the file behind standard input.
#[derive(Clone, Copy)]
pub enum Sources<'a> {
    Input,
    File(Entry<'a>),
    Both(Entry<'a>),
}

// How many bytes of an input are taken behind so many more.
fn behind(before: u64, used: usize) -> u64
    ensures { result ≡ (before + used) % 2 ^ 64 }
{
    before.wrapping_add(used as u64)
}

impl Buffer {
    // Moves the bytes from a place up to another to the front, where they stay unless the line that they begin is too long: it was before, or it
    // fills the buffer. Answers whether it is.
    pub fn keep_rest(&mut self, long: bool, from: usize, to: usize) -> bool
        requires { (from ≤ to) × (to ≤ length self.old.bytes) }
        ensures { RestKept long self.old.bytes from to result self.new.filled self.new.bytes }
    {
        let begun = to - from;
        self.bytes.copy_within(from..to, 0);
        let is_long = long || begun == self.bytes.len();
        self.filled = if is_long { 0 } else { begun };
        is_long
    }
}

impl<'a> Session<'a> {
    // The input: the journal where that is replayed.
    fn input(self) -> Input
        ensures { result ≡ cond self.entry.way.replays Journal Standard }
    {
        if self.way.replays {
            Input::Journal
        } else {
            Input::Standard
        }
    }

    // How the input is called.
    fn input_name(self) -> &'a [u8]
        ensures { result.now ≡ cond self.entry.way.replays self.entry.handles.now.name.now (text "standard input") }
    {
        if self.way.replays {
            self.handles.name
        } else {
            b"standard input"
        }
    }

    // One read into the buffer behind what is filled; at the end of the lines nothing is read, as at the end of the input. A read that fails is said.
    fn read_more(self, place: Place, buffer: &mut Buffer) -> Result<usize, Stopped>
        ensures more { MoreRead (not (ended self.entry.way place)) buffer.old.filled buffer.old.bytes result buffer.new.bytes }
        ensures filled { buffer.new.filled ≡ buffer.old.filled }
    {
        if self.has_ended(place) {
            return Ok(0);
        }
        let filled = buffer.filled;
        self.handles
            .read_part(self.rt, self.input(), &mut buffer.bytes[filled..])
            .map_err(|error| failed(self.rt, self.input_name(), error))
    }

    // Takes the complete lines of a part, which is what the buffer held and so many bytes behind it, and keeps what is left of it in the buffer.
    // Kept: here and below the desk and the buffer apart: `drain` takes the desk alone, and the part that it drains lies in the buffer.
    fn take_part(self, desk: &mut Desk, buffer: &mut Buffer, more: usize) -> Result<(), Stopped>
        requires { buffer.old.filled + more ≤ length buffer.old.bytes }
        ensures taken { OnOk result (PartTaken self.entry.way (length desk.old.numbers) (state_of desk.old.book desk.old.place) buffer.old.bytes
            (buffer.old.filled + more) (state_of desk.new.book desk.new.place) buffer.new.filled buffer.new.bytes) }
        ensures counted { OnOk result (ended self.entry.way desk.new.place ≡ false
            → desk.new.bytes ≡ (desk.old.bytes + complete (take (buffer.old.filled + more) buffer.old.bytes)) % 2 ^ 64) }
        ensures well { OnOk result ((is_ok desk.old.journal ≡ true) × (is_ok desk.new.journal ≡ true)) }
        ensures on { OnOk result (self.entry.way.replays ≡ true → desk.new.place.refused ≡ 0) }
        ensures stopped { OnErr result (is_ok desk.new.journal ≡ false) }
    {
        let full = buffer.filled + more;
        let used = self.drain(desk, &buffer.bytes[..full])?;
        desk.place.long = buffer.keep_rest(desk.place.long, used, full);
        desk.bytes = behind(desk.bytes, used);
        Ok(())
    }

    // Shows how far a journal is replayed, where that takes long.
    fn show_progress(self, desk: &Desk) {
        if self.way.replays {
            self.handles.show_progress(self.rt, desk.bytes);
        }
    }

    // Reads an input to its end, part by part, and takes the complete lines of each part before it waits for more. What is left of a last line
    // without newline stands in the buffer. Behind a failure nothing is read.
    pub fn take_parts(self, desk: &mut Desk, buffer: &mut Buffer) -> Result<(), Stopped>
        ensures counted { desk.old.place.long ≡ false → OnOk result (InputCounted self.entry.way (length desk.old.numbers)
            (state_of desk.old.book desk.old.place) (length buffer.old.bytes) (state_of desk.new.book desk.new.place)
            buffer.new.filled buffer.new.bytes desk.old.bytes desk.new.bytes) }
        ensures well { OnOk result ((is_ok desk.old.journal ≡ true) × (is_ok desk.new.journal ≡ true)) }
        ensures on { desk.old.place.refused ≡ 0 → OnOk result (self.entry.way.replays ≡ true → desk.new.place.refused ≡ 0) }
        ensures stopped { OnErr result (is_ok desk.new.journal ≡ false) }
        ensures behind { Behind (state_of desk.old.book desk.old.place) (state_of desk.new.book desk.new.place) desk.old.journal desk.new.journal }
    {
        desk.journal?;
        buffer.filled = 0;
        // Kept: a bound that no input reaches, since a loop with no end needs the handle `Wait`, and by a rule of the project none is allowed.
        for _ in 0..u64::MAX {
            let read = self.read_more(desk.place, buffer);
            desk.journal = read.and(desk.journal);
            let more = read?;
            if more == 0 {
                self.handles.end_progress(self.rt);
                return Ok(());
            }
            self.take_part(desk, buffer, more)?;
            self.show_progress(desk);
        }
        Ok(())
    }

    // Takes a last line of standard input that has no newline.
    fn take_last(self, desk: &mut Desk, buffer: &mut Buffer) -> Result<(), Stopped>
        ensures well { OnOk result (is_ok desk.old.journal ≡ true → is_ok desk.new.journal ≡ true) }
        ensures stopped { OnErr result (is_ok desk.new.journal ≡ false) }
        ensures bytes { desk.new.bytes ≡ desk.old.bytes }
    {
        let end = buffer.filled;
        if !desk.place.long && end == 0 {
            return Ok(());
        }
        buffer.bytes[end] = b'\n';
        self.last().drain(desk, &buffer.bytes[..end + 1])?;
        Ok(())
    }

    // Takes standard input to its end; behind a failure nothing of it.
    fn take_input(self, desk: &mut Desk, buffer: &mut Buffer) -> Result<(), Stopped>
        ensures well { OnOk result ((is_ok desk.old.journal ≡ true) × (is_ok desk.new.journal ≡ true)) }
        ensures stopped { OnErr result (is_ok desk.new.journal ≡ false) }
        ensures behind { Behind (state_of desk.old.book desk.old.place) (state_of desk.new.book desk.new.place) desk.old.journal desk.new.journal }
    {
        self.take_parts(desk, buffer)?;
        if self.has_ended(desk.place) {
            return Ok(());
        }
        self.take_last(desk, buffer)
    }

    // Enters a file's bytes as one batch behind what was taken, where the lines have not ended and nothing has failed.
    fn take_file(self, desk: &mut Desk, file: Entry) -> Result<(), Stopped>
        ensures entered_if { OnOk result (EnteredIf (not (ended self.entry.way desk.old.place)) self.entry.way (length desk.old.numbers)
            (state_of desk.old.book desk.old.place) (left desk.old.journal) file.entry.bytes.now (state_of desk.new.book desk.new.place)
            (left desk.new.journal)) }
        ensures well { OnOk result (is_ok desk.old.journal ≡ true → is_ok desk.new.journal ≡ true) }
        ensures on { OnOk result (ended self.entry.way desk.new.place ≡ false → is_ok desk.new.journal ≡ true) }
        ensures behind { Behind (state_of desk.old.book desk.old.place) (state_of desk.new.book desk.new.place) desk.old.journal desk.new.journal }
        ensures loads { MayEnter self.entry.way (length desk.old.numbers) (state_of desk.old.book desk.old.place) file.entry.bytes.now
            → Loads self.entry.way (length desk.old.numbers) (state_of desk.old.book desk.old.place) file.entry.bytes.now }
        ensures ended { ended self.entry.way desk.old.place ≡ true → IsOk result }
        ensures bytes { desk.new.bytes ≡ desk.old.bytes }
        ensures stopped { OnErr result (is_ok desk.new.journal ≡ false) }
    {
        if self.has_ended(desk.place) {
            return Ok(());
        }
        self.enter(desk, file)
    }

    // Answers standard input and a file's bytes. Behind a failure nothing is answered: where standard input failed the file is not entered.
    fn answer_sources(self, desk: &mut Desk, from: Sources) -> Result<(), Stopped>
        ensures well { is_ok desk.old.journal ≡ true → is_ok desk.new.journal ≡ is_ok result }
        ensures on { OnOk result (ended self.entry.way desk.new.place ≡ false → is_ok desk.new.journal ≡ true) }
        ensures behind { Behind (state_of desk.old.book desk.old.place) (state_of desk.new.book desk.new.place) desk.old.journal desk.new.journal }
    {
        match from {
            Sources::Input => self.take_input(desk, &mut Buffer::new()),
            Sources::File(file) => self.take_file(desk, file),
            Sources::Both(file) => {
                self.take_input(desk, &mut Buffer::new())?;
                self.take_file(desk, file)
            }
        }
    }

    // Says that all lines of an input were answered: nothing has failed, and they have not ended before its end.
    fn say_end(self, desk: &Desk)
        requires { (is_ok desk.now.journal ≡ true) × (ended self.way desk.now.place ≡ false) }
    {
        put_end(self.rt, desk.place);
    }

    // Answers standard input and a file's bytes, and says at last that all was answered where that is asked for and it was. What is typed is never
    // taken as a journal that is replayed is, so always under the new admission rule.
    pub fn answer_all(self, desk: &mut Desk, from: Sources, says_end: bool)
        requires { self.way.replays ≡ false }
        ensures { Behind (state_of desk.old.book desk.old.place) (state_of desk.new.book desk.new.place) desk.old.journal desk.new.journal }
    {
        let answered = self.answer_sources(desk, from);
        if says_end && answered.is_ok() && !self.has_ended(desk.place) {
            self.say_end(desk);
        }
    }
}
