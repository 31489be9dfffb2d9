// A journal read again for a view: each of its lines is made again from a fresh book, and each day of its advances is opened by itself.
ghost use Rattle.std.specs.Prelude.{◌≡◌, ◌+◌, ◌≤◌, true, length};
ghost use Rattle.serving.specs.Input.{MoreRead};
ghost use Rattle.layout.specs.WellFormed.{WellFormed};

use crate::buffers::Buffer;
use crate::delivery::{behind_newline, put_out};
use crate::desk::Desk;
use crate::session::Session;
use dialogue::{make_line, open_next};
use journal::Request;
use printing::{Answer, Out};
use storage::{Input, Stopped, failed};
use words::reference;

// The room for answers below which they are delivered: more than a call's or a day's lines take.
const ROOM: usize = 32768;

// A line of a journal that was made again: what it asked, the numbers of its lists in a row, its answer, and the comment behind it.
#[derive(Clone, Copy)]
pub struct Call<'a> {
    pub request: Request,
    pub numbers: &'a [i64],
    pub answer: Answer,
    pub reference: &'a [u8],
}

// What is shown of a journal, by the book before and after each of its lines and of its days.
pub trait Shows {
    // Before a line is made, or a day is opened.
    fn before(&mut self, book: &[u64])
        requires { WellFormed book.now };

    // After a line was made; it has opened no day yet.
    fn called(&mut self, book: &[u64], call: Call, out: &mut Out)
        requires { WellFormed book.now };

    // After a day was opened.
    fn opened(&mut self, book: &[u64], out: &mut Out)
        requires { WellFormed book.now };
}

impl<'a> Session<'a> {
    // Writes what is shown.
    pub fn deliver_shown(self, out: &mut Out) -> Result<(), Stopped> {
        put_out(self.rt, out.written())?;
        out.clear();
        Ok(())
    }

    // Writes what is shown, where there is little room for more.
    fn deliver_some(self, out: &mut Out) -> Result<(), Stopped> {
        if ROOM <= out.room() {
            return Ok(());
        }
        self.deliver_shown(out)
    }

    // Opens so many days, one by one.
    // Kept: the desk, the view and the sheet apart, here and below: each step lends one of them to the others.
    fn show_days<S: Shows>(
        self,
        desk: &mut Desk,
        days: u32,
        view: &mut S,
        out: &mut Out,
    ) -> Result<(), Stopped> {
        for _ in 0..days {
            view.before(&desk.book.words);
            open_next(&mut desk.book.words);
            view.opened(&desk.book.words, out);
            self.deliver_some(out)?;
        }
        Ok(())
    }

    // Makes a line of the journal again, and opens its days.
    fn show_line<S: Shows>(
        self,
        desk: &mut Desk,
        line: &[u8],
        view: &mut S,
        out: &mut Out,
    ) -> Result<(), Stopped> {
        view.before(&desk.book.words);
        let made = make_line(&mut desk.book.words, desk.place, line, &mut desk.numbers);
        desk.place = made.place;
        let call = Call {
            request: made.request,
            numbers: &desk.numbers,
            answer: made.answer,
            reference: reference(line),
        };
        view.called(&desk.book.words, call, out);
        self.deliver_some(out)?;
        self.show_days(desk, made.days, view, out)
    }

    // Makes the complete lines of a part again.
    fn show_lines<S: Shows>(
        self,
        desk: &mut Desk,
        part: &[u8],
        view: &mut S,
        out: &mut Out,
    ) -> Result<(), Stopped> {
        for piece in part.split_inclusive(|byte| *byte == b'\n') {
            if let Some(line) = piece.strip_suffix(b"\n") {
                self.show_line(desk, line, view, out)?;
            }
        }
        Ok(())
    }

    // One read of the journal behind what is filled, of so many bytes at most.
    fn read_some(self, buffer: &mut Buffer, most: u64) -> Result<usize, Stopped>
        ensures more { MoreRead true buffer.old.filled buffer.old.bytes result buffer.new.bytes }
        ensures filled { buffer.new.filled ≡ buffer.old.filled }
    {
        let filled = buffer.filled;
        let room = (buffer.bytes.len() - filled).min(most as usize);
        self.handles
            .read_part(
                self.rt,
                Input::Journal,
                &mut buffer.bytes[filled..filled + room],
            )
            .map_err(|error| failed(self.rt, self.handles.name, error))
    }

    // Takes what was read of the journal: its complete lines are made again, and what is left of it stays in the buffer.
    fn show_part<S: Shows>(
        self,
        desk: &mut Desk,
        buffer: &mut Buffer,
        more: usize,
        view: &mut S,
        out: &mut Out,
    ) -> Result<(), Stopped>
        requires { buffer.old.filled + more ≤ length buffer.old.bytes }
    {
        let full = buffer.filled + more;
        let used = behind_newline(&buffer.bytes[..full]);
        self.show_lines(desk, &buffer.bytes[..full], view, out)?;
        desk.place.long = buffer.keep_rest(desk.place.long, used, full);
        Ok(())
    }

    // Reads the first bytes of the journal that is open, and makes their lines again.
    pub fn show<S: Shows>(
        self,
        desk: &mut Desk,
        most: u64,
        view: &mut S,
        out: &mut Out,
    ) -> Result<(), Stopped> {
        let mut buffer = Buffer::new();
        let mut left = most;
        // Kept: a bound that no input reaches, as in `take_parts`.
        for _ in 0..u64::MAX {
            let more = self.read_some(&mut buffer, left)?;
            if more == 0 {
                break;
            }
            left = left.saturating_sub(more as u64);
            self.show_part(desk, &mut buffer, more, view, out)?;
        }
        self.deliver_shown(out)
    }
}
