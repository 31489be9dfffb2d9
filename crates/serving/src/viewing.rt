// What is shown of a journal in place of answers to lines: a participant's items with what made them, or its extract. The journal is replayed first,
// so that nothing is shown of one that can't be; then it is read again for each part of what is shown, so far as it was replayed.
use crate::accounts::{Entries, Extract, Itemised, Only};
use crate::buffers::Buffer;
use crate::charts::{Calls, Extent, Shades, Steps, Whose};
use crate::delivery::put_out;
use crate::following::Shows;
use crate::options::View;
use crate::{Ledger, ways};
use chart::{Line, Scale, Title, begin_steps, end_steps, put_foot, put_head};
use entries::file_of;
use extract::put_title;
use items::{Form, Items, put_heading, put_sums};
use printing::Out;
use storage::{Handles, Stopped, about, about_line, argument, failed};
use words::natural_of;

impl<'a> Ledger<'a> {
    // Replays the journal with this name, and answers how many bytes its complete lines have.
    fn replay_named(&mut self, name: &[u8]) -> Result<u64, Stopped> {
        let mut handles = Handles::of(name);
        handles.open_journal(self.rt)?;
        handles.watch_journal(self.rt);
        self.replay(&handles, &mut Buffer::new())?;
        Ok(self.desk.bytes)
    }

    // Reads the first bytes of the journal with this name again, from a fresh book, for one part of what is shown.
    fn show<S: Shows>(
        &mut self,
        name: &[u8],
        bytes: u64,
        view: &mut S,
        out: &mut Out,
    ) -> Result<(), Stopped> {
        let mut handles = Handles::of(name);
        handles.open_journal(self.rt)?;
        self.desk.restart();
        let session = self.session(&handles, ways::replaying());
        session.show(&mut self.desk, bytes, view, out)
    }

    // The participant that the argument at a place names, which must be admitted in the book; if it isn't, that is said.
    fn admitted_at(&self, place: usize) -> Result<u64, Stopped> {
        let mut name = io::buffer();
        let n = argument(self.rt, place, &mut name).map_err(|error| failed(
            self.rt,
            b"the participant",
            error,
        ))?;
        match natural_of(&name[..n]) {
            Some(p) if p < 64 && book::is_admitted(&self.desk.book.words, p) => return Ok(p),
            Some(p) if p < 64 => about(self.rt, &name[..n], b"the participant isn't admitted"),
            _ => about(
                self.rt,
                &name[..n],
                b"no participant: they are numbers from 0 to 63",
            ),
        }
        Err(Stopped)
    }

    // The one participant that the lines of an extract name; if there is none, or more than one, that is said.
    fn only_participant(&mut self, name: &[u8], bytes: u64, out: &mut Out) -> Result<u64, Stopped> {
        let mut only = Only {
            participant: None,
            line: 0,
            wrong: 0,
        };
        self.show(name, bytes, &mut only, out)?;
        match only.participant {
            Some(p) if only.wrong == 0 => return Ok(p),
            Some(_) => about_line(
                self.rt,
                name,
                only.wrong,
                b"stands in no extract of the participant that the lines before it name",
            ),
            None => about(self.rt, name, b"no line of it names a participant"),
        }
        Err(Stopped)
    }

    // Shows what made a participant's figures, line by line.
    fn show_entries(
        &mut self,
        name: &[u8],
        bytes: u64,
        participant: u64,
        out: &mut Out,
    ) -> Result<(), Stopped> {
        let before = file_of(&self.desk.book.words, participant);
        let mut view = Entries {
            participant,
            before,
        };
        self.show(name, bytes, &mut view, out)
    }

    // Shows the items of a participant, with their heading; what is kept of them.
    fn show_runs(
        &mut self,
        name: &[u8],
        bytes: u64,
        participant: u64,
        form: Form,
        out: &mut Out,
    ) -> Result<Items, Stopped> {
        put_heading(out, form);
        let mut view = Itemised {
            participant,
            form,
            items: Items::none(),
        };
        self.show(name, bytes, &mut view, out)?;
        view.items.finish(form, out);
        Ok(view.items)
    }

    // Shows the itemised statement of a participant, or its items alone as lines for spreadsheets.
    fn show_items(
        &mut self,
        name: &[u8],
        bytes: u64,
        participant: u64,
        out: &mut Out,
    ) -> Result<(), Stopped> {
        if self.options.csv {
            self.show_runs(name, bytes, participant, Form::Csv, out)?;
        } else {
            self.show_entries(name, bytes, participant, out)?;
            let items = self.show_runs(name, bytes, participant, Form::Columns, out)?;
            put_sums(out, items, &self.desk.book.words, participant);
        }
        put_out(self.rt, out.written())
    }

    // Shows the extract of a participant.
    fn show_extract(
        &mut self,
        name: &[u8],
        bytes: u64,
        participant: u64,
        out: &mut Out,
    ) -> Result<(), Stopped> {
        put_title(out, participant);
        self.show(name, bytes, &mut Extract { participant }, out)
    }

    // The scale of a picture.
    fn scale_of(
        &mut self,
        name: &[u8],
        bytes: u64,
        whose: Whose,
        out: &mut Out,
    ) -> Result<Scale, Stopped> {
        let mut extent = Extent {
            whose,
            first: None,
            most: 0,
        };
        self.show(name, bytes, &mut extent, out)?;
        Ok(extent.scale(book::today(&self.desk.book.words)))
    }

    // Draws a line of a picture.
    fn show_steps(
        &mut self,
        name: &[u8],
        bytes: u64,
        whose: Whose,
        line: Line,
        scale: Scale,
        out: &mut Out,
    ) -> Result<(), Stopped> {
        begin_steps(out, line);
        let mut view = Steps {
            whose,
            line,
            scale,
            before: None,
        };
        self.show(name, bytes, &mut view, out)?;
        end_steps(out, scale, book::today(&self.desk.book.words));
        Ok(())
    }

    // Shades the charged days of a participant.
    fn show_shades(
        &mut self,
        name: &[u8],
        bytes: u64,
        participant: u64,
        scale: Scale,
        out: &mut Out,
    ) -> Result<(), Stopped> {
        let mut view = Shades {
            participant,
            scale,
            from: None,
            to: scale.first,
        };
        self.show(name, bytes, &mut view, out)?;
        view.end(out);
        Ok(())
    }

    // Marks the calls of a participant.
    fn show_calls(
        &mut self,
        name: &[u8],
        bytes: u64,
        participant: u64,
        scale: Scale,
        out: &mut Out,
    ) -> Result<(), Stopped> {
        let before = file_of(&self.desk.book.words, participant);
        let mut view = Calls {
            participant,
            scale,
            before,
        };
        self.show(name, bytes, &mut view, out)
    }

    // Draws the picture of a participant.
    fn show_picture(
        &mut self,
        name: &[u8],
        bytes: u64,
        participant: u64,
        out: &mut Out,
    ) -> Result<(), Stopped> {
        let whose = Whose::Participant(participant);
        let scale = self.scale_of(name, bytes, whose, out)?;
        put_head(out, Title::Participant(participant), scale);
        self.show_shades(name, bytes, participant, scale, out)?;
        self.show_steps(name, bytes, whose, Line::Cover, scale, out)?;
        self.show_steps(name, bytes, whose, Line::Firm, scale, out)?;
        self.show_calls(name, bytes, participant, scale, out)?;
        put_foot(out);
        put_out(self.rt, out.written())
    }

    // Draws the picture of the market.
    fn show_market(&mut self, name: &[u8], bytes: u64, out: &mut Out) -> Result<(), Stopped> {
        let scale = self.scale_of(name, bytes, Whose::Market, out)?;
        put_head(out, Title::Market, scale);
        self.show_steps(name, bytes, Whose::Market, Line::Shortfalls, scale, out)?;
        put_foot(out);
        put_out(self.rt, out.written())
    }

    // Whether the argument at a place is the word for all participants together.
    fn is_market(&self, place: usize) -> bool {
        let mut name = io::buffer();
        argument(self.rt, place, &mut name).is_ok_and(|n| &name[..n] == b"market".as_slice())
    }

    // Draws the picture that the argument at a place names.
    fn show_chart(
        &mut self,
        name: &[u8],
        bytes: u64,
        place: usize,
        out: &mut Out,
    ) -> Result<(), Stopped> {
        if self.is_market(place) {
            return self.show_market(name, bytes, out);
        }
        let participant = self.admitted_at(place)?;
        self.show_picture(name, bytes, participant, out)
    }

    // Shows the view that is asked for of the journal with this name, whose first bytes were replayed.
    fn view_replayed(&mut self, name: &[u8], bytes: u64, out: &mut Out) -> Result<(), Stopped> {
        match self.options.view {
            View::Answers => Ok(()),
            View::Chart(place) => self.show_chart(name, bytes, place, out),
            View::Items(place) => {
                let participant = self.admitted_at(place)?;
                self.show_items(name, bytes, participant, out)
            }
            View::Extract(place) => {
                let participant = self.admitted_at(place)?;
                self.show_extract(name, bytes, participant, out)
            }
            View::Audit => {
                let participant = self.only_participant(name, bytes, out)?;
                self.show_items(name, bytes, participant, out)
            }
        }
    }

    // Shows the view that is asked for of the journal with this name.
    pub(crate) fn view(&mut self, name: &[u8]) -> Result<(), Stopped> {
        let bytes = self.replay_named(name)?;
        let mut shown = io::large_buffer();
        self.view_replayed(name, bytes, &mut Out::new(&mut shown))
    }
}
