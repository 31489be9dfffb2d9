// The ways to run the ledger: as a filter from standard input to standard output, with a journal that is kept in a file, and reading one. The lines
// themselves are taken by `dialogue`, and the files and streams are those of `storage`: here the one's bytes become the other's.
#![tactic(auto)]

ghost use Rattle.std.specs.Prelude.{◌≡◌, false, length, IfOk, OnOk};
ghost use Rattle.std.specs.Option.{is_some};
ghost use Rattle.dialogue.specs.Answers.{state_of};
ghost use Rattle.dialogue.specs.Dialogue.{replaying};
ghost use Rattle.storage.specs.Kept.{Continued};
ghost use Rattle.serving.specs.Replay.{Replayed};
ghost use Rattle.serving.specs.Ways.{shown as ways_shown};

mod accounts; // accounts.rt: the views of one participant in a journal
mod buffers; // buffers.rt: a buffer between two reads, and the bytes of a file that is entered
mod charts; // charts.rt: the layers of a picture of a journal
mod delivery; // delivery.rt: what becomes of the bytes of lines
mod desk; // desk.rt: the book, how far an input is taken on it, and room for what a line needs
mod following; // following.rt: a journal read again for a view
mod input; // input.rt: an input, read in parts
mod load; // load.rt: a file entered as one batch
mod options; // options.rt: the arguments
mod parts; // parts.rt: all complete lines of a part of an input
mod replay; // replay.rt: the replay of a journal
mod session; // session.rt: how lines are taken, and where their bytes go
mod usage; // usage.rt: what is printed of the program itself
mod viewing; // viewing.rt: what is shown of a journal in place of answers
mod ways; // ways.rt: the ways to take the lines of an input

use buffers::{Buffer, Entry};
use desk::Desk;
use dialogue::Way;
use input::Sources;
use options::Options;
use session::Session;
use storage::{Handles, Journal, Opened, Stopped, Stream, failed};

// The ledger as it runs: the right to call the system, what the arguments ask for, and the book on its desk.
#[derive(Drop)]
struct Ledger<'a> {
    rt: &'a HostRuntime,
    options: Options,
    desk: Desk<'a>,
}

impl<'a> Ledger<'a> {
    // The ledger with this book on its desk.
    fn with(rt: &'a HostRuntime, options: Options, desk: Desk<'a>) -> Ledger<'a>
        ensures { (result.options ≡ options) × (result.desk ≡ desk.entry) }
    {
        Ledger { rt, options, desk }
    }

    // How lines are taken with these files of a journal, in this way.
    fn session<'b>(&self, handles: &'b Handles<'b>, way: Way) -> Session<'b>
    where
        'a: 'b,
        ensures { (result.way ≡ way) × (result.handles.now ≡ handles.now) }
    {
        Session {
            rt: self.rt,
            handles,
            way,
        }
    }

    // A way with words beside numbers and with tables for spreadsheets, where they are asked for.
    fn shown(&self, way: Way) -> Way
        ensures { result ≡ ways_shown self.now.options way }
    {
        Way {
            words: self.options.words,
            csv: self.options.csv,
            ..way
        }
    }

    // Answers what is to be answered in a way that is no replay.
    fn answer(&mut self, handles: &Handles, way: Way, from: Sources)
        requires { way.replays ≡ false }
    {
        let session = self.session(handles, way);
        session.answer_all(&mut self.desk, from, self.options.end);
    }

    // Reads the file that is to be entered, if there is one. If it can't be had, that is said.
    fn read_file<'b>(&self, bytes: &'b mut [u8; 32765]) -> Result<Option<Entry<'b>>, Stopped>
        ensures { IfOk result (λ file. is_some file ≡ is_some self.now.options.load) }
    {
        let Some(place) = self.options.load else {
            return Ok(None);
        };
        let mut name = io::buffer();
        let n = storage::argument(self.rt, place, &mut name).map_err(|error| failed(
            self.rt,
            b"the file's name",
            error,
        ))?;
        let n = storage::read_whole(self.rt, &name[..n], bytes)?;
        Ok(Some(Entry { bytes: &bytes[..n] }))
    }

    // Answers standard input to its end, with no journal, and then a file's bytes where one is to be entered.
    fn answer_alone(&mut self, file: Option<Entry>) {
        let handles = Handles::of(b"");
        let way = self.shown(ways::filtering(self.options.bail));
        let from = file.map_or(Sources::Input, Sources::Both);
        self.answer(&handles, way, from);
    }

    // The ledger with no journal. A file that is to be entered is read before anything is answered.
    fn filter(&mut self) {
        let mut bytes = [0; 32765];
        if let Ok(file) = self.read_file(&mut bytes) {
            self.answer_alone(file);
        }
    }

    // Answers standard input to its end behind a replay, or in its place the file that is to be entered, and keeps the changes, or reads only.
    fn answer_behind(&mut self, handles: &Handles, file: Option<Entry>) {
        let way = ways::behind_replay(self.options.read, self.options.bail, self.options.batch);
        let way = self.shown(way);
        let from = file.map_or(Sources::Input, Sources::File);
        self.answer(handles, way, from);
    }

    // Replays the open journal. What stands behind its last newline is dropped where the journal is kept; it is in the buffer.
    fn replay(&mut self, handles: &Handles, buffer: &mut Buffer) -> Result<(), Stopped>
        ensures { self.old.desk.place.long ≡ false → OnOk result (Replayed replaying (length self.old.desk.numbers)
            (state_of self.old.desk.book self.old.desk.place) (state_of self.new.desk.book self.new.desk.place)
            buffer.new.filled buffer.new.bytes self.old.desk.bytes self.new.desk.bytes) }
    {
        let session = self.session(handles, ways::replaying());
        session.replay(&mut self.desk, buffer, self.options.keeps())
    }

    // Replays the journal that was just opened to be kept, which is then ready to be appended to.
    fn continued(
        &mut self,
        handles: &mut Handles,
        opened: Opened,
        buffer: &mut Buffer,
    ) -> Result<Journal, Stopped>
        ensures replayed { self.old.desk.place.long ≡ false → OnOk result (Replayed replaying (length self.old.desk.numbers)
            (state_of self.old.desk.book self.old.desk.place) (state_of self.new.desk.book self.new.desk.place)
            buffer.new.filled buffer.new.bytes self.old.desk.bytes self.new.desk.bytes) }
        ensures continued { IfOk result (λ journal. Continued opened self.new.desk.bytes journal) }
    {
        handles.watch_journal(self.rt);
        self.replay(handles, buffer)?;
        handles.continue_kept(self.rt, opened, self.desk.bytes)
    }

    // Replays the journal with this name, and then answers standard input to its end or enters a file's bytes, keeping each accepted change.
    fn keep_behind(&mut self, name: &[u8], file: Option<Entry>) {
        let mut handles = Handles::of(name);
        let Ok(opened) = handles.open_kept(self.rt) else {
            return;
        };
        if let Ok(journal) = self.continued(&mut handles, opened, &mut Buffer::new()) {
            let place = ways::at_start(self.desk.place.kept, self.desk.place.early);
            self.desk.begin(place, Some(journal));
            self.answer_behind(&handles, file);
        }
        handles.close_kept(self.rt, opened);
    }

    // The ledger with the journal of this name, which is kept. A file that is to be entered is read before the journal is opened.
    // Kept: as `filter` but for what is called; one over a closure would lend the closure the ledger again and be longer than both.
    fn keep(&mut self, name: &[u8]) {
        let mut bytes = [0; 32765];
        if let Ok(file) = self.read_file(&mut bytes) {
            self.keep_behind(name, file);
        }
    }

    // Replays the journal with this name, and then answers the questions of standard input to its end. No call is counted as kept there, so that a
    // `fresh` is an error like every other change.
    fn read(&mut self, name: &[u8]) {
        let mut handles = Handles::of(name);
        if handles.open_journal(self.rt).is_err() {
            return;
        }
        handles.watch_journal(self.rt);
        let done = self.replay(&handles, &mut Buffer::new());
        handles.close_journal();
        if done.is_ok() {
            let place = ways::at_start(0, self.desk.place.early);
            self.desk.begin(place, None);
            self.answer_behind(&handles, None);
        }
    }

    // The ledger with a journal, whose name stands at a place among the arguments: the standard streams must be open, or the journal's file would
    // take the place of one.
    fn with_journal(&mut self, place: usize) {
        if !storage::are_streams_open(self.rt) {
            return;
        }
        let mut buffer = io::buffer();
        match storage::argument(self.rt, place, &mut buffer) {
            Ok(n) if self.options.view.is_view() => {
                let _ = self.view(&buffer[..n]);
            }
            Ok(n) if self.options.read => self.read(&buffer[..n]),
            Ok(n) => self.keep(&buffer[..n]),
            Err(error) => {
                let _ = failed(self.rt, b"the journal's name", error);
            }
        }
    }
}

// The ledger, as all of the program's arguments ask for it.
pub fn run(rt: &HostRuntime) {
    run_by(rt, 1, storage::argument_count(rt));
}

// The ledger, as the arguments from a place up to another ask for it. Its one book is here, the fresh book of day 0 until a `fresh` line.
pub fn run_by(rt: &HostRuntime, from: usize, to: usize) {
    let options = options::asked_for(rt, from, to);
    if options.is_wrong() {
        usage::put_usage(rt, Stream::Errors);
        return;
    }
    if options.help {
        usage::put_usage(rt, Stream::Output);
        return;
    }
    if options.version {
        usage::put_version(rt);
        return;
    }
    let mut kept = [0; 90112];
    let mut out = io::large_buffer();
    let desk = Desk::fresh(&mut kept, &mut out);
    let options = options.on(storage::is_terminal(rt, Stream::Output));
    let mut ledger = Ledger::with(rt, options, desk);
    match options.name {
        Some(place) => ledger.with_journal(place),
        None => ledger.filter(),
    }
}
