// The arguments: options, the name of a journal, that of a file to be entered, and what is shown of a journal.
ghost use Rattle.std.specs.Prelude.{◌≡◌, not};
ghost use Rattle.serving.specs.Options.{no_options, is_dashed, is, is_flag, awaited_by, is_view, takes_csv, shown_on, keeps, is_view_wrong, is_wrong};
ghost use Rattle.serving.specs.Options.{with_name, with_flag, with_view, with_file, with_option, with_awaited, with_argument};

use storage::argument;

// What the next argument is, behind an option that awaits one: the name of a file to be entered, or the participant of a view.
#[derive(Clone, Copy, PartialEq, Eq)]
pub enum Awaited {
    Nothing,
    File,
    Items,
    Extract,
    Chart,
}

// What is shown: the answers to lines; or of a journal a participant's items, its extract or its picture, each with the place of the argument that
// names the participant, or the items of the one participant of an extract.
#[derive(Clone, Copy, PartialEq, Eq)]
pub enum View {
    Answers,
    Items(usize),
    Extract(usize),
    Chart(usize),
    Audit,
}

// What the arguments ask for: the options, whether the usage or the version is asked for, whether there is one that is none of these, the place of
// the journal's name among the arguments, what the next one is, the place of the name of the file to be entered, and the view.
// Kept: each flag is a choice of its own; `awaits` may stand beside the place of an earlier --load.
#[derive(Clone, Copy)]
pub struct Options {
    pub bail: bool,
    pub end: bool,
    pub batch: bool,
    pub read: bool,
    pub words: bool,
    pub plain: bool,
    pub csv: bool,
    pub help: bool,
    pub version: bool,
    pub wrong: bool,
    pub name: Option<usize>,
    pub awaits: Awaited,
    pub load: Option<usize>,
    pub view: View,
}

// An argument, and its place among all.
#[derive(Clone, Copy)]
struct Argument<'a> {
    place: usize,
    text: &'a [u8],
}

impl<'a> Argument<'a> {
    // Whether it begins as an option does.
    fn is_dashed(self) -> bool
        ensures { result ≡ is_dashed self.entry.text.now }
    {
        self.text.starts_with(b"-")
    }

    // Whether it is an option.
    fn is(self, option: &[u8]) -> bool
        ensures { result ≡ is self.entry.text.now option.now }
    {
        self.text == option
    }

    // Whether it is an option that awaits no argument and is no view.
    #[tactic(auto, unfolding(crate::specs::Options::is_flag))]
    fn is_flag(self) -> bool
        ensures { result ≡ is_flag self.entry.text.now }
    {
        self.is(b"--bail")
            | self.is(b"--end")
            | self.is(b"--batch")
            | self.is(b"--read")
            | self.is(b"--words")
            | self.is(b"--plain")
            | self.is(b"--csv")
            | self.is(b"--help")
            | self.is(b"-h")
            | self.is(b"--version")
    }

    // What it awaits behind it, as an option.
    // Kept: names compared one by one: tried in `journal`'s `lodge`, with two names, a match on byte strings left 15 goals open.
    #[tactic(auto, unfolding(crate::specs::Options::awaited_by))]
    fn awaits(self) -> Awaited
        ensures { result ≡ awaited_by self.entry.text.now }
    {
        if self.is(b"--load") {
            Awaited::File
        } else if self.is(b"--items") {
            Awaited::Items
        } else if self.is(b"--extract") {
            Awaited::Extract
        } else if self.is(b"--chart") {
            Awaited::Chart
        } else {
            Awaited::Nothing
        }
    }
}

impl View {
    // Whether something is shown of a journal in place of answers.
    pub fn is_view(self) -> bool
        ensures { result ≡ is_view self }
    {
        !matches!(self, View::Answers)
    }

    // Whether it can be shown as lines of a table for spreadsheets.
    fn takes_csv(self) -> bool
        ensures { result ≡ takes_csv self }
    {
        matches!(self, View::Answers | View::Items(_) | View::Audit)
    }
}

impl Options {
    // Nothing is asked for.
    fn none() -> Options
        ensures { result ≡ no_options }
    {
        Options {
            bail: false,
            end: false,
            batch: false,
            read: false,
            words: false,
            plain: false,
            csv: false,
            help: false,
            version: false,
            wrong: false,
            name: None,
            awaits: Awaited::Nothing,
            load: None,
            view: View::Answers,
        }
    }

    // What is asked for with one argument more that is no option: the one name of a journal, which does not begin as an option does.
    #[tactic(auto, unfolding(crate::specs::Options::with_name))]
    fn with_name(self, argument: Argument) -> Options
        ensures { result ≡ with_name self argument.entry.place argument.entry.text.now }
    {
        if argument.is_dashed() || self.name.is_some() {
            Options {
                wrong: true,
                ..self
            }
        } else {
            Options {
                name: Some(argument.place),
                ..self
            }
        }
    }

    // What is asked for with a flag more.
    #[tactic(auto, unfolding(crate::specs::Options::with_flag))]
    fn with_flag(self, argument: Argument) -> Options
        ensures { result ≡ with_flag self argument.entry.text.now }
    {
        Options {
            bail: self.bail | argument.is(b"--bail"),
            end: self.end | argument.is(b"--end"),
            batch: self.batch | argument.is(b"--batch"),
            read: self.read | argument.is(b"--read"),
            words: self.words | argument.is(b"--words"),
            plain: self.plain | argument.is(b"--plain"),
            csv: self.csv | argument.is(b"--csv"),
            help: self.help | argument.is(b"--help") | argument.is(b"-h"),
            version: self.version | argument.is(b"--version"),
            ..self
        }
    }

    // What is asked for with a view more; there is only one.
    fn with_view(self, view: View) -> Options
        ensures { result ≡ with_view self view }
    {
        Options {
            wrong: self.wrong | self.view.is_view(),
            awaits: Awaited::Nothing,
            view,
            ..self
        }
    }

    // What is asked for with the name of the file to be entered; there is only one.
    fn with_file(self, place: usize) -> Options
        ensures { result ≡ with_file self place }
    {
        Options {
            wrong: self.wrong | self.load.is_some(),
            awaits: Awaited::Nothing,
            load: Some(place),
            ..self
        }
    }

    // What is asked for with one argument more: an option, or a name.
    #[tactic(auto, unfolding(crate::specs::Options::with_option))]
    fn with_option(self, argument: Argument) -> Options
        ensures { result ≡ with_option self argument.entry.place argument.entry.text.now }
    {
        if argument.is_flag() {
            return self.with_flag(argument);
        }
        if argument.is(b"--audit") {
            return self.with_view(View::Audit);
        }
        match argument.awaits() {
            Awaited::Nothing => self.with_name(argument),
            awaits => Options { awaits, ..self },
        }
    }

    // What is asked for with the argument that the option before it awaits.
    fn with_awaited(self, place: usize) -> Options
        ensures { result ≡ with_awaited self place }
    {
        match self.awaits {
            Awaited::Nothing => self,
            Awaited::File => self.with_file(place),
            Awaited::Items => self.with_view(View::Items(place)),
            Awaited::Extract => self.with_view(View::Extract(place)),
            Awaited::Chart => self.with_view(View::Chart(place)),
        }
    }

    // What is asked for with one argument more. One that is awaited may not begin as an option does.
    #[tactic(auto, unfolding(crate::specs::Options::with_argument))]
    fn with_argument(self, argument: Argument) -> Options
        ensures { result ≡ with_argument self argument.entry.place argument.entry.text.now }
    {
        if matches!(self.awaits, Awaited::Nothing) {
            return self.with_option(argument);
        }
        let options = self.with_awaited(argument.place);
        Options {
            wrong: options.wrong | argument.is_dashed(),
            ..options
        }
    }

    // The same, where standard output is a terminal or not: one has words beside its numbers, but where plain answers are asked for.
    pub fn on(self, terminal: bool) -> Options
        ensures { result ≡ shown_on self terminal }
    {
        Options {
            words: self.words | (terminal & !self.plain),
            ..self
        }
    }

    // Whether the journal is kept, and not only read.
    pub fn keeps(self) -> bool
        ensures { result ≡ keeps self }
    {
        !self.read & !self.view.is_view()
    }

    // Whether a view is asked for that doesn't go with the rest: it needs a journal, which is read and answers nothing; some have no table.
    #[tactic(auto, unfolding(crate::specs::Options::is_view_wrong))]
    fn is_view_wrong(self) -> bool
        ensures { result ≡ is_view_wrong self }
    {
        let answers = self.bail | self.end | self.batch | self.read;
        let alone = self.view.is_view() & (self.name.is_none() | self.load.is_some() | answers);
        alone | (self.csv & !self.view.takes_csv())
    }

    // Whether the arguments are none that the program takes.
    #[tactic(auto, unfolding(crate::specs::Options::is_wrong))]
    pub fn is_wrong(self) -> bool
        ensures { result ≡ is_wrong self }
    {
        let awaits = !matches!(self.awaits, Awaited::Nothing);
        let read = self.read & (self.name.is_none() | self.load.is_some());
        self.wrong | awaits | read | self.is_view_wrong()
    }
}

// What the program's arguments from a place up to another ask for.
pub fn asked_for(rt: &HostRuntime, from: usize, to: usize) -> Options {
    let mut options = Options::none();
    let mut buffer = io::buffer();
    // Kept: a loop, since a fold's closure would have to change the lent buffer.
    for place in from..to {
        let n = argument(rt, place, &mut buffer).unwrap_or(0);
        options = options.with_argument(Argument {
            place,
            text: &buffer[..n],
        });
    }
    options
}
