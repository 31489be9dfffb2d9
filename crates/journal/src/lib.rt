// One line of the journal: the call that it is, read from its bytes.
#![tactic(auto)]

ghost use Rattle.std.specs.Prelude.{◌≡◌, length};
ghost use Rattle.words.specs.Words.{left, place_in};
ghost use Rattle.journal.specs.Names.{call_names};
ghost use Rattle.journal.specs.Fields.{more};
ghost use Rattle.journal.specs.Grammar.{named_call, parsed, length_list, lengths_of};
ghost use Rattle.journal.specs.Steps.{ParsedIs, said};

use calendar::{Day, Month};

mod plain; // plain.rt: a call that is read
mod fields; // fields.rt: the words of a line taken one by one
mod calls; // calls.rt: the calls that have no lists
mod lists; // lists.rt: the calls that have lists
mod batch; // batch.rt: the call that has a file

use fields::closed;
use plain::Call;
use words::{Words, content, has_control};

// What is wrong with a line. The last three are said by a kept journal: `fresh` stands only as its first call, a line without its newline may be
// a part of one, and where it is only read no call changes it.
#[derive(Clone, Copy, PartialEq, Eq)]
pub enum Reason {
    ControlByte,
    NoCall,
    TooFewWords,
    TooManyWords,
    NotNumber,
    NotDay,
    NotMonth,
    NotRole,
    NotCashOrLetter,
    NotHex,
    TooLong,
    FreshLater,
    NoNewline,
    ReadOnly,
}

// How long each of the seven lists of `special` is.
#[derive(Clone, Copy, PartialEq, Eq)]
pub struct Lengths {
    pub medium: usize,
    pub low: usize,
    pub marks: usize,
    pub zero_medium: usize,
    pub zero_low: usize,
    pub excess_medium: usize,
    pub excess_low: usize,
}

impl Lengths {
    // The seven lengths, in the order of the lists.
    pub fn in_turn(self) -> [usize; 7]
        ensures { result ≡ length_list self }
    {
        [
            self.medium,
            self.low,
            self.marks,
            self.zero_medium,
            self.zero_low,
            self.excess_medium,
            self.excess_low,
        ]
    }
}

// The lengths of seven lists, in the order of the lists.
impl From<[usize; 7]> for Lengths {
    ghost from_gives = { λ n lengths. lengths ≡ lengths_of n };

    fn from(n: [usize; 7]) -> Self {
        Lengths {
            medium: n[0],
            low: n[1],
            marks: n[2],
            zero_medium: n[3],
            zero_low: n[4],
            excess_medium: n[5],
            excess_low: n[6],
        }
    }
}

// What a line is: nothing, a call with its arguments, or an error. Participants come first, then positions, then amounts; a settlement has
// the number of its figures, a special guarantee the lengths of its lists, and a batch the number of its file's bytes. `role-retired` is no
// call to the book but ends the first stretch of a journal (paper 02, Ask 3), and has no arguments. `delete`
// places a participant under deletion (Ask 4). `file`, `releasable` and `today` are questions.
// Kept: counts of figures and bytes, which stand in a lent slice beside a request, since a line is read without a heap.
// Kept: `Nothing` and `Error` are cases: `parsed`, `asked` and `printed` speak of any, and an Option of a Result would ask two more matches.
#[derive(Clone, Copy, PartialEq, Eq)]
pub enum Request {
    Nothing,
    Fresh(Day),
    Admit(u64, u64),
    LodgeCash(u64, u64, u64),
    LodgeLetter(u64, u64, u64, Day, Day),
    Release(u64, u64, u64),
    Settle(u64, Month, usize),
    Annual(u64),
    Advance(Day, u64),
    Statement(u64),
    Calls,
    Special(Lengths),
    Batch(usize),
    RoleRetired,
    Delete(u64),
    Report,
    File(u64),
    Releasable(u64, u64),
    Today,
    Error(Reason),
}

// The call that has a name, from the words after it.
// Kept: names compared one by one: tried in `lodge`, with two names, a match on byte strings left 15 goals open, 13 for its last arm.
// Kept: words and numbers apart, here and below: most calls read no list, and a struct of both would lend them a slice that they never write.
fn call(name: &[u8], words: &mut Words, numbers: &mut [i64]) -> Result<Call, Reason>
    ensures { ParsedIs (named_call (length numbers.old) (place_in name.now call_names) (more (left words.old)))
        numbers.old (said result) numbers.new }
{
    if name == b"fresh".as_slice() {
        calls::fresh(words)
    } else if name == b"admit".as_slice() {
        calls::admit(words)
    } else if name == b"lodge".as_slice() {
        calls::lodge(words)
    } else if name == b"release".as_slice() {
        calls::release(words)
    } else if name == b"settle".as_slice() {
        lists::settle(words, numbers)
    } else if name == b"annual".as_slice() {
        calls::annual(words)
    } else if name == b"advance".as_slice() {
        calls::advance(words)
    } else if name == b"statement".as_slice() {
        calls::statement(words)
    } else if name == b"calls".as_slice() {
        closed(words, Request::Calls)
    } else if name == b"special".as_slice() {
        lists::special(words, numbers)
    } else if name == b"report".as_slice() {
        closed(words, Request::Report)
    } else if name == b"batch".as_slice() {
        batch::batch(words, numbers)
    } else if name == b"role-retired".as_slice() {
        closed(words, Request::RoleRetired)
    } else if name == b"delete".as_slice() {
        calls::delete(words)
    } else if name == b"file".as_slice() {
        calls::file(words)
    } else if name == b"releasable".as_slice() {
        calls::releasable(words)
    } else if name == b"today".as_slice() {
        closed(words, Request::Today)
    } else {
        Err(Reason::NoCall)
    }
}

// The call that a line is, or what is wrong with it.
fn read(line: &[u8], numbers: &mut [i64]) -> Result<Call, Reason>
    ensures { ParsedIs (parsed (length numbers.old) line.now) numbers.old (said result) numbers.new }
{
    let text = content(line);
    if has_control(text) {
        return Err(Reason::ControlByte);
    }
    let mut words = Words { text };
    let Some(name) = words.next() else {
        return Ok(Call {
            request: Request::Nothing,
        });
    };
    call(name, &mut words, numbers)
}

// The call that a line is. The numbers of its lists, or the bytes of its file, are written to the front of the slice, in a row; the rest of the
// slice is left as it was. A line with more numbers than the slice has room for is an error.
pub fn parse(line: &[u8], numbers: &mut [i64]) -> Request
    ensures { ParsedIs (parsed (length numbers.old) line.now) numbers.old result numbers.new }
{
    read(line, numbers).map_or_else(Request::Error, |call| call.request)
}
