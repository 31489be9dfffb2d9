// What is printed of the program itself.
ghost use Rattle.std.specs.Prelude.{◌≡◌};
ghost use Rattle.printing.specs.Written.{followed};
ghost use Rattle.serving.specs.End.{end_line};

use crate::delivery::put_out;
use dialogue::Place;
use printing::Out;
use storage::{Stream, write_whole};

// How the program is called.
pub fn put_usage(rt: &HostRuntime, stream: Stream) {
    let _ = write_whole(
        rt,
        stream,
        b"usage: ledger [--bail] [--end] [--batch] [--load FILE] [--words | --plain] [--csv] [JOURNAL]
       ledger [--bail] [--end] [--words | --plain] [--csv] --read JOURNAL
       ledger --items P [--csv] JOURNAL | --extract P JOURNAL | --audit [--csv] EXTRACT
       ledger --chart P JOURNAL | --chart market JOURNAL
       ledger --help | -h | --version

Answers calls from standard input, one a line. With JOURNAL the book is kept in that file.
  --bail     stop behind the first refusal or error
  --end      a last line `end LINES ACCEPTED` when all lines were answered and kept
  --batch    keep the lines of a part of the input by one forced write
  --load     enter FILE, a month's settlement file, as one batch: with JOURNAL in place of standard input,
             otherwise after its last line
  --read     replay JOURNAL and answer questions only; nothing is written
  --words    words behind the numbers of the answers, as on a terminal; --plain: the numbers alone there too
  --csv      the report and the items as lines for spreadsheets
  --items    what made participant P's figures, and each run of days on which it was charged; nothing is written
  --extract  P's own calls and the days opened, for P; nothing is written
  --audit    the items of the one participant of EXTRACT, worked out from it alone
  --chart    P's firm amount and cover over the days as a picture (SVG), or the sum of all shortfalls
",
    );
}

// The version: its second number grows with what is kept or answered otherwise than before.
pub fn put_version(rt: &HostRuntime) {
    let _ = write_whole(rt, Stream::Output, b"ledger 1.7\n");
}

// The last line: all lines of the input, and those of them that were neither refused nor an error.
#[tactic(auto, using(printing::specs::WrittenLaws::followed_twice), unfolding(crate::specs::End::end_line))]
fn put_end_line(out: &mut Out, place: Place)
    ensures { out.new ≡ followed out.old (end_line place) }
{
    out.text(b"end ");
    out.put(place.line);
    out.text(b" ");
    out.put(place.line.saturating_sub(place.refused));
    out.byte(b'\n')
}

// Says that all lines of an input were answered.
pub fn put_end(rt: &HostRuntime, place: Place) {
    let mut buffer = io::buffer();
    let mut line = Out::new(&mut buffer);
    put_end_line(&mut line, place);
    let _ = put_out(rt, line.written());
}
