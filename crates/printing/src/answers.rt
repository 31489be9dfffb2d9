// The lines of answers.
ghost use Rattle.std.specs.Prelude.{◌≡◌, [], ◌∷◌};
ghost use Rattle.words.specs.Text.{text};
ghost use Rattle.printing.specs.Decimals.{decimal, joined};
ghost use Rattle.printing.specs.Written.{followed};
ghost use Rattle.printing.specs.Answers.{reason_text, answer_line};
ghost use Rattle.printing.specs.Dates.{date_text};

use crate::Answer;
use crate::dates::OnDate;
use crate::lent::{Out, Puts};
use calendar::Day;
use journal::Reason;

// A few words on what is wrong with a line.
impl Puts for Reason {
    ghost text = { reason_text };

    fn put_in(self, out: &mut Out) {
        match self {
            Reason::ControlByte => out.text(b"a control byte"),
            Reason::NoCall => out.text(b"no such call"),
            Reason::TooFewWords => out.text(b"too few words"),
            Reason::TooManyWords => out.text(b"too many words"),
            Reason::NotNumber => out.text(b"not a number"),
            Reason::NotDay => out.text(b"not a day"),
            Reason::NotMonth => out.text(b"not a month"),
            Reason::NotRole => out.text(b"not a role"),
            Reason::NotCashOrLetter => out.text(b"neither cash nor letter"),
            Reason::NotHex => out.text(b"not two hexadecimal digits for each byte"),
            Reason::TooLong => out.text(b"line too long"),
            Reason::FreshLater => out.text(b"fresh is not the first call"),
            Reason::NoNewline => out.text(b"line without newline, not taken"),
            Reason::ReadOnly => out.text(b"only questions, the journal is read"),
        }
    }
}

// error LINE REASON
fn put_error(out: &mut Out, line: u64, why: Reason)
    ensures { out.new ≡ followed out.old (joined (text "error" ∷ decimal line ∷ reason_text why ∷ [])) }
{
    out.words(b"error", &[line]);
    out.spaced(why)
}

// today DAY DATE
fn put_today(out: &mut Out, day: Day)
    ensures { out.new ≡ followed out.old (joined (text "today" ∷ decimal day.0 ∷ date_text day.0 ∷ [])) }
{
    out.words(b"today", &[day.0 as u64]);
    out.spaced(OnDate { day })
}

// An answer as its line.
impl Puts for Answer {
    ghost text = { answer_line };

    #[tactic(auto, using(crate::proofs::LineLaws::nothing_put), unfolding(crate::specs::Answers::answer_line, crate::specs::Answers::answer_words, crate::specs::Decimals::joined, crate::specs::Decimals::spaced))]
    fn put_in(self, out: &mut Out) {
        match self {
            Answer::Done => out.text(b"done"),
            Answer::Refused(n) => out.words(b"refused", &[n as u64]),
            Answer::Called(e, asked, last) => out.words(b"called", &[e, asked, last.0 as u64]),
            Answer::Covered(e) => out.words(b"covered", &[e]),
            Answer::Recorded(e) => out.words(b"recorded", &[e]),
            Answer::Annual(amount, months) => out.words(b"annual", &[amount, months]),
            Answer::Opened(days) => out.words(b"opened", &[days as u64]),
            Answer::Statement(f, c, s, d, m, n) => out.words(b"statement", &[f, c, s, d, m, n]),
            Answer::Calls(n) => out.words(b"calls", &[n]),
            Answer::Special(cents) => out.words(b"special", &[cents]),
            Answer::Releasable(cents) => out.words(b"releasable", &[cents]),
            Answer::Today(day) => put_today(out, day),
            Answer::Batch(n) => out.words(b"batch", &[n]),
            Answer::RefusedPair(n, i) => out.words(b"refused", &[n as u64, i]),
            Answer::Deletion(amount, called) => {
                out.words(b"deletion", &[amount, u64::from(called)])
            }
            Answer::Error(line, why) => put_error(out, line, why),
            Answer::Nothing => {}
        }
    }
}
