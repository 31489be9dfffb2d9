// The wording of each answer.
ghost use Rattle.std.specs.Prelude.{◌≡◌};
ghost use Rattle.printing.specs.Written.{followed};
ghost use Rattle.wording.specs.Wording.{comma_hint, word_text, wording};

use crate::amounts::{
    put_annual, put_called, put_deletion, put_labelled, put_statement, put_total,
};
use crate::causes::{put_refused, put_refused_pair};
use crate::wrong::{has_comma, wrong_word};
use printing::{Answer, Out};

// What is to be written in the place of a word with a comma.
#[tactic(auto, using(printing::specs::WrittenLaws::followed_none), unfolding(crate::specs::Wording::comma_hint))]
fn put_hint(out: &mut Out, word: &[u8])
    ensures { out.new ≡ followed out.old (comma_hint word.now) }
{
    if has_comma(word) {
        out.text(b"  no comma: whole cents, or euros as 20000.00")
    }
}

// The word that is wrong; nothing where there is none.
#[tactic(auto, using(crate::proofs::WordingLaws::word_none, crate::proofs::WordingLaws::word_some))]
fn put_word(out: &mut Out, word: &[u8])
    ensures { out.new ≡ followed out.old (word_text word.now) }
{
    if !word.is_empty() {
        out.text(b": ");
        out.text(&word[..word.len().min(40)]);
        put_hint(out, word)
    }
}

// What stands behind the answer to a line, before its newline.
#[tactic(auto, using(printing::specs::WrittenLaws::followed_none), unfolding(crate::specs::Wording::wording))]
pub fn put_wording(out: &mut Out, answer: Answer, line: &[u8])
    ensures { out.new ≡ followed out.old (wording answer line.now) }
{
    match answer {
        Answer::Refused(n) => put_refused(out, n),
        Answer::RefusedPair(n, pair) => put_refused_pair(out, n, pair),
        Answer::Called(total, asked, last) => put_called(out, total, asked, last),
        Answer::Covered(total) => put_total(out, total),
        Answer::Recorded(total) => put_total(out, total),
        Answer::Annual(amount, months) => put_annual(out, amount, months),
        Answer::Statement(f, c, s, d, m, n) => put_statement(out, f, c, s, d, m, n),
        Answer::Special(cents) | Answer::Releasable(cents) => put_labelled(out, b"  ", cents),
        Answer::Deletion(amount, is_called) => put_deletion(out, amount, is_called),
        Answer::Error(_, why) => put_word(out, wrong_word(line, why)),
        _ => {}
    }
}
