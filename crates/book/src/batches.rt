// Batches (paper 02, Ask 1): a month in one file. All parts are judged on the book as it is, and then what they leave is written, one after the
// other: a participant stands in one part alone, so that each part is judged as if those before it were settled, and a refused batch has written
// nothing.
ghost use Rattle.std.specs.Prelude.{◌≡◌, ◌+◌, ◌*◌, ◌≤◌, length, MatchResult, Ok};
ghost use Rattle.refusal.specs.Numbers.{number_of};
ghost use Rattle.batch.specs.Batch.{month_in, offset_at, rows_at, form_of};
ghost use Rattle.file.specs.Answer.{refused_pair, settled_says};
ghost use Rattle.layout.specs.Words.{book_of_words, today_in};
ghost use Rattle.layout.specs.WellFormed.{WellFormed};
ghost use Rattle.book.specs.Call.{batch, batch_says, loaded_says};
ghost use Rattle.book.specs.Batches.{judged, made_parts, Judges};
ghost use Rattle.book.specs.InWords.{GivenWords};
ghost use Rattle.book.specs.Settlements.{due_on};

use crate::settlements::{due_on, put_settled};
use crate::view::{FileView, today_of};
use batch::{Misfit, form_of, month, part_at, sum_part};
use calendar::Month;
use file::Settled;
use refusal::Refusal;

// What the settlement of a part answers on the book as it is, given whether a check of the batch's month is due.
#[tactic(auto, using(crate::proofs::Functions::OnBatches::parts))]
fn part_answer(
    words: &[u64],
    file: &[u8],
    at: u32,
    due: Result<bool, Refusal>,
) -> Result<Settled, Refusal>
    requires { WellFormed words.now × (due ≡ due_on (today_in words.now) (month_in file.now))
        × (offset_at file.now at + 2 + 8 * rows_at file.now at ≤ length file.now) }
    ensures { settled_says result ≡ judged (book_of_words words.now) file.now at }
{
    let part = part_at(file, at);
    FileView::admitted(words, part.participant)?.settlement(due, sum_part(file, part))
}

// Judges the parts of a batch on the book as it is: what their settlements leave, or the first refusal with its part's index.
#[tactic(auto, using(crate::proofs::Functions::OnBatches::judgements))]
fn judge(words: &[u64], file: &[u8], parts: u32, answers: &mut [Settled]) -> Result<(), Misfit>
    requires { WellFormed words.now × (form_of file.now ≡ Ok parts) × (parts ≤ length answers.old) }
    ensures { MatchResult result (λ _. Judges (book_of_words words.now) file.now parts answers.new)
        (λ m. refused_pair (number_of m.refusal) m.pair ≡ batch_says (Ok parts) (judged (book_of_words words.now) file.now)) }
{
    let due = due_on(today_of(words), Month(month(file)));
    // Kept: an index (the new form is no plainer): a zip would keep it, since it names the pair that is read and the refusal's pair.
    for i in 0..parts {
        answers[i as usize] = part_answer(words, file, i, due).map_err(|refusal| Misfit {
            refusal,
            pair: i,
        })?;
    }
    Ok(())
}

// Writes what the parts of a batch leave, in pair order.
#[tactic(auto, using(crate::proofs::Functions::OnBatches::puts_parts))]
fn put_parts(words: &mut [u64], file: &[u8], parts: u32, answers: &[Settled])
    requires { WellFormed words.old × (form_of file.now ≡ Ok parts) × Judges (book_of_words words.old) file.now parts answers.now }
    ensures { WellFormed words.new
        × (book_of_words words.new ≡ made_parts (book_of_words words.old) file.now parts) }
{
    // Kept: an index (the new form is no plainer): a zip with the answers would keep it, since it names the pair that is read.
    for i in 0..parts {
        let participant = part_at(file, i).participant;
        put_settled(words, participant, Month(month(file)), answers[i as usize]);
    }
}

// Loads the file of a month: all its settlements, or none.
#[tactic(auto, using(crate::proofs::Functions::OnBatches::loads))]
pub fn load(words: &mut [u64], file: &[u8]) -> Result<u32, Misfit>
    requires { WellFormed words.old }
    ensures { GivenWords words.old (batch file.now) (loaded_says result) words.new }
{
    let parts = form_of(file)?;
    // Kept: an array with the count of parts beside it (a rule of the project, no heap): a file has at most 64 parts.
    let mut answers = [Settled::Recorded(0); 64];
    judge(words, file, parts, &mut answers)?;
    put_parts(words, file, parts, &answers);
    Ok(parts)
}
