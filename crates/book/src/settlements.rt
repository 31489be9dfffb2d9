// Settlements (paper 01, 'Settle'): each reads the words that its causes and its check ask for, and writes the month's total and, where it calls,
// the call.
ghost use Rattle.std.specs.Prelude.{◌≡◌, ℕ, ◌+◌, ◌*◌, ◌%◌, ◌≤◌, length, set};
ghost use Rattle.file.specs.Answer.{called, settlement_says, settled_says};
ghost use Rattle.file.specs.Calls.{call_of};
ghost use Rattle.file.specs.DueCheck.{check_answer};
ghost use Rattle.file.specs.Settle.{deposited};
ghost use Rattle.file.specs.Totals.{total_of};
ghost use Rattle.layout.specs.Parts.{total_words, open_call_words, TotalBack, CallBack, written};
ghost use Rattle.layout.specs.Words.{file_in_words, today_in};
ghost use Rattle.layout.specs.WellFormed.{WellFormed};
ghost use Rattle.book.specs.Call.{settle, on};
ghost use Rattle.book.specs.InWords.{GivenWords};
ghost use Rattle.book.specs.Settlements.{due_on, AnswersSettlement, PutsSettlement};

use crate::view::{FileView, place};
use calendar::{Day, Month, month_of};
use file::settle::{check_due, outside_months};
use file::{MonthTotal, OpenCall, Settled, ring_place};
use layout::rows::{Row, put_row};
use manual::figures::sum_figures;
use manual::monthly::check;
use refusal::Refusal;

// Whether a check of a month is due on a day; cause 12 refuses a month outside its range.
pub fn due_on(today: Day, month: Month) -> Result<bool, Refusal>
    ensures { result ≡ due_on today.0 month.0 }
{
    let current = month_of(today);
    if outside_months(current, month) {
        return Err(Refusal::MonthOutOfRange);
    }
    Ok(check_due(current, month))
}

impl FileView<'_> {
    ghost use Rattle.book.specs.Seen.{file_seen, today_seen};

    // D of a check today: what the positions give from today through day t + 11.
    #[tactic(auto, unfolding(file::specs::Settle::deposited))]
    fn deposited(self) -> u64
        ensures { result ≡ deposited (file_seen self.entry) (today_seen self.entry) }
    {
        let today = self.today();
        self.cover(today, Day(today.0 + 11))
    }

    // What a check that is due answers to a total: 13 where the call would be a fifth open one, or what the check says.
    #[tactic(auto, using(crate::proofs::Functions::OnSettlements::checks))]
    fn checked(self, total: i64) -> Result<Settled, Refusal>
        ensures { settled_says result
            ≡ check_answer (file_seen self.entry) (today_seen self.entry) total }
    {
        let Some(call) = check(total, self.deposited(), self.firm(), &self.called_amounts()) else {
            return Ok(Settled::Covered(total));
        };
        if 4 <= self.count() {
            return Err(Refusal::FifthCall);
        }
        Ok(Settled::Called(call.amount, call.asked, Day(self.today().0 + 10)))
    }

    // What a settlement answers, given whether a check of its month is due and the sum of its figures: the first of the causes 12, 10, 11 and 13
    // that holds, or the total with what the check says.
    #[tactic(auto, using(crate::proofs::Functions::OnSettlements::settles))]
    #[inline(always)]
    pub fn settlement(
        self,
        due: Result<bool, Refusal>,
        sum: Result<i64, Refusal>,
    ) -> Result<Settled, Refusal>
        ensures { AnswersSettlement (file_seen self.entry) (today_seen self.entry)
            due sum (settled_says result) }
    {
        let due = due?;
        let total = sum?;
        if due {
            self.checked(total)
        } else {
            Ok(Settled::Recorded(total))
        }
    }
}

// Writes a month's total.
// Kept: words and a place, here and below, as layout's `put_row` takes them: the C interface lends a book as one slice.
fn put_month(words: &mut [u64], at: usize, month: Month, total: i64)
    requires { at + 98 ≤ length words.old }
    ensures { (words.new ≡ written words.old (at + (50 + 3 * (month.0 % 16))) (total_words (total_of month.0 total)))
        × TotalBack (total_of month.0 total) }
{
    let recorded = MonthTotal {
        recorded: true,
        month,
        total,
    };
    put_row(words, at, ring_place(month), recorded);
}

// Writes a call behind the first n, which are open. What a settlement that called leaves is said for any words, so for four open calls too.
fn put_open_call(words: &mut [u64], at: usize, n: u64, call: OpenCall)
    requires { (at + 98 ≤ length words.old) × (n ≤ 4) }
    ensures { (words.new
        ≡ set (written words.old (at + (42 + 2 * n)) (open_call_words call)) (at + 4) (n + 1))
        × CallBack call }
{
    call.put(words, at + (42 + 2 * n as usize));
    words[at + 4] = n + 1;
}

// Writes what a settlement that called leaves: the month's total, the call, and one more in the file's count of calls made.
// Kept: words and a number, here, in `put_settled`, `put_position` and `put_admitted`: a view lends the words shared, and these write them.
fn put_called(words: &mut [u64], participant: u64, month: Month, call: OpenCall)
    requires { WellFormed words.old × (participant ≤ 63) }
    ensures { (asked : ℕ) → PutsSettlement words.old participant month.0 (called call.amount asked call.last.0)
        words.new }
{
    let at = place(participant);
    let n = words[at + 4];
    let made = words[at + 9] + 1;
    put_month(words, at, month, call.amount.cast_signed());
    put_open_call(words, at, n, call);
    words[at + 9] = made;
}

// Writes what a settlement leaves.
#[tactic(auto, using(crate::proofs::Functions::SettlementsPut::puts))]
pub fn put_settled(words: &mut [u64], participant: u64, month: Month, settled: Settled)
    requires { WellFormed words.old × (participant ≤ 63) }
    ensures { PutsSettlement words.old participant month.0 (settlement_says settled) words.new }
{
    let at = place(participant);
    match settled {
        Settled::Called(amount, _, last) => {
            put_called(words, participant, month, OpenCall { amount, last })
        }
        // Kept: two arms (tried, no proof closes): where an or-pattern binds a signed number, the prover meets ℕ where it expects ℤ.
        Settled::Covered(total) => put_month(words, at, month, total),
        Settled::Recorded(total) => put_month(words, at, month, total),
    }
}

// Settles a month of a participant by its figures.
#[tactic(auto, using(crate::proofs::Functions::SettlementsPut::settlements))]
pub fn settle(
    words: &mut [u64],
    participant: u64,
    month: Month,
    figures: &[i64],
) -> Result<Settled, Refusal>
    requires { WellFormed words.old }
    ensures { GivenWords words.old (on participant (settle month.0 figures.now)) (settled_says result)
        words.new }
{
    let file = FileView::admitted(words, participant)?;
    let settled = file.settlement(due_on(file.today(), month), sum_figures(figures))?;
    put_settled(words, participant, month, settled);
    Ok(settled)
}
