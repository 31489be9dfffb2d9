// Opening days (paper 01, 'Advance'; paper 02, Ask 5): for each opened day an admitted file is taken out of the words once and put back once, whole
// where a letter lapses, a call ends or a next amount takes effect, and its charges alone on any other day.
ghost use Rattle.std.specs.Prelude.{◌≡◌, suc, ◌+◌, ◌≤◌, ◌<◌, ◌||◌, ltb};
ghost use Rattle.std.specs.List.{list_any};
ghost use Rattle.file.specs.declared.Slot.{Slot};
ghost use Rattle.file.specs.Position.{lapsed_by};
ghost use Rattle.file.specs.Calls.{ends_at};
ghost use Rattle.file.specs.Fields.{open_calls};
ghost use Rattle.file.specs.Charges.{changes_on, charges_after};
ghost use Rattle.layout.specs.Files.{Put};
ghost use Rattle.layout.specs.Words.{place, file_in_words, today_in, book_of_words};
ghost use Rattle.layout.specs.WellFormed.{WellFormed};
ghost use Rattle.book.specs.Call.{advance, advanced_says};
ghost use Rattle.book.specs.Account.{opened_if_admitted, open_day, open_days};
ghost use Rattle.book.specs.InWords.{GivenWords};
ghost use Rattle.book.specs.Opened.{Openable};

use crate::view::{FileView, place, today_of};
use calendar::{Day, LAST_DAY, is_first_october};
use file::Charges;
use layout::files::{put_charges, put_file};
use refusal::Refusal;

impl FileView<'_> {
    ghost use Rattle.book.specs.Seen.{file_seen, today_seen};

    // Whether a letter has lapsed by a day.
    fn has_lapsed_letter(self, day: Day) -> bool
        ensures { result ≡ list_any (λ (s : Slot). lapsed_by day.0 s.position) (file_seen self.entry).slots }
    {
        (0..8).any(
            |k|
                requires { k ≤ 7 }
            { self.position(k).has_lapsed(day) },
        )
    }

    // Whether the last free day of an open call is the day before a day.
    fn has_ending_call(self, day: Day) -> bool
        ensures { result ≡ list_any (ends_at day.0) (open_calls (file_seen self.entry)) }
    {
        (0..self.count()).any(
            |k|
                requires { k < (file_seen self).count }
            { self.open_call(k).ends_at(day) },
        )
    }

    // Whether the opening of a day changes more of the file than its charges.
    #[tactic(auto, unfolding(file::specs::Charges::changes_on, file::specs::Opening::takes_effect, layout::specs::Files::file_of_words))]
    fn changes_on(self, day: Day) -> bool
        ensures { result ≡ changes_on day.0 (file_seen self.entry) }
    {
        self.has_lapsed_letter(day)
            || self.has_ending_call(day)
            || (self.next_is_set() && is_first_october(day))
    }

    // The charges after a day whose opening changes nothing else: by the firm amount and the positions as they are.
    fn charges_after(self, day: Day) -> Charges
        requires { (day.0 ≡ suc (today_seen self)) × (day.0 ≤ 29219) }
        ensures { result ≡ charges_after (file_seen self.entry) day.0 }
    {
        let charges = Charges {
            charged: self.charged(),
            accrued: self.accrued(),
        };
        charges.after(self.firm().saturating_sub(self.cover(day, day)))
    }
}

// Opens the day after today for a participant, where it is admitted: its file is taken out of the words and put back; where the day changes only its
// charges, they alone are.
#[tactic(auto, using(crate::proofs::Functions::DaysOpened::files))]
fn open_file(words: &mut [u64], participant: u64, day: Day)
    requires { Openable words.old participant × (day.0 ≡ suc (today_in words.old)) }
    ensures { Put words.old (place participant) (opened_if_admitted day.0 (file_in_words words.old participant)) words.new }
{
    let file = FileView { words, participant };
    if !file.is_admitted() {
        return;
    }
    if file.changes_on(day) {
        let opened = file.file().opened(day);
        put_file(words, place(participant), opened);
    } else {
        let charges = file.charges_after(day);
        put_charges(words, place(participant), charges);
    }
}

// Opens the day after today.
#[tactic(auto, using(crate::proofs::Functions::DaysOpened::passes))]
fn open_day(words: &mut [u64])
    requires { WellFormed words.old × (today_in words.old + 1 ≤ 29219) }
    ensures { (book_of_words words.new ≡ open_day (book_of_words words.old)) × WellFormed words.new }
{
    let day = Day(today_of(words).0 + 1);
    for participant in 0..64 {
        open_file(words, participant, day);
    }
    words[1] = day.0 as u64;
}

// Opens so many days after today, in turn.
#[tactic(auto, using(crate::proofs::Functions::DaysOpened::turns))]
fn open_days(words: &mut [u64], days: u32)
    requires { WellFormed words.old × (today_in words.old + days ≤ 29219) }
    ensures { (book_of_words words.new ≡ open_days days (book_of_words words.old)) × WellFormed words.new }
{
    for _ in 0..days {
        open_day(words);
    }
}

// Whether an advance to a day is refused: a day above 29,219, or before today.
fn is_outside(day: Day, today: Day) -> bool
    ensures { result ≡ (ltb 29219 day.0 || ltb day.0 today.0) }
{
    !(today.0..=LAST_DAY).contains(&day.0)
}

// Opens the days after today in turn until a day, or until a budget of days is spent.
#[tactic(auto, using(crate::proofs::Functions::DaysOpened::advances))]
pub fn advance(words: &mut [u64], day: Day, budget: u64) -> Result<u32, Refusal>
    requires { WellFormed words.old }
    ensures { GivenWords words.old (advance day.0 budget) (advanced_says result) words.new }
{
    let today = today_of(words);
    if is_outside(day, today) {
        return Err(Refusal::DayOutOfRange);
    }
    let days = budget.min((day.0 - today.0) as u64) as u32;
    open_days(words, days);
    Ok(days)
}
