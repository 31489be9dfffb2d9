// The items as they are kept while days are opened.
ghost use Rattle.std.specs.Prelude.{◌≡◌, [], ◌∷◌};
ghost use Rattle.layout.specs.Words.{book_of_words};
ghost use Rattle.layout.specs.WellFormed.{WellFormed};
ghost use Rattle.book.specs.Account.{file_at};
ghost use Rattle.printing.specs.Written.{followed};
ghost use Rattle.items.specs.State.{state_of, charged_on, all_days, all_mills, begun_behind, state_with, state_after};
ghost use Rattle.items.specs.Lines.{last_line, line_ended, text_after};

use crate::lines::put_run;
use crate::{Charged, Form, Items, Run};
use printing::Out;

// Today, where its opening charged a participant.
fn charged_today(words: &[u64], participant: u64) -> Option<Charged>
    requires { WellFormed words.now }
    ensures { let b = book_of_words words.now in result ≡ charged_on (file_at b participant) b.today.0 }
{
    let Ok(s) = book::statement(words, participant) else {
        return None;
    };
    if s.shortfall == 0 {
        return None;
    }
    Some(Charged {
        day: book::today(words),
        firm: s.firm,
        cover: s.cover,
    })
}

impl Items {
    // No items.
    #[tactic(auto, unfolding(crate::specs::State::state_of))]
    pub fn none() -> Items
        ensures { result ≡ state_of [] }
    {
        Items {
            run: None,
            days: 0,
            mills: 0,
        }
    }

    // The days of all items.
    #[tactic(auto, unfolding(crate::specs::State::all_days, crate::specs::State::in_word))]
    pub fn all_days(self) -> u64
        ensures { result ≡ all_days self }
    {
        match self.run {
            Some(run) => self.days.saturating_add(run.days()),
            None => self.days,
        }
    }

    // The charges of all items.
    #[tactic(auto, unfolding(crate::specs::State::all_mills, crate::specs::State::in_word))]
    pub fn all_mills(self) -> u64
        ensures { result ≡ all_mills self }
    {
        match self.run {
            Some(run) => self.mills.saturating_add(run.charge()),
            None => self.mills,
        }
    }

    // The items behind which a day begins one.
    #[tactic(auto, unfolding(crate::specs::State::begun_behind))]
    fn begun_behind(self, charged: Charged) -> Items
        ensures { result ≡ begun_behind charged self }
    {
        Items {
            run: Some(Run::begun(charged)),
            days: self.all_days(),
            mills: self.all_mills(),
        }
    }

    // The items with one more charged day; what that day ends is written.
    #[tactic(auto, using(printing::specs::WrittenLaws::followed_none), unfolding(crate::specs::State::state_with))]
    fn joined(self, charged: Charged, form: Form, out: &mut Out) -> Items
        ensures state { result ≡ state_with charged self }
        ensures written { out.new ≡ followed out.old (line_ended form charged self.run) }
    {
        let Some(run) = self.run else {
            return self.begun_behind(charged);
        };
        if run.extended_by(charged) {
            return Items {
                run: Some(run.ending(charged)),
                days: self.days,
                mills: self.mills,
            };
        }
        put_run(out, run, form);
        self.begun_behind(charged)
    }

    // The items after today was opened, in the words as its opening left them; the line of the run that it ends is written.
    #[tactic(auto, using(printing::specs::WrittenLaws::followed_none), unfolding(crate::specs::State::state_after, crate::specs::Lines::text_after))]
    pub fn opened(self, words: &[u64], participant: u64, form: Form, out: &mut Out) -> Items
        requires { WellFormed words.now }
        ensures state { let b = book_of_words words.now in result ≡ state_after (file_at b participant) b.today.0 self }
        ensures written { let b = book_of_words words.now in out.new ≡ followed out.old (text_after form (file_at b participant) b.today.0 self) }
    {
        match charged_today(words, participant) {
            Some(charged) => self.joined(charged, form, out),
            None => self,
        }
    }

    // Writes the line of the latest run, behind which no day is opened any more.
    #[tactic(auto, using(printing::specs::WrittenLaws::followed_none), unfolding(crate::specs::Lines::last_line))]
    pub fn finish(self, form: Form, out: &mut Out)
        ensures { out.new ≡ followed out.old (last_line form self) }
    {
        if let Some(run) = self.run {
            put_run(out, run, form);
        }
    }
}
