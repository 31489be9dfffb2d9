// The book on its desk: how far an input is taken on it, and room for what a line needs.
ghost use Rattle.std.specs.Prelude.{◌≡◌, ◌≤◌, true, None, Ok, length};
ghost use Rattle.book.specs.Account.{fresh_answer};
ghost use Rattle.book.specs.InWords.{BegunWords};
ghost use Rattle.serving.specs.Ways.{at_start};
ghost use Rattle.dialogue.specs.Answers.{most_kept, most_said, space, state_of, Answers};

use crate::ways;
use book::BookWords;
use calendar::Day;
use dialogue::{Place, Way, answer_lines};
use printing::Out;
use storage::{Journal, Stopped};

// The book, how far an input is taken on it, the journal where one is kept, or that something failed, the bytes of the complete lines that were
// taken, and room: for the numbers of a line, since one of 65,535 bytes has at most half as many words, and a file that is entered has fewer bytes;
// for the journal's bytes, those of a part of the input and the longest line behind them, so that a part is kept by one forced write; and for the
// answers.
#[derive(Drop)]
pub struct Desk<'a> {
    pub book: BookWords,
    pub place: Place,
    pub journal: Result<Option<Journal>, Stopped>,
    pub bytes: u64,
    pub numbers: [i64; 32768],
    pub kept: Out<'a>,
    pub out: Out<'a>,
    ghost numbers_room: { length numbers ≡ 32768 },
    ghost kept_room: { most_kept ≤ space kept },
    ghost out_room: { most_said ≤ space out },
}

impl<'a> Desk<'a> {
    // The fresh book of day 0, before the first line.
    #[tactic(auto, unfolding(printing::specs::Written::lent))]
    pub fn fresh(kept: &'a mut [u8; 90112], out: &'a mut [u8; 65536]) -> Desk<'a>
        ensures begins { (result.place ≡ at_start 0 true) × (result.journal ≡ Ok None) × (result.bytes ≡ 0) }
        ensures book { BegunWords 0 (fresh_answer 0) result.book }
    {
        Desk {
            book: BookWords::fresh(Day(0)),
            place: ways::at_start(0, true),
            journal: Ok(None),
            bytes: 0,
            numbers: [0; 32768],
            kept: Out::new(kept),
            out: Out::new(out),
        }
    }

    // Answers the complete lines of an input, as long as one more is taken, and says how many of its bytes they are.
    pub fn answer(&mut self, way: Way, input: &[u8]) -> usize
        ensures space { (space self.new.kept ≡ space self.old.kept) × (space self.new.out ≡ space self.old.out) }
        ensures answers { Answers way (length self.old.numbers) (state_of self.old.book self.old.place) input.now result
            (state_of self.new.book self.new.place) self.new.kept self.new.out }
        ensures others { (self.new.journal ≡ self.old.journal) × (self.new.bytes ≡ self.old.bytes) }
    {
        let taken = answer_lines(
            &mut self.book.words,
            self.place,
            way,
            input,
            &mut self.numbers,
            &mut self.kept,
            &mut self.out,
        );
        self.place = taken.place;
        taken.used
    }

    // The same book before the first line of another input, with the journal where one is kept.
    pub fn begin(&mut self, place: Place, journal: Option<Journal>)
        ensures book { self.new.book ≡ self.old.book }
        ensures begins { (self.new.place ≡ place) × (self.new.journal ≡ Ok journal) × (self.new.bytes ≡ 0) }
    {
        self.place = place;
        self.journal = Ok(journal);
        self.bytes = 0;
    }

    // The fresh book of day 0 again, before the first line; what is written of the answers stays.
    pub fn restart(&mut self)
        ensures begins { (self.new.place ≡ at_start 0 true) × (self.new.journal ≡ Ok None) × (self.new.bytes ≡ 0) }
        ensures book { BegunWords 0 (fresh_answer 0) self.new.book }
    {
        self.book = BookWords::fresh(Day(0));
        self.begin(ways::at_start(0, true), None);
    }
}
