// All complete lines of a part of an input.
ghost use Rattle.std.specs.Prelude.{◌≡◌, ◌≤◌, true, false, length, take, IfOk, OnOk, OnErr};
ghost use Rattle.std.specs.Result.{is_ok};
ghost use Rattle.dialogue.specs.Split.{lines_in};
ghost use Rattle.dialogue.specs.Turns.{all_journal};
ghost use Rattle.dialogue.specs.Answers.{state_of};
ghost use Rattle.serving.specs.Delivery.{Grown, left};
ghost use Rattle.serving.specs.Parts.{Step, SomeTaken, Drained};

use crate::desk::Desk;
use crate::session::Session;
use storage::Stopped;

impl<'a> Session<'a> {
    // Takes complete lines of a part, as many as there is room for, delivers their bytes, and answers how many bytes of the part they are. Where
    // something failed, here or before, no journal is left, and nothing more is kept or answered.
    fn take_some(self, desk: &mut Desk, input: &[u8]) -> Result<usize, Stopped>
        ensures step { IfOk result (λ used. Step self.entry.way (length desk.old.numbers) (state_of desk.old.book desk.old.place) input.now used
            (state_of desk.new.book desk.new.place)) }
        ensures grown { IfOk result (λ used. Grown self.entry.way.replays (left desk.old.journal)
            (length (all_journal self.entry.way (length desk.old.numbers) (state_of desk.old.book desk.old.place) (lines_in (take used input.now))))
            (left desk.new.journal)) }
        ensures well { OnOk result ((is_ok desk.old.journal ≡ true) × (is_ok desk.new.journal ≡ true)) }
        ensures on { OnOk result (self.entry.way.replays ≡ true → desk.new.place.refused ≡ 0) }
        ensures bytes { desk.new.bytes ≡ desk.old.bytes }
        ensures stopped { OnErr result (is_ok desk.new.journal ≡ false) }
        ensures taken { OnErr result (SomeTaken self.entry.way (length desk.old.numbers) (state_of desk.old.book desk.old.place) input.now
            (state_of desk.new.book desk.new.place)) }
    {
        let used = desk.answer(self.way, input);
        let journal = desk.journal?;
        desk.journal = Err(Stopped);
        let forced = self.deliver(journal, desk.place, desk.kept.written(), desk.out.written())?;
        desk.journal = Ok(forced);
        Ok(used)
    }

    // Takes all complete lines of a part, delivers their bytes as often as there is no room for more, and answers how many bytes of the part they
    // are.
    pub fn drain(self, desk: &mut Desk, input: &[u8]) -> Result<usize, Stopped>
        ensures drained { IfOk result (λ used. Drained self.entry.way (length desk.old.numbers) (state_of desk.old.book desk.old.place) input.now used
            (state_of desk.new.book desk.new.place)) }
        ensures grown { OnOk result (Grown self.entry.way.replays (left desk.old.journal)
            (length (all_journal self.entry.way (length desk.old.numbers) (state_of desk.old.book desk.old.place) (lines_in input.now)))
            (left desk.new.journal)) }
        ensures well { OnOk result ((is_ok desk.old.journal ≡ true) × (is_ok desk.new.journal ≡ true)) }
        ensures on { OnOk result (self.entry.way.replays ≡ true → desk.new.place.refused ≡ 0) }
        ensures bytes { desk.new.bytes ≡ desk.old.bytes }
        ensures stopped { OnErr result (is_ok desk.new.journal ≡ false) }
    {
        // Kept: a place beside the part: how many bytes a step takes is known only behind it, and the caller needs their sum.
        let mut start = 0;
        loop {
            let used = self.take_some(desk, &input[start..])?;
            if used == 0 {
                return Ok(start);
            }
            start += used;
        }
    }
}
