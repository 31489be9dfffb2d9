// A file entered as one batch: the line that its bytes make, which is taken like a line of standard input.
ghost use Rattle.std.specs.Prelude.{◌≡◌, ◌+◌, ◌*◌, ◌≤◌, [], ◌∷◌, map, length, pos, true, false, OnOk, OnErr};
ghost use Rattle.std.specs.Result.{is_ok};
ghost use Rattle.std.proofs.lemmas.List.Edits.{sets};
ghost use Rattle.printing.specs.Written.{followed};
ghost use Rattle.dialogue.specs.Turns.{all_journal};
ghost use Rattle.dialogue.specs.Answers.{state_of};
ghost use Rattle.serving.specs.Delivery.{Behind, Grown, left};
ghost use Rattle.serving.specs.Load.{AreBytes, batch_text, batch_line, MayEnter, Loads, Entered};

use crate::buffers::Entry;
use crate::desk::Desk;
use crate::session::Session;
use answering::{put_kept, put_made};
use journal::Request;
use printing::Out;
use storage::Stopped;

// A byte as a number.
fn number(byte: u8) -> i64
    ensures { result ≡ pos byte }
{
    i64::from(byte)
}

// The line that a file's bytes make. It is that of a kept call, whose numbers are the bytes.
fn put_line(out: &mut Out, bytes: &[u8], numbers: &mut [i64])
    requires { length bytes.now ≤ length numbers.old }
    ensures numbers_after { numbers.new ≡ sets numbers.old 0 (map pos bytes.now) }
    ensures put { out.new ≡ followed out.old (batch_line bytes.now) }
    ensures are_bytes { AreBytes bytes.now }
{
    put_made(bytes, numbers, number);
    put_kept(out, Request::Batch(bytes.len()), numbers, &[])
}

impl<'a> Session<'a> {
    // Enters a file's bytes as one batch: their line is taken like a line of standard input. Behind a failure nothing is entered.
    pub fn enter(self, desk: &mut Desk, file: Entry) -> Result<(), Stopped>
        ensures entered { OnOk result (Entered self.entry.way (length desk.old.numbers) (state_of desk.old.book desk.old.place) file.entry.bytes.now
            (state_of desk.new.book desk.new.place)) }
        ensures grown { OnOk result (Grown self.entry.way.replays (left desk.old.journal)
            (length (all_journal self.entry.way (length desk.old.numbers) (state_of desk.old.book desk.old.place)
            (batch_text file.entry.bytes.now ∷ []))) (left desk.new.journal)) }
        ensures well { OnOk result ((is_ok desk.old.journal ≡ true) × (is_ok desk.new.journal ≡ true)) }
        ensures loads { MayEnter self.entry.way (length desk.old.numbers) (state_of desk.old.book desk.old.place) file.entry.bytes.now
            → Loads self.entry.way (length desk.old.numbers) (state_of desk.old.book desk.old.place) file.entry.bytes.now }
        ensures bytes { desk.new.bytes ≡ desk.old.bytes }
        ensures stopped { OnErr result (is_ok desk.new.journal ≡ false) }
        ensures behind { Behind (state_of desk.old.book desk.old.place) (state_of desk.new.book desk.new.place) desk.old.journal desk.new.journal }
    {
        let mut text = io::large_buffer();
        let mut line = Out::new(&mut text);
        put_line(&mut line, file.bytes, &mut desk.numbers);
        desk.journal?;
        self.drain(desk, line.written())?;
        Ok(())
    }
}
