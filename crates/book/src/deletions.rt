// Deletions (paper 02, Ask 4): the file is taken out of the words, its method called, and the file put back where the participant is placed under
// deletion.
ghost use Rattle.std.specs.Prelude.{◌≡◌};
ghost use Rattle.file.specs.Answer.{deletion_says};
ghost use Rattle.file.specs.Deletion.{deletion_answer, deleted_file};
ghost use Rattle.layout.specs.WellFormed.{WellFormed};
ghost use Rattle.book.specs.Call.{delete, on};
ghost use Rattle.book.specs.InWords.{GivenWords};

use crate::view::{FileView, place};
use file::{Deletion, File};
use layout::files::put_file;
use refusal::Refusal;

impl FileView<'_> {
    ghost use Rattle.book.specs.Seen.{file_seen, today_seen};

    // What a deletion answers, its amount and whether it became a call or the first of the causes 24 and 13 that holds, and the file that it leaves.
    fn deletion(self) -> (Result<Deletion, Refusal>, File)
        ensures { (deletion_says result.0 ≡ deletion_answer (file_seen self.entry) (today_seen self.entry))
            × (result.1 ≡ deleted_file (file_seen self.entry) (today_seen self.entry)) }
    {
        self.file().deleted(self.today())
    }
}

// Places a participant under deletion: writes its file, in which the call is counted if one was made.
#[tactic(auto, using(crate::proofs::Functions::OnDeletions::deletes))]
pub fn delete(words: &mut [u64], participant: u64) -> Result<Deletion, Refusal>
    requires { WellFormed words.old }
    ensures { GivenWords words.old (on participant delete) (deletion_says result) words.new }
{
    let (answer, file) = FileView::admitted(words, participant)?.deletion();
    let deletion = answer?;
    put_file(words, place(participant), file);
    Ok(deletion)
}
