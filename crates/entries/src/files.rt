// A participant's file by value, out of the words of a book.
ghost use Rattle.std.specs.Prelude.{◌≡◌};
ghost use Rattle.layout.specs.Words.{book_of_words};
ghost use Rattle.layout.specs.WellFormed.{WellFormed};
ghost use Rattle.book.specs.Account.{file_at};

use file::File;
use layout::files::file_at;

// The file of a participant, and one with nothing in it for a number above 63.
#[tactic(auto, using(crate::proofs::FileLaws::no_such, crate::proofs::FileLaws::such))]
pub fn file_of(words: &[u64], participant: u64) -> File
    requires { WellFormed words.now }
    ensures { result ≡ file_at (book_of_words words.now) participant }
{
    if 63 < participant {
        return File::none();
    }
    file_at(words, 1 + 97 * participant as usize)
}
