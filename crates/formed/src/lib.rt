// Whether words are a book: what a saved book is asked before it is used.
#![tactic(auto)]

ghost use Rattle.std.specs.Prelude.{◌≡◌, ◌≤◌, ◌<◌, length};
ghost use Rattle.layout.specs.WellFormed.{WellFormed};
ghost use Rattle.formed.specs.Decides.{Decides, Below};
ghost use Rattle.formed.specs.Checks.{FileAt, EarlierLayout};

use crate::files::FileWords;

mod files;
mod parts;

// Whether each of the 64 files is well formed today.
fn files_formed(words: &[u64], today: u64) -> bool
    requires { (length words.now ≡ 6210) × (today ≤ 29219) }
    ensures { Decides result (Below 64 (FileAt today words.now)) }
{
    (0..64).all(
        |p|
            requires { (length words.now ≡ 6210) × (today ≤ 29219) × (p < 64) }
        { FileWords::new(words, 1 + 97 * p, today).is_formed() },
    )
}

// Whether words are a book: what a saved book is asked before it is used.
pub fn is_well_formed(words: &[u64]) -> bool
    ensures { Decides result (WellFormed words.now) }
{
    match *words {
        [layout, today, ..] if words.len() == 6210 && layout == 2 && today <= 29219 => {
            files_formed(words, today)
        }
        _ => false,
    }
}

// Whether words are those of a book that was saved in the layout before this one: they are told apart, and can't be used.
pub fn is_of_earlier_layout(words: &[u64]) -> bool
    ensures { Decides result (EarlierLayout words.now) }
{
    words.len() == 6147 && words[0] == 1
}
