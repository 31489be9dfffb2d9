// The guarantee book, in lent words: 64 files and today (paper 01, 'The calls'). Crate `layout` says which words.
// Kept: the calls but `fresh` take words and ask WellFormed: the C interface lends them anew for each; a view holds only between writes.
#![tactic(auto)]

mod batches;
mod begin;
mod book_words;
mod calls;
mod days;
mod deletions;
mod positions;
mod questions;
mod settlements;
mod view;

pub use batches::load;
pub use begin::fresh;
pub use book_words::BookWords;
pub use calls::{admit, admit_by_old_rule, annual_run};
pub use days::advance;
pub use deletions::delete;
pub use positions::{lodge, release};
pub use questions::{calls_made, is_admitted, role, statement, today};
pub use settlements::settle;
