// What a user of the book asks beside the papers' questions: each is answered from the book's words and leaves them as they were.
#![tactic(auto)]

mod releases;

pub use releases::releasable;
