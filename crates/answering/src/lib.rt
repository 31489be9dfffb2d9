// What one line of the journal gives: the call that it is, made on the book, and its answer.
#![tactic(auto)]

mod shown; // shown.rt: the answers of the book's calls as answers of the journal
mod rows; // rows.rt: what a rule makes of numbers in a row
mod guarantee; // guarantee.rt: the special guarantee of lists in a row
mod batches; // batches.rt: a batch whose bytes stand as numbers in a row
mod questions; // questions.rt: the questions that are none of the papers' calls
mod calls; // calls.rt: the application of one call
mod kept; // kept.rt: what a kept journal takes
mod requests; // requests.rt: the request that a line of an input is

pub use calls::{apply, apply_by_old_rule};
pub use kept::{is_change, is_kept, is_refusal, is_role_retired, put_kept};
pub use requests::request_of;
pub use rows::put_made;
