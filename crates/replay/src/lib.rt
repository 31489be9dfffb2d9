// A whole list of calls, given as words in lent slices, made in turn on a fresh book: the claim about all histories, as one function's contract.
#![tactic(auto)]

mod apply;
mod call;
mod encoded;
mod history;

pub use call::clipped;
pub use history::replay;
