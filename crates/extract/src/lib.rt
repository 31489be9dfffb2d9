// The extract of a journal for one participant: its own accepted calls with the advances, and nothing of any other participant.
#![tactic(auto)]

mod naming; // naming.rt: whose file a line changes, and whether it may stand in an extract
mod figures; // figures.rt: the figures of a part of a batch
mod parts; // parts.rt: the part of a batch that is a participant's
mod lines; // lines.rt: the lines of the extract

pub use lines::{participant_in, put_extracted, put_title};
pub use naming::{is_of, named_by};
