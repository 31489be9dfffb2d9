// What made a participant's figures, as lines for people.
#![tactic(auto)]

mod months; // months.rt: a month as people write it
mod entry; // entry.rt: what a line says of a day, and the line
mod openings; // openings.rt: the lines of an opened day
mod calls; // calls.rt: the lines of an accepted call
mod files; // files.rt: a participant's file by value

pub use calls::{newest_call, put_batch_called, put_called};
pub use files::file_of;
pub use openings::put_opened;
