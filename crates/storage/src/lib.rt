// All that touches the outside of a ledger program: the standard streams, the file of a kept journal with its lock, and messages.
#![tactic(auto)]

mod arguments; // arguments.rt: the program's arguments
mod errors; // errors.rt: the system's numbers for errors
mod files; // files.rt: regular files, opened, made and cut
mod handles; // handles.rt: the files that are open, and what is read
mod kept; // kept.rt: the file of a kept journal
mod known; // known.rt: what the system knows of a file
mod locks; // locks.rt: the lock of a kept journal
mod messages; // messages.rt: messages on standard error
mod terminals; // terminals.rt: terminals, and long work shown on one
mod texts; // texts.rt: texts put together, shown and read
mod waiting; // waiting.rt: reads and writes that wait
mod whole; // whole.rt: a whole file, read at once

pub use arguments::{argument, argument_count};
pub use errors::{EBADF, EILSEQ, EINVAL, ENAMETOOLONG};
pub use handles::{Handles, Input};
pub use kept::{Journal, Opened};
pub use known::Identity;
pub use messages::{Stopped, about, about_line, are_streams_open, failed, show_dropped};
pub use terminals::is_terminal;
pub use waiting::{Stream, write_whole};
pub use whole::read_whole;
