// The words of a line of the journal, and what a word can be: a name, a number, a day, a month or bytes.
#![tactic(auto)]

mod line; // line.rt: the line without its comment, and its words
mod comments; // comments.rt: the comment of a line, and the reference that is kept of it
mod numbers; // numbers.rt: numbers as words
mod euros; // euros.rt: amounts as words
mod dates; // dates.rt: days and months as words
mod hex; // hex.rt: bytes as hexadecimal digits

pub use comments::reference;
pub use dates::{day_in, month_in, small};
pub use euros::{amount_of, figure_of};
pub use hex::{is_hexadecimal, write_bytes};
pub use line::{Words, content, has_control, is_blank, place_of};
pub use numbers::{natural_of, signed_of, unsigned_of};
