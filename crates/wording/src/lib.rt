// What stands behind an answer for people: why a call is refused, amounts in euros, days as dates, and the word of a line that is wrong.
#![tactic(auto)]

mod wrong; // wrong.rt: the word of a line that is wrong
mod causes; // causes.rt: why a call is refused
mod amounts; // amounts.rt: amounts in euros and days as dates
mod wording; // wording.rt: the wording of each answer

pub use wording::put_wording;
pub use wrong::wrong_word;
