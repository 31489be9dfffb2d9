// The book as words: a file as 97 words and back, and the place of each in the words of a book.
#![tactic(auto)]

pub mod files;
pub mod parts;
pub mod rows;
