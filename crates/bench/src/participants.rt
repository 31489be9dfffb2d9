// A book with 64 participants that have letters.
use book::BookWords;
use calendar::Day;
use file::Position;

// The letter at a position: the first four are in force for the whole calendar, the others lapse one after the other.
fn letter(participant: u8, position: u8) -> Position {
    let (participant, position) = (participant as u64, position as u64);
    let amount = 200000 + 10000 * participant + position;
    let last = if position < 4 {
        29219
    } else {
        5000 * (position - 3) + 50 * participant
    };
    Position::Letter(amount, Day(0), Day(last as u32))
}

// Lodges the letter at a position of a participant.
fn lodge(book: &mut BookWords, participant: u8, position: u8) {
    let letter = letter(participant, position);
    let _ = book::lodge(&mut book.words, participant as u64, position as u64, letter);
}

// The role of a participant: the six in turn, with 0 for 1, which is retired and has the same minimum.
fn role_of(participant: u8) -> u64 {
    match participant % 6 {
        1 => 0,
        role => role as u64,
    }
}

// Admits a participant by its role, and lodges so many letters for it.
fn admit(book: &mut BookWords, participant: u8, letters: u8) {
    let _ = book::admit(&mut book.words, participant as u64, role_of(participant));
    for position in 0..letters {
        lodge(book, participant, position);
    }
}

// A book of day 0 with every participant admitted, the roles in turn, and so many letters lodged for each.
pub fn admitted(letters: u8) -> BookWords {
    let mut book = BookWords::fresh(Day(0));
    for participant in 0..64 {
        admit(&mut book, participant, letters);
    }
    book
}
