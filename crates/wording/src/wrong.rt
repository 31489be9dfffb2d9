// The word of a line that is wrong.
ghost use Rattle.std.specs.Prelude.{◌≡◌, ◌≤◌, length, eqb, []};
ghost use Rattle.words.specs.Bytes.{some};
ghost use Rattle.words.specs.Words.{words as Words·words, apart};
ghost use Rattle.wording.specs.WrongWord.{word_reason, word_fault, goes_wrong, wrong_in, wrong_word, last_from};

use journal::{Reason, Request, parse};
use words::{Words, content, is_blank};

// For how many numbers a beginning of a line has room.
const ROOM: usize = 512;

// The longest line that is looked at.
const MOST: usize = 4096;

// Which of the reasons that are about one word a reason is; 0 for the others.
fn word_reason(why: Reason) -> u8
    ensures { result ≡ word_reason why }
{
    match why {
        Reason::NoCall => 1,
        Reason::TooManyWords => 2,
        Reason::NotNumber => 3,
        Reason::NotDay => 4,
        Reason::NotMonth => 5,
        Reason::NotRole => 6,
        Reason::NotCashOrLetter => 7,
        Reason::NotHex => 8,
        _ => 0,
    }
}

// The same of what a line is.
fn word_fault(request: Request) -> u8
    ensures { result ≡ word_fault request }
{
    match request {
        Request::Error(why) => word_reason(why),
        _ => 0,
    }
}

// Whether no word goes on here.
#[tactic(auto, using(crate::proofs::WordingLaws::apart_none, crate::proofs::WordingLaws::apart_some))]
fn is_apart(text: &[u8]) -> bool
    ensures { result ≡ apart text.now }
{
    text.first().is_none_or(|b| is_blank(*b))
}

// Whether the first n bytes of a text end where no word goes on, and are an error with this reason.
#[tactic(auto, unfolding(crate::specs::WrongWord::goes_wrong))]
fn goes_wrong(why: u8, text: &[u8], n: usize) -> bool
    requires { n ≤ length text.now }
    ensures { result ≡ goes_wrong why text.now n }
{
    let (beginning, rest) = text.split_at(n);
    is_apart(rest) && word_fault(parse(beginning, &mut [0; ROOM])) == why
}

// The last word of a text; nothing where it has none.
#[tactic(auto, unfolding(crate::specs::WrongWord::last_from))]
fn last_word(text: &[u8]) -> &[u8]
    ensures { result.now ≡ last_from [] (Words·words text.now) }
{
    let mut words = Words { text };
    let mut last: &[u8] = &[];
    while let Some(word) = words.next() {
        last = word;
    }
    last
}

// The last word of the shortest beginning of a text that is an error with this reason; nothing where there is none.
fn wrong_in(why: u8, text: &[u8]) -> &[u8]
    ensures { result.now ≡ wrong_in why text.now }
{
    for i in 0..text.len() {
        if goes_wrong(why, text, i + 1) {
            return last_word(&text[..i + 1]);
        }
    }
    &[]
}

// The word of a line that is wrong, where a reason says what is wrong with it.
#[tactic(auto, unfolding(crate::specs::WrongWord::wrong_word))]
pub fn wrong_word(line: &[u8], why: Reason) -> &[u8]
    ensures { result.now ≡ wrong_word why line.now }
{
    let why = word_reason(why);
    if why == 0 || MOST < line.len() {
        return &[];
    }
    wrong_in(why, content(line))
}

// Whether a word has a comma.
#[tactic(auto, using(words::proofs::Scans::some_any))]
pub fn has_comma(word: &[u8]) -> bool
    ensures { result ≡ some (λ b. eqb b 44) word.now }
{
    word.contains(&b',')
}
