// The bytes of a line: its comment, its control bytes, and its words.
ghost use Rattle.std.specs.Prelude.{◌≡◌, ◌==◌, position};
ghost use Rattle.std.specs.Iterator.{YieldsFirstRef, item_count};
ghost use Rattle.words.specs.Bytes.{blank, control, some, uncommented};
ghost use Rattle.words.specs.Words.{words, place_of as Words·place_of, blanks_in, solid_in, left};

// Whether a byte is a blank: a space, a tab or a carriage return.
#[tactic(auto, unfolding(crate::specs::Bytes::blank))]
pub fn is_blank(b: u8) -> bool
    ensures { result ≡ blank b }
{
    b == b' ' || b == b'\t' || b == b'\r'
}

// Whether a byte is a control byte that no line may have.
#[tactic(auto, using(crate::proofs::Scans::control_is), unfolding(crate::specs::Bytes::control))]
fn is_control(b: u8) -> bool
    ensures { result ≡ control b }
{
    b.is_ascii_control() && !is_blank(b)
}

// Where a line's comment begins, if it has one.
pub(crate) fn comment_in(line: &[u8]) -> Option<usize>
    ensures { result ≡ position (λ b. b == 35) line.now }
{
    line.iter().position(|b| *b == b'#')
}

// What stands before a line's comment.
#[tactic(auto, using(crate::proofs::Scans::comment_within, crate::proofs::Scans::comment_cut))]
pub fn content(line: &[u8]) -> &[u8]
    ensures { result.now ≡ uncommented line.now }
{
    let end = comment_in(line).unwrap_or(line.len());
    &line[..end]
}

// Whether a text has a control byte that no line may have.
pub fn has_control(s: &[u8]) -> bool
    ensures { result ≡ some control s.now }
{
    s.iter().any(|b| is_control(*b))
}

// How many blanks a text begins with.
pub(crate) fn blanks(s: &[u8]) -> usize
    ensures { result ≡ blanks_in s.now }
{
    s.iter().take_while(|b| is_blank(**b)).count()
}

// How many bytes before its first blank a text has.
fn solid(s: &[u8]) -> usize
    ensures { result ≡ solid_in s.now }
{
    s.iter().take_while(|b| !is_blank(**b)).count()
}

// The words of a text, from the first to the last.
#[derive(Clone, Copy)]
pub struct Words<'a> {
    pub text: &'a [u8],
}

impl<'a> Iterator for Words<'a> {
    type Item = &'a [u8];

    ghost next_gives = { YieldsFirstRef left };

    ghost remaining = { item_count left };

    // The next word; what is left stands behind it.
    fn next(&mut self) -> Option<&'a [u8]> {
        let text = &self.text[blanks(self.text)..];
        let (word, rest) = text.split_at(solid(text));
        self.text = rest;
        if word.is_empty() { None } else { Some(word) }
    }
}

// The place of a word among the words of a text, from 0, where it is one of them.
pub fn place_of(w: &[u8], names: &[u8]) -> Option<usize>
    ensures { result ≡ Words·place_of w.now (words names.now) }
{
    Words { text: names }.position(|name| w == name)
}
