// The comment of a line, and the reference that is kept of it.
ghost use Rattle.std.specs.Prelude.{◌≡◌, ◌≤◌, ◌<◌, ◌-◌, length, slice_index, true, false, ℕ, drop};
ghost use Rattle.words.specs.Bytes.{blank};
ghost use Rattle.words.specs.Comments.{comment_of, trimmed, reference_of};
ghost use Rattle.words.specs.Words.{blanks_in};

use crate::line::{blanks, comment_in, is_blank};

// What stands behind the first `#` of a line; nothing where there is none.
#[tactic(auto, using(crate::proofs::CommentLaws::comment_at, crate::proofs::CommentLaws::comment_none))]
fn comment(line: &[u8]) -> &[u8]
    ensures { result.now ≡ comment_of line.now }
{
    match comment_in(line) {
        Some(at) => &line[at + 1..],
        None => &[],
    }
}

// A text without the blanks that it begins with.
#[tactic(auto, using(crate::proofs::CommentLaws::blanks_within, crate::proofs::CommentLaws::blanks_cut))]
fn behind_blanks(text: &[u8]) -> &[u8]
    ensures { result.now ≡ drop (blanks_in text.now) text.now }
{
    &text[blanks(text)..]
}

// The place behind the last byte of a text that is no blank, or 0.
fn solid_end(text: &[u8]) -> usize
    ensures within { result ≤ length text.now }
    ensures solid { 0 < result → blank (slice_index text.now (result - 1)) ≡ false }
    ensures behind { (k : ℕ) → result ≤ k → k < length text.now → blank (slice_index text.now k) ≡ true }
{
    text.iter()
        .rposition(|b| !is_blank(*b))
        .map_or(0, |last| last + 1)
}

// A text without the blanks at its end.
#[tactic(auto, using(crate::proofs::CommentLaws::trimmed_is))]
fn trimmed(text: &[u8]) -> &[u8]
    ensures { result.now ≡ trimmed text.now }
{
    &text[..solid_end(text)]
}

// The reference of a line: its comment without the blanks before and behind it, at most the first 1,000 bytes.
#[tactic(auto, using(crate::proofs::CommentLaws::first_bytes), unfolding(crate::specs::Comments::reference_of))]
pub fn reference(line: &[u8]) -> &[u8]
    ensures { result.now ≡ reference_of line.now }
{
    let text = behind_blanks(comment(line));
    trimmed(&text[..text.len().min(1000)])
}
