// Why a call is refused.
ghost use Rattle.std.specs.Prelude.{◌≡◌, []};
ghost use Rattle.printing.specs.Written.{followed};
ghost use Rattle.wording.specs.Wording.{cause_text, because, why_refused, of_pair};

use printing::Out;

// Why a call is refused, in one clause; nothing for a number that no cause has.
#[tactic(auto, unfolding(crate::specs::Wording::cause_text, crate::specs::Wording::causes))]
fn cause(n: u32) -> &'static [u8]
    ensures { result.now ≡ cause_text n }
{
    match n {
        1 => b"there is no participant above 63",
        2 => b"the participant is not admitted",
        3 => b"the participant is admitted already",
        4 => b"there is no role above 5",
        5 => b"there is no position above 7",
        6 => b"the position is filled",
        7 => b"the position is empty",
        8 => b"the amount is outside 1 to 10^12 cents",
        9 => b"the letter's days are against the rule",
        10 => b"there are fewer than 5 or more than 16 figures",
        11 => b"a figure, rate, settlement, excess or mark is out of range",
        12 => b"the month does not lie 2 to 14 months before today's",
        13 => b"the call would be a fifth open one",
        14 => b"an annual run is made only from 1 to 10 September",
        15 => b"more is released than is held, or a letter in part",
        16 => b"too little cover would be left",
        17 => b"the day is above 29219, or before today",
        18 => b"a list has fewer than three usable rates",
        19 => b"a list is too long, or two lists differ in length",
        20 => b"the file is too short for its pairs, or has none or over 64",
        21 => b"a part does not begin where the one before it ended",
        22 => b"a part's length is wrong, or its participant stands twice",
        23 => b"role 1, self-supplied, is retired",
        24 => b"deletion is in August and September only, and once",
        25 => b"the participant is under deletion: it has no annual run",
        _ => b"",
    }
}

// A clause behind two blanks, and nothing where there is none.
#[tactic(auto, using(crate::proofs::WordingLaws::because_none, crate::proofs::WordingLaws::because_some))]
fn put_because(out: &mut Out, clause: &[u8])
    ensures { out.new ≡ followed out.old (because clause.now []) }
{
    if !clause.is_empty() {
        out.text(b"  ");
        out.text(clause);
    }
}

// refused N
#[tactic(auto, unfolding(crate::specs::Wording::why_refused))]
pub fn put_refused(out: &mut Out, n: u32)
    ensures { out.new ≡ followed out.old (why_refused n []) }
{
    put_because(out, cause(n))
}

// The pair of a batch.
fn put_of_pair(out: &mut Out, pair: u64)
    ensures { out.new ≡ followed out.old (of_pair pair) }
{
    out.text(b" (pair ");
    out.put(pair);
    out.text(b", counted from 0)")
}

// refused N INDEX
#[tactic(auto, using(crate::proofs::WordingLaws::pair_none, crate::proofs::WordingLaws::pair_some), unfolding(crate::specs::Wording::why_refused))]
pub fn put_refused_pair(out: &mut Out, n: u32, pair: u64)
    ensures { out.new ≡ followed out.old (why_refused n (of_pair pair)) }
{
    let clause = cause(n);
    put_because(out, clause);
    if !clause.is_empty() {
        put_of_pair(out, pair);
    }
}
