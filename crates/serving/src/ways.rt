// The ways to take the lines of an input, and the place before its first line.
ghost use Rattle.std.specs.Prelude.{◌≡◌, true, false};
ghost use Rattle.dialogue.specs.Dialogue.{replaying as Dialogue·replaying};
ghost use Rattle.serving.specs.Ways.{at_start, filter_way, behind_replay};

use dialogue::{Place, Way};

// Before the first line, where so many calls are kept and the first stretch of the journal lasts, or not.
pub fn at_start(kept: u64, early: bool) -> Place
    ensures { result ≡ at_start kept early }
{
    Place {
        line: 0,
        refused: 0,
        kept,
        long: false,
        early,
    }
}

// As a filter: nothing is kept.
pub fn filtering(bails: bool) -> Way
    ensures { result ≡ filter_way bails }
{
    Way {
        keeps: false,
        reads: false,
        torn: false,
        bails,
        gathers: true,
        replays: false,
        words: false,
        csv: false,
    }
}

// Behind the replay of a journal: it is kept, or only read.
pub fn behind_replay(reads: bool, bails: bool, gathers: bool) -> Way
    ensures { result ≡ behind_replay reads bails gathers }
{
    Way {
        keeps: !reads,
        reads,
        torn: false,
        bails,
        gathers,
        replays: false,
        words: false,
        csv: false,
    }
}

// As a journal is replayed.
pub fn replaying() -> Way
    ensures { result ≡ Dialogue·replaying }
{
    Way {
        keeps: true,
        reads: false,
        torn: false,
        bails: true,
        gathers: true,
        replays: true,
        words: false,
        csv: false,
    }
}
