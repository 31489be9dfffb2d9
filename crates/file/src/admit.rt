// The file of a participant that isn't admitted, and that of one as it is admitted (paper 01, 'Admit').
ghost use Rattle.std.specs.Prelude.{◌≡◌, ◌≤◌};
ghost use Rattle.file.specs.Admit.{no_file, admitted_file};

use crate::{File, MonthTotal, NextAmount, OpenCall, Position, Slot};
use calendar::{Day, Month};
use manual::minimum::minimum;

impl Slot {
    // A place with nothing in it.
    pub const EMPTY: Slot = Slot {
        position: Position::Empty,
    };
}

impl OpenCall {
    // What stands behind the open calls.
    pub const NONE: OpenCall = OpenCall {
        amount: 0,
        last: Day(0),
    };
}

impl NextAmount {
    // A next amount that isn't set.
    pub const UNSET: NextAmount = NextAmount {
        set: false,
        amount: 0,
    };
}

impl MonthTotal {
    // A place of the ring with nothing in it.
    pub const NONE: MonthTotal = MonthTotal {
        recorded: false,
        month: Month(0),
        total: 0,
    };
}

impl File {
    // The file of a participant that isn't admitted: nothing in it.
    pub fn none() -> File
        ensures { result ≡ no_file }
    {
        File {
            admitted: false,
            leaving: false,
            role: 0,
            firm: 0,
            slots: [Slot::EMPTY; 8],
            calls: [OpenCall::NONE; 4],
            count: 0,
            next: NextAmount::UNSET,
            totals: [MonthTotal::NONE; 16],
            charged: 0,
            accrued: 0,
            made: 0,
        }
    }

    // The file of a participant admitted today: a minimum above 0 is an open call with last free day t + 10.
    #[tactic(auto, unfolding(crate::specs::Admit::admitted_file, crate::specs::Admit::calls_of_admission, crate::specs::Calls::in_places))]
    pub fn admitted(role: u64, today: Day) -> File
        requires { today.0 ≤ 29219 }
        ensures { result ≡ admitted_file today.0 role }
    {
        let mut file = File {
            admitted: true,
            role,
            ..File::none()
        };
        let minimum = minimum(role);
        if 0 < minimum {
            file.calls[0] = OpenCall {
                amount: minimum,
                last: Day(today.0 + 10),
            };
            file.count = 1;
            file.made = 1;
        }
        file
    }
}
