// Numbers drawn in turn from a linear congruential generator, so that every run makes the same calls. Low bits repeat soon, and are left
// out.
ghost use Rattle.std.specs.Prelude.{◌<◌};

// The number drawn after a number.
fn next(number: u64) -> u64 {
    (number % 2147483648 * 1103515245 + 12345) % 2147483648
}

// The draws after a number, which has the place of the first.
#[derive(Drop)]
pub struct Draws(u64);

impl Draws {
    // The draws after a seed.
    pub fn after(seed: u64) -> Self {
        Draws(seed)
    }
}

impl Iterator for Draws {
    type Item = Draw;

    fn next(&mut self) -> Option<Draw> {
        self.0 = next(self.0);
        Some(Draw(self.0))
    }
}

// The kinds of calls.
#[derive(Clone, Copy)]
pub enum Kind {
    Lodging,
    Release,
    Settlement,
    AnnualRun,
    Admission,
    Statement,
}

// A drawn number, as the call that it stands for.
#[derive(Clone, Copy)]
pub struct Draw(u64);

impl Draw {
    // The participant of a call.
    pub fn participant(self) -> u64 {
        self.0 / 4096 % 64
    }

    // The argument of a call, below 8,192.
    pub fn argument(self) -> u64
        ensures { result < 8192 }
    {
        self.0 / 262144 % 8192
    }

    // The amount of a call: 1,000 to 4,000.
    pub fn amount(self) -> u64 {
        1000 + self.argument() / 8 % 4 * 1000
    }

    // The kind of a call: of eight, two are releases and two settlements.
    pub fn kind(self) -> Kind {
        match next(self.0) / 4096 % 8 {
            0 => Kind::Lodging,
            1 | 2 => Kind::Release,
            3 | 4 => Kind::Settlement,
            5 => Kind::AnnualRun,
            6 => Kind::Admission,
            _ => Kind::Statement,
        }
    }
}
