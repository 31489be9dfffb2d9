// The picture of a participant's book, and of the market's shortfalls: the pieces of its text.
#![tactic(auto)]

use calendar::Day;

mod places; // places.rt: where a day and an amount stand
mod marks; // marks.rt: a place behind a text, and how a line looks
mod ticks; // ticks.rt: dates on the axis
mod around; // around.rt: what stands around the plot
mod days; // days.rt: the pieces of the days: shaded days, steps and calls

pub use around::{put_foot, put_head};
pub use days::{begin_steps, end_steps, put_call, put_shade, put_step};

// The first day of the axis, how many days it has, and the largest amount, in cents.
#[derive(Clone, Copy)]
pub struct Scale {
    pub first: Day,
    pub days: u32,
    pub most: u64,
}

// Of whom a picture is: of a participant, or of all together.
#[derive(Clone, Copy)]
pub enum Title {
    Participant(u64),
    Market,
}

// An amount that is drawn as steps over the days.
#[derive(Clone, Copy)]
pub enum Line {
    Firm,
    Cover,
    Shortfalls,
}
