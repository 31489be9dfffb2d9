// A call that is read.
ghost use Rattle.std.specs.Prelude.{◌≡◌, false};
ghost use Rattle.journal.specs.Faults.{is_error};

use crate::Request;

// What a line asks, which is no fault: a fault is an error, and never given as a call.
#[derive(Clone, Copy)]
pub struct Call {
    pub request: Request,
    pub ghost no_fault: { is_error request ≡ false },
}
