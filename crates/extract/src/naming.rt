// Whose file a line changes, and whether a line may stand in a participant's extract.
ghost use Rattle.std.specs.Prelude.{◌≡◌};
ghost use Rattle.extract.specs.Lines.{named_by, names, stays, stands_for};

use journal::Request;

// The participant whose file a request would change, if it names one.
pub fn named_by(request: Request) -> Option<u64>
    ensures { result ≡ named_by request }
{
    match request {
        Request::Admit(p, _)
        | Request::LodgeCash(p, _, _)
        | Request::LodgeLetter(p, _, _, _, _)
        | Request::Release(p, _, _)
        | Request::Settle(p, _, _)
        | Request::Annual(p)
        | Request::Delete(p) => Some(p),
        _ => None,
    }
}

// Whether a name is a participant's.
fn names(participant: u64, named: Option<u64>) -> bool
    ensures { result ≡ names participant named }
{
    match named {
        Some(p) => p == participant,
        None => false,
    }
}

// Whether an accepted line stays in a participant's extract as it is.
pub fn stays(participant: u64, request: Request) -> bool
    ensures { result ≡ stays participant request }
{
    match request {
        Request::Fresh(_) | Request::Advance(..) | Request::RoleRetired => true,
        _ => names(participant, named_by(request)),
    }
}

// Whether a line may stand in a participant's extract.
pub fn is_of(request: Request, participant: u64) -> bool
    ensures { result ≡ stands_for participant request }
{
    match request {
        Request::Nothing => true,
        Request::Statement(p) => p == participant,
        _ => stays(participant, request),
    }
}
