// The requests that there are.
ghost use Rattle.std.specs.Prelude.{◌≡◌, IfSome, None, true};
ghost use Rattle.uac_request.specs.Owners.{IsAsked};
ghost use Rattle.uac_request.specs.Requests.{breaks_q1};

use crate::setup::Setup;

/// A request that is answered: to a control (Audio Class 2.0, A.14), or of the standard's own (USB 2.0, 9.4).
#[derive(Clone, Copy, PartialEq, Eq, Debug)]
pub(crate) enum Request {
    GetCur,
    GetRange,
    SetCur,
    GetDescriptor,
    GetInterface,
    SetInterface,
}

/// The request that bmRequestType and bRequest name, None where they name none of these.
#[tactic(auto, unfolding(crate::specs::Requests::breaks_q1))]
pub(crate) fn request_of(setup: &Setup) -> Option<Request>
    ensures known { IfSome result (λ request. IsAsked request setup.now) }
    ensures unknown { result ≡ None → breaks_q1 setup.now ≡ true }
{
    match (setup.request_type, setup.request) {
        (0xA1, 0x01) => Some(Request::GetCur),
        (0xA1, 0x02) => Some(Request::GetRange),
        (0x21, 0x01) => Some(Request::SetCur),
        (0x80, 0x06) => Some(Request::GetDescriptor),
        (0x81, 0x0A) => Some(Request::GetInterface),
        (0x01, 0x0B) => Some(Request::SetInterface),
        _ => None,
    }
}
