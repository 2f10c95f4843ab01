// What a knob asks of its device.
ghost use Rattle.std.specs.Prelude.{◌≡◌, ◌≤◌, unwrap_or};
ghost use Rattle.uac_request.specs.RequestElements.{set_of, width_at};
ghost use Rattle.uac_request.specs.Requests.{entity_width};

use uac_request::{Setup, two_byte_number};
use uac_store::Key;
use uac_store::controls::facts_at;
use uac_topology::{EntityKind, Function};

/// bmRequestType of a request that sets a control (Audio Class 2.0, 5.2.1).
const SET: u8 = 0x21;

/// bRequest of a control's current value (Audio Class 2.0, A.14).
const CUR: u8 = 0x01;

/// The request that sets the control with a key.
#[tactic(auto, unfolding(uac_request::specs::RequestElements::set_of, uac_request::specs::RequestElements::get_of))]
pub(crate) fn knob_setup(function: &Function, key: Key) -> Setup
    ensures { result ≡ set_of function.now key }
{
    Setup {
        request_type: SET,
        request: CUR,
        value: two_byte_number(key.channel, key.selector),
        index: two_byte_number(function.control_interface(), key.entity),
        length: u16::from(width_at(function, key)),
    }
}

/// The bytes of the control with a key; 0 where there is none.
pub(crate) fn width_at(function: &Function, key: Key) -> u8
    ensures value { result ≡ width_at function.now.entities key }
    ensures few { result ≤ 6 }
{
    match function.entity(key.entity) {
        Some(entity) => width_on(entity.kind, key.selector),
        None => 0,
    }
}

// The bytes of the control that a selector names; 0 where it names none.
fn width_on(kind: EntityKind, selector: u8) -> u8
    ensures value { result ≡ unwrap_or (entity_width kind selector) 0 }
    ensures few { result ≤ 6 }
{
    match facts_at(kind, selector) {
        Some(facts) => facts.width,
        None => 0,
    }
}
