// The transfers of an element, and what any transfer makes of an element.
ghost use Rattle.std.specs.Prelude.{◌≡◌, ◌≤◌, ℕ, List, length, map, Some};
ghost use Rattle.std.specs.List.{All};
ghost use Rattle.std.specs.Int.{w32};
ghost use Rattle.std.specs.Int.RustNames.{FitsSigned};
ghost use Rattle.uac_request.specs.Requests.{is_done, with_bytes};
ghost use Rattle.uac_mixer.specs.ViewTransfers as spec;
ghost use Rattle.uac_mixer.specs.ViewTransfers.{came_of};
ghost use Rattle.uac_mixer.specs.MixerElements.{width_of};
ghost use Rattle.uac_mixer.specs.Readable as readable;
ghost use Rattle.uac_mixer.specs.Readable.{IsReadable};

use crate::element::Element;
use crate::link::Broken;
use uac_request::bytes::value_from;
use uac_request::{Answer, Setup, key_named, low_byte, two_byte_number};

/// bmRequestType of a request to a control, from the host (Audio Class 2.0, 5.2.1).
pub(crate) const SET: u8 = 0x21;

/// bmRequestType of a request to a control, to the host.
pub(crate) const GET: u8 = 0xA1;

/// bRequest of a control's current value (Audio Class 2.0, A.14).
const CUR: u8 = 0x01;

/// A request for the current value of an element, on the control interface with this number.
pub(crate) fn element_setup(request_type: u8, control: u8, element: Element) -> Setup
    ensures { result ≡ spec.element_setup request_type control element }
{
    Setup {
        request_type,
        request: CUR,
        value: two_byte_number(element.key.channel, element.key.selector),
        index: two_byte_number(control, element.key.entity),
        length: u16::from(element.kind.width()),
    }
}

/// Whether a transfer sets or gets a control of the interface with this number, whichever it names.
#[tactic(auto, unfolding(crate::specs::Readable::is_for_any))]
pub(crate) fn is_for_any(control: u8, setup: &Setup) -> bool
    ensures { result ≡ readable.is_for_any control setup.now }
{
    (setup.request_type == SET || setup.request_type == GET)
        && setup.request == CUR
        && low_byte(setup.index) == control
}

/// What a transfer, of which this came back, makes of each element.
pub(crate) fn follow_all(
    elements: &mut [Element],
    control: u8,
    setup: &Setup,
    sent: &[u8],
    came: &Result<Answer, Broken>,
)
    requires { All (IsReadable control setup.now sent.now (came_of came.now)) elements.old }
    ensures { elements.new ≡ map (spec.element_after control setup.now sent.now (came_of came.now)) elements.old }
{
    for element in elements.iter_mut() {
        follow_one(element, control, setup, sent, came);
    }
}

/// What it makes of one element.
pub(crate) fn follow_one(
    element: &mut Element,
    control: u8,
    setup: &Setup,
    sent: &[u8],
    came: &Result<Answer, Broken>,
)
    requires { IsReadable control setup.now sent.now (came_of came.now) element.old }
    ensures { element.new ≡ spec.element_after control setup.now sent.now (came_of came.now) element.old }
{
    element.value = value_after(control, setup, sent, came, element);
}

// The value of an element after a transfer.
#[tactic(auto, unfolding(crate::specs::ViewTransfers::value_after))]
fn value_after(
    control: u8,
    setup: &Setup,
    sent: &[u8],
    came: &Result<Answer, Broken>,
    element: &Element,
) -> Option<i32>
    requires { IsReadable control setup.now sent.now (came_of came.now) element.now }
    ensures { result ≡ spec.value_after control setup.now sent.now (came_of came.now) element.now }
{
    if is_for(SET, control, setup, element) {
        after_set(element, sent, came)
    } else if is_for(GET, control, setup, element) {
        after_get(element, came)
    } else {
        element.value
    }
}

// Whether a transfer is a request of this type for the current value of an element.
#[tactic(auto, unfolding(crate::specs::ViewTransfers::is_for))]
fn is_for(request_type: u8, control: u8, setup: &Setup, element: &Element) -> bool
    ensures { result ≡ spec.is_for request_type control setup.now element.now }
{
    setup.request_type == request_type
        && setup.request == CUR
        && low_byte(setup.index) == control
        && element.key == key_named(setup)
}

// A set that is done gives its value, and one that broke leaves it unknown.
fn after_set(element: &Element, sent: &[u8], came: &Result<Answer, Broken>) -> Option<i32>
    requires short { came_of came.now ≡ Some is_done → length sent.now ≤ 4 }
    requires fits { came_of came.now ≡ Some is_done → FitsSigned w32 (spec.value_in element.now sent.now) }
    ensures { result ≡ spec.after_set element.now sent.now (came_of came.now) }
{
    match came {
        Ok(Answer::Done) => Some(value_in(element, sent)),
        Ok(Answer::Bytes(_) | Answer::Descriptor { .. } | Answer::Stall(_)) => element.value,
        Err(_) => None,
    }
}

// A get that is answered with all bytes of the control gives their value.
fn after_get(element: &Element, came: &Result<Answer, Broken>) -> Option<i32>
    requires { (bytes : List ℕ) → came_of came.now ≡ Some (with_bytes bytes) → length bytes ≡ width_of element.now.kind
        → FitsSigned w32 (spec.value_in element.now bytes) }
    ensures { result ≡ spec.after_get element.now (came_of came.now) }
{
    match came {
        Ok(Answer::Bytes(reply)) if reply.len() == usize::from(element.kind.width()) => {
            Some(value_in(element, reply.as_slice()))
        }
        Ok(Answer::Bytes(_) | Answer::Descriptor { .. } | Answer::Done | Answer::Stall(_)) => {
            element.value
        }
        Err(_) => element.value,
    }
}

// The value that bytes are of an element.
fn value_in(element: &Element, bytes: &[u8]) -> i32
    requires short { length bytes.now ≤ 4 }
    requires fits { FitsSigned w32 (spec.value_in element.now bytes.now) }
    ensures { result ≡ spec.value_in element.now bytes.now }
{
    value_from(element.kind.is_gain(), bytes) as i32
}
