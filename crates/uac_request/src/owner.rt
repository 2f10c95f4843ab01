// What keeps a control.
ghost use Rattle.std.specs.Prelude.{◌≡◌, ◌==◌, None, Some, if◌then◌else◌};
ghost use Rattle.std.specs.Option.{option_map};
ghost use Rattle.uac_request.specs.Owners as owners;
ghost use Rattle.uac_request.specs.Requests as spec;

use crate::setup::{high_byte, low_byte};
use uac_entities::number_among;
use uac_topology::{Entity, Function, StreamInterface};

/// What keeps a request's control: an entity, or a streaming interface.
#[derive(Clone, Copy)]
pub(crate) enum Owner<'a> {
    Entity(&'a Entity),
    Interface(&'a StreamInterface),
}

/// What keeps the controls that wIndex names: on the control interface an entity, on a streaming interface that, where
/// no entity is named (Audio Class 2.0, 5.2.2).
#[tactic(auto, unfolding(crate::specs::Requests::owner_of))]
pub(crate) fn owner_of(function: &Function, index: u16) -> Option<Owner<'_>>
    ensures { option_map owners.owner_fields result ≡ spec.owner_of function.now index }
{
    if low_byte(index) == function.control_interface() {
        function.entity(high_byte(index)).map(Owner::Entity)
    } else if high_byte(index) == 0 {
        function.interface(low_byte(index)).map(Owner::Interface)
    } else {
        None
    }
}

/// Whether the audio function has an interface of this number.
pub(crate) fn has_interface(function: &Function, number: u16) -> bool
    ensures { result ≡ spec.has_interface function.now number }
{
    number == u16::from(function.control_interface())
        || function.interface_numbered(number).is_some()
}

/// A number as that of an interface of the audio function, None where it has no such interface.
#[tactic(auto, using(crate::proofs::FunctionInterfaceLemmas::number_found))]
pub(crate) fn interface_named(function: &Function, number: u16) -> Option<u8>
    ensures { result ≡ (if spec.has_interface function.now number then Some number else None) }
{
    if number == u16::from(function.control_interface()) {
        return Some(function.control_interface());
    }
    match function.interface_numbered(number) {
        Some(stream) => Some(stream.number),
        None => None,
    }
}

/// A number as that of a setting of an interface, None where it has no such setting; the control interface has 0 alone.
#[tactic(auto, unfolding(crate::specs::Requests::has_setting))]
pub(crate) fn setting_named(function: &Function, interface: u8, number: u16) -> Option<u8>
    ensures { result ≡ (if spec.has_setting function.now interface number then Some number else None) }
{
    if interface == function.control_interface() {
        return if number == 0 { Some(0) } else { None };
    }
    let stream = function.interface(interface)?;
    number_among(stream.settings.as_slice(), number)
}
