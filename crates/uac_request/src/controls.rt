// The controls of entities and of streaming interfaces, as their descriptors declare them.
ghost use Rattle.std.specs.Prelude.{◌≡◌, ◌≤◌, IfSome, is_some, true};
ghost use Rattle.std.specs.List.{filter_map, find};
ghost use Rattle.std.specs.Option.{option_map};
ghost use Rattle.uac_request.specs.Owners.{owner_fields};
ghost use Rattle.uac_request.specs.Requests as spec;
ghost use Rattle.uac_request.specs.Requests.{by_entity};

use crate::declared::{is_declared_on, is_writable_on};
use crate::owner::Owner;
use uac_descriptor::General;
use uac_store::controls::facts_at;
use uac_store::selectors::{AS_ACT_ALT_SETTING_CONTROL, AS_VAL_ALT_SETTINGS_CONTROL};
use uac_topology::{Entity, EntityKind, Setting, StreamInterface};

/// A control of a streaming interface (Audio Class 2.0, 5.2.6 and A.17.11).
#[derive(Clone, Copy, PartialEq, Eq, Debug)]
pub enum StreamControl {
    /// The setting that is active.
    ActiveSetting,
    /// The settings that are valid.
    ValidSettings,
}

/// The control of a streaming interface that a selector names, None where there is none (Audio Class 2.0, A.17.11).
pub(crate) fn stream_control_of(selector: u8) -> Option<StreamControl>
    ensures value { result ≡ spec.stream_control_of selector }
    ensures some { IfSome result (λ control. 1 ≤ selector) }
    ensures low { IfSome result (λ control. selector ≤ 2) }
{
    match selector {
        AS_ACT_ALT_SETTING_CONTROL => Some(StreamControl::ActiveSetting),
        AS_VAL_ALT_SETTINGS_CONTROL => Some(StreamControl::ValidSettings),
        _ => None,
    }
}

/// The bytes of the control with a selector, None where there is none (Audio Class 2.0, 5.2.5).
pub(crate) fn width_of(owner: Owner<'_>, selector: u8) -> Option<u8>
    ensures value { result ≡ spec.width_of (owner_fields owner.entry) selector }
    ensures narrow { IfSome result (λ width. width ≤ 6) }
    ensures some { IfSome result (λ width. 1 ≤ selector) }
    ensures low { IfSome result (λ width. selector ≤ 2) }
{
    match owner {
        Owner::Entity(entity) => entity_width(entity.kind, selector),
        Owner::Interface(stream) => stream_width(stream, selector),
    }
}

/// The bytes of an entity's control (Audio Class 2.0, 5.2.5.1 to 5.2.5.8).
pub(crate) fn entity_width(kind: EntityKind, selector: u8) -> Option<u8>
    ensures value { result ≡ spec.entity_width kind selector }
    ensures narrow { IfSome result (λ width. width ≤ 6) }
    ensures some { IfSome result (λ width. 1 ≤ selector) }
    ensures low { IfSome result (λ width. selector ≤ 2) }
{
    let facts = facts_at(kind, selector)?;
    Some(facts.width)
}

// The bytes of a streaming interface's control (Audio Class 2.0, 5.2.6).
fn stream_width(stream: &StreamInterface, selector: u8) -> Option<u8>
    ensures value { result ≡ spec.stream_width stream.now selector }
    ensures narrow { IfSome result (λ width. width ≤ 6) }
    ensures some { IfSome result (λ width. 1 ≤ selector) }
    ensures low { IfSome result (λ width. selector ≤ 2) }
{
    match stream_control_of(selector)? {
        StreamControl::ActiveSetting => Some(1),
        StreamControl::ValidSettings => Some(1 + map_bytes(stream)),
    }
}

/// The bytes of the map of an interface's valid settings.
pub(crate) fn map_bytes(stream: &StreamInterface) -> u8
    ensures value { result ≡ spec.map_bytes stream.now }
    ensures few { result ≤ 2 }
{
    if stream.settings.as_slice().len() <= 8 {
        1
    } else {
        2
    }
}

/// Whether the control answers RANGE (Audio Class 2.0, 5.2.1).
pub(crate) fn has_range(owner: Owner<'_>, selector: u8) -> bool
    ensures { result ≡ spec.has_range (owner_fields owner.entry) selector }
{
    match owner {
        Owner::Entity(entity) => entity_range(entity.kind, selector),
        Owner::Interface(_) => false,
    }
}

fn entity_range(kind: EntityKind, selector: u8) -> bool
    ensures { result ≡ spec.entity_range kind selector }
{
    match facts_at(kind, selector) {
        Some(facts) => facts.ranged,
        None => false,
    }
}

/// Whether the control is declared: its bits aren't 00, and every node of a mixer is (Audio Class 2.0, 4.7.2).
pub(crate) fn is_declared(owner: Owner<'_>, selector: u8, channel: u8) -> bool
    requires { selector ≤ 2 }
    ensures { result ≡ spec.is_declared (owner_fields owner.entry) selector channel }
{
    match owner {
        Owner::Entity(entity) => is_declared_on(entity, selector, channel),
        Owner::Interface(stream) => stream_bits(stream, selector) != 0,
    }
}

/// The entity whose control a host may set, None where that can only be read: its bits are 11, or a node's bit is 1.
/// The validity of a clock and the controls of terminals and of interfaces can only be read, whatever their bits say.
pub(crate) fn writable_entity<'a>(owner: Owner<'a>, selector: u8, channel: u8) -> Option<&'a Entity>
    requires { selector ≤ 2 }
    ensures value { is_some result ≡ spec.is_writable (owner_fields owner.entry) selector channel }
    ensures of_entity { IfSome result (λ entity. owner_fields owner.entry ≡ by_entity entity.now) }
{
    match owner {
        Owner::Entity(entity) if is_writable_on(entity, selector, channel) => Some(entity),
        Owner::Entity(_) | Owner::Interface(_) => None,
    }
}

// The two bits of a streaming interface's control in its word (Audio Class 2.0, 4.9.2), 00 where there is none.
fn stream_bits(stream: &StreamInterface, selector: u8) -> u8
    ensures { result ≡ spec.stream_bits stream.now selector }
{
    match stream_control_of(selector) {
        Some(StreamControl::ActiveSetting) => stream_word(stream) % 4,
        Some(StreamControl::ValidSettings) => stream_word(stream) / 4 % 4,
        None => 0,
    }
}

// The word of an interface's controls, told by its first general block; 0 without one.
fn stream_word(stream: &StreamInterface) -> u8
    ensures { result ≡ spec.stream_word stream.now }
{
    match first_general(stream.settings.as_slice()) {
        Some(general) => general.controls,
        None => 0,
    }
}

fn first_general(settings: &[Setting]) -> Option<&General>
    ensures { option_map (λ g. g.now) result ≡ find (λ g. true) (filter_map (λ t. t.general) settings.now) }
{
    for setting in settings {
        if let Some(general) = &setting.general {
            return Some(general);
        }
    }
    None
}
