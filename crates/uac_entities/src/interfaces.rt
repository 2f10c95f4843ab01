// The streaming interfaces, from the settings in turn.
ghost use Rattle.std.specs.Prelude.{◌≡◌, false, IfOk, slice_get, unwrap_or};
ghost use Rattle.std.specs.Option.{option_map, option_map_or};
ghost use Rattle.uac_entities.specs.EntityInterfaces as spec;

use crate::entity::{Entity, EntityKind, is_input};
use crate::lists::keep;
use crate::settings::{DeclaredSetting, copy_setting};
use crate::stream::{Setting, SettingList, StreamInterface};
use std::alloc::Global;
use uac_descriptor::NoMemory;

/// The streaming interfaces of these settings, in block order: setting 0 begins one.
pub fn streaming_interfaces_of(
    alloc: Global,
    entities: &[Entity],
    all: &[DeclaredSetting],
) -> Result<Vec<StreamInterface>, NoMemory>
    ensures { IfOk result (λ streams. streams.items ≡ spec.streaming_interfaces_of entities.now all.now) }
{
    let mut streams = Vec::new(alloc);
    for declared in all {
        let stream = streaming_interface_at(alloc, entities, all, declared)?;
        keep(&mut streams, stream)?;
    }
    Ok(streams)
}

// The streaming interface that a setting begins.
#[tactic(auto, unfolding(crate::specs::EntityInterfaces::streaming_interface_at))]
fn streaming_interface_at(
    alloc: Global,
    entities: &[Entity],
    all: &[DeclaredSetting],
    declared: &DeclaredSetting,
) -> Result<Option<StreamInterface>, NoMemory>
    ensures { IfOk result (λ stream. stream ≡ spec.streaming_interface_at entities.now all.now declared.now) }
{
    if declared.setting.number == 0 {
        Ok(Some(streaming_interface_of(alloc, entities, all, declared.interface)?))
    } else {
        Ok(None)
    }
}

#[tactic(auto, unfolding(crate::specs::EntityInterfaces::streaming_interface_of))]
fn streaming_interface_of(
    alloc: Global,
    entities: &[Entity],
    all: &[DeclaredSetting],
    number: u8,
) -> Result<StreamInterface, NoMemory>
    ensures { IfOk result (λ stream. stream ≡ spec.streaming_interface_of entities.now all.now number) }
{
    let settings = settings_of(alloc, all, number)?;
    let terminal = first_link(settings.as_slice());
    Ok(StreamInterface {
        number,
        terminal,
        out: is_input_terminal(kind_of(entities, terminal)),
        settings,
    })
}

// The settings of one interface.
fn settings_of(alloc: Global, all: &[DeclaredSetting], number: u8) -> Result<SettingList, NoMemory>
    ensures { IfOk result (λ settings. settings ≡ spec.settings_of all.now number) }
{
    let mut settings = Vec::new(alloc);
    for declared in all {
        let setting = setting_on_interface(number, declared);
        keep(&mut settings, setting)?;
    }
    Ok(SettingList::from_vec(settings))
}

#[tactic(auto, unfolding(crate::specs::EntityInterfaces::setting_on_interface))]
fn setting_on_interface(number: u8, declared: &DeclaredSetting) -> Option<Setting>
    ensures { result ≡ spec.setting_on_interface number declared.now }
{
    if declared.interface == number {
        Some(copy_setting(&declared.setting))
    } else {
        None
    }
}

// The first terminal that a setting links to, 0 where none does.
fn first_link(settings: &[Setting]) -> u8
    ensures { result ≡ unwrap_or (slice_get (spec.links_of settings.now) 0) 0 }
{
    for setting in settings {
        if let Some(link) = link_of(setting) {
            return link;
        }
    }
    0
}

/// The terminal that a setting links to.
#[tactic(auto, unfolding(crate::specs::EntityInterfaces::link_of))]
pub fn link_of(setting: &Setting) -> Option<u8>
    ensures { result ≡ spec.link_of setting.now }
{
    match &setting.general {
        Some(g) => Some(g.link),
        None => None,
    }
}

// The kind of the first entity with this id.
#[tactic(auto, unfolding(crate::specs::EntityInterfaces::entity_by_id))]
fn kind_of(entities: &[Entity], id: u8) -> Option<EntityKind>
    ensures { result ≡ option_map (λ e. e.kind) (spec.entity_by_id entities.now id) }
{
    for entity in entities {
        if entity.id == id {
            return Some(entity.kind);
        }
    }
    None
}

fn is_input_terminal(kind: Option<EntityKind>) -> bool
    ensures { result ≡ option_map_or spec.is_input kind false }
{
    match kind {
        Some(kind) => is_input(kind),
        None => false,
    }
}
