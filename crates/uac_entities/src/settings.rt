// The settings in turn, each with its own blocks.
ghost use Rattle.std.specs.Prelude.{◌≡◌, length, slice_get, IfOk};
ghost use Rattle.uac_descriptor.specs.declared.block.Block.TheVariants as row;
ghost use Rattle.uac_entities.specs.EntitySettings as spec;

use crate::lists::keep;
use crate::stream::Setting;
use std::alloc::Global;
use uac_descriptor::classes::is_streaming_interface;
use uac_descriptor::{Block, Endpoint, General, Interface, NoMemory, TypeOne};

/// One setting of a streaming interface, with what its interface block says of it.
#[derive(Drop)]
pub struct DeclaredSetting {
    /// bInterfaceNumber
    pub interface: u8,
    /// bNumEndpoints
    pub endpoint_count: u8,
    /// How many endpoint blocks stand after it.
    pub endpoints: usize,
    pub setting: Setting,
}

/// The settings of the streaming interfaces, in block order.
pub fn declared_settings(alloc: Global, blocks: &[Block]) -> Result<Vec<DeclaredSetting>, NoMemory>
    ensures { IfOk result (λ all. all.items ≡ spec.declared_settings blocks.now) }
{
    let mut all = Vec::new(alloc);
    for (index, block) in blocks.iter().enumerate() {
        if let Block::Interface(interface) = block {
            let declared = declared_setting_at(interface, &blocks[index + 1..]);
            keep(&mut all, declared)?;
        }
    }
    Ok(all)
}

// The setting that the interface begins if it is a streaming interface, with all that stands after it.
#[tactic(auto, unfolding(crate::specs::EntitySettings::declared_setting_at))]
fn declared_setting_at(interface: &Interface, following: &[Block]) -> Option<DeclaredSetting>
    ensures { result ≡ spec.declared_setting_at (row.Interface interface.now) following.now }
{
    if is_streaming_interface(interface) {
        Some(declared_setting_of(interface, following))
    } else {
        None
    }
}

fn declared_setting_of(interface: &Interface, following: &[Block]) -> DeclaredSetting
    ensures { result ≡ spec.declared_setting_of interface.now following.now }
{
    DeclaredSetting {
        interface: interface.number,
        endpoint_count: interface.endpoints,
        endpoints: endpoints_following(following),
        setting: Setting {
            number: interface.setting,
            general: general_following(following),
            format: format_following(following),
            first: endpoint_following(following, 0),
            second: endpoint_following(following, 1),
        },
    }
}

// The first general block of the setting.
fn general_following(blocks: &[Block]) -> Option<General>
    ensures { result ≡ slice_get (spec.own spec.general_of blocks.now) 0 }
{
    for block in blocks {
        if ends_setting(block) {
            return None;
        }
        if let Some(general) = general_of(block) {
            return Some(general);
        }
    }
    None
}

// The first Type I format of the setting.
fn format_following(blocks: &[Block]) -> Option<TypeOne>
    ensures { result ≡ slice_get (spec.own spec.format_of blocks.now) 0 }
{
    for block in blocks {
        if ends_setting(block) {
            return None;
        }
        if let Some(format) = format_of(block) {
            return Some(format);
        }
    }
    None
}

// The endpoint after so many others, of the setting.
fn endpoint_following(blocks: &[Block], others: usize) -> Option<Endpoint>
    ensures { result ≡ slice_get (spec.own spec.endpoint_of blocks.now) others }
{
    let mut left = others;
    for block in blocks {
        if ends_setting(block) {
            return None;
        }
        if let Some(endpoint) = endpoint_of(block) {
            if left == 0 {
                return Some(endpoint);
            }
            left -= 1;
        }
    }
    None
}

// How many endpoints there are of the setting.
fn endpoints_following(blocks: &[Block]) -> usize
    ensures { result ≡ length (spec.own spec.endpoint_of blocks.now) }
{
    let mut count = 0;
    for block in blocks {
        if ends_setting(block) {
            return count;
        }
        if endpoint_of(block).is_some() {
            count += 1;
        }
    }
    count
}

// Another interface, or the association in front of another function's blocks.
#[tactic(auto, unfolding(crate::specs::EntitySettings::ends_setting))]
fn ends_setting(block: &Block) -> bool
    ensures { result ≡ spec.ends_setting block.now }
{
    matches!(block, Block::Interface(_) | Block::Association(_))
}

#[tactic(auto, unfolding(crate::specs::EntitySettings::general_of))]
fn general_of(block: &Block) -> Option<General>
    ensures { result ≡ spec.general_of block.now }
{
    if let Block::General(g) = block {
        Some(copy_general(g))
    } else {
        None
    }
}

#[tactic(auto, unfolding(crate::specs::EntitySettings::format_of))]
fn format_of(block: &Block) -> Option<TypeOne>
    ensures { result ≡ spec.format_of block.now }
{
    if let Block::TypeOne(t) = block {
        Some(copy_format(t))
    } else {
        None
    }
}

#[tactic(auto, unfolding(crate::specs::EntitySettings::endpoint_of))]
fn endpoint_of(block: &Block) -> Option<Endpoint>
    ensures { result ≡ spec.endpoint_of block.now }
{
    if let Block::Endpoint(e) = block {
        Some(copy_endpoint(e))
    } else {
        None
    }
}

fn copy_general(g: &General) -> General
    ensures { result ≡ g.now }
{
    General {
        link: g.link,
        controls: g.controls,
        format_type: g.format_type,
        formats: g.formats,
        channels: g.channels,
        locations: g.locations,
        names: g.names,
    }
}

fn copy_format(t: &TypeOne) -> TypeOne
    ensures { result ≡ t.now }
{
    TypeOne {
        subslot: t.subslot,
        bits: t.bits,
    }
}

fn copy_endpoint(e: &Endpoint) -> Endpoint
    ensures { result ≡ e.now }
{
    Endpoint {
        address: e.address,
        attributes: e.attributes,
        max_packet: e.max_packet,
        interval: e.interval,
    }
}

/// A setting of its own, with the same fields.
pub(crate) fn copy_setting(s: &Setting) -> Setting
    ensures { result ≡ s.now }
{
    let general = match &s.general {
        Some(g) => Some(copy_general(g)),
        None => None,
    };
    let format = match &s.format {
        Some(t) => Some(copy_format(t)),
        None => None,
    };
    Setting {
        number: s.number,
        general,
        format,
        first: copy_optional(&s.first),
        second: copy_optional(&s.second),
    }
}

fn copy_optional(endpoint: &Option<Endpoint>) -> Option<Endpoint>
    ensures { result ≡ endpoint.now }
{
    match endpoint {
        Some(e) => Some(copy_endpoint(e)),
        None => None,
    }
}
