// What a block is to the order of the descriptor.
ghost use Rattle.std.specs.Prelude.{◌≡◌, ◌≤◌, length};
ghost use Rattle.uac_grammar_rules.specs.BlockRole.{
  role_of,
  whole_role,
  interface_role,
  is_device,
  has_unknown_subtype,
  is_ordered_type,
  is_known_subtype,
  is_class_type,
};

use uac_descriptor::classes::{
    DEVICE_LENGTH, is_audio_association, is_control_interface, is_streaming_interface,
};
use uac_descriptor::codes::{
    CLOCK_MULTIPLIER, CLOCK_SOURCE, CONFIGURATION, CS_ENDPOINT, CS_INTERFACE, DEVICE, EFFECT_UNIT,
    ENDPOINT, HEADER, INTERFACE, INTERFACE_ASSOCIATION,
};
use uac_descriptor::{Association, Block, Interface};

/// What a block is to the order of the descriptor, in which only some of its fields count.
#[derive(Clone, Copy, Debug)]
pub enum BlockRole {
    /// A device descriptor.
    Device,
    Configuration,
    /// The interface association of an audio function of this version.
    AudioAssociation,
    /// Any other interface association.
    ForeignAssociation,
    ControlInterface,
    StreamingInterface,
    /// Any other interface.
    ForeignInterface,
    Endpoint,
    Header,
    /// A terminal, a unit or a clock entity.
    Entity,
    General,
    TypeOne,
    /// Another class block of a streaming interface.
    Extra,
    ClassEndpoint,
    /// A block of a type that audio has no rule for.
    Other,
    /// A class block whose subtype is none of this profile.
    UnknownSubtype,
    /// A block that stands nowhere but in a foreign part.
    Stray,
}

impl BlockRole {
    /// The role of a block.
    pub fn of(block: &Block) -> BlockRole
        ensures { result ≡ role_of block.now }
    {
        match block {
            Block::Configuration(_) => BlockRole::Configuration,
            Block::Association(association) => {
                if is_audio_association(association) {
                    BlockRole::AudioAssociation
                } else {
                    BlockRole::ForeignAssociation
                }
            }
            Block::Interface(interface) => interface_role(interface),
            Block::Endpoint(_) => BlockRole::Endpoint,
            Block::Header(_) => BlockRole::Header,
            Block::InputTerminal(_) => BlockRole::Entity,
            Block::OutputTerminal(_) => BlockRole::Entity,
            Block::Mixer(_) => BlockRole::Entity,
            Block::Selector(_) => BlockRole::Entity,
            Block::Feature(_) => BlockRole::Entity,
            Block::Effect(_) => BlockRole::Entity,
            Block::ClockSource(_) => BlockRole::Entity,
            Block::ClockSelector(_) => BlockRole::Entity,
            Block::ClockMultiplier(_) => BlockRole::Entity,
            Block::General(_) => BlockRole::General,
            Block::TypeOne(_) => BlockRole::TypeOne,
            Block::Extra(_) => BlockRole::Extra,
            Block::ClassEndpoint(_) => BlockRole::ClassEndpoint,
            Block::Foreign(foreign) => whole_role(foreign.bytes.as_slice()),
        }
    }
}

/// The role of an interface.
#[tactic(auto, unfolding(crate::specs::BlockRole::interface_role))]
fn interface_role(interface: &Interface) -> BlockRole
    ensures { result ≡ interface_role interface.now }
{
    if is_control_interface(interface) {
        BlockRole::ControlInterface
    } else if is_streaming_interface(interface) {
        BlockRole::StreamingInterface
    } else {
        BlockRole::ForeignInterface
    }
}

/// The role of a block that is kept whole.
#[tactic(auto, unfolding(crate::specs::BlockRole::whole_role, crate::specs::BlockRole::is_device, crate::specs::BlockRole::has_unknown_subtype))]
fn whole_role(bytes: &[u8]) -> BlockRole
    requires { 2 ≤ length bytes.now }
    ensures { result ≡ whole_role bytes.now }
{
    let kind = bytes[1];
    if kind == DEVICE && bytes.len() == DEVICE_LENGTH {
        BlockRole::Device
    } else if is_class_type(kind) && bytes.len() >= 3 && !is_known_subtype(bytes[2]) {
        BlockRole::UnknownSubtype
    } else if is_ordered_type(kind) {
        BlockRole::Stray
    } else {
        BlockRole::Other
    }
}

/// A class block of an interface or an endpoint.
fn is_class_type(kind: u8) -> bool
    ensures { result ≡ is_class_type kind }
{
    kind == CS_INTERFACE || kind == CS_ENDPOINT
}

/// The header up to the effect unit, and the clock entities.
fn is_known_subtype(subtype: u8) -> bool
    ensures { result ≡ is_known_subtype subtype }
{
    HEADER <= subtype && subtype <= EFFECT_UNIT
        || CLOCK_SOURCE <= subtype && subtype <= CLOCK_MULTIPLIER
}

/// A type that has its place in the order.
fn is_ordered_type(kind: u8) -> bool
    ensures { result ≡ is_ordered_type kind }
{
    kind == DEVICE
        || kind == CONFIGURATION
        || kind == INTERFACE
        || kind == ENDPOINT
        || kind == INTERFACE_ASSOCIATION
        || is_class_type(kind)
}
