// Entities, their kinds and clusters.
ghost use Rattle.std.specs.Prelude.{◌≡◌};
ghost use Rattle.uac_entities.specs.EntityInterfaces as spec;

use uac_descriptor::{ByteList, WordList};

/// USB Terminal Types 2.0, 2.1: a terminal that carries the data of a streaming interface.
pub const USB_STREAMING: u16 = 0x0101;

/// What an entity is.
#[derive(Clone, Copy, PartialEq, Eq, Debug)]
pub enum EntityKind {
    /// Audio Class 2.0, 3.13.10
    ClockSource,
    /// 3.13.11
    ClockSelector,
    /// 3.13.12
    ClockMultiplier,
    /// 3.13.1
    InputTerminal,
    /// 3.13.2
    OutputTerminal,
    /// 3.13.3
    Mixer,
    /// 3.13.4
    Selector,
    /// 3.13.5
    Feature,
    /// 3.13.7
    Effect,
}

/// Whether an entity of the kind is an input terminal (Audio Class 2.0, 3.13.1).
pub fn is_input(kind: EntityKind) -> bool
    ensures { result ≡ spec.is_input kind }
{
    match kind {
        EntityKind::InputTerminal => true,
        EntityKind::ClockSource
        | EntityKind::ClockSelector
        | EntityKind::ClockMultiplier
        | EntityKind::OutputTerminal
        | EntityKind::Mixer
        | EntityKind::Selector
        | EntityKind::Feature
        | EntityKind::Effect => false,
    }
}

/// The channels that an entity puts out (Audio Class 2.0, 4.1, the cluster descriptor).
#[derive(Clone, Copy, PartialEq, Eq, Debug)]
pub struct Cluster {
    /// bNrChannels
    pub channels: u8,
    /// bmChannelConfig: the channels' spatial locations.
    pub locations: u32,
    /// iChannelNames
    pub names: u8,
}

/// A terminal, a unit or a clock entity (Audio Class 2.0, 4.7.2).
#[derive(Drop)]
pub struct Entity {
    pub id: u8,
    pub kind: EntityKind,
    /// wTerminalType of a terminal, 0 elsewhere.
    pub terminal_type: u16,
    /// The entities of its pins, in their order: signal sources, or clock sources of a clock entity.
    pub sources: ByteList,
    /// The clock entity of a terminal, 0 elsewhere.
    pub clock: u8,
    /// No channels for a clock entity.
    pub cluster: Cluster,
    /// The control words of a feature or an effect; of any other entity the one field of its controls.
    pub controls: WordList,
    /// bmMixerControls of a mixer, empty elsewhere.
    pub mix_bits: ByteList,
    /// bmAttributes of a clock source, 0 elsewhere.
    pub attributes: u8,
}
