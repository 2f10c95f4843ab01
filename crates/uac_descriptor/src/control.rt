// The class blocks of the audio control interface (Audio Class 2.0, 4.7.2).
use crate::lists::{ByteList, WordList};
use std::marker::Model;

/// The header of the audio control interface (Audio Class 2.0, 4.7.2).
#[derive(Drop)]
pub struct Header {
    /// bcdADC: 0x0200 for this version of the class.
    pub version: u16,
    /// bCategory
    pub category: u8,
    /// wTotalLength: the bytes of the header and of all entities after it.
    pub total: u16,
    /// bmControls
    pub controls: u8,
}

/// A clock source (Audio Class 2.0, 4.7.2.1).
#[derive(Drop)]
pub struct ClockSource {
    /// bClockID
    pub id: u8,
    /// bmAttributes: bits 1..0 are 00 external, 01 fixed, 10 variable, 11 programmable.
    pub attributes: u8,
    /// bmControls
    pub controls: u8,
    /// bAssocTerminal
    pub assoc: u8,
    /// iClockSource
    pub name: u8,
}

/// A clock selector (Audio Class 2.0, 4.7.2.2).
#[derive(Drop)]
pub struct ClockSelector {
    /// bClockID
    pub id: u8,
    /// baCSourceID: the clock entities of its pins, at most 248.
    pub sources: ByteList,
    /// bmControls
    pub controls: u8,
    /// iClockSelector
    pub name: u8,
}

impl Model for ClockSelector {
    ghost use Rattle.uac_descriptor.specs.Layout.{SelectorFields, IsSelector};

    ghost Value = { SelectorFields };

    ghost view = { λ c. record { id = c.id; sources = c.sources; controls = c.controls; name = c.name } };

    ghost invariant = { λ c. IsSelector c.sources };
}

/// A clock multiplier (Audio Class 2.0, 4.7.2.3).
#[derive(Drop)]
pub struct ClockMultiplier {
    /// bClockID
    pub id: u8,
    /// bCSourceID
    pub source: u8,
    /// bmControls
    pub controls: u8,
    /// iClockMultiplier
    pub name: u8,
}

/// An input terminal (Audio Class 2.0, 4.7.2.4).
#[derive(Drop)]
pub struct InputTerminal {
    /// bTerminalID
    pub id: u8,
    /// wTerminalType: 0x0101 is USB streaming.
    pub terminal_type: u16,
    /// bAssocTerminal
    pub assoc: u8,
    /// bCSourceID: the clock entity.
    pub clock: u8,
    /// bNrChannels
    pub channels: u8,
    /// bmChannelConfig: the channels' spatial locations.
    pub locations: u32,
    /// iChannelNames
    pub names: u8,
    /// bmControls
    pub controls: u16,
    /// iTerminal
    pub name: u8,
}

/// An output terminal (Audio Class 2.0, 4.7.2.5).
#[derive(Drop)]
pub struct OutputTerminal {
    /// bTerminalID
    pub id: u8,
    /// wTerminalType: 0x0101 is USB streaming.
    pub terminal_type: u16,
    /// bAssocTerminal
    pub assoc: u8,
    /// bSourceID
    pub source: u8,
    /// bCSourceID: the clock entity.
    pub clock: u8,
    /// bmControls
    pub controls: u16,
    /// iTerminal
    pub name: u8,
}

/// A mixer unit (Audio Class 2.0, 4.7.2.6).
#[derive(Drop)]
pub struct Mixer {
    /// bUnitID
    pub id: u8,
    /// baSourceID: the entities of its pins.
    pub sources: ByteList,
    /// bNrChannels
    pub channels: u8,
    /// bmChannelConfig
    pub locations: u32,
    /// iChannelNames
    pub names: u8,
    /// bmMixerControls: which nodes the host may set. With `sources` at most 242 bytes.
    pub mix_bits: ByteList,
    /// bmControls
    pub controls: u8,
    /// iMixer
    pub name: u8,
}

impl Model for Mixer {
    ghost use Rattle.uac_descriptor.specs.Layout.{MixerFields, IsMixer};

    ghost Value = { MixerFields };

    ghost view = { λ m. record {
      id = m.id;
      sources = m.sources;
      channels = m.channels;
      locations = m.locations;
      names = m.names;
      mix_bits = m.mix_bits;
      controls = m.controls;
      name = m.name;
    } };

    ghost invariant = { λ m. IsMixer m.sources m.mix_bits };
}

/// A selector unit (Audio Class 2.0, 4.7.2.7).
#[derive(Drop)]
pub struct Selector {
    /// bUnitID
    pub id: u8,
    /// baSourceID: the entities of its pins, at most 248.
    pub sources: ByteList,
    /// bmControls
    pub controls: u8,
    /// iSelector
    pub name: u8,
}

impl Model for Selector {
    ghost use Rattle.uac_descriptor.specs.Layout.{SelectorFields, IsSelector};

    ghost Value = { SelectorFields };

    ghost view = { λ s. record { id = s.id; sources = s.sources; controls = s.controls; name = s.name } };

    ghost invariant = { λ s. IsSelector s.sources };
}

/// A feature unit (Audio Class 2.0, 4.7.2.8).
#[derive(Drop)]
pub struct Feature {
    /// bUnitID
    pub id: u8,
    /// bSourceID
    pub source: u8,
    /// bmaControls: the word of the master, channel 0, then one word a channel; 1 to 62 words.
    pub words: WordList,
    /// iFeature
    pub name: u8,
}

impl Model for Feature {
    ghost use Rattle.uac_descriptor.specs.Layout.{FeatureFields, IsFeature};

    ghost Value = { FeatureFields };

    ghost view = { λ f. record { id = f.id; source = f.source; words = f.words; name = f.name } };

    ghost invariant = { λ f. IsFeature f.words };
}

/// An effect unit (Audio Class 2.0, 4.7.2.10; profile: its control words and its length).
#[derive(Drop)]
pub struct Effect {
    /// bUnitID
    pub id: u8,
    /// wEffectType
    pub effect_type: u16,
    /// bSourceID
    pub source: u8,
    /// bmaControls: the word of the master, channel 0, then one word a channel; 1 to 61 words.
    pub words: WordList,
    /// iEffects
    pub name: u8,
}

impl Model for Effect {
    ghost use Rattle.uac_descriptor.specs.Layout.{EffectFields, IsEffect};

    ghost Value = { EffectFields };

    ghost view = { λ e. record { id = e.id; effect_type = e.effect_type; source = e.source; words = e.words; name = e.name } };

    ghost invariant = { λ e. IsEffect e.words };
}
