// The class blocks of the audio streaming interfaces (Audio Class 2.0, 4.9 and 4.10; Audio Data
// Formats 2.0, 2.3.1).
use crate::lists::ByteList;
use std::marker::Model;

/// The general block of a streaming interface (Audio Class 2.0, 4.9.2).
#[derive(Drop)]
pub struct General {
    /// bTerminalLink
    pub link: u8,
    /// bmControls
    pub controls: u8,
    /// bFormatType
    pub format_type: u8,
    /// bmFormats
    pub formats: u32,
    /// bNrChannels
    pub channels: u8,
    /// bmChannelConfig
    pub locations: u32,
    /// iChannelNames
    pub names: u8,
}

/// The Type I format (Audio Data Formats 2.0, 2.3.1.6).
#[derive(Drop)]
pub struct TypeOne {
    /// bSubslotSize: the bytes of a sample.
    pub subslot: u8,
    /// bBitResolution: the bits of a sample that are used.
    pub bits: u8,
}

/// Another class block of a streaming interface: of another format type, or another subtype.
#[derive(Drop)]
pub struct Extra {
    /// bDescriptorSubtype
    pub subtype: u8,
    /// The bytes after the subtype, at most 252.
    pub rest: ByteList,
}

impl Model for Extra {
    ghost use Rattle.uac_descriptor.specs.Layout.{ExtraFields, IsExtra};

    ghost Value = { ExtraFields };

    ghost view = { λ e. record { subtype = e.subtype; rest = e.rest } };

    ghost invariant = { λ e. IsExtra e.subtype e.rest };
}

/// The class block after an endpoint of a streaming interface (Audio Class 2.0, 4.10.1.2).
#[derive(Drop)]
pub struct ClassEndpoint {
    /// bmAttributes
    pub attributes: u8,
    /// bmControls
    pub controls: u8,
    /// bLockDelayUnits
    pub lock_units: u8,
    /// wLockDelay
    pub lock_delay: u16,
}
