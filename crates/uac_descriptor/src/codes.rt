// The types and subtypes of descriptors, by their names in the standards.

/// USB 2.0, table 9-5.
pub const DEVICE: u8 = 0x01;

pub const CONFIGURATION: u8 = 0x02;

pub const INTERFACE: u8 = 0x04;

pub const ENDPOINT: u8 = 0x05;
/// USB 2.0, its supplement on interface associations.
pub const INTERFACE_ASSOCIATION: u8 = 0x0B;
/// Audio Class 2.0, A.8.
pub const CS_INTERFACE: u8 = 0x24;

pub const CS_ENDPOINT: u8 = 0x25;
/// Audio Class 2.0, A.9: the blocks of the audio control interface.
pub const HEADER: u8 = 0x01;

pub const INPUT_TERMINAL: u8 = 0x02;

pub const OUTPUT_TERMINAL: u8 = 0x03;

pub const MIXER_UNIT: u8 = 0x04;

pub const SELECTOR_UNIT: u8 = 0x05;

pub const FEATURE_UNIT: u8 = 0x06;

pub const EFFECT_UNIT: u8 = 0x07;

pub const CLOCK_SOURCE: u8 = 0x0A;

pub const CLOCK_SELECTOR: u8 = 0x0B;

pub const CLOCK_MULTIPLIER: u8 = 0x0C;
/// Audio Class 2.0, A.10: the blocks of a streaming interface.
pub const AS_GENERAL: u8 = 0x01;

pub const FORMAT_TYPE: u8 = 0x02;
/// Audio Class 2.0, A.13: the block after an endpoint.
pub const EP_GENERAL: u8 = 0x01;
/// Audio Data Formats 2.0, A.1.
pub const FORMAT_TYPE_I: u8 = 0x01;
