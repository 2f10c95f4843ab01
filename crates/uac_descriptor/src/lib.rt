//! The descriptor blocks of USB Audio Class 2.0: what each holds, and how it is written as bytes.
#![tactic(auto)]

/// The types and subtypes of descriptors, by their names in the standards.
pub mod codes;

/// Want of memory, and the lists that the blocks hold.
mod lists;
/// The blocks that every USB device has, and those of an association.
mod standard;
/// The class blocks of the audio control interface.
mod control;
/// The class blocks of the audio streaming interfaces.
mod streaming;
/// Where a block stands.
mod context;
/// The bits of an endpoint's attributes.
mod endpoint_bits;
/// The values of an endpoint's and of a format's fields.
pub mod fields;
/// The class codes of an audio function and of its interfaces, and which blocks have them.
pub mod classes;
/// One block of a configuration descriptor.
mod block;
/// Blocks as bytes.
mod write;
/// Laws of the spellings, each the contract of a function that does nothing.
pub mod laws;

pub use block::Block;
pub use context::Context;
pub use control::{
    ClockMultiplier, ClockSelector, ClockSource, Effect, Feature, Header, InputTerminal, Mixer,
    OutputTerminal, Selector,
};
pub use endpoint_bits::EndpointBits;
pub use lists::{ByteList, NoMemory, WordList};
pub use standard::{Association, Configuration, Endpoint, Foreign, Interface};
pub use streaming::{ClassEndpoint, Extra, General, TypeOne};
