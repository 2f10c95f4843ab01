//! The alternate settings that an audio function's interfaces are in, and the streams that settings run.
#![tactic(auto)]

pub mod laws;
/// The settings of all interfaces.
mod settings;
/// The stream of a setting that can run.
mod streams;
/// What such a stream is.
mod values;

pub use settings::{InterfaceSetting, Settings};
pub use streams::{packet_room, stream};
pub use values::Stream;
