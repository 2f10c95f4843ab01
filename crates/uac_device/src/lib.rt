//! A virtual audio device: its controls, its clocks, its streams and its signal graph, event by event.
#![tactic(auto)]

/// What is kept of a streaming interface.
mod device_stream;
/// What is kept of all of them.
mod device_streams;
/// One tick, interface by interface.
mod ticking;

/// What is known of the streams while ticks wait.
mod ahead;
/// The clocks of the domains.
mod clocks;
/// What follows from the function and the controls, kept for the ticks.
mod derived;
/// The device and its events.
mod device;
/// What the meters hear of a tick.
mod hearing;
/// The input jacks and their tones.
mod jacks;
pub mod laws;
/// What ticks change, at the start.
mod parts;
/// What several ticks at once need beside the streams.
mod rows;
/// The beginning and the end of a tick in the device's streams.
mod still;
/// Several ticks at once, interface by interface.
mod stream_rows;
/// The stream that a request starts.
mod streams;
/// Which terminals carry no stream of the bus.
mod terminals;

pub use clocks::DomainClock;
pub use device::Device;
pub use device_stream::{DeviceStream, Flow, Port};
pub use device_streams::DeviceStreams;
pub use hearing::OutputJack;
pub use jacks::Jack;
pub use parts::ROW_TICKS;
pub use streams::{Acted, Begun};
pub use terminals::{is_input_jack, is_output_jack, is_output_jack_of};
pub use ticking::Ticked;
pub use uac_flow::Arrival;
