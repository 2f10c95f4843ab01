//! A running device, the host that streams to and from it, and the tones of its jacks: microframes, what they print, and the report.
#![tactic(auto)]

/// What is counted for the report.
mod counts;
/// Printing what output jacks played.
mod printing;
/// Printing the report.
mod report;

/// Microframes whose counts run ahead.
mod ahead;
/// Microframes of a device that runs no stream.
mod idle;
/// The jacks' tones.
mod jacks;
/// A law of ticks.
pub mod laws;
/// The microframes of a running device.
mod microframes;
/// What a line of the script names: jacks, domains, streams, and the packets and reports of these.
mod naming;
/// A running device.
mod running;
/// Control transfers and the host's view.
mod transfers;

pub use counts::TickCount;
pub use naming::{all_name_streams, are_frames, has_out};
pub use running::Running;
pub use uac_device::Jack;
pub use uac_ring::StreamCounts;
