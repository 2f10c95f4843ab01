//! A stream that a device runs: how packets, ticks and the ends of microframes change its ring and what is kept beside it.
#![tactic(auto)]

/// Counts of microframes.
mod counting;
/// Frames between packets and rings.
mod frames;
/// A running stream from the device.
mod inward;
/// Laws of streams.
pub mod laws;
/// A running stream to the device.
mod outward;
/// Frames between rings and rows.
mod rows;

pub use inward::InFlow;
pub use outward::OutFlow;
pub use uac_ring::Arrival;
