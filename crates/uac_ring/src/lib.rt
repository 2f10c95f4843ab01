//! The ring of a stream: its frames between the bus and the signal graph, first in, first out, in one block of memory.
#![tactic(auto)]

/// What becomes of a packet.
mod arrival;
/// Counts of what streams met.
mod counts;
/// The ring and its calls.
mod ring;

pub use arrival::Arrival;
pub use counts::{
    StreamCounts, after_arrival, nothing_met, one_lost, one_missed, one_over, one_under,
};
pub use ring::{Full, RING_FRAMES, Ring};
