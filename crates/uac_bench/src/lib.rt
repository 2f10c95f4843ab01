//! One mono stream of a bench, which has no format, and its clock.
#![tactic(auto)]

/// The clock of a bench.
mod clock;
/// Frames of one channel.
mod frames;
/// The lines of a bench's stream.
mod printing;
/// The stream of a bench.
mod stream;

pub use clock::BenchClock;
pub use printing::{write_level_at, write_number, write_packet, write_tick};
pub use stream::{BenchStream, BenchTick};
