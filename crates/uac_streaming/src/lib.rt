//! Streams between a host and a device: packets both ways, what ticks find, the ends of microframes and feedback, each as it happens and
//! as it is printed.
#![tactic(auto)]

/// Packets and reports while the device's ticks wait.
mod ahead;
/// Lines of packets, ticks and reports.
mod printing;
/// What the host streams with, and its events.
mod streaming;
/// The events of a microframe, interface by interface, printed.
mod turns;
/// Which way the streams of interfaces go.
mod ways;

pub use streaming::Streaming;
pub use turns::write_found;
