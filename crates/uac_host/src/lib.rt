//! The host: the streams that it runs, and the tracks from which it sends.
#![tactic(auto)]

/// The host and its calls.
mod host;
/// What it keeps for an interface.
mod host_streams;
/// How a running stream is sent.
mod paces;
/// What waits to be sent.
mod tracks;

pub use host::Host;
pub use host_streams::HostStream;
