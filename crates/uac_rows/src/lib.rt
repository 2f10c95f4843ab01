//! The lines of a running device.
#![tactic(auto)]

/// The law that ties one line to all lines.
pub mod laws;
/// The lines, each on the running device.
mod rows;
/// The lines of transfers, and those that name an element.
mod transfers;

pub use rows::play;
