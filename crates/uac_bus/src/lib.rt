//! A script's lines, one after the other: the descriptor, and then the device that runs under them.
#![tactic(auto)]

/// The bus and its lines.
mod bus;
/// The lines of the descriptor.
mod describing;

pub use bus::Bus;
pub use uac_fault::BusFault;
pub use uac_topology::bytes_of;
