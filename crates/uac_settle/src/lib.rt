//! How long a stream takes to come home after a lost packet.
#![tactic(auto)]

pub mod laws;
mod settling;

pub use settling::settle_bound;
