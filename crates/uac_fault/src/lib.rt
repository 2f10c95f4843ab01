//! Why a line of a script isn't done.
#![tactic(auto)]

/// The faults, and how others are told as one of them.
mod fault;

pub use fault::BusFault;
