//! One call of the program with units and meters of its own.
#![tactic(auto)]

/// The boxes of a call: its units and its meters.
mod boxes;

pub use boxes::run_in_boxes;
