//! The words of the command line: which command they ask for, and over which rack.
#![tactic(auto)]

mod commands;
pub mod laws;
mod parsing;

pub use commands::{Command, Invocation, RackChoice, WordsFault};
pub use parsing::read;
