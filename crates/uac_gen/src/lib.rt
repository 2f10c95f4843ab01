//! The generator: a whole script, line by line, from one number.
#![tactic(auto)]

/// The bytes of the script's descriptor.
mod descriptor;
/// The numbers that are drawn.
mod draws;
/// The script, one line after the other.
mod generator;
/// The lines of a group.
mod groups;
/// The lines' texts.
mod lines;
/// What a script writes next.
mod next_line;
/// The script as a source of bytes.
mod source;

pub use generator::Gen;
pub use source::GenSource;
