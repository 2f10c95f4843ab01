//! The lines of a script, cut from a source's bytes, the words of a line, and the bytes and numbers that words spell.
#![tactic(auto)]

/// Bytes as words of HEX spell them.
pub mod hex_bytes;
/// The lines of a script, from a source in pieces of any size.
mod lines;
/// Numbers as words spell them.
pub mod numbers;
/// The words of a line, one after the other.
pub mod words;

pub use lines::{LineStop, Lines, Next};
