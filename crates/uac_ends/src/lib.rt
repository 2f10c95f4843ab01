//! How every run of the program ends: its status and its last line, at a sink; and what a call sees of its outside.
#![tactic(auto)]

/// The end of a run at its sink.
mod closing;
/// Why a line isn't done.
mod fault;
/// The last lines of runs.
mod last_lines;
/// How a run ends.
mod status;

pub use closing::{close, conclude, hand_on};
pub use fault::LineFault;
pub use last_lines::{NO_MEMORY, READ_FAULT, TOO_LONG, misread_line, refusal_line, unsound_line};
pub use status::{Status, exit_code};
