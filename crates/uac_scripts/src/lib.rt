//! The bus as a machine that does a script's lines, and the run of a script on it.
#![tactic(auto)]

/// The laws that tie the transcript to the lines of the script.
pub mod laws;
/// The bus as a machine.
mod machine;
/// Running a script.
mod running;

pub use machine::{BusRun, line_fault};
pub use running::run_script;
