//! Runs the lines of a script on any machine, to the script's end or to the first line that is refused.
#![tactic(auto)]

/// The laws that tie the transcript to the lines of the script.
pub mod laws;
/// What does lines.
mod machine;
/// Running a script.
mod run;

pub use machine::LineMachine;
pub use run::run_script;
