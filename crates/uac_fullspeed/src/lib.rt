//! One mono stream on a full-speed bus: its rates, reports of three bytes, a bench under a script, and the bands in which its ring stays.
#![tactic(auto)]

/// The bench and its lines.
mod bench;
/// A bus frame of the stream.
mod carry;
/// Why a line of a bench isn't done.
mod fault;
/// Laws, each the contract of a function that does nothing.
pub mod laws;
/// The bench as a machine.
mod machine;
/// The lines of a bench, by what they say.
mod play;
/// The lines that a bench prints.
mod printing;
/// The ten rates and their nominal values.
mod rates;
/// Reports and their bytes.
mod reports;
/// A stream under way.
mod run;
/// What follows from a sampling rate.
mod values;

pub use bench::FsBench;
pub use fault::BenchFault;
pub use machine::{FsScript, NothingBeside};
pub use rates::{FS_RATES, fs_nominal};
pub use reports::{fs_report, read_report, write_report};
pub use values::FsNominal;
