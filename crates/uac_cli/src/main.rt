//! The program `uac_cli`: reads a configuration descriptor from standard input and says whether it is sound, or lists it; or runs
//! a script on a device, or a generated one.
#![tactic(auto)]

/// The words after the program's name.
mod arguments;
/// The program from its arguments to its status.
mod program;
#[cfg(test)]
mod tests;

pub use program::run_program;
use std::env;
use std::process::ExitCode;
pub use uac_call::{Racks, uac_main};
use uac_edges::{Gathering, StdSink, StdSource};
pub use uac_ends::{Status, exit_code};

fn main(rt: HostRuntime) -> ExitCode {
    let alloc = rt.alloc();
    let mut source = StdSource::new(rt.stdin());
    let mut sink = Gathering::new(StdSink::new(rt.stdout()));
    run_program(alloc, env::args(&rt), &mut source, &mut sink)
}
