//! One call of the program: from its words and the bytes of a source to the text in a sink and a status.
#![tactic(auto)]

/// Scripts that are run on a bench.
mod benches;
/// Scripts that are run on a front panel.
mod front_panel;
/// The laws of scripts and of generated ones.
pub mod laws;
/// The top call.
mod top;

pub use top::{Racks, uac_main};
