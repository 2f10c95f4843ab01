//! Laws of levels over a run, each the contract of a function that does nothing: rings stay in their bands, none overflows, and streams that
//! lose no packet come close to their targets.
#![tactic(auto)]

pub mod laws;
