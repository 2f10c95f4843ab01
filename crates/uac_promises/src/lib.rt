//! Laws of whole scripts, each the contract of a function that does nothing: steady ones keep their rings in bands, what is promised of every
//! line that they print, what may be believed after any of them, and generated ones run whole.
#![tactic(auto)]

pub mod laws;
