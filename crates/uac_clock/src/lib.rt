//! Sampling clocks: the rates they run at, and the ticks that they give in each microframe.
#![tactic(auto)]

pub mod laws;
mod rates;
mod ticks;
mod values;

pub use rates::{RATES, nominal, step};
pub use ticks::Phase;
pub use values::Nominal;
