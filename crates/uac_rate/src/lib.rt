//! The pace of packets, feedback reports, when clocks and reports are steady, and the bands in which rings stay.
#![tactic(auto)]

pub mod laws;
mod pace;
mod reports;
mod steadiness;

pub use pace::Pacer;
pub use reports::report;
pub use steadiness::Steady;
