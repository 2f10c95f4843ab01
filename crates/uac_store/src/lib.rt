//! The values of an audio function's controls, and the rates of its clocks that follow from them.
#![tactic(auto)]

/// The controls in one table.
pub mod controls;
/// Keys, and the ranges that a control's values lie in.
mod keys;
pub mod laws;
/// The rates of clock entities.
mod rates;
/// The selectors of controls.
pub mod selectors;
/// The values at the start.
mod start;
/// The store of all values.
mod store;
/// The values that controls can take.
mod values;

pub use keys::{Key, Range, Ranges};
pub use store::Store;
pub use values::ranges;
