//! Which blocks make a descriptor of USB Audio Class 2.0: the order, the rules and the first fault.
#![tactic(auto)]

/// What a block is to the order of the descriptor.
mod roles;
/// How far in the order the blocks have come.
mod stages;
/// The values of single fields that the standard allows.
mod values;
/// What the blocks so far leave to be remembered.
mod states;
/// What each part of it becomes after a block.
mod turns;
/// The rules, each by itself, and the least one that is broken.
mod rules;
/// The laws of the grammar.
pub mod laws;
/// Whether blocks are well-formed.
mod well_formed;
/// The first fault of a descriptor.
mod faults;

pub use faults::GrammarFault;
pub use roles::BlockRole;
pub use stages::OrderStage;
pub use states::{FURTHEST, Latest, Listing, State};
pub use uac_descriptor::classes;
pub use values::has_wrong_value;
pub use well_formed::are_well_formed;
