//! What is said of a descriptor: it is read, judged, and answered line by line: its blocks, its entities, its settings, and the controls of
//! its host's mixer; and how long streams take to come home.
#![tactic(auto)]

/// The blocks.
mod blocks;
/// The elements of the host's mixer.
mod elements;
/// The entities.
mod entities;
/// The settings of streaming interfaces.
mod settings;

/// From the bytes of a source to what is said of them.
mod describing;
/// What is said of a descriptor.
mod description;
/// The line of a sound descriptor.
mod lines;
/// Reading a descriptor from a source.
mod parsing;
/// How long streams take to come home.
mod settling;

pub use blocks::write_blocks;
pub use describing::describe;
pub use description::Description;
pub use elements::write_elements;
pub use entities::write_entities;
pub use settings::write_settings;
pub use settling::settle;
