//! Whether the audio function that the blocks of a descriptor describe is sound, and if not, which entity or interface breaks which
//! rule; and what a descriptor's bytes come to.
#![tactic(auto)]

/// A sound function.
mod function;
/// The configuration's own fields.
mod configuration;
/// The rules one after the other.
mod soundness;
/// Laws of sound functions, each the contract of a function that does nothing.
pub mod laws;

/// The bytes of blocks, and those of the configuration among them.
mod bytes;
/// From a reader that took the bytes to what they come to.
mod describing;
/// Why bytes come to nothing.
mod fault;

pub use bytes::bytes_of;
pub use describing::{SoundDescriptor, sound_descriptor};
pub use fault::DescriptorFault;
pub use function::Function;
pub use soundness::{CheckStop, check};
pub use uac_entities::{Cluster, Entity, EntityKind, Setting, SettingList, StreamInterface};
pub use uac_topology_rules::TopologyFault;
