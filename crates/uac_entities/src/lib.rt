//! The entities and the streaming interfaces that the blocks of a descriptor describe.
#![tactic(auto)]

/// Entities, their kinds and clusters.
mod entity;
/// Streaming interfaces and their settings.
mod stream;
/// Lists of bytes and words, made and copied.
mod lists;
/// From a block to its entity.
mod describe;
/// The settings in turn, each with its own blocks.
mod settings;
/// The streaming interfaces, from the settings in turn.
mod interfaces;

pub use describe::entities_of;
pub use entity::{Cluster, Entity, EntityKind, USB_STREAMING, is_input};
pub use interfaces::{link_of, streaming_interfaces_of};
pub use settings::{DeclaredSetting, declared_settings};
pub use stream::{Setting, SettingList, StreamInterface, number_among};
