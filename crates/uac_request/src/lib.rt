//! Control requests, and what a device answers.
#![tactic(auto)]

/// Values as bytes.
pub mod bytes;
/// The controls of entities and of streaming interfaces.
mod controls;
/// A control's value now.
mod current;
/// The controls that an entity's descriptor declares.
pub mod declared;
/// What a device answers.
mod device;
pub mod laws;
/// What keeps a control.
mod owner;
/// A control's ranges.
mod ranging;
/// The requests that there are.
mod request;
/// The rules by which a request is stalled, by name.
mod rule;
/// The rules that requests to controls break.
mod rules;
/// The six requests.
mod serve;
/// The setup packet of a control transfer.
mod setup;
/// What a request is told.
mod reply;
/// The settings that are valid.
mod valid;

pub use device::answer;
pub use reply::{Answer, Reply};
pub use setup::{Setup, key_named, low_byte, two_byte_number};
pub use valid::is_valid;
