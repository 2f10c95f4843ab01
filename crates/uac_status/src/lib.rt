//! A front panel whose knobs change a device's controls, and a host that hears of it by interrupt data messages; and both under a script.
#![tactic(auto)]

/// The lines of the descriptor.
mod describing;
/// The desk and its lines.
mod desk;
/// The host follows a message.
mod following;
/// A device with its front panel, and what its host knows of it.
mod front;
/// What a knob asks of its device.
mod knobs;
pub mod laws;
/// The desk as a machine that does the lines of a script.
mod machine;
/// The knobs of a device, and the messages that wait.
mod panel;
/// The lines of knobs and of messages.
mod printing;
/// What a line of a panel's script says.
mod reading;
/// The lines of a device with a front panel.
mod rows;

pub use desk::{Desk, DeskFault};
pub use following::{FollowFault, follow};
pub use machine::NothingBeside;
pub use panel::{Panel, Turned};
