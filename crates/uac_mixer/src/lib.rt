//! The host's view of a device: its controls as the elements of a mixer, read and set over any link.
#![tactic(auto)]

/// Answers that are kept.
mod answers;
/// An element and its name.
mod element;
/// Why reading a view, or setting an element, failed.
mod faults;
/// What an element controls.
mod kinds;
pub mod laws;
/// The link over which transfers go.
mod link;
/// The elements of a function.
mod listing;
/// The transfers of an element, and what a transfer makes of it.
mod transfers;
/// The view.
mod view;
/// A device and its view at the start.
mod viewed;

pub use element::{Element, ElementName};
pub use faults::{SetFault, ViewFault};
pub use kinds::ElementKind;
pub use link::{Broken, DeviceLink, Link, When};
pub use view::View;
pub use viewed::{Viewed, fresh_view, fresh_viewed};
