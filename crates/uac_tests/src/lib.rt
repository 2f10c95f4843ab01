//! The tests of the crates from the controls' values up to the host and its mixer that go through public calls alone: that calls with
//! ample memory find it, and worked values. They stand in a crate of their own, since a crate with tests is proved twice, and since their
//! functions are of the same few blocks.
#![tactic(auto)]

/// The blocks of the functions that are tried.
#[cfg(test)]
mod blocks;
/// The device: jacks, clocks, requests.
#[cfg(test)]
mod device;
/// The signal graph.
#[cfg(test)]
mod graph;
/// The host's packets.
#[cfg(test)]
mod host;
/// The lines of entities and elements.
#[cfg(test)]
mod listing;
/// The host's view of a device.
#[cfg(test)]
mod mixer;
/// A front panel, and the messages that tell of its knobs.
#[cfg(test)]
mod panel;
/// Units in boxes.
#[cfg(test)]
mod racks;
/// The answers to requests.
#[cfg(test)]
mod requests;
/// The settings of interfaces, and their streams.
#[cfg(test)]
mod settings;
/// The values of controls, and the rates of clocks.
#[cfg(test)]
mod store;
/// The device's streams.
#[cfg(test)]
mod streams;
