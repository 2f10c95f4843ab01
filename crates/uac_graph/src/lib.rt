//! The signal graph of an audio function: a frame on each wire, rendered by boxed units, tick by tick.
#![tactic(auto)]

/// What the held controls make of a signal.
mod controls;
/// Entities, copied.
mod copies;
/// Frames by the ids of their entities.
mod frame_table;
/// Silent frames.
mod frames;
/// The graph and its ticks.
mod graph;
/// What all units are asked, kept from tick to tick.
mod job_table;
/// What a unit is asked to render.
mod jobs;
pub mod laws;
/// The order in which a domain's entities are rendered.
mod orders;
/// The rows of an entity's channels.
mod row_slots;
/// Samples written over others.
mod samples;
/// What is done at the indices of an order.
mod tasks;
/// The output terminals of a clock domain.
mod terminals;
/// The frames of several ticks on the wires.
mod wire_rows;
/// The frames on the wires.
mod wires;

pub use graph::Graph;
pub use job_table::Jobs;
pub use terminals::is_end;
pub use wire_rows::WireRows;
pub use wires::Wires;
