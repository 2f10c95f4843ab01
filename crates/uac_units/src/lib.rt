//! The units of a signal graph and the meters that hear its outputs: boxed objects that a caller makes and hands in.
#![tactic(auto)]

mod channels;
mod eights;
mod jobs;
mod lanes;
pub mod laws;
mod meter;
mod meter_list;
mod meter_rows;
mod meters;
mod nodes;
mod plain;
mod plain_rows;
mod rack;
mod row;
mod row_frames;
mod row_loops;
mod steps;
mod unit;

pub use jobs::{Job, Pins, UnitKind};
pub use lanes::{LaneEffect, LaneFeature, LaneMixer, LaneSelector};
pub use meter::{Meter, MeterKind};
pub use meter_list::Meters;
pub use meters::{ClippedMeter, PeakMeter, SumMeter};
pub use plain::{PlainEffect, PlainFeature, PlainMixer, PlainSelector};
pub use plain_rows::are_silent;
pub use rack::Rack;
pub use row::Row;
pub use row_frames::{copy_rows, hold_frame, hush_rows, read_frame, silent_rows, write_frame};
pub use steps::Steps;
pub use unit::Unit;
