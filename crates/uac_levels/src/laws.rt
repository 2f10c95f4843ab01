// Laws of levels over a run.

/// The bands in which streams to the device stay.
pub mod bands;
/// Rings that always have room.
pub mod overflow;
/// Streams that come home.
pub mod homing;
