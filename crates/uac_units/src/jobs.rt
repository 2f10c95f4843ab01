// What a unit is asked to render.

use arrayvec::ArrayVec;

/// The kinds of units that carry a signal (Audio Class 2.0, 3.13).
#[derive(Clone, Copy, Debug, PartialEq, Eq)]
pub enum UnitKind {
    Mixer,
    Selector,
    Feature,
    Effect,
}

/// One rendering of one unit: its output channels, a selector's pin from 0, and the gains in parts of 2^30.
///
/// A mixer has a gain for each input and output, by inputs. A feature has two for each channel: the channel's and the
/// master's.
#[derive(Drop)]
pub struct Job {
    pub outputs: u8,
    pub pin: u16,
    pub gains: ArrayVec<u32, 256>,
}

/// The input channels of all pins of a unit, one after the other.
pub type Pins = ArrayVec<i32, 256>;
