// What becomes of a packet.

/// What became of a packet to the device: its frames were taken, it was lost, or the ring had no room for all of them and took none.
#[derive(Clone, Copy, Debug, PartialEq, Eq)]
pub enum Arrival {
    Taken,
    Lost,
    Over,
}
