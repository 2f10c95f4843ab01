// What follows from a sampling rate.

/// The nominal values of a rate, for high speed: 8,000 microframes a second (profile). The values `f` and `e` count
/// 65,536ths of a frame in a microframe, as a feedback endpoint does (USB 2.0, 5.12.4.2).
#[derive(Clone, Copy, Debug, PartialEq, Eq)]
pub struct Nominal {
    /// Frames in a microframe, in 65,536ths, rounded down.
    pub f: u32,
    /// What a clock may be off by: a thousandth of `f`, rounded down.
    pub e: u32,
    /// The least whole number of frames in a packet.
    pub lo: u32,
    /// The greatest whole number of frames in a packet.
    pub hi: u32,
}
