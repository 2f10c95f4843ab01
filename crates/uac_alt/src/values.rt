// What a stream is.
use uac_clock::Nominal;
use uac_pcm::Format;

/// What a setting that can run says of its stream (USB 2.0, 9.6.6; Audio Class 2.0, 4.9; Audio Data Formats 2.0, 2.3.1).
#[derive(Clone, Copy, Debug, PartialEq, Eq)]
pub struct Stream {
    pub format: Format,
    /// The nominal values of the rate of the stream's clock.
    pub nominal: Nominal,
    /// Whether the stream goes from the host to the device.
    pub out: bool,
    /// The frames that the endpoint's packet holds at most.
    pub most: u32,
    /// The microframes from one feedback report to the next, 1, 2, 4 or 8 and a multiple of the service interval; 0 where the stream comes
    /// from the device.
    pub period: u32,
    /// The service interval: the microframes from one packet to the next, 1, 2, 4 or 8.
    pub service: u32,
}
