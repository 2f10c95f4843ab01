// The input jacks and their tones.
use uac_pcm::Tone;

/// An input jack: its terminal's id, its clock domain and its channels, and the tone that it gives, of which so many frames were
/// given since it was set; the count stands still at 18446744073709551615.
#[derive(Clone, Copy, Debug, PartialEq, Eq)]
pub struct Jack {
    pub terminal: u8,
    pub domain: u8,
    pub channels: u8,
    pub tone: Tone,
    pub place: u64,
}
