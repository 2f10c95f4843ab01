//! Samples of Type I PCM: the subslots, frames and packets that carry them, and the tones that make them.
#![tactic(auto)]

mod blanks;
mod formats;
pub mod laws;
mod subslots;
mod tones;

use arrayvec::ArrayVec;
pub use blanks::{are_zeros, fill_zeros, resize, silence};
pub use formats::Format;
pub use tones::Tone;

/// One sample for each channel, of full scale: signed numbers of 32 bits.
pub type Frame = ArrayVec<i32, 32>;

/// The bytes of an isochronous transfer in one microframe: at most three transactions of 1,024.
pub type Packet = ArrayVec<u8, 3072>;
