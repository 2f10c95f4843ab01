//! Gains of volumes, scaling and saturation of samples, exact to the bit.
#![tactic(auto)]

pub mod laws;
mod table;

ghost use Rattle.std.specs.Prelude.{◌≡◌, ◌*◌, ◌/◌, ◌^◌, ◌<◌, ◌≤◌};
ghost use Rattle.uac_gain.specs.Gain.{gain_above, gain_below, gain_of, scaled_sample, nearest_in_32_bits};

/// The volume that means silence (Audio Class 2.0, 5.2.5.7.2).
const SILENCE: i16 = -32768;

/// One decibel, in parts of 1/256 decibel.
const DECIBEL: u16 = 256;

/// Half a decibel, in the same parts.
const HALF: u16 = 128;

/// How far below 0 the least volume lies that isn't silence: 96 decibels (profile).
const DEEPEST: u16 = 24576;

/// How far below 0 volumes still come in halves: 31.5 decibels (profile).
const DEEPEST_HALF: u16 = 8064;

/// How far above 0 the greatest volume lies: 12 decibels (profile).
const HIGHEST: u16 = 3072;

/// How far above 0 the greatest half lies: 11.5 decibels (profile).
const HIGHEST_HALF: u16 = 2944;

/// Half a decibel down and up, in parts of 2^30.
const HALF_DOWN: u64 = 1013677647;

const HALF_UP: u64 = 1137365026;

/// The gain of a volume, in parts of 2^30.
///
/// The volume is in parts of 1/256 decibel (Audio Class 2.0, 5.2.5.7.2). `None` comes exactly where it is neither
/// -32768, which is silence, nor a multiple of 256 in -24576 to -8448 or of 128 in -8192 to 3072.
pub fn gain(value: i16) -> Option<u32>
    ensures { result ≡ gain_of value }
{
    if value == SILENCE {
        Some(0)
    } else if value < 0 {
        below(value.unsigned_abs())
    } else {
        above(value.unsigned_abs())
    }
}

/// The gain that many parts of 1/256 decibel below 0.
fn below(parts: u16) -> Option<u32>
    ensures { result ≡ gain_below parts }
{
    let decibels = (parts / DECIBEL) as usize;
    if parts % DECIBEL == 0 && parts <= DEEPEST {
        Some(table::gain_down(decibels))
    } else if parts % DECIBEL == HALF && parts <= DEEPEST_HALF {
        Some(((table::gain_down(decibels) as u64 * HALF_DOWN) >> 30) as u32)
    } else {
        None
    }
}

/// The gain that many parts of 1/256 decibel above 0.
fn above(parts: u16) -> Option<u32>
    ensures { result ≡ gain_above parts }
{
    let decibels = (parts / DECIBEL) as usize;
    if parts % DECIBEL == 0 && parts <= HIGHEST {
        Some(table::gain_up(decibels))
    } else if parts % DECIBEL == HALF && parts <= HIGHEST_HALF {
        Some(((table::gain_up(decibels) as u64 * HALF_UP) >> 30) as u32)
    } else {
        None
    }
}

/// The sample scaled by a gain in parts of 2^30, rounded towards minus infinity and clamped to 32 bits.
pub fn scale(sample: i32, gain: u32) -> i32
    ensures { result ≡ scaled_sample sample gain }
{
    saturate((sample as i64 * gain as i64) >> 30)
}

/// The nearest number of 32 bits.
pub fn saturate(sum: i64) -> i32
    ensures { result ≡ nearest_in_32_bits sum }
{
    sum.clamp(i32::MIN as i64, i32::MAX as i64) as i32
}
