// Samples and gains, eight lanes at a time.

ghost use Rattle.std.specs.Prelude.{◌≡◌, ◌+◌, ◌*◌, ◌^◌, ◌<◌, ◌≤◌, pos, ◌+ℤ◌, length, map, slice_index, FitsSigned};
ghost use Rattle.std.specs.Int.{w32, w64};
ghost use Rattle.std.specs.Simd.Lanes.{Each1, zip2};
ghost use Rattle.uac_gain.specs.Gain.{nearest_in_32_bits};
ghost use Rattle.uac_units.specs.SampleLanes.{SumFits, IsGain, eight, floored_by, scaled_by};
ghost use Rattle.uac_units.specs.Rendering.{input};

use crate::jobs::{Job, Pins};
use std::simd::prelude::*;

/// Eight samples, each scaled by the gain in its lane and clamped to 32 bits.
pub(crate) fn scale_eight(samples: i64x8, gains: i64x8) -> i64x8
    requires lanes { (length samples ≡ 8) × (length gains ≡ 8) }
    requires samples { Each1 (FitsSigned w32) samples }
    requires gains { Each1 IsGain gains }
    ensures lanes { result ≡ zip2 scaled_by samples gains }
    ensures fits { Each1 (FitsSigned w32) result }
{
    saturate_eight(multiply_eight(samples, gains))
}

/// Eight samples, each times the gain in its lane, rounded towards minus infinity.
pub(crate) fn multiply_eight(samples: i64x8, gains: i64x8) -> i64x8
    requires lanes { (length samples ≡ 8) × (length gains ≡ 8) }
    requires samples { Each1 (FitsSigned w32) samples }
    requires gains { Each1 IsGain gains }
    ensures lanes { result ≡ zip2 floored_by samples gains }
    ensures fits { Each1 (FitsSigned w64) result }
{
    samples.strict_mul(gains) >> 30
}

/// Eight sums, each clamped to 32 bits.
pub(crate) fn saturate_eight(sums: i64x8) -> i64x8
    requires lanes { length sums ≡ 8 }
    requires fits { Each1 (FitsSigned w64) sums }
    ensures lanes { result ≡ map nearest_in_32_bits sums }
    ensures fits { Each1 (FitsSigned w32) result }
{
    sums.simd_clamp(i64x8::splat(i32::MIN as i64), i64x8::splat(i32::MAX as i64))
}

/// Eight sums, each with the sample in its lane added.
pub(crate) fn add_eight(sums: i64x8, samples: i64x8) -> i64x8
    requires lanes { (length sums ≡ 8) × (length samples ≡ 8) }
    requires room { Each1 SumFits sums }
    requires samples { Each1 (FitsSigned w32) samples }
    ensures lanes { result ≡ zip2 ◌+ℤ◌ sums samples }
    ensures fits { Each1 (FitsSigned w64) result }
{
    sums.strict_add(samples)
}

/// Eight input channels from that one on.
pub(crate) fn eight_inputs(pins: &Pins, from: usize) -> i64x8
    requires { (from < 2 ^ 32) × (from + 8 ≤ length pins.now.items) }
    ensures lanes { result ≡ eight (λ lane. input pins.now.items (from + lane)) }
    ensures fits { Each1 (FitsSigned w32) result }
{
    let inputs = &pins.as_slice()[from..from + 8];
    i64x8::from_array([
        inputs[0] as i64,
        inputs[1] as i64,
        inputs[2] as i64,
        inputs[3] as i64,
        inputs[4] as i64,
        inputs[5] as i64,
        inputs[6] as i64,
        inputs[7] as i64,
    ])
}

/// Eight gains from that one on, so far apart.
pub(crate) fn eight_gains(job: &Job, from: usize, apart: usize) -> i64x8
    requires { (apart ≤ 2) × (from + 7 * apart < length job.now.gains.items) }
    ensures lanes { result ≡ eight (λ lane. pos (slice_index job.now.gains.items (from + lane * apart))) }
    ensures gains { Each1 IsGain result }
{
    let gains = &job.gains.as_slice()[from..from + 7 * apart + 1];
    i64x8::from_array([
        gains[0] as i64,
        gains[apart] as i64,
        gains[2 * apart] as i64,
        gains[3 * apart] as i64,
        gains[4 * apart] as i64,
        gains[5 * apart] as i64,
        gains[6 * apart] as i64,
        gains[7 * apart] as i64,
    ])
}

/// Eight samples of 32 bits, in lanes of that width.
pub(crate) fn narrow_eight(samples: i64x8) -> i32x8
    requires lanes { length samples ≡ 8 }
    requires fits { Each1 (FitsSigned w32) samples }
    ensures { result ≡ samples }
{
    samples.cast::<i32>()
}
