// The nodes of a mixer, eight lanes at a time: an input, scaled by eight gains. Most are silent or have a gain of 0 decibels.

ghost use Rattle.std.specs.Prelude.{◌≡◌, ◌+◌, ◌^◌, ◌<◌, ◌≤◌, ◌+ℤ◌, length, map, slice_index, FitsSigned};
ghost use Rattle.std.specs.Int.{w32, w64};
ghost use Rattle.std.specs.Simd.Lanes.{Each1, zip2};
ghost use Rattle.uac_gain.specs.Gain.{scaled_sample};
ghost use Rattle.uac_units.specs.SampleLanes.{SumFits, eight, together};

use crate::eights::{add_eight, multiply_eight, scale_eight};
use crate::jobs::Job;
use crate::plain::UNITY;
use std::simd::prelude::*;

/// The gains of eight nodes from that one on.
pub(crate) fn eight_nodes(job: &Job, from: usize) -> u32x8
    requires { from + 8 ≤ length job.now.gains.items }
    ensures { result ≡ eight (λ lane. slice_index job.now.gains.items (from + lane)) }
{
    u32x8::from_slice(&job.gains.as_slice()[from..from + 8])
}

/// Eight sums, each with the sample added that its lane's gain makes of one input. Eight silent nodes add nothing.
pub(crate) fn add_scaled(sums: i64x8, sample: i32, gains: u32x8) -> i64x8
    requires lanes { length sums ≡ 8 }
    requires room { Each1 SumFits sums }
    ensures lanes { result ≡ zip2 (λ sum gain. sum +ℤ scaled_sample sample gain) sums gains }
    ensures fits { Each1 (FitsSigned w64) result }
{
    let bits = all_bits(gains);
    if bits == 0 {
        sums
    } else {
        add_eight(sums, scale_one(sample, gains, bits))
    }
}

/// The bits of all eight gains together.
fn all_bits(gains: u32x8) -> u32
    ensures { result ≡ together gains }
{
    gains.reduce_or()
}

/// One sample, scaled by the gain in each of eight lanes, whose bits together are these.
fn scale_one(sample: i32, gains: u32x8, bits: u32) -> i64x8
    requires { bits ≡ together gains }
    ensures lanes { result ≡ map (scaled_sample sample) gains }
    ensures fits { Each1 (FitsSigned w32) result }
{
    if bits == UNITY {
        keep_or_silence(sample, gains)
    } else if bits < UNITY {
        scale_down(sample, gains)
    } else {
        scale_eight(i64x8::splat(sample as i64), gains.cast::<i64>())
    }
}

/// One sample in each lane whose gain is 0 decibels, and silence in the others.
fn keep_or_silence(sample: i32, gains: u32x8) -> i64x8
    requires { together gains ≡ 2 ^ 30 }
    ensures lanes { result ≡ map (scaled_sample sample) gains }
    ensures fits { Each1 (FitsSigned w32) result }
{
    let kept = gains.simd_eq(u32x8::splat(UNITY));
    let samples = kept.select(i32x8::splat(sample), i32x8::splat(0));
    samples.cast::<i64>()
}

/// One sample, scaled by a gain of less than 0 decibels in each of eight lanes: no product leaves 32 bits.
fn scale_down(sample: i32, gains: u32x8) -> i64x8
    requires { Each1 (λ gain. gain < 2 ^ 30) gains }
    ensures lanes { result ≡ map (scaled_sample sample) gains }
    ensures fits { Each1 (FitsSigned w32) result }
{
    // Both come from signed lanes of 32 bits, so that the compiler multiplies 32 bits by 32.
    let samples = i32x8::splat(sample).cast::<i64>();
    multiply_eight(samples, gains.cast::<i32>().cast::<i64>())
}
