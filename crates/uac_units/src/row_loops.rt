// The samples of one row, tick by tick.

ghost use Rattle.std.specs.Prelude.{◌≡◌, ◌+◌, ◌^◌, ◌<◌, ◌≤◌, ◌+ℤ◌, ℕ, length, unsigned_abs};
ghost use Rattle.uac_gain.specs.Gain.{nearest_in_32_bits, scaled_sample, unity};
ghost use Rattle.uac_units.specs.SampleRows.{HasSamples, sample_at};

use crate::plain::UNITY;
use uac_gain::laws::{scaling_keeps_the_sign, unity_changes_nothing};
use uac_gain::{saturate, scale};

/// Copies the samples of so many ticks.
pub(crate) fn copy_samples(samples: &[i32], ticks: usize, out: &mut [i32])
    requires given { ticks ≤ length samples.now }
    requires taken { ticks ≤ length out.old }
    ensures { HasSamples ticks (λ tick. sample_at tick samples.now) out.new }
{
    for tick in 0..ticks {
        out[tick] = samples[tick];
    }
}

/// Makes the samples of so many ticks this one.
pub(crate) fn fill_samples(sample: i32, ticks: usize, out: &mut [i32])
    requires { ticks ≤ length out.old }
    ensures { HasSamples ticks (λ tick. sample) out.new }
{
    for tick in 0..ticks {
        out[tick] = sample;
    }
}

/// Scales the samples of so many ticks by one gain and then by another. Most gains are 0 decibels, which changes no sample.
pub(crate) fn scale_samples(samples: &[i32], ticks: usize, own: u32, master: u32, out: &mut [i32])
    requires given { ticks ≤ length samples.now }
    requires taken { ticks ≤ length out.old }
    ensures { HasSamples ticks (λ tick. scaled_sample (scaled_sample (sample_at tick samples.now) own) master) out.new }
{
    if own == UNITY && master == UNITY {
        keep_samples(samples, ticks, out);
    } else if own <= UNITY && master <= UNITY {
        lower_twice(samples, ticks, own, master, out);
    } else {
        scale_twice(samples, ticks, own, master, out);
    }
}

// Scales the samples of so many ticks by 0 decibels, twice.
fn keep_samples(samples: &[i32], ticks: usize, out: &mut [i32])
    requires given { ticks ≤ length samples.now }
    requires taken { ticks ≤ length out.old }
    ensures { HasSamples ticks (λ tick. scaled_sample (scaled_sample (sample_at tick samples.now) unity) unity) out.new }
{
    unity_changes_nothing();
    for tick in 0..ticks {
        out[tick] = samples[tick];
    }
}

// The sample scaled by a gain of at most 0 decibels: it is no larger than it was, so nothing clamps it.
#[inline(always)]
fn lower(sample: i32, gain: u32) -> i32
    requires { gain ≤ 2 ^ 30 }
    ensures { result ≡ scaled_sample sample gain }
{
    ((sample as i64 * gain as i64) >> 30) as i32
}

// Scales the samples of so many ticks by one gain and then by another, both of at most 0 decibels.
fn lower_twice(samples: &[i32], ticks: usize, own: u32, master: u32, out: &mut [i32])
    requires gain { own ≤ 2 ^ 30 }
    requires of_all { master ≤ 2 ^ 30 }
    requires given { ticks ≤ length samples.now }
    requires taken { ticks ≤ length out.old }
    ensures { HasSamples ticks (λ tick. scaled_sample (scaled_sample (sample_at tick samples.now) own) master) out.new }
{
    for tick in 0..ticks {
        out[tick] = lower(lower(samples[tick], own), master);
    }
}

// Scales the samples of so many ticks by one gain and then by another.
fn scale_twice(samples: &[i32], ticks: usize, own: u32, master: u32, out: &mut [i32])
    requires given { ticks ≤ length samples.now }
    requires taken { ticks ≤ length out.old }
    ensures { HasSamples ticks (λ tick. scaled_sample (scaled_sample (sample_at tick samples.now) own) master) out.new }
{
    for tick in 0..ticks {
        out[tick] = scale(scale(samples[tick], own), master);
    }
}

/// Adds samples from a tick on, scaled by a gain, to as many sums. Most nodes of a mixer are silent, and add nothing.
pub(crate) fn add_samples(samples: &[i32], from: usize, ticks: usize, gain: u32, sums: &mut [i64])
    requires given { from + ticks ≤ length samples.now }
    requires taken { ticks ≤ length sums.old }
    requires room { (tick : ℕ) → tick < ticks → unsigned_abs (sample_at tick sums.old) ≤ 2 ^ 40 }
    ensures { HasSamples ticks (λ tick. sample_at tick sums.old +ℤ scaled_sample (sample_at (from + tick) samples.now) gain) sums.new }
{
    if gain == 0 {
        scaling_keeps_the_sign();
    } else if gain == UNITY {
        add_whole(samples, from, ticks, sums);
    } else if gain < UNITY {
        add_lowered(samples, from, ticks, gain, sums);
    } else {
        add_scaled(samples, from, ticks, gain, sums);
    }
}

// Adds samples from a tick on, scaled by 0 decibels, to as many sums.
fn add_whole(samples: &[i32], from: usize, ticks: usize, sums: &mut [i64])
    requires given { from + ticks ≤ length samples.now }
    requires taken { ticks ≤ length sums.old }
    requires room { (tick : ℕ) → tick < ticks → unsigned_abs (sample_at tick sums.old) ≤ 2 ^ 40 }
    ensures { HasSamples ticks (λ tick. sample_at tick sums.old +ℤ scaled_sample (sample_at (from + tick) samples.now) unity) sums.new }
{
    unity_changes_nothing();
    for tick in 0..ticks {
        sums[tick] += samples[from + tick] as i64;
    }
}

// Adds samples from a tick on, scaled by a gain of at most 0 decibels, to as many sums.
fn add_lowered(samples: &[i32], from: usize, ticks: usize, gain: u32, sums: &mut [i64])
    requires gain { gain ≤ 2 ^ 30 }
    requires given { from + ticks ≤ length samples.now }
    requires taken { ticks ≤ length sums.old }
    requires room { (tick : ℕ) → tick < ticks → unsigned_abs (sample_at tick sums.old) ≤ 2 ^ 40 }
    ensures { HasSamples ticks (λ tick. sample_at tick sums.old +ℤ scaled_sample (sample_at (from + tick) samples.now) gain) sums.new }
{
    for tick in 0..ticks {
        sums[tick] += lower(samples[from + tick], gain) as i64;
    }
}

// Adds samples from a tick on, scaled by a gain, to as many sums.
fn add_scaled(samples: &[i32], from: usize, ticks: usize, gain: u32, sums: &mut [i64])
    requires given { from + ticks ≤ length samples.now }
    requires taken { ticks ≤ length sums.old }
    requires room { (tick : ℕ) → tick < ticks → unsigned_abs (sample_at tick sums.old) ≤ 2 ^ 40 }
    ensures { HasSamples ticks (λ tick. sample_at tick sums.old +ℤ scaled_sample (sample_at (from + tick) samples.now) gain) sums.new }
{
    for tick in 0..ticks {
        sums[tick] += scale(samples[from + tick], gain) as i64;
    }
}

/// Puts sums, each clamped to 32 bits, over as many samples from a tick on.
pub(crate) fn saturate_sums(sums: &[i64], from: usize, ticks: usize, out: &mut [i32])
    requires given { ticks ≤ length sums.now }
    requires taken { from + ticks ≤ length out.old }
    ensures before { HasSamples from (λ tick. sample_at tick out.old) out.new }
    ensures samples { (tick : ℕ) → tick < ticks → sample_at (from + tick) out.new ≡ nearest_in_32_bits (sample_at tick sums.now) }
{
    for tick in 0..ticks {
        out[from + tick] = saturate(sums[tick]);
    }
}
