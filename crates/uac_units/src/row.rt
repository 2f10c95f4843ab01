// Samples of one channel, tick by tick.

ghost use Rattle.std.specs.Prelude.{◌≡◌, ◌+◌, ◌*◌, ◌^◌, ◌<◌, ◌≤◌, ◌+ℤ◌, ℕ, IfOk, length, pos, replicate, slice_set, take, true, unsigned_abs};
ghost use Rattle.uac_gain.specs.Gain.{nearest_in_32_bits, scaled_sample};
ghost use Rattle.uac_units.specs.Hearing.{peak_of, value_after_hearing};
ghost use Rattle.uac_units.specs.SampleRows.{HasSamples, sample_at};
ghost use Rattle.uac_units.specs.declared.meter.MeterKind.TheVariants.{Clipped, Sum};

use crate::meter_rows::{add_clipped, add_sizes, peak_among};
use crate::row_loops::{add_samples, copy_samples, fill_samples, saturate_sums, scale_samples};
use std::alloc::{AllocError, Global};
use std::marker::Model;

/// The samples of one channel at several ticks, in a room that is made once. A contract sees the samples.
#[derive(Drop)]
pub struct Row {
    samples: Vec<i32>,
    /// So many of the first samples are known to be 0: what needs no samples looks at none.
    silent: usize,
}

impl Model for Row {
    ghost use Rattle.std.specs.Prelude.{List, ℤ, pos};
    ghost use Rattle.uac_units.specs.SampleRows.{HasSamples};

    ghost Value = { List ℤ };

    ghost view = { λ row. row.samples.items };

    ghost invariant = { λ row. HasSamples row.silent (λ tick. pos 0) row.samples.items };
}

impl Row {
    /// Silence at so many ticks.
    pub fn silent(alloc: Global, ticks: usize) -> Result<Row, AllocError>
        ensures { IfOk result (λ row. row ≡ replicate ticks (pos 0)) }
    {
        let mut samples = Vec::new(alloc);
        samples.resize(ticks, 0)?;
        Ok(Row {
            samples,
            silent: ticks,
        })
    }

    /// How many ticks there are.
    pub fn len(&self) -> usize
        ensures { result ≡ length self.now }
    {
        self.samples.len()
    }

    /// Whether the samples of so many ticks are known to be 0.
    pub(crate) fn is_silent(&self, ticks: usize) -> bool
        ensures { result ≡ true → HasSamples ticks (λ tick. pos 0) self.now }
    {
        self.silent >= ticks
    }

    /// The sample at a tick.
    pub fn sample(&self, tick: usize) -> i32
        requires { tick < length self.now }
        ensures { result ≡ sample_at tick self.now }
    {
        self.samples[tick]
    }

    /// Puts a sample at a tick.
    pub fn set(&mut self, tick: usize, sample: i32)
        requires { tick < length self.old }
        ensures { self.new ≡ slice_set self.old tick sample }
    {
        if sample != 0 {
            self.silent = self.silent.min(tick);
        }
        self.samples[tick] = sample;
    }

    /// Makes the samples of so many ticks this one.
    pub(crate) fn fill(&mut self, ticks: usize, sample: i32)
        requires taken { ticks ≤ length self.old }
        ensures samples { HasSamples ticks (λ tick. sample) self.new }
        ensures length { length self.new ≡ length self.old }
    {
        if sample == 0 {
            self.hush(ticks);
            return;
        }
        self.silent = 0;
        fill_samples(sample, ticks, self.samples.as_mut_slice());
    }

    // Makes the samples of so many ticks silence.
    fn hush(&mut self, ticks: usize)
        requires taken { ticks ≤ length self.old }
        ensures samples { HasSamples ticks (λ tick. pos 0) self.new }
        ensures length { length self.new ≡ length self.old }
    {
        if ticks > self.silent {
            fill_samples(0, ticks, self.samples.as_mut_slice());
            self.silent = ticks;
        }
    }

    /// Makes the samples of so many ticks those of another row.
    pub(crate) fn copy(&mut self, ticks: usize, from: &Row)
        requires given { ticks ≤ length from.now }
        requires taken { ticks ≤ length self.old }
        ensures samples { HasSamples ticks (λ tick. sample_at tick from.now) self.new }
        ensures length { length self.new ≡ length self.old }
    {
        if from.silent >= ticks {
            self.hush(ticks);
            return;
        }
        self.silent = 0;
        copy_samples(from.samples.as_slice(), ticks, self.samples.as_mut_slice());
    }

    /// Makes the samples of so many ticks those of another row, scaled by one gain and then by another.
    pub(crate) fn scale(&mut self, ticks: usize, from: &Row, own: u32, master: u32)
        requires given { ticks ≤ length from.now }
        requires taken { ticks ≤ length self.old }
        ensures samples { HasSamples ticks (λ tick. scaled_sample (scaled_sample (sample_at tick from.now) own) master) self.new }
        ensures length { length self.new ≡ length self.old }
    {
        if from.silent >= ticks {
            self.hush(ticks);
            return;
        }
        self.silent = 0;
        scale_samples(
            from.samples.as_slice(),
            ticks,
            own,
            master,
            self.samples.as_mut_slice(),
        );
    }

    /// Adds the samples of so many ticks from that one on, scaled by a gain, to as many sums.
    pub(crate) fn add_to(&self, from: usize, ticks: usize, gain: u32, sums: &mut [i64])
        requires given { from + ticks ≤ length self.now }
        requires taken { ticks ≤ length sums.old }
        requires room { (tick : ℕ) → tick < ticks → unsigned_abs (sample_at tick sums.old) ≤ 2 ^ 40 }
        ensures { HasSamples ticks (λ tick. sample_at tick sums.old +ℤ scaled_sample (sample_at (from + tick) self.now) gain) sums.new }
    {
        if self.silent >= from + ticks {
            return;
        }
        add_samples(self.samples.as_slice(), from, ticks, gain, sums);
    }

    /// Makes the samples of so many ticks from that one on as many sums, each clamped to 32 bits. The samples before them stay.
    pub(crate) fn saturate(&mut self, from: usize, ticks: usize, sums: &[i64])
        requires given { ticks ≤ length sums.now }
        requires taken { from + ticks ≤ length self.old }
        ensures before { HasSamples from (λ tick. sample_at tick self.old) self.new }
        ensures samples { (tick : ℕ) → tick < ticks → sample_at (from + tick) self.new ≡ nearest_in_32_bits (sample_at tick sums.now) }
        ensures length { length self.new ≡ length self.old }
    {
        self.silent = self.silent.min(from);
        saturate_sums(sums, from, ticks, self.samples.as_mut_slice());
    }

    /// The greatest absolute sample of so many ticks.
    pub(crate) fn peak(&self, ticks: usize) -> u32
        requires { ticks ≤ length self.now }
        ensures { result ≡ peak_of (take ticks self.now) }
    {
        if self.silent >= ticks {
            return 0;
        }
        peak_among(&self.samples.as_slice()[..ticks])
    }

    /// How many samples of so many ticks stand at full scale, added to a value. One that would pass the greatest u64 stays there.
    pub(crate) fn add_clipped(&self, ticks: usize, value: u64) -> u64
        requires { ticks ≤ length self.now }
        ensures { result ≡ value_after_hearing Clipped value (take ticks self.now) }
    {
        if self.silent >= ticks {
            return value;
        }
        add_clipped(&self.samples.as_slice()[..ticks], value)
    }

    /// The absolute samples of so many ticks added to a value. One that would pass the greatest u64 stays there.
    pub(crate) fn add_sizes(&self, ticks: usize, value: u64) -> u64
        requires { ticks ≤ length self.now }
        ensures { result ≡ value_after_hearing Sum value (take ticks self.now) }
    {
        if self.silent >= ticks {
            return value;
        }
        add_sizes(&self.samples.as_slice()[..ticks], value)
    }
}
