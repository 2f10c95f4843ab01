// The three meters.

ghost use Rattle.std.specs.Prelude.{◌≡◌, ◌≤◌, ◌<◌, if◌then◌else◌, unsigned_abs, length, slice_index_or, pos};
ghost use Rattle.uac_units.specs.Hearing.{after_hearing, is_clipped};
ghost use Rattle.uac_units.specs.declared.meter.MeterKind.TheVariants.{Peak, Clipped, Sum};

use crate::meter::{Meter, MeterKind};
use crate::meter_rows::{clipped_among, peak_among, sum_among};
use crate::row::Row;
use uac_pcm::Frame;

/// Keeps the greatest absolute sample that it heard.
#[derive(Drop)]
pub struct PeakMeter {
    value: u64,
}

/// Counts the samples that stand at full scale, above or below.
#[derive(Drop)]
pub struct ClippedMeter {
    value: u64,
}

/// Adds up all absolute samples.
#[derive(Drop)]
pub struct SumMeter {
    value: u64,
}

impl PeakMeter {
    /// Nothing heard yet.
    pub fn new() -> PeakMeter
        ensures { ⟦<PeakMeter as Meter>⟧.reading_of result ≡ record { kind = Peak; value = 0 } }
    {
        PeakMeter { value: 0 }
    }
}

impl ClippedMeter {
    /// Nothing heard yet.
    pub fn new() -> ClippedMeter
        ensures { ⟦<ClippedMeter as Meter>⟧.reading_of result ≡ record { kind = Clipped; value = 0 } }
    {
        ClippedMeter { value: 0 }
    }
}

impl SumMeter {
    /// Nothing heard yet.
    pub fn new() -> SumMeter
        ensures { ⟦<SumMeter as Meter>⟧.reading_of result ≡ record { kind = Sum; value = 0 } }
    {
        SumMeter { value: 0 }
    }
}

impl Meter for PeakMeter {
    ghost reading_of = { λ m. record { kind = Peak; value = m.value } };

    fn kind(&self) -> MeterKind {
        MeterKind::Peak
    }

    fn value(&self) -> u64 {
        self.value
    }

    #[tactic(auto, unfolding(crate::specs::Hearing::after_hearing), using(crate::proofs::HearingLemmas::one_peak, crate::proofs::HearingLemmas::two_peak))]
    fn hear(&mut self, frame: &Frame) {
        let samples = frame.as_slice();
        // Most frames have one sample or two.
        match samples.len() {
            1 => self.value = self.value.max(size_at(samples, 0) as u64),
            2 => {
                let left = size_at(samples, 0);
                let right = size_at(samples, 1);
                self.value = self.value.max(left.max(right) as u64);
            }
            _ => self.value = self.value.max(peak_among(samples) as u64),
        }
    }

    fn hear_rows(&mut self, ticks: usize, rows: &[Row]) {
        let mut value = self.value();
        for row in rows {
            value = value.max(row.peak(ticks) as u64);
        }
        self.value = value;
    }
}

impl Meter for ClippedMeter {
    ghost reading_of = { λ m. record { kind = Clipped; value = m.value } };

    fn kind(&self) -> MeterKind {
        MeterKind::Clipped
    }

    fn value(&self) -> u64 {
        self.value
    }

    #[tactic(auto, unfolding(crate::specs::Hearing::after_hearing), using(crate::proofs::HearingLemmas::one_clipped, crate::proofs::HearingLemmas::two_clipped))]
    fn hear(&mut self, frame: &Frame) {
        let samples = frame.as_slice();
        match samples.len() {
            1 => self.value = self.value.saturating_add(clips_at(samples, 0) as u64),
            2 => {
                let left = clips_at(samples, 0);
                let right = clips_at(samples, 1);
                self.value = self.value.saturating_add((left + right) as u64);
            }
            _ => self.value = self.value.saturating_add(clipped_among(samples) as u64),
        }
    }

    fn hear_rows(&mut self, ticks: usize, rows: &[Row]) {
        let mut value = self.value();
        for row in rows {
            value = row.add_clipped(ticks, value);
        }
        self.value = value;
    }
}

impl Meter for SumMeter {
    ghost reading_of = { λ m. record { kind = Sum; value = m.value } };

    fn kind(&self) -> MeterKind {
        MeterKind::Sum
    }

    fn value(&self) -> u64 {
        self.value
    }

    #[tactic(auto, unfolding(crate::specs::Hearing::after_hearing), using(crate::proofs::HearingLemmas::one_added, crate::proofs::HearingLemmas::two_added))]
    fn hear(&mut self, frame: &Frame) {
        let samples = frame.as_slice();
        match samples.len() {
            1 => self.value = self.value.saturating_add(size_at(samples, 0) as u64),
            2 => {
                let left = size_at(samples, 0) as u64;
                let right = size_at(samples, 1) as u64;
                self.value = self.value.saturating_add(left + right);
            }
            _ => self.value = self.value.saturating_add(sum_among(samples)),
        }
    }

    fn hear_rows(&mut self, ticks: usize, rows: &[Row]) {
        let mut value = self.value();
        for row in rows {
            value = row.add_sizes(ticks, value);
        }
        self.value = value;
    }
}

// The sample at a place without its sign.
fn size_at(samples: &[i32], at: usize) -> u32
    requires { at < length samples.now }
    ensures { result ≡ unsigned_abs (slice_index_or samples.now at (pos 0)) }
{
    samples[at].unsigned_abs()
}

// One where the sample at a place stands at full scale, else none.
fn clips_at(samples: &[i32], at: usize) -> u32
    requires { at < length samples.now }
    ensures clipped { result ≡ (if is_clipped (slice_index_or samples.now at (pos 0)) then 1 else 0) }
    ensures small { result ≤ 1 }
{
    let sample = samples[at];
    if sample == i32::MAX || sample == i32::MIN {
        1
    } else {
        0
    }
}
