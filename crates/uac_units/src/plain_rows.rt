// The units as they stand in the definitions, at several ticks: one row after the other.

ghost use Rattle.std.specs.Prelude.{◌≡◌, ◌+◌, ◌*◌, ◌^◌, ◌<◌, ◌≤◌, ℕ, length, get_or, pos, true, []};
ghost use Rattle.uac_units.specs.declared.jobs.UnitKind.TheVariants.{Mixer, Feature};
ghost use Rattle.uac_units.specs.Rendering.{FitsKind, pins_sample};
ghost use Rattle.uac_units.specs.SampleRows.{AreRenderedRows, HasSamples, HaveTicks, frame_at, row_lengths, sample_at};

use crate::jobs::{Job, UnitKind};
use crate::row::Row;
use crate::row_frames::hush_rows;
use crate::steps::Steps;

/// How many ticks of a mixer are summed up at a time.
const PIECE: usize = 32;

/// Renders a job by a unit of that kind at each of so many ticks, and counts as many renders. Each unit has it for its own kind alone.
#[inline(always)]
pub(crate) fn render_rows_as(
    kind: UnitKind,
    job: &Job,
    ticks: usize,
    inputs: &[Row],
    out: &mut [Row],
    steps: &mut Steps,
)
    requires fits { FitsKind kind job.now (frame_at 0 inputs.now) }
    requires given { HaveTicks ticks inputs.now }
    requires sized { length out.old ≡ job.now.outputs }
    requires taken { HaveTicks ticks out.old }
    requires room { steps.old + ticks < 2 ^ 64 }
    ensures samples { AreRenderedRows kind job.now ticks inputs.now out.new }
    ensures lengths { row_lengths out.new ≡ row_lengths out.old }
    ensures counted { steps.new ≡ steps.old + ticks }
{
    steps.add(ticks);
    match kind {
        UnitKind::Mixer => mix_rows(job, ticks, inputs, out),
        UnitKind::Selector => pass_rows(ticks, inputs, job.pin as usize * out.len(), out),
        UnitKind::Feature => scale_rows(job, ticks, inputs, out),
        UnitKind::Effect => pass_rows(ticks, inputs, 0, out),
    }
}

/// Makes rows those of as many inputs, from that one on.
pub(crate) fn pass_rows(ticks: usize, inputs: &[Row], from: usize, out: &mut [Row])
    requires inside { from + length out.old ≤ length inputs.now }
    requires given { HaveTicks ticks inputs.now }
    requires taken { HaveTicks ticks out.old }
    ensures samples { (channel : ℕ) → channel < length out.new
        → HasSamples ticks (λ tick. sample_at tick (get_or inputs.now (from + channel) [])) (get_or out.new channel []) }
    ensures lengths { row_lengths out.new ≡ row_lengths out.old }
{
    for channel in 0..out.len() {
        out[channel].copy(ticks, &inputs[from + channel]);
    }
}

// Makes rows those of a feature: each input scaled by the channel's own gain and then by the master's.
fn scale_rows(job: &Job, ticks: usize, inputs: &[Row], out: &mut [Row])
    requires fits { FitsKind Feature job.now (frame_at 0 inputs.now) }
    requires given { HaveTicks ticks inputs.now }
    requires sized { length out.old ≡ job.now.outputs }
    requires taken { HaveTicks ticks out.old }
    ensures samples { (channel : ℕ) → channel < length out.new
        → HasSamples ticks (λ tick. pins_sample Feature job.now (frame_at tick inputs.now) channel) (get_or out.new channel []) }
    ensures lengths { row_lengths out.new ≡ row_lengths out.old }
{
    let gains = job.gains.as_slice();
    for channel in 0..out.len() {
        let own = gains[2 * channel];
        let master = gains[2 * channel + 1];
        out[channel].scale(ticks, &inputs[channel], own, master);
    }
}

/// Whether the samples of so many ticks are known to be 0 in all of these rows.
pub fn are_silent(rows: &[Row], ticks: usize) -> bool
    ensures { result ≡ true → (channel : ℕ) → HasSamples ticks (λ tick. pos 0) (get_or rows.now channel []) }
{
    for row in rows {
        if !row.is_silent(ticks) {
            return false;
        }
    }
    true
}

// Makes rows those of a mixer: each the saturated sums of all inputs, each scaled by the gain of its node. What it makes of silence is
// silence.
fn mix_rows(job: &Job, ticks: usize, inputs: &[Row], out: &mut [Row])
    requires fits { FitsKind Mixer job.now (frame_at 0 inputs.now) }
    requires given { HaveTicks ticks inputs.now }
    requires sized { length out.old ≡ job.now.outputs }
    requires taken { HaveTicks ticks out.old }
    ensures samples { (channel : ℕ) → channel < length out.new
        → HasSamples ticks (λ tick. pins_sample Mixer job.now (frame_at tick inputs.now) channel) (get_or out.new channel []) }
    ensures lengths { row_lengths out.new ≡ row_lengths out.old }
{
    if are_silent(inputs, ticks) {
        hush_rows(out, ticks);
        return;
    }
    for channel in 0..out.len() {
        mix_row(job, ticks, inputs, channel, &mut out[channel]);
    }
}

// Makes a row that of a mixer's output, piece by piece.
fn mix_row(job: &Job, ticks: usize, inputs: &[Row], channel: usize, row: &mut Row)
    requires fits { FitsKind Mixer job.now (frame_at 0 inputs.now) }
    requires inside { channel < job.now.outputs }
    requires given { HaveTicks ticks inputs.now }
    requires taken { ticks ≤ length row.old }
    ensures samples { HasSamples ticks (λ tick. pins_sample Mixer job.now (frame_at tick inputs.now) channel) row.new }
    ensures length { length row.new ≡ length row.old }
{
    for piece in 0..ticks / PIECE + 1 {
        let from = PIECE * piece;
        let count = PIECE.min(ticks - from);
        mix_piece(job, inputs, channel, from, count, row);
    }
}

// Makes a few samples of a row, from a tick on, those of a mixer's output. The samples before them stay.
fn mix_piece(job: &Job, inputs: &[Row], channel: usize, from: usize, count: usize, row: &mut Row)
    requires fits { FitsKind Mixer job.now (frame_at 0 inputs.now) }
    requires inside { channel < job.now.outputs }
    requires few { count ≤ 32 }
    requires given { HaveTicks (from + count) inputs.now }
    requires taken { from + count ≤ length row.old }
    ensures before { HasSamples from (λ tick. sample_at tick row.old) row.new }
    ensures samples { (tick : ℕ) → tick < count
        → sample_at (from + tick) row.new ≡ pins_sample Mixer job.now (frame_at (from + tick) inputs.now) channel }
    ensures length { length row.new ≡ length row.old }
{
    let mut sums = [0i64; PIECE];
    let gains = job.gains.as_slice();
    let outputs = job.outputs as usize;
    for at in 0..inputs.len() {
        let gain = gains[at * outputs + channel];
        inputs[at].add_to(from, count, gain, &mut sums);
    }
    row.saturate(from, count, &sums);
}
