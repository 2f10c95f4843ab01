// The units as they stand in the definitions, one sample after the other.

ghost use Rattle.std.specs.Prelude.{◌≡◌, ◌↔◌, ◌+◌, ◌*◌, ◌^◌, ◌<◌, length, true};
ghost use Rattle.uac_units.specs.declared.jobs.UnitKind.TheVariants.{Mixer, Selector, Feature, Effect};
ghost use Rattle.uac_gain.specs.Gain.{scaled_sample};
ghost use Rattle.uac_units.specs.Rendering.{FitsKind, input, pins_sample, job_samples};
ghost use Rattle.uac_units.specs.Unity.{HasUnity};

use crate::channels::fit;
use crate::jobs::{Job, Pins, UnitKind};
use crate::plain_rows::render_rows_as;
use crate::row::Row;
use crate::steps::Steps;
use crate::unit::Unit;
use uac_gain::laws::{scaling_keeps_the_sign, unity_changes_nothing};
use uac_gain::{saturate, scale};
use uac_pcm::Frame;

/// A gain of 0 decibels.
pub(crate) const UNITY: u32 = 1073741824;

/// A mixer (Audio Class 2.0, 3.13.3): each output is the saturated sum of all inputs, each scaled by its node's gain.
#[derive(Drop)]
pub struct PlainMixer;

/// A selector (Audio Class 2.0, 3.13.4): the outputs are its chosen pin's channels.
#[derive(Drop)]
pub struct PlainSelector;

/// A feature (Audio Class 2.0, 3.13.5): each channel is scaled by its own gain and then by the master's.
#[derive(Drop)]
pub struct PlainFeature;

/// An effect (Audio Class 2.0, 3.13.7), bypassed: the outputs are its inputs.
#[derive(Drop)]
pub struct PlainEffect;

impl Unit for PlainMixer {
    ghost kind_of = { λ _. Mixer };

    fn kind(&self) -> UnitKind {
        UnitKind::Mixer
    }

    fn render(&self, job: &Job, pins: &Pins, out: &mut Frame, steps: &mut Steps) {
        render_as(UnitKind::Mixer, job, pins, out, steps);
    }

    fn render_rows(
        &self,
        job: &Job,
        ticks: usize,
        inputs: &[Row],
        out: &mut [Row],
        steps: &mut Steps,
    ) {
        render_rows_as(UnitKind::Mixer, job, ticks, inputs, out, steps);
    }
}

impl Unit for PlainSelector {
    ghost kind_of = { λ _. Selector };

    fn kind(&self) -> UnitKind {
        UnitKind::Selector
    }

    fn render(&self, job: &Job, pins: &Pins, out: &mut Frame, steps: &mut Steps) {
        render_as(UnitKind::Selector, job, pins, out, steps);
    }

    fn render_rows(
        &self,
        job: &Job,
        ticks: usize,
        inputs: &[Row],
        out: &mut [Row],
        steps: &mut Steps,
    ) {
        render_rows_as(UnitKind::Selector, job, ticks, inputs, out, steps);
    }
}

impl Unit for PlainFeature {
    ghost kind_of = { λ _. Feature };

    fn kind(&self) -> UnitKind {
        UnitKind::Feature
    }

    fn render(&self, job: &Job, pins: &Pins, out: &mut Frame, steps: &mut Steps) {
        render_as(UnitKind::Feature, job, pins, out, steps);
    }

    fn render_rows(
        &self,
        job: &Job,
        ticks: usize,
        inputs: &[Row],
        out: &mut [Row],
        steps: &mut Steps,
    ) {
        render_rows_as(UnitKind::Feature, job, ticks, inputs, out, steps);
    }
}

impl Unit for PlainEffect {
    ghost kind_of = { λ _. Effect };

    fn kind(&self) -> UnitKind {
        UnitKind::Effect
    }

    fn render(&self, job: &Job, pins: &Pins, out: &mut Frame, steps: &mut Steps) {
        render_as(UnitKind::Effect, job, pins, out, steps);
    }

    fn render_rows(
        &self,
        job: &Job,
        ticks: usize,
        inputs: &[Row],
        out: &mut [Row],
        steps: &mut Steps,
    ) {
        render_rows_as(UnitKind::Effect, job, ticks, inputs, out, steps);
    }
}

/// Makes `out` the samples of a unit of that kind, and counts one render. Each unit has it for its own kind alone, and asks for none.
#[inline(always)]
fn render_as(kind: UnitKind, job: &Job, pins: &Pins, out: &mut Frame, steps: &mut Steps)
    requires fits { FitsKind kind job.now pins.now.items }
    requires room { steps.old + 1 < 2 ^ 64 }
    ensures samples { out.new.items ≡ job_samples kind job.now pins.now.items }
    ensures counted { steps.new ≡ steps.old + 1 }
{
    steps.tick();
    if out.len() == job.outputs as usize {
        render_samples(kind, job, pins.as_slice(), out.as_mut_slice());
    } else {
        render_anew(kind, job, pins, out);
    }
}

/// Makes `out` the samples of a unit of that kind, where it hasn't as many channels.
#[cold]
#[inline(never)]
fn render_anew(kind: UnitKind, job: &Job, pins: &Pins, out: &mut Frame)
    requires { FitsKind kind job.now pins.now.items }
    ensures { out.new.items ≡ job_samples kind job.now pins.now.items }
{
    fit(out, job.outputs as usize);
    render_samples(kind, job, pins.as_slice(), out.as_mut_slice());
}

/// Writes the samples of a unit of that kind over so many others.
#[inline(always)]
fn render_samples(kind: UnitKind, job: &Job, inputs: &[i32], out: &mut [i32])
    requires fits { FitsKind kind job.now inputs.now }
    requires sized { length out.old ≡ job.now.outputs }
    ensures { out.new ≡ job_samples kind job.now inputs.now }
{
    match kind {
        UnitKind::Mixer => render_mixer(job, inputs, out),
        UnitKind::Selector => render_selector(job, inputs, out),
        UnitKind::Feature => render_feature(job, inputs, out),
        UnitKind::Effect => out.copy_from_slice(inputs),
    }
}

/// Writes the samples of a mixer: each output the saturated sum of all inputs, each scaled by the gain of its node.
fn render_mixer(job: &Job, inputs: &[i32], out: &mut [i32])
    requires fits { FitsKind Mixer job.now inputs.now }
    requires sized { length out.old ≡ job.now.outputs }
    ensures { out.new ≡ job_samples Mixer job.now inputs.now }
{
    for channel in 0..out.len() {
        out[channel] = mix(job, inputs, channel);
    }
}

/// Writes the samples of a feature: each channel scaled by its own gain and then by the master's. Most features have one channel or two
/// and gains of 0 decibels, which change no sample.
#[inline(always)]
fn render_feature(job: &Job, inputs: &[i32], out: &mut [i32])
    requires fits { FitsKind Feature job.now inputs.now }
    requires sized { length out.old ≡ job.now.outputs }
    ensures { out.new ≡ job_samples Feature job.now inputs.now }
{
    match out.len() {
        1 => render_only(job, inputs, out),
        2 => render_pair(job, inputs, out),
        _ => render_channels(job, inputs, out),
    }
}

/// Writes the sample of a feature of one channel.
fn render_only(job: &Job, inputs: &[i32], out: &mut [i32])
    requires fits { FitsKind Feature job.now inputs.now }
    requires sized { length out.old ≡ job.now.outputs }
    requires one { job.now.outputs ≡ 1 }
    ensures { out.new ≡ job_samples Feature job.now inputs.now }
{
    if stays(job, 0) {
        let only = unity_sample(job, inputs, 0);
        out[0] = only;
    } else {
        render_channels(job, inputs, out);
    }
}

/// Writes the samples of a feature of two channels.
fn render_pair(job: &Job, inputs: &[i32], out: &mut [i32])
    requires fits { FitsKind Feature job.now inputs.now }
    requires sized { length out.old ≡ job.now.outputs }
    requires two { job.now.outputs ≡ 2 }
    ensures { out.new ≡ job_samples Feature job.now inputs.now }
{
    if stays(job, 0) && stays(job, 1) {
        let left = unity_sample(job, inputs, 0);
        let right = unity_sample(job, inputs, 1);
        out[0] = left;
        out[1] = right;
    } else {
        render_channels(job, inputs, out);
    }
}

/// Whether both gains of a channel of a feature are 0 decibels.
fn stays(job: &Job, channel: usize) -> bool
    requires { 2 * channel + 1 < length job.now.gains.items }
    ensures { (result ≡ true) ↔ HasUnity job.now channel }
{
    let gains = job.gains.as_slice();
    gains[2 * channel] == UNITY && gains[2 * channel + 1] == UNITY
}

/// The sample of a channel of a feature whose gains are both 0 decibels: its input.
fn unity_sample(job: &Job, inputs: &[i32], channel: usize) -> i32
    requires inside { channel < length inputs.now }
    requires gains { HasUnity job.now channel }
    ensures { result ≡ pins_sample Feature job.now inputs.now channel }
{
    unity_changes_nothing();
    input_of(inputs, channel)
}

/// Writes the samples of a feature with any channels and gains.
#[inline(never)]
fn render_channels(job: &Job, inputs: &[i32], out: &mut [i32])
    requires fits { FitsKind Feature job.now inputs.now }
    requires sized { length out.old ≡ job.now.outputs }
    ensures { out.new ≡ job_samples Feature job.now inputs.now }
{
    let gains = job.gains.as_slice();
    for channel in 0..out.len() {
        let own = scaled_input(inputs, channel, gains[2 * channel]);
        out[channel] = scaled_by(own, gains[2 * channel + 1]);
    }
}

/// Writes the samples of a selector: the channels of its chosen pin.
fn render_selector(job: &Job, inputs: &[i32], out: &mut [i32])
    requires fits { FitsKind Selector job.now inputs.now }
    requires sized { length out.old ≡ job.now.outputs }
    ensures { out.new ≡ job_samples Selector job.now inputs.now }
{
    let from = job.pin as usize * out.len();
    for channel in 0..out.len() {
        out[channel] = input_of(inputs, from + channel);
    }
}

/// The saturated sum of all inputs, each scaled by the gain of its node with this output.
pub(crate) fn mix(job: &Job, inputs: &[i32], channel: usize) -> i32
    requires fits { FitsKind Mixer job.now inputs.now }
    requires inside { channel < job.now.outputs }
    ensures { result ≡ pins_sample Mixer job.now inputs.now channel }
{
    let gains = job.gains.as_slice();
    let outputs = job.outputs as usize;
    let mut sum: i64 = 0;
    for at in 0..inputs.len() {
        sum += mixed_input(inputs, at, gains[at * outputs + channel]) as i64;
    }
    saturate(sum)
}

/// An input.
fn input_of(inputs: &[i32], at: usize) -> i32
    requires { at < length inputs.now }
    ensures { result ≡ input inputs.now at }
{
    inputs[at]
}

/// An input, scaled by the gain of a node. Most nodes of a mixer are silent, whatever the input.
fn mixed_input(inputs: &[i32], at: usize, gain: u32) -> i32
    requires { at < length inputs.now }
    ensures { result ≡ scaled_sample (input inputs.now at) gain }
{
    if gain == 0 {
        scaling_keeps_the_sign();
        0
    } else {
        scaled_input(inputs, at, gain)
    }
}

/// An input, scaled by a gain.
fn scaled_input(inputs: &[i32], at: usize, gain: u32) -> i32
    requires { at < length inputs.now }
    ensures { result ≡ scaled_sample (input inputs.now at) gain }
{
    scaled_by(inputs[at], gain)
}

/// A sample, scaled by a gain. Most gains are 0 decibels, which changes none.
fn scaled_by(sample: i32, gain: u32) -> i32
    ensures { result ≡ scaled_sample sample gain }
{
    if gain == UNITY {
        unity_changes_nothing();
        sample
    } else {
        scale(sample, gain)
    }
}
