// The units on vectors of eight lanes: whole eights of channels at a time, and the rest one after the other.

ghost use Rattle.std.specs.Prelude.{◌≡◌, ◌+◌, ◌*◌, ◌/◌, ◌^◌, ◌<◌, ◌≤◌, map};
ghost use Rattle.std.specs.List.{range_with_len};
ghost use Rattle.std.specs.Prelude.{FitsSigned};
ghost use Rattle.std.specs.Int.{w32};
ghost use Rattle.std.specs.Simd.Lanes.{Each1};
ghost use Rattle.uac_units.specs.declared.jobs.UnitKind.{UnitKind};
ghost use Rattle.uac_units.specs.declared.jobs.UnitKind.TheVariants.{Mixer, Selector, Feature, Effect};
ghost use Rattle.uac_units.specs.SampleLanes.{eight};
ghost use Rattle.uac_units.specs.Rendering.{FitsKind, pins_sample, job_samples};

use crate::eights::{eight_gains, eight_inputs, narrow_eight, saturate_eight, scale_eight};
use crate::jobs::{Job, Pins, UnitKind};
use crate::nodes::{add_scaled, eight_nodes};
use crate::plain::mix;
use crate::steps::Steps;
use crate::unit::Unit;
use std::simd::prelude::*;
use uac_gain::scale;
use uac_pcm::Frame;

/// A mixer (Audio Class 2.0, 3.13.3) on eight lanes.
#[derive(Drop)]
pub struct LaneMixer;

/// A selector (Audio Class 2.0, 3.13.4) on eight lanes.
#[derive(Drop)]
pub struct LaneSelector;

/// A feature (Audio Class 2.0, 3.13.5) on eight lanes.
#[derive(Drop)]
pub struct LaneFeature;

/// An effect (Audio Class 2.0, 3.13.7), bypassed, on eight lanes.
#[derive(Drop)]
pub struct LaneEffect;

/// What a kind of unit makes on lanes: the samples of eight output channels at a time, and the sample of one.
trait OnLanes {
    ghost lane_kind: { UnitKind };

    /// The samples of eight output channels, from this one on.
    fn eight(job: &Job, pins: &Pins, from: usize) -> i64x8
        requires fits { FitsKind lane_kind job.now pins.now.items }
        requires inside { from + 8 ≤ job.now.outputs }
        ensures lanes { result ≡ eight (λ lane. pins_sample lane_kind job.now pins.now.items (from + lane)) }
        ensures narrow { Each1 (FitsSigned w32) result };

    /// The sample of an output channel.
    fn one(job: &Job, pins: &Pins, channel: usize) -> i32
        requires fits { FitsKind lane_kind job.now pins.now.items }
        requires inside { channel < job.now.outputs }
        ensures { result ≡ pins_sample lane_kind job.now pins.now.items channel };
}

impl OnLanes for LaneMixer {
    ghost lane_kind = { Mixer };

    fn eight(job: &Job, pins: &Pins, from: usize) -> i64x8 {
        mix_eight(job, pins, from)
    }

    fn one(job: &Job, pins: &Pins, channel: usize) -> i32 {
        mix(job, pins.as_slice(), channel)
    }
}

impl OnLanes for LaneSelector {
    ghost lane_kind = { Selector };

    fn eight(job: &Job, pins: &Pins, from: usize) -> i64x8 {
        eight_inputs(pins, job.pin as usize * job.outputs as usize + from)
    }

    fn one(job: &Job, pins: &Pins, channel: usize) -> i32 {
        pins[job.pin as usize * job.outputs as usize + channel]
    }
}

impl OnLanes for LaneFeature {
    ghost lane_kind = { Feature };

    fn eight(job: &Job, pins: &Pins, from: usize) -> i64x8 {
        feature_eight(job, pins, from)
    }

    fn one(job: &Job, pins: &Pins, channel: usize) -> i32 {
        let own = scale(pins[channel], job.gains[2 * channel]);
        scale(own, job.gains[2 * channel + 1])
    }
}

impl OnLanes for LaneEffect {
    ghost lane_kind = { Effect };

    fn eight(job: &Job, pins: &Pins, from: usize) -> i64x8 {
        eight_inputs(pins, from)
    }

    fn one(_job: &Job, pins: &Pins, channel: usize) -> i32 {
        pins[channel]
    }
}

impl Unit for LaneMixer {
    ghost kind_of = { λ _. Mixer };

    fn kind(&self) -> UnitKind {
        UnitKind::Mixer
    }

    fn render(&self, job: &Job, pins: &Pins, out: &mut Frame, steps: &mut Steps) {
        render_by_lanes::<LaneMixer>(job, pins, out, steps);
    }
}

impl Unit for LaneSelector {
    ghost kind_of = { λ _. Selector };

    fn kind(&self) -> UnitKind {
        UnitKind::Selector
    }

    fn render(&self, job: &Job, pins: &Pins, out: &mut Frame, steps: &mut Steps) {
        render_by_lanes::<LaneSelector>(job, pins, out, steps);
    }
}

impl Unit for LaneFeature {
    ghost kind_of = { λ _. Feature };

    fn kind(&self) -> UnitKind {
        UnitKind::Feature
    }

    fn render(&self, job: &Job, pins: &Pins, out: &mut Frame, steps: &mut Steps) {
        render_by_lanes::<LaneFeature>(job, pins, out, steps);
    }
}

impl Unit for LaneEffect {
    ghost kind_of = { λ _. Effect };

    fn kind(&self) -> UnitKind {
        UnitKind::Effect
    }

    fn render(&self, job: &Job, pins: &Pins, out: &mut Frame, steps: &mut Steps) {
        render_by_lanes::<LaneEffect>(job, pins, out, steps);
    }
}

/// Makes `out` the samples of a kind of unit, and counts one render. Each kind has these loops for itself, and asks for none in them.
fn render_by_lanes<U: OnLanes>(job: &Job, pins: &Pins, out: &mut Frame, steps: &mut Steps)
    requires fits { FitsKind U.lane_kind job.now pins.now.items }
    requires room { steps.old + 1 < 2 ^ 64 }
    ensures samples { out.new.items ≡ job_samples U.lane_kind job.now pins.now.items }
    ensures counted { steps.new ≡ steps.old + 1 }
{
    render_eights::<U>(job, pins, out);
    for channel in job.outputs as usize / 8 * 8..job.outputs as usize {
        out.push(U::one(job, pins, channel));
    }
    steps.tick();
}

/// Makes `out` the samples of the output channels that come in whole eights.
fn render_eights<U: OnLanes>(job: &Job, pins: &Pins, out: &mut Frame)
    requires { FitsKind U.lane_kind job.now pins.now.items }
    ensures { out.new.items ≡ map (pins_sample U.lane_kind job.now pins.now.items) (range_with_len 0 (job.now.outputs / 8 * 8)) }
{
    out.clear();
    for block in 0..job.outputs as usize / 8 {
        let samples = narrow_eight(U::eight(job, pins, 8 * block)).to_array();
        let _ = out.try_extend_from_slice(&samples);
    }
}

/// Eight channels of a feature, each scaled by its own gain and then by the master's.
fn feature_eight(job: &Job, pins: &Pins, from: usize) -> i64x8
    requires fits { FitsKind Feature job.now pins.now.items }
    requires inside { from + 8 ≤ job.now.outputs }
    ensures lanes { result ≡ eight (λ lane. pins_sample Feature job.now pins.now.items (from + lane)) }
    ensures narrow { Each1 (FitsSigned w32) result }
{
    let own = scale_eight(eight_inputs(pins, from), eight_gains(job, 2 * from, 2));
    scale_eight(own, eight_gains(job, 2 * from + 1, 2))
}

/// Eight outputs of a mixer: the saturated sums of all inputs, each scaled by the gain of its node.
fn mix_eight(job: &Job, pins: &Pins, from: usize) -> i64x8
    requires fits { FitsKind Mixer job.now pins.now.items }
    requires inside { from + 8 ≤ job.now.outputs }
    ensures lanes { result ≡ eight (λ lane. pins_sample Mixer job.now pins.now.items (from + lane)) }
    ensures narrow { Each1 (FitsSigned w32) result }
{
    let outputs = job.outputs as usize;
    let mut sums = i64x8::splat(0);
    for at in 0..pins.len() {
        sums = add_scaled(sums, pins[at], eight_nodes(job, at * outputs + from));
    }
    saturate_eight(sums)
}
