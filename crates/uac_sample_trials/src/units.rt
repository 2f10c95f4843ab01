// Worked rows through boxes, and a unit that counts how often it is asked.

ghost use Rattle.std.specs.Prelude.{◌≡◌, ◌+◌, ◌^◌, ◌<◌, ◌≤◌, length};
ghost use Rattle.uac_units.specs.Fitting.{IsFitted};
ghost use Rattle.uac_units.specs.Rendering.{FitsKind, job_samples};

use arrayvec::ArrayVec;
use std::cell::Cell;
use std::rc::Rc;
use std::test::Fail;
use uac_pcm::Frame;
use uac_units::{
    ClippedMeter, Job, LaneFeature, LaneMixer, Meter, MeterKind, Meters, PeakMeter, Pins,
    PlainEffect, PlainFeature, PlainMixer, PlainSelector, Rack, Steps, SumMeter, Unit, UnitKind,
};

/// A gain of 0 decibels, and one decibel down.
const FULL: u32 = 1073741824;

const DOWN: u32 = 956973408;

/// A unit that hands its job to another and counts the renders.
#[derive(Drop)]
struct Counting<U> {
    unit: U,
    renders: Rc<Cell<u64>>,
}

impl<U: Unit> Unit for Counting<U> {
    ghost kind_of = { λ c. U.kind_of c.unit };

    fn kind(&self) -> UnitKind {
        self.unit.kind()
    }

    fn render(&self, job: &Job, pins: &Pins, out: &mut Frame, steps: &mut Steps) {
        self.unit.render(job, pins, out, steps);
        self.renders.set(self.renders.get().saturating_add(1));
    }
}

/// A job of these numbers.
fn make_job(outputs: u8, pin: u16, gains: &[u32]) -> Job
    requires { length gains.now ≤ 256 }
    ensures outputs { result.outputs ≡ outputs }
    ensures pin { result.pin ≡ pin }
    ensures gains { result.gains.items ≡ gains.now }
{
    let mut list = ArrayVec::new();
    let _ = list.try_extend_from_slice(gains);
    Job {
        outputs,
        pin,
        gains: list,
    }
}

/// Inputs of these samples.
fn make_pins(samples: &[i32]) -> Pins
    requires { length samples.now ≤ 256 }
    ensures { result.items ≡ samples.now }
{
    let mut pins = ArrayVec::new();
    let _ = pins.try_extend_from_slice(samples);
    pins
}

/// What a unit makes of the job.
fn play(unit: &dyn Unit, job: &Job, pins: &Pins, steps: &mut Steps) -> Frame
    requires fits { FitsKind (kind_of unit.now) job.now pins.now.items }
    requires room { steps.old + 1 < 2 ^ 64 }
    ensures samples { result.items ≡ job_samples (kind_of unit.now) job.now pins.now.items }
    ensures counted { steps.new ≡ steps.old + 1 }
{
    let mut out = ArrayVec::new();
    unit.render(job, pins, &mut out, steps);
    out
}

/// What the rack's unit of that kind makes of the job.
fn play_on(rack: &Rack, kind: UnitKind, job: &Job, pins: &Pins, steps: &mut Steps) -> Frame
    requires rack { IsFitted (λ v x. (⟦<dyn Unit as Unit>⟧ v).kind_of x) rack.now }
    requires fits { FitsKind kind job.now pins.now.items }
    requires room { steps.old + 1 < 2 ^ 64 }
    ensures samples { result.items ≡ job_samples kind job.now pins.now.items }
    ensures counted { steps.new ≡ steps.old + 1 }
{
    play(rack.unit(kind), job, pins, steps)
}

#[test]
fn boxed_mixer_is_asked(rt: HostRuntime) -> Result<(), Fail> {
    let alloc = rt.alloc();
    let renders = Rc::new(alloc, Cell::new(0u64))?;
    let counting = Counting {
        unit: PlainMixer,
        renders: renders.clone()?,
    };
    let rack = Rack::new(
        Box::new(alloc, counting)?,
        Box::new(alloc, PlainSelector)?,
        Box::new(alloc, PlainFeature)?,
        Box::new(alloc, PlainEffect)?,
    );
    let mut steps = Steps::new();

    let pins = make_pins(&[2147483647, 2147483647]);
    let job = make_job(1, 0, &[FULL, FULL]);
    let mixed = play_on(&rack, UnitKind::Mixer, &job, &pins, &mut steps);
    assert_eq!(rt; mixed.as_slice(), [2147483647].as_slice());

    let pins = make_pins(&[-2147483648, -1]);
    let job = make_job(2, 0, &[FULL, 0, DOWN, FULL]);
    let mixed = play_on(&rack, UnitKind::Mixer, &job, &pins, &mut steps);
    assert_eq!(rt; mixed.as_slice(), [-2147483648, -1].as_slice());

    assert_eq!(rt; renders.get(), 2);
    assert_eq!(rt; steps.count(), 2);
    Ok(())
}

#[test]
fn worked_rows(rt: HostRuntime) {
    let mut steps = Steps::new();

    let pins = make_pins(&[1073741824, 1, -1]);
    let job = make_job(3, 0, &[DOWN, FULL, DOWN, FULL, FULL, DOWN]);
    let scaled = play(&PlainFeature, &job, &pins, &mut steps);
    assert_eq!(rt; scaled.as_slice(), [956973408, 0, -1].as_slice());

    let pins = make_pins(&[1, 2, 3, 4]);
    let chosen = play(&PlainSelector, &make_job(2, 1, &[]), &pins, &mut steps);
    assert_eq!(rt; chosen.as_slice(), [3, 4].as_slice());

    let pins = make_pins(&[5, -6]);
    let passed = play(&PlainEffect, &make_job(2, 0, &[]), &pins, &mut steps);
    assert_eq!(rt; passed.as_slice(), [5, -6].as_slice());
    assert_eq!(rt; steps.count(), 3);
}

#[test]
fn meters_hear_the_most_negative_sample(rt: HostRuntime) -> Result<(), Fail> {
    let alloc = rt.alloc();
    let mut list: Vec<Box<dyn Meter>> = Vec::new(alloc);
    list.push(Box::new(alloc, PeakMeter::new())?)?;
    list.push(Box::new(alloc, ClippedMeter::new())?)?;
    list.push(Box::new(alloc, SumMeter::new())?)?;
    let mut meters = Meters::new(list);
    assert_eq!(rt; meters.len(), 3);

    let mut frame: Frame = ArrayVec::new();
    frame.push(-2147483648);
    frame.push(2147483647);
    frame.push(-1);
    meters.hear(&frame);
    for (at, kind, value) in [
        (0, MeterKind::Peak, 2147483648),
        (1, MeterKind::Clipped, 2),
        (2, MeterKind::Sum, 4294967296),
    ] {
        assert!(rt; at < meters.len());
        assert_eq!(rt; meters.kind(at), kind);
        assert_eq!(rt; meters.value(at), value);
    }
    Ok(())
}

#[test]
fn lanes_and_the_rest(rt: HostRuntime) {
    let mut steps = Steps::new();
    let pins = make_pins(&[1073741824; 9]);
    let gains = [
        DOWN, FULL, DOWN, FULL, DOWN, FULL, DOWN, FULL, DOWN, FULL, DOWN, FULL, DOWN, FULL, DOWN,
        FULL, DOWN, FULL,
    ];
    let scaled = play(&LaneFeature, &make_job(9, 0, &gains), &pins, &mut steps);
    assert_eq!(rt; scaled.as_slice(), [956973408; 9].as_slice());
}

#[test]
fn plain_and_lane_mixers_agree(rt: HostRuntime) {
    let mut samples = [0i32; 16];
    for at in 0..16usize {
        samples[at] = at as i32 * 130000000 - 1000000000;
    }
    let mut gains = [0u32; 256];
    for at in 0..256usize {
        let step = at as u32 * 77 % 251;
        gains[at] = match at / 16 % 4 {
            0 => 0,
            1 => step % 2 * FULL,
            2 => step * 4000000,
            _ => FULL + step * 12000000,
        };
    }
    let mut steps = Steps::new();
    let pins = make_pins(&samples);
    let job = make_job(16, 0, &gains);
    let plain = play(&PlainMixer, &job, &pins, &mut steps);
    let lanes = play(&LaneMixer, &job, &pins, &mut steps);
    assert_eq!(rt; plain.len(), 16);
    assert_eq!(rt; plain.as_slice(), lanes.as_slice());
}
