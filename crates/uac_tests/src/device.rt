// A small function: a jack through a feature to a jack and to a terminal of the bus, under one clock.

ghost use Rattle.std.specs.Prelude.{◌≡◌, IsTrue, length, true};
ghost use Rattle.uac_graph.specs.Meaning.{entity};
ghost use Rattle.uac_units.specs.Fitting.{IsFitted};
ghost use Rattle.uac_device.specs.DeviceWorld.{is_input_jack};

use crate::blocks::{clock, control, feature, function_of, input, output, push};
use crate::racks::plain_rack;
use crate::store::key;
use crate::streams::{lose_a_packet, play_and_record, push_streams};
use arrayvec::ArrayVec;
use std::alloc::{AllocError, Global};
use std::process::Abort;
use std::test::Fail;
use uac_descriptor::Block;
use uac_device::{Device, Ticked};
use uac_entities::{Entity, EntityKind, USB_STREAMING};
use uac_graph::laws::fresh_steps_have_room;
use uac_pcm::Frame;
use uac_request::{Answer, Setup};
use uac_units::{ClippedMeter, Meter, Meters, PeakMeter, Rack, Steps, SumMeter, Unit};

/// Clock 1; jack 2 of three channels feeds feature 3, which feeds jack 4 and the terminal 5 of the bus.
fn push_jacks(alloc: Global, blocks: &mut Vec<Block>) -> Result<(), AllocError> {
    push(blocks, control(0))?;
    push(blocks, clock(1, 3))?;
    push(blocks, input(2, 0x0201, 3, 3))?;
    let middle = feature(alloc, 3, 2, &[15, 15, 15, 15])?;
    push(blocks, middle)?;
    push(blocks, output(4, 0x0301, 3))?;
    push(blocks, output(5, 0x0101, 3))
}

/// What is tried on a new device.
#[derive(Clone, Copy)]
pub(crate) enum Trial {
    Frame,
    FastClock,
    Control,
    Start,
    Streams,
    Loss,
}

fn push_for(trial: Trial, alloc: Global, blocks: &mut Vec<Block>) -> Result<(), AllocError> {
    match trial {
        Trial::Frame | Trial::FastClock | Trial::Control | Trial::Start => {
            push_jacks(alloc, blocks)
        }
        Trial::Streams | Trial::Loss => push_streams(blocks),
    }
}

fn device_of(alloc: Global, blocks: &[Block]) -> Result<Device, AllocError> {
    let function = function_of(alloc, blocks)?;
    match Device::new(alloc, function) {
        Ok(device) => Ok(device),
        Err(_) => Err(AllocError),
    }
}

fn device(alloc: Global, trial: Trial) -> Result<Device, AllocError> {
    let mut blocks = Vec::new(alloc);
    push_for(trial, alloc, &mut blocks)?;
    device_of(alloc, blocks.as_slice())
}

fn push_meters(alloc: Global, list: &mut Vec<Box<dyn Meter>>) -> Result<(), AllocError> {
    list.push(Box::new(alloc, PeakMeter::new())?)?;
    list.push(Box::new(alloc, ClippedMeter::new())?)?;
    list.push(Box::new(alloc, SumMeter::new())?)?;
    Ok(())
}

fn meters(alloc: Global) -> Result<Meters, AllocError> {
    let mut list: Vec<Box<dyn Meter>> = Vec::new(alloc);
    push_meters(alloc, &mut list)?;
    Ok(Meters::new(list))
}

// The device, the rack and the meters are each let go of at one place, since a proof has every step of that at each.
fn try_on_device(
    rt: &impl Abort,
    alloc: Global,
    trial: Trial,
    rack: &Rack,
    meters: &mut Meters,
) -> Result<(), AllocError>
    requires { IsFitted (λ v x. (⟦<dyn Unit as Unit>⟧ v).kind_of x) rack.now }
{
    let mut device = device(alloc, trial)?;
    act(rt, trial, &mut device, rack, meters);
    Ok(())
}

fn try_with_rack(
    rt: &impl Abort,
    alloc: Global,
    trial: Trial,
    rack: &Rack,
) -> Result<(), AllocError>
    requires { IsFitted (λ v x. (⟦<dyn Unit as Unit>⟧ v).kind_of x) rack.now }
{
    let mut meters = meters(alloc)?;
    try_on_device(rt, alloc, trial, rack, &mut meters)
}

/// Tries this on a new device.
pub(crate) fn try_out(rt: &impl Abort, alloc: Global, trial: Trial) -> Result<(), AllocError> {
    let rack = plain_rack(alloc)?;
    try_with_rack(rt, alloc, trial, &rack)
}

fn act(rt: &impl Abort, trial: Trial, device: &mut Device, rack: &Rack, meters: &mut Meters)
    requires { IsFitted (λ v x. (⟦<dyn Unit as Unit>⟧ v).kind_of x) rack.now }
{
    match trial {
        Trial::Frame => play_a_frame(rt, device, rack, meters),
        Trial::FastClock => run_fast(rt, device),
        Trial::Control => set_a_control(rt, device),
        Trial::Start => look_at_the_start(rt, device),
        Trial::Streams => play_and_record(rt, device, rack, meters),
        Trial::Loss => lose_a_packet(rt, device),
    }
}

/// Whether the id is of an input jack of as many channels as the frame has.
fn takes(device: &Device, terminal: u8, frame: &Frame) -> bool
    ensures jack { IsTrue result → is_input_jack (entity device.now.function.entities terminal) ≡ true }
    ensures channels { IsTrue result → length frame.now.items ≡ (entity device.now.function.entities terminal).cluster.channels }
{
    let function = device.function();
    match function.find(terminal) {
        Some(place) => is_taken(&function.entities()[place], frame.len()),
        None => false,
    }
}

fn is_taken(entity: &Entity, samples: usize) -> bool
    ensures jack { IsTrue result → is_input_jack entity.now ≡ true }
    ensures channels { IsTrue result → samples ≡ entity.now.cluster.channels }
{
    match entity.kind {
        EntityKind::InputTerminal => {
            entity.terminal_type != USB_STREAMING && samples == entity.cluster.channels as usize
        }
        EntityKind::OutputTerminal
        | EntityKind::Mixer
        | EntityKind::Selector
        | EntityKind::Feature
        | EntityKind::Effect
        | EntityKind::ClockSource
        | EntityKind::ClockSelector
        | EntityKind::ClockMultiplier => false,
    }
}

pub(crate) fn give(device: &mut Device, terminal: u8, samples: &[i32]) -> bool {
    let mut frame: Frame = ArrayVec::new();
    let _ = frame.try_extend_from_slice(samples);
    if !takes(device, terminal, &frame) {
        return false;
    }
    device.jack(terminal, &frame);
    true
}

/// Whether an output jack last played these samples.
pub(crate) fn has_played(device: &Device, terminal: u8, samples: &[i32]) -> bool {
    match device.played(terminal) {
        Some(frame) => frame.as_slice() == samples,
        None => false,
    }
}

/// One tick of a domain: what it met, and how often units were rendered.
pub(crate) fn tick(
    device: &mut Device,
    domain: u8,
    rack: &Rack,
    meters: &mut Meters,
) -> (Ticked, u64)
    requires { IsFitted (λ v x. (⟦<dyn Unit as Unit>⟧ v).kind_of x) rack.now }
{
    let mut steps = Steps::new();
    fresh_steps_have_room(device.function());
    let ticked = device.tick(domain, rack, meters, &mut steps);
    (ticked, steps.count())
}

fn play_a_frame(rt: &impl Abort, device: &mut Device, rack: &Rack, meters: &mut Meters)
    requires { IsFitted (λ v x. (⟦<dyn Unit as Unit>⟧ v).kind_of x) rack.now }
{
    assert!(rt; has_played(device, 4, &[0, 0, 0]));
    assert!(rt; give(device, 2, &[-3, 100, 2147483647]));
    assert!(rt; tick(device, 9, rack, meters).1 == 0);
    assert!(rt; has_played(device, 4, &[0, 0, 0]));
    for _each in 0..2 {
        let (ticked, steps) = tick(device, 1, rack, meters);
        assert!(rt; ticked == (Ticked { under: 0, over: 0 }));
        assert!(rt; steps == 1);
    }
    assert!(rt; has_played(device, 4, &[-3, 100, 2147483647]));
    assert!(rt; device.played(2).is_none());
    assert!(rt; device.played(5).is_none());
    expect_readings(rt, meters);
}

fn expect_readings(rt: &impl Abort, meters: &Meters) {
    for (at, value) in [(0, 2147483647), (1, 2), (2, 4294967500)] {
        assert!(rt; at < meters.len());
        assert_eq!(rt; meters.value(at), value);
    }
}

#[test]
fn a_frame_is_played_and_heard(rt: HostRuntime) -> Result<(), Fail> {
    try_out(&rt, rt.alloc(), Trial::Frame)?;
    Ok(())
}

/// At 48000 Hz a microframe has 6 frames, 393216 parts of 65536. A clock that is fast by 1000 ppm gives 393 parts
/// more, and 167 times that is a frame: 65631 parts.
fn run_fast(rt: &impl Abort, device: &mut Device) {
    assert!(rt; device.ticks(1) == 6);
    assert!(rt; device.ticks(9) == 0);
    device.deviate(9, 100000);
    device.deviate(1, 1000);
    for _each in 0..166 {
        assert!(rt; device.ticks(1) == 6);
    }
    assert!(rt; device.ticks(1) == 7);
    assert!(rt; device.ticks(1) == 6);
}

#[test]
fn a_fast_clock_ticks_once_more(rt: HostRuntime) -> Result<(), Fail> {
    try_out(&rt, rt.alloc(), Trial::FastClock)?;
    Ok(())
}

/// A request of these eight bytes, with these after it.
pub(crate) fn ask(device: &mut Device, setup: [u8; 8], sent: &[u8]) -> Option<bool> {
    match device.control(&Setup::read(setup), sent) {
        Answer::Done => Some(true),
        Answer::Stall(_) => Some(false),
        Answer::Bytes(_) | Answer::Descriptor { .. } => None,
    }
}

fn set_a_control(rt: &impl Abort, device: &mut Device) {
    let mute = key(3, 1, 0);
    assert!(rt; ask(device, [0x21, 1, 0, 1, 0, 3, 1, 0], &[2]) == Some(false));
    assert!(rt; device.store().cur(mute) == Some(0));
    assert!(rt; ask(device, [0x21, 1, 0, 1, 0, 3, 1, 0], &[1]) == Some(true));
    assert!(rt; device.store().cur(mute) == Some(1));
    assert!(rt; ask(device, [0xa1, 1, 0, 1, 0, 3, 1, 0], &[]) == None);
    assert!(rt; ask(device, [1, 11, 0, 0, 0, 0, 0, 0], &[]) == Some(true));
}

#[test]
fn a_request_sets_a_control(rt: HostRuntime) -> Result<(), Fail> {
    try_out(&rt, rt.alloc(), Trial::Control)?;
    Ok(())
}

fn look_at_the_start(rt: &impl Abort, device: &Device) {
    assert!(rt; device.store().cur(key(1, 1, 0)) == Some(48000));
    assert!(rt; device.settings().get(0) == Some(0));
    assert!(rt; device.settings().get(1) == None);
    assert!(rt; device.level(1) == 0);
    assert!(rt; device.target(1).is_none());
    assert!(rt; device.function().domains().len() == 1);
}

#[test]
fn a_new_device_is_at_its_start(rt: HostRuntime) -> Result<(), Fail> {
    try_out(&rt, rt.alloc(), Trial::Start)?;
    Ok(())
}
