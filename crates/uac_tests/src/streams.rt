// Streams of a small function: terminal 2 of the bus feeds jack 3, and jack 4 feeds terminal 5 of the bus, one channel each, under
// clock 1. Interface 7 goes to terminal 2, and interface 8 comes from terminal 5.

ghost use Rattle.uac_units.specs.Fitting.{IsFitted};

use crate::blocks::{endpoint, pcm, push, push_format, push_two_ways, streaming};
use crate::device::{Trial, ask, give, has_played, tick, try_out};
use arrayvec::ArrayVec;
use std::alloc::AllocError;
use std::process::Abort;
use std::test::Fail;
use uac_descriptor::Block;
use uac_device::{Arrival, Device, Ticked};
use uac_pcm::Packet;
use uac_units::{Meters, Rack, Unit};

// A setting with endpoints: samples of two bytes, at most 10 frames a packet, a packet each microframe.
fn push_setting(
    blocks: &mut Vec<Block>,
    number: u8,
    link: u8,
    endpoints: u8,
    address: u8,
) -> Result<(), AllocError> {
    push(blocks, streaming(number, 0, 0))?;
    push(blocks, streaming(number, 1, endpoints))?;
    push_format(blocks, pcm(link, 1), 2)?;
    push(blocks, endpoint(address, 5, 20, 1))
}

pub(crate) fn push_streams(blocks: &mut Vec<Block>) -> Result<(), AllocError> {
    push_two_ways(blocks, 0, 1)?;
    push_setting(blocks, 7, 2, 2, 0x01)?;
    push(blocks, endpoint(0x81, 0x11, 4, 4))?;
    push_setting(blocks, 8, 5, 1, 0x82)
}

/// A packet of so many frames of one sample, whose word tells its number.
fn packet(from: u8, frames: u8) -> Packet {
    let mut packet: Packet = ArrayVec::new();
    for number in 0..frames {
        let _ = packet.try_push(0);
        let _ = packet.try_push(from.wrapping_add(number));
    }
    packet
}

/// A full-scale sample whose upper byte is this.
fn sample(number: u8) -> i32 {
    i32::from(number) << 24
}

/// Sets an interface's setting.
fn set(device: &mut Device, interface: u8, setting: u8) -> bool {
    ask(device, [1, 11, setting, 0, interface, 0, 0, 0], &[]) == Some(true)
}

/// Whether so many packets of six frames are taken, each followed by a tick that plays silence and by the end of its microframe.
fn fills(device: &mut Device, rack: &Rack, meters: &mut Meters, packets: u8) -> bool
    requires { IsFitted (λ v x. (⟦<dyn Unit as Unit>⟧ v).kind_of x) rack.now }
{
    for number in 0..packets {
        let arrival = device.microframe_out(7, Some(&packet(number.wrapping_mul(6), 6)));
        let ticked = tick(device, 1, rack, meters).0;
        device.settle(7);
        if arrival != Arrival::Taken || ticked.under != 0 || !has_played(device, 3, &[0]) {
            return false;
        }
    }
    true
}

/// Whether so many ticks play the numbered samples, and none finds a ring empty or full.
fn plays_on(device: &mut Device, rack: &Rack, meters: &mut Meters, count: u8) -> bool
    requires { IsFitted (λ v x. (⟦<dyn Unit as Unit>⟧ v).kind_of x) rack.now }
{
    for number in 0..count {
        let ticked = tick(device, 1, rack, meters).0;
        if ticked != (Ticked { under: 0, over: 0 }) || !has_played(device, 3, &[sample(number)]) {
            return false;
        }
    }
    true
}

/// Does so many ticks, and answers what the last one met.
fn ticks_on(device: &mut Device, rack: &Rack, meters: &mut Meters, count: u32) -> Ticked
    requires { IsFitted (λ v x. (⟦<dyn Unit as Unit>⟧ v).kind_of x) rack.now }
{
    let mut last = Ticked { under: 0, over: 0 };
    for _ in 0..count {
        last = tick(device, 1, rack, meters).0;
    }
    last
}

fn settles(device: &mut Device, microframes: u8) {
    for _ in 0..microframes {
        device.settle(7);
    }
}

/// Whether a stream is primed by 43 packets of 6 frames, which are 258, and plays them. After 48 microframes its level is 100 below the
/// target, and the report that is due is held at 7 frames. When its ring is empty it primes again.
fn plays(device: &mut Device, rack: &Rack, meters: &mut Meters) -> bool
    requires { IsFitted (λ v x. (⟦<dyn Unit as Unit>⟧ v).kind_of x) rack.now }
{
    if !set(device, 7, 1) || !fills(device, rack, meters, 43) {
        return false;
    }
    if device.level(7) != 258 || device.target(7) != Some(258) || device.feedback(7).is_some() {
        return false;
    }
    if !plays_on(device, rack, meters, 100) || device.level(7) != 158 {
        return false;
    }
    settles(device, 5);
    device.feedback(7) == Some(458752)
        && ticks_on(device, rack, meters, 158).under == 0
        && ticks_on(device, rack, meters, 1).under == 1
        && device.target(7).is_none()
        && has_played(device, 3, &[0])
}

/// Whether jack 4 gives the samples from 1 on, one at each tick.
fn gives(device: &mut Device, rack: &Rack, meters: &mut Meters, count: u8) -> bool
    requires { IsFitted (λ v x. (⟦<dyn Unit as Unit>⟧ v).kind_of x) rack.now }
{
    for number in 0..count {
        if !give(device, 4, &[sample(number.wrapping_add(1))]) {
            return false;
        }
        let _ticked = tick(device, 1, rack, meters);
    }
    true
}

/// Whether a stream takes what is played to it, at most 10 frames a packet, until its ring is full.
fn records(device: &mut Device, rack: &Rack, meters: &mut Meters) -> bool
    requires { IsFitted (λ v x. (⟦<dyn Unit as Unit>⟧ v).kind_of x) rack.now }
{
    let mut packet: Packet = ArrayVec::new();
    if !set(device, 8, 1) || !gives(device, rack, meters, 12) || device.level(8) != 12 {
        return false;
    }
    let ten = [0, 1, 0, 2, 0, 3, 0, 4, 0, 5, 0, 6, 0, 7, 0, 8, 0, 9, 0, 10];
    if device.microframe_in(8, &mut packet) != 10 || packet.as_slice() != ten.as_slice() {
        return false;
    }
    device.microframe_in(8, &mut packet) == 2
        && device.microframe_in(7, &mut packet) == 0
        && packet.len() == 0
        && ticks_on(device, rack, meters, 2048).over == 0
        && ticks_on(device, rack, meters, 1).over == 2
}

pub(crate) fn play_and_record(
    rt: &impl Abort,
    device: &mut Device,
    rack: &Rack,
    meters: &mut Meters,
)
    requires { IsFitted (λ v x. (⟦<dyn Unit as Unit>⟧ v).kind_of x) rack.now }
{
    assert!(rt; plays(device, rack, meters));
    assert!(rt; records(device, rack, meters));
}

#[test]
fn streams_play_and_record(rt: HostRuntime) -> Result<(), Fail> {
    try_out(&rt, rt.alloc(), Trial::Streams)?;
    Ok(())
}

/// Whether zeros replace a lost packet, one for each of the 6 ticks of its microframe.
fn replaces(device: &mut Device) -> bool {
    device.microframe_out(7, None) == Arrival::Lost
        && device.ticks(1) == 6
        && {
            device.settle(7);
            device.level(7) == 6
        }
}

/// Whether a setting that is set starts the stream anew, and setting 0 stops it.
fn starts_anew(device: &mut Device) -> bool {
    set(device, 7, 1)
        && device.level(7) == 0
        && device.due(7)
        && set(device, 7, 0)
        && !device.due(7)
}

pub(crate) fn lose_a_packet(rt: &impl Abort, device: &mut Device) {
    assert!(rt; set(device, 7, 1));
    assert!(rt; replaces(device));
    assert!(rt; starts_anew(device));
}

#[test]
fn a_lost_packet_is_replaced(rt: HostRuntime) -> Result<(), Fail> {
    try_out(&rt, rt.alloc(), Trial::Loss)?;
    Ok(())
}
