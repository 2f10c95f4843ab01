// Packets of a function's two streams, with ample memory. The numbers were worked out from the definitions by hand.
use crate::blocks::{endpoint, function_of, pcm, push, push_format, push_two_ways, streaming};
use arrayvec::ArrayVec;
use std::alloc::{AllocError, Global};
use std::test::Fail;
use uac_alt::stream;
use uac_descriptor::Block;
use uac_host::Host;
use uac_pcm::{Frame, Packet, Tone};
use uac_topology::Function;
use uac_topology::laws::functions_are_sound;

// Interface 7 to the device, with 24 bits: a packet of 150 bytes in each microframe in setting 1, and one of 336 bytes every eight
// microframes in setting 2. Interface 8 from the device, with 16 bits.
fn push_streams(blocks: &mut Vec<Block>) -> Result<(), AllocError> {
    push(blocks, streaming(7, 0, 0))?;
    push(blocks, streaming(7, 1, 2))?;
    push_format(blocks, pcm(2, 2), 3)?;
    push(blocks, endpoint(0x01, 0x05, 150, 1))?;
    push(blocks, endpoint(0x81, 0x11, 4, 4))?;
    push(blocks, streaming(7, 2, 2))?;
    push_format(blocks, pcm(2, 2), 3)?;
    push(blocks, endpoint(0x01, 0x05, 336, 4))?;
    push(blocks, endpoint(0x81, 0x11, 4, 4))?;
    push(blocks, streaming(8, 0, 0))?;
    push(blocks, streaming(8, 1, 1))?;
    push_format(blocks, pcm(5, 1), 2)?;
    push(blocks, endpoint(0x82, 0x05, 50, 1))
}

fn function(alloc: Global) -> Result<Function, AllocError> {
    let mut blocks = Vec::new(alloc);
    push_two_ways(&mut blocks, 4, 2)?;
    push_streams(&mut blocks)?;
    function_of(alloc, blocks.as_slice())
}

fn host(alloc: Global, function: &Function) -> Result<Host, AllocError> {
    match Host::new(alloc, function) {
        Ok(host) => Ok(host),
        Err(_) => Err(AllocError),
    }
}

// Starts the stream of a setting of an interface; false where it can't run.
fn start(host: &mut Host, function: &Function, rate: u32, interface: u8, setting: u8) -> bool {
    functions_are_sound(function);
    let stream = stream(function, rate, interface, setting);
    let runs = stream.is_some();
    host.set_stream(interface, stream);
    runs
}

#[test]
fn packets_of_five_and_six_frames_at_44100_hz(rt: HostRuntime) -> Result<(), Fail> {
    let function = function(rt.alloc())?;
    let mut host = host(rt.alloc(), &function)?;
    let mut packet: Packet = ArrayVec::new();
    assert_eq!(rt; host.packet(7, &mut packet), 0);
    assert!(rt; start(&mut host, &function, 44100, 7, 1));
    for frames in [5, 6, 5, 6] {
        assert_eq!(rt; host.packet(7, &mut packet), frames);
        assert_eq!(rt; packet.len(), frames as usize * 6);
    }
    Ok(())
}

#[test]
fn a_packet_of_a_service_interval(rt: HostRuntime) -> Result<(), Fail> {
    let function = function(rt.alloc())?;
    let mut host = host(rt.alloc(), &function)?;
    let mut packet: Packet = ArrayVec::new();
    assert!(rt; start(&mut host, &function, 48000, 7, 2));
    assert_eq!(rt; host.packet(7, &mut packet), 48);
    assert_eq!(rt; packet.len(), 288);
    // The most and the least frames of a packet, whatever is reported.
    for (value, frames) in [(458753, 56), (4294967295, 56), (327679, 40), (0, 40)] {
        host.take_report(7, value);
        assert_eq!(rt; host.packet(7, &mut packet), frames, "{value}");
    }
    Ok(())
}

#[test]
fn appended_frames_come_before_the_tone(rt: HostRuntime) -> Result<(), Fail> {
    let function = function(rt.alloc())?;
    let mut host = host(rt.alloc(), &function)?;
    let mut packet: Packet = ArrayVec::new();
    assert!(rt; start(&mut host, &function, 48000, 7, 1));
    host.track(
        7,
        Tone::Ramp {
            start: 65536,
            step: 256,
        },
    );
    assert!(rt;
        host.append(7, [256, -256, 512, -512, 768, -768].as_slice())
            .is_ok()
    );
    assert!(rt; host.append(7, [1024, -1024].as_slice()).is_ok());
    assert_eq!(rt; host.packet(7, &mut packet), 6);
    let first = [
        1, 0, 0, 255, 255, 255, 2, 0, 0, 254, 255, 255, 3, 0, 0, 253, 255, 255, 4, 0, 0, 252, 255,
        255, 0, 1, 0, 1, 1, 0, 1, 1, 0, 2, 1, 0,
    ];
    assert_eq!(rt; packet.as_slice(), first.as_slice());
    assert_eq!(rt; host.packet(7, &mut packet), 6);
    let second = [
        2, 1, 0, 3, 1, 0, 3, 1, 0, 4, 1, 0, 4, 1, 0, 5, 1, 0, 5, 1, 0, 6, 1, 0, 6, 1, 0, 7, 1, 0,
        7, 1, 0, 8, 1, 0,
    ];
    assert_eq!(rt; packet.as_slice(), second.as_slice());
    Ok(())
}

#[test]
fn frames_from_the_device_are_heard(rt: HostRuntime) -> Result<(), Fail> {
    let function = function(rt.alloc())?;
    let mut host = host(rt.alloc(), &function)?;
    let mut packet: Packet = ArrayVec::new();
    for byte in [0x34, 0x12, 0xff, 0xff, 0x55] {
        assert!(rt; packet.try_push(byte).is_ok());
    }
    let mut frame: Frame = ArrayVec::new();
    assert!(rt; !host.hear(8, &packet, 0, &mut frame));
    assert!(rt; start(&mut host, &function, 48000, 8, 1));
    assert!(rt; host.hear(8, &packet, 1, &mut frame));
    assert_eq!(rt; frame.as_slice(), [-65536].as_slice());
    assert!(rt; !host.hear(8, &packet, 2, &mut frame));
    Ok(())
}
