// Blocks of a headset's descriptor, written with ample memory.
use crate::blocks::{configuration, header, nothing, usb_input};
use std::test::Fail;
use uac_descriptor::{Block, ByteList, EndpointBits, Feature, Mixer, WordList};

#[test]
fn writes_an_input_terminal(rt: HostRuntime) -> Result<(), Fail> {
    let mut out = nothing(rt.alloc());
    assert_eq!(rt; usb_input().write(&mut out), Ok(()));
    let want = [
        0x11, 0x24, 0x02, 0x02, 0x01, 0x01, 0x00, 0x01, 0x02, 0x03, 0x00, 0x00, 0x00, 0x00, 0x00,
        0x00, 0x00,
    ];
    assert_eq!(rt; out.as_slice(), want.as_slice());
    Ok(())
}

#[test]
fn writes_a_header_after_a_configuration(rt: HostRuntime) -> Result<(), Fail> {
    let mut out = nothing(rt.alloc());
    assert_eq!(rt; configuration(0x0113, 4).write(&mut out), Ok(()));
    assert_eq!(rt; header(0x6B).write(&mut out), Ok(()));
    let want = [
        9, 2, 0x13, 1, 4, 1, 0, 0x80, 0x32, 9, 0x24, 1, 0, 2, 4, 0x6B, 0, 0,
    ];
    assert_eq!(rt; out.as_slice(), want.as_slice());
    Ok(())
}

#[test]
fn writes_a_feature_unit(rt: HostRuntime) -> Result<(), Fail> {
    let mut out = nothing(rt.alloc());
    let words = WordList::from_vec(vec![in rt.alloc(); 3, 0x0C, 0x0C]?);
    let feature = Feature {
        id: 3,
        source: 2,
        words,
        name: 0,
    };
    assert_eq!(rt; Block::Feature(feature).write(&mut out), Ok(()));
    let want = [
        0x12, 0x24, 0x06, 0x03, 0x02, 0x03, 0x00, 0x00, 0x00, 0x0C, 0x00, 0x00, 0x00, 0x0C, 0x00,
        0x00, 0x00, 0x00,
    ];
    assert_eq!(rt; out.as_slice(), want.as_slice());
    Ok(())
}

#[test]
fn writes_a_mixer_unit(rt: HostRuntime) -> Result<(), Fail> {
    let mut out = nothing(rt.alloc());
    let sources = ByteList::from_vec(vec![in rt.alloc(); 2, 6]?);
    let mix_bits = ByteList::from_vec(vec![in rt.alloc(); 0xFF, 0x80]?);
    let mixer = Mixer {
        id: 8,
        sources,
        channels: 3,
        locations: 0,
        names: 0,
        mix_bits,
        controls: 0,
        name: 0,
    };
    assert_eq!(rt; Block::Mixer(mixer).write(&mut out), Ok(()));
    let want = [
        0x11, 0x24, 0x04, 0x08, 0x02, 0x02, 0x06, 0x03, 0x00, 0x00, 0x00, 0x00, 0x00, 0xFF, 0x80,
        0x00, 0x00,
    ];
    assert_eq!(rt; out.as_slice(), want.as_slice());
    Ok(())
}

#[test]
fn reads_the_bits_of_endpoints(rt: HostRuntime) {
    let data = EndpointBits::of(0x05);
    assert!(rt; data.is_isochronous() && data.is_asynchronous() && data.is_data());
    let feedback = EndpointBits::of(0x11);
    assert!(rt; feedback.is_isochronous() && !feedback.is_asynchronous() && feedback.is_feedback());
    assert!(rt;
        !EndpointBits::of(0x03).is_isochronous() && EndpointBits::of(0x25).is_implicit_feedback()
    );
}
