// The settings of a function with two streaming interfaces, and the streams of their settings, with ample memory.
use crate::blocks::{endpoint, function_of, pcm, push, push_format, push_two_ways, streaming};
use std::alloc::{AllocError, Global};
use std::test::Fail;
use uac_alt::{Settings, stream};
use uac_descriptor::Block;
use uac_topology::Function;

/// What differs from setting to setting: the numbers of the format, those of the first endpoint, and the size and the
/// interval of the second.
#[derive(Clone, Copy)]
struct Row {
    format_type: u8,
    formats: u32,
    channels: u8,
    attributes: u8,
    max_packet: u16,
    interval: u8,
    second: Option<(u16, u8)>,
}

/// A headset's stream to the device: two channels of 24 bits in 3 bytes, 150 bytes a packet, a report every 8 microframes.
const OUT: Row = Row {
    format_type: 1,
    formats: 1,
    channels: 2,
    attributes: 0x05,
    max_packet: 150,
    interval: 1,
    second: Some((4, 4)),
};

/// A stream from the device: one channel of 16 bits, 50 bytes a packet.
const IN: Row = Row {
    format_type: 1,
    formats: 1,
    channels: 1,
    attributes: 0x05,
    max_packet: 50,
    interval: 1,
    second: None,
};

// A setting of interface 7, to the device from terminal 2, or of interface 8, from the device at terminal 5.
fn push_setting(
    blocks: &mut Vec<Block>,
    out: bool,
    setting: u8,
    row: Row,
) -> Result<(), AllocError> {
    let (number, link, subslot, address) = if out {
        (7, 2, 3, 0x01)
    } else {
        (8, 5, 2, 0x82)
    };
    let endpoints = if row.second.is_some() { 2 } else { 1 };
    push(blocks, streaming(number, setting, endpoints))?;
    let mut general = pcm(link, row.channels);
    general.format_type = row.format_type;
    general.formats = row.formats;
    push_format(blocks, general, subslot)?;
    push(
        blocks,
        endpoint(address, row.attributes, row.max_packet, row.interval),
    )?;
    match row.second {
        Some((size, interval)) => push(blocks, endpoint(address ^ 0x80, 0x11, size, interval)),
        None => Ok(()),
    }
}

// The settings 1 to 15 of the stream to the device.
fn out_rows() -> [Row; 15] {
    [
        OUT,
        // Two transactions of 75 bytes.
        Row {
            max_packet: 0x084b,
            ..OUT
        },
        Row {
            max_packet: 149,
            ..OUT
        },
        Row {
            format_type: 2,
            ..OUT
        },
        Row { formats: 0, ..OUT },
        Row { channels: 1, ..OUT },
        // Adaptive.
        Row {
            attributes: 0x09,
            ..OUT
        },
        Row { interval: 5, ..OUT },
        // Data that is feedback too.
        Row {
            attributes: 0x25,
            ..OUT
        },
        Row {
            second: None,
            ..OUT
        },
        Row {
            second: Some((4, 5)),
            ..OUT
        },
        Row {
            second: Some((3, 4)),
            ..OUT
        },
        // A packet of 336 bytes every eight microframes.
        Row {
            max_packet: 336,
            interval: 4,
            ..OUT
        },
        // Reports more often than packets.
        Row {
            max_packet: 336,
            interval: 4,
            second: Some((4, 3)),
            ..OUT
        },
        // Two transactions of 600 bytes every eight microframes.
        Row {
            max_packet: 0x0a58,
            interval: 4,
            ..OUT
        },
    ]
}

// The settings 1 to 3 of the stream from the device.
fn in_rows() -> [Row; 3] {
    [
        IN,
        Row {
            attributes: 0x25,
            ..IN
        },
        Row {
            second: Some((4, 4)),
            ..IN
        },
    ]
}

// The entities, the interface 7 with its settings, and the interface 8 with its own.
fn function(alloc: Global) -> Result<Function, AllocError> {
    let mut blocks = Vec::new(alloc);
    push_two_ways(&mut blocks, 4, 2)?;
    push(&mut blocks, streaming(7, 0, 0))?;
    for (place, row) in out_rows().iter().enumerate() {
        push_setting(&mut blocks, true, place as u8 + 1, *row)?;
    }
    push(&mut blocks, streaming(8, 0, 0))?;
    for (place, row) in in_rows().iter().enumerate() {
        push_setting(&mut blocks, false, place as u8 + 1, *row)?;
    }
    function_of(alloc, blocks.as_slice())
}

#[test]
fn each_interface_begins_in_setting_0(rt: HostRuntime) -> Result<(), Fail> {
    let function = function(rt.alloc())?;
    let mut settings = Settings::new(&function);
    assert_eq!(rt; settings.get(4), Some(0));
    assert_eq!(rt; settings.get(7), Some(0));
    assert_eq!(rt; settings.get(2), None);
    assert!(rt; !settings.running() && settings.get(8).is_some());
    settings.set(8, 3);
    assert!(rt; settings.running());
    assert_eq!(rt; settings.get(8), Some(3));
    assert_eq!(rt; settings.get(7), Some(0));
    settings.set(8, 0);
    assert!(rt; !settings.running());
    Ok(())
}

#[test]
fn streams_of_the_settings_that_can_run(rt: HostRuntime) -> Result<(), Fail> {
    let function = function(rt.alloc())?;
    let table = [
        (48000, 7, 1, (2, 3, 24), 7, true, 25, 8, 1),
        (192000, 7, 1, (2, 3, 24), 25, true, 25, 8, 1),
        (192000, 7, 2, (2, 3, 24), 25, true, 25, 8, 1),
        (176400, 7, 3, (2, 3, 24), 23, true, 24, 8, 1),
        (48000, 7, 13, (2, 3, 24), 7, true, 56, 8, 8),
        (192000, 7, 15, (2, 3, 24), 25, true, 200, 8, 8),
        (8000, 8, 1, (1, 2, 16), 2, false, 25, 0, 1),
        (192000, 8, 2, (1, 2, 16), 25, false, 25, 0, 1),
    ];
    for (rate, interface, setting, numbers, hi, out, most, period, service) in table {
        let stream = stream(&function, rate, interface, setting).expect(
            &rt,
            "a setting that can run",
        );
        let format = stream.format;
        assert_eq!(rt;
            (format.channels, format.subslot, format.bits),
            numbers,
            "{interface} {setting}"
        );
        assert_eq!(rt;
            (stream.nominal.hi, stream.out),
            (hi, out),
            "{interface} {setting}"
        );
        assert_eq!(rt;
            (stream.most, stream.period, stream.service),
            (most, period, service),
            "{interface} {setting}"
        );
    }
    Ok(())
}

#[test]
fn no_stream_elsewhere(rt: HostRuntime) -> Result<(), Fail> {
    let function = function(rt.alloc())?;
    for setting in 4..=12 {
        assert!(rt;
            stream(&function, 48000, 7, setting).is_none(),
            "setting {setting}"
        );
    }
    let table = [
        // A packet of 25 frames is a byte too long.
        (192000, 7, 3),
        // 64 frames of a service interval are too many for 336 bytes, and reports come too often.
        (64000, 7, 13),
        (48000, 7, 14),
        // A second endpoint beside data from the device.
        (48000, 8, 3),
        // A rate that is none of the twelve.
        (48001, 7, 1),
        (48000, 7, 0),
        (48000, 7, 16),
        // The control interface, and one that is not there.
        (48000, 4, 1),
        (48000, 9, 1),
    ];
    for (rate, interface, setting) in table {
        assert!(rt;
            stream(&function, rate, interface, setting).is_none(),
            "{rate} {interface} {setting}"
        );
    }
    Ok(())
}
