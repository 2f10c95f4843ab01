// Worked examples. The numbers were worked out from the definitions by hand.
use arrayvec::ArrayVec;
use uac_pcm::{Format, Frame, Packet, Tone};

/// The most negative sample, -1, 0, 1 and the most positive.
const EXTREMES: [i32; 5] = [-2147483648, -1, 0, 1, 2147483647];

#[test]
fn unused_bits_are_cut(rt: HostRuntime) {
    let format = Format::new(1, 4, 24).expect(&rt, "24 bits in 4 bytes");
    let mut frame: Frame = ArrayVec::new();
    format.unpack(&[0xff, 0x56, 0x34, 0x12], &mut frame);
    assert_eq!(rt; frame.as_slice(), [0x12345600].as_slice());
    let mut packet: Packet = ArrayVec::new();
    assert!(rt; format.pack(&frame, &mut packet));
    assert_eq!(rt; packet.as_slice(), [0x00, 0x56, 0x34, 0x12].as_slice());
}

#[test]
fn extremes_as_bytes(rt: HostRuntime) {
    let table: [(u8, u8, &[u8]); 6] = [
        (1, 1, &[0x80, 0x80, 0x00, 0x00, 0x00]),
        (1, 8, &[0x80, 0xff, 0x00, 0x00, 0x7f]),
        (
            2,
            12,
            &[0x00, 0x80, 0xf0, 0xff, 0x00, 0x00, 0x00, 0x00, 0xf0, 0x7f],
        ),
        (
            3,
            20,
            &[
                0x00, 0x00, 0x80, 0xf0, 0xff, 0xff, 0x00, 0x00, 0x00, 0x00, 0x00, 0x00, 0xf0, 0xff,
                0x7f,
            ],
        ),
        (
            4,
            24,
            &[
                0x00, 0x00, 0x00, 0x80, 0x00, 0xff, 0xff, 0xff, 0x00, 0x00, 0x00, 0x00, 0x00, 0x00,
                0x00, 0x00, 0x00, 0xff, 0xff, 0x7f,
            ],
        ),
        (
            4,
            32,
            &[
                0x00, 0x00, 0x00, 0x80, 0xff, 0xff, 0xff, 0xff, 0x00, 0x00, 0x00, 0x00, 0x01, 0x00,
                0x00, 0x00, 0xff, 0xff, 0xff, 0x7f,
            ],
        ),
    ];
    for (subslot, bits, bytes) in table {
        let format = Format::new(5, subslot, bits).expect(&rt, "a format of the table");
        let frame = Frame::try_from(EXTREMES.as_slice()).expect(&rt, "five channels");
        assert_eq!(rt; frame.len(), 5);
        let mut packet: Packet = ArrayVec::new();
        assert!(rt; format.pack(&frame, &mut packet));
        assert_eq!(rt; packet.as_slice(), bytes, "{bits} bits in {subslot} bytes");
    }
}

#[test]
fn every_resolution_reads_its_extremes(rt: HostRuntime) {
    for subslot in 1..5u8 {
        for bits in 1..8 * subslot + 1 {
            let format = Format::new(5, subslot, bits).expect(&rt, "a resolution in its subslot");
            let mut frame = Frame::try_from(EXTREMES.as_slice()).expect(&rt, "five channels");
            assert_eq!(rt; frame.len(), 5);
            let mut packet: Packet = ArrayVec::new();
            assert!(rt; format.pack(&frame, &mut packet));
            assert_eq!(rt; packet.len(), format.frame_bytes());
            format.unpack(packet.as_slice(), &mut frame);
            let step = 1i64 << (32 - bits);
            let one = i64::from(bits == 32);
            let cut = [-2147483648, -step, 0, one, 2147483648 - step];
            for (sample, want) in frame.as_slice().iter().zip(cut.iter()) {
                assert_eq!(rt; i64::from(*sample), *want, "{bits} bits in {subslot} bytes");
            }
        }
    }
}

#[test]
fn a_full_packet_takes_no_more(rt: HostRuntime) {
    let format = Format::new(1, 3, 24).expect(&rt, "24 bits in 3 bytes");
    let mut packet: Packet = ArrayVec::new();
    let mut frame: Frame = ArrayVec::new();
    frame.push(-2);
    for _ in 0..1023 {
        assert!(rt; format.pack(&frame, &mut packet));
    }
    assert!(rt; packet.try_push(7).is_ok());
    assert!(rt; !format.pack(&frame, &mut packet));
    assert_eq!(rt; packet.len(), 3070);
}

#[test]
fn frames_stand_one_after_the_other(rt: HostRuntime) {
    let format = Format::new(2, 2, 16).expect(&rt, "16 bits in 2 bytes");
    let mut packet: Packet = ArrayVec::new();
    for samples in [[0x12345678, -1], [0x1ffff, 0x7fff0000]] {
        let frame = Frame::try_from(samples.as_slice()).expect(&rt, "two channels");
        assert_eq!(rt; frame.len(), 2);
        assert!(rt; format.pack(&frame, &mut packet));
    }
    let bytes = [0x34, 0x12, 0xff, 0xff, 0x01, 0x00, 0xff, 0x7f];
    assert_eq!(rt; packet.as_slice(), bytes.as_slice());
    assert!(rt; packet.try_push(0x55).is_ok());
    assert_eq!(rt; format.frames_in(&packet), 2);
    let mut frame: Frame = ArrayVec::new();
    assert!(rt; format.frame_at(&packet, 0, &mut frame));
    assert_eq!(rt; frame.as_slice(), [0x12340000, -65536].as_slice());
    assert!(rt; format.frame_at(&packet, 1, &mut frame));
    assert_eq!(rt; frame.as_slice(), [0x10000, 0x7fff0000].as_slice());
    assert!(rt; !format.frame_at(&packet, 2, &mut frame));
    assert_eq!(rt; frame.as_slice(), [0x10000, 0x7fff0000].as_slice());
}

#[test]
fn formats_at_their_limits(rt: HostRuntime) {
    assert!(rt; Format::new(32, 4, 32).is_some());
    for (channels, subslot, bits) in [
        (0, 1, 8),
        (33, 1, 8),
        (1, 0, 1),
        (1, 5, 8),
        (1, 2, 0),
        (1, 2, 17),
    ] {
        assert!(rt;
            Format::new(channels, subslot, bits).is_none(),
            "{channels} {subslot} {bits}"
        );
    }
}

#[test]
fn tones_by_place(rt: HostRuntime) {
    let table = [
        (Tone::Silent, 9, 1, 0),
        (
            Tone::Ramp {
                start: 65536,
                step: 65536,
            },
            5,
            0,
            393216,
        ),
        (
            Tone::Ramp {
                start: 2147483647,
                step: 1,
            },
            0,
            1,
            -2147483648,
        ),
        (Tone::Ramp { start: 5, step: -3 }, 1099511627783, 2, -22),
        (Tone::Noise { seed: 1 }, 0, 0, -1640531535),
        (Tone::Noise { seed: 1 }, 1, 1, 56502658),
        (Tone::Noise { seed: 7 }, 4294967301, 3, 282513290),
    ];
    for (tone, place, channel, sample) in table {
        assert_eq!(rt;
            tone.sample(place, channel),
            sample,
            "{tone:?} at {place}, {channel}"
        );
    }
}
