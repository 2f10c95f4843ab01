// The functions for C, called as C calls them. The texts are those that the rules and the tables ask for.

use crate::*;
use std::process::Abort;
use std::test::Fail;

/// The least descriptor: 35 bytes, blocks at 0, 9, 17 and 26.
const MINIMAL: [u8; 35] = [
    9, 2, 35, 0, 1, 1, 0, 0x80, 0x32, 8, 11, 0, 1, 1, 0, 0x20, 0, 9, 4, 0, 0, 0, 1, 1, 0x20, 0, 9,
    0x24, 1, 0, 2, 4, 9, 0, 0,
];

/// The same with a clock source, whose frequency a host may set: 43 bytes.
const CLOCKED: [u8; 43] = [
    9, 2, 43, 0, 1, 1, 0, 0x80, 0x32, 8, 11, 0, 1, 1, 0, 0x20, 0, 9, 4, 0, 0, 0, 1, 1, 0x20, 0, 9,
    0x24, 1, 0, 2, 4, 17, 0, 0, 8, 0x24, 0x0A, 1, 3, 7, 0, 0,
];

/// What `show` prints of the least.
const LISTING: &[u8] =
    b"0 configuration 090223000101008032\n9 association 080b000101002000\n17 interface 090400000001012000\n26 header 092401000204090000\n";

/// What `settle` prints, by the table of docs/SETTLING.md.
const SETTLED: &[u8] =
    b"rate 8000 settle 2129\nrate 11025 settle 2142\nrate 16000 settle 2164\nrate 22050 settle 2190\nrate 32000 settle 2235\nrate 44100 settle 2293\nrate 48000 settle 2312\nrate 64000 settle 2395\nrate 88200 settle 9151\nrate 96000 settle 2579\nrate 176400 settle 4610\nrate 192000 settle 3362\n";

/// A call ended with this status, and wrote this text to the front of the room, which held `_` before.
fn judge(rt: &impl Abort, status: u8, room: &[u8], written: usize, wanted: u8, text: &[u8]) {
    assert_eq!(rt; room.get(..written), Some(text));
    assert!(rt; room.iter().skip(written).all(|byte| *byte == b'_'));
    assert_eq!(rt; status, wanted);
}

#[test]
fn descriptors_are_judged_and_listed(rt: HostRuntime) -> Result<(), Fail> {
    let (mut room, mut written) = ([b'_'; 200], 9);
    let status = uac_check(rt.alloc(), &[], &mut room, &mut written);
    judge(&rt, status, &room, written, 1, b"descriptor G1 at 0\n");

    let mut room = [b'_'; 200];
    let status = uac_check(rt.alloc(), &MINIMAL, &mut room, &mut written);
    let verdict = b"ok blocks 4 entities 0 streams 0 domains 0\n";
    judge(&rt, status, &room, written, 0, verdict);

    let mut room = [b'_'; 200];
    let status = uac_show(rt.alloc(), &MINIMAL, &mut room, &mut written);
    judge(&rt, status, &room, written, 0, LISTING);

    let mut room = [b'_'; 200];
    let status = uac_elements(rt.alloc(), &CLOCKED, &mut room, &mut written);
    judge(&rt, status, &room, written, 0, b"rate.1.0 rw 48000\n");
    Ok(())
}

// Room for the whole text is enough, and one byte less isn't.
#[test]
fn small_rooms_are_full(rt: HostRuntime) -> Result<(), Fail> {
    let (mut room, mut written) = ([b'_'; 19], 9);
    let status = uac_show(rt.alloc(), &[], &mut room, &mut written);
    judge(&rt, status, &room, written, 1, b"descriptor G1 at 0\n");

    let mut room = [b'_'; 18];
    let status = uac_show(rt.alloc(), &[], &mut room, &mut written);
    judge(&rt, status, &room, written, 5, b"descriptor G1 at 0");

    let status = uac_settle(rt.alloc(), &mut [], &mut written);
    judge(&rt, status, &[], written, 5, b"");
    Ok(())
}

#[test]
fn scripts_are_run(rt: HostRuntime) -> Result<(), Fail> {
    for lanes in [false, true] {
        let (mut room, mut written) = ([b'_'; 64], 9);
        let status = uac_run(
            rt.alloc(),
            b"# nothing\nx\n",
            lanes,
            &mut room,
            &mut written,
        );
        judge(&rt, status, &room, written, 2, b"script S2 line 2\n");

        let mut room = [b'_'; 7];
        let status = uac_gen(rt.alloc(), 8, lanes, &mut room, &mut written);
        judge(&rt, status, &room, written, 5, b"ready e");
    }
    Ok(())
}

#[test]
fn benches_take_their_rates(rt: HostRuntime) -> Result<(), Fail> {
    let (mut room, mut written) = ([b'_'; 64], 9);
    let status = uac_full(rt.alloc(), 48000, b"x", &mut room, &mut written);
    judge(&rt, status, &room, written, 2, b"script S2 line 1\n");

    let mut room = [b'_'; 64];
    let status = uac_pair(rt.alloc(), 44100, b"x", &mut room, &mut written);
    judge(&rt, status, &room, written, 2, b"script S2 line 1\n");

    // No rate of a full-speed stream, and one of a pair.
    let mut room = [b'_'; 6];
    let status = uac_full(rt.alloc(), 192000, b"x", &mut room, &mut written);
    judge(&rt, status, &room, written, 5, b"usage:");
    let mut room = [b'_'; 64];
    let status = uac_pair(rt.alloc(), 192000, b"x", &mut room, &mut written);
    judge(&rt, status, &room, written, 2, b"script S2 line 1\n");
    Ok(())
}

// A front panel's script begins as every script does, with a descriptor.
#[test]
fn panels_are_run(rt: HostRuntime) -> Result<(), Fail> {
    let (mut room, mut written) = ([b'_'; 64], 9);
    let status = uac_panel(rt.alloc(), b"w mute.3.0 1", &mut room, &mut written);
    judge(&rt, status, &room, written, 2, b"script S5 line 1\n");
    Ok(())
}

#[test]
fn settling_times_are_listed(rt: HostRuntime) -> Result<(), Fail> {
    let (mut room, mut written) = ([b'_'; 400], 9);
    let status = uac_settle(rt.alloc(), &mut room, &mut written);
    judge(&rt, status, &room, written, 0, SETTLED);
    Ok(())
}
