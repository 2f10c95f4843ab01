// A ring filled and emptied, and what no clause says: that memory is found.
use arrayvec::ArrayVec;
use std::mem::size_of;
use uac_pcm::Frame;
use uac_ring::{Full, RING_FRAMES, Ring};

/// A frame of two channels that tells its number.
fn frame_with(number: u32) -> Frame {
    let left = number.cast_signed();
    let mut frame: Frame = ArrayVec::new();
    frame.push(left);
    frame.push(!left);
    frame
}

#[test]
fn frames_leave_in_the_order_in_which_they_came(rt: HostRuntime) {
    let mut ring = Ring::new(rt.alloc()).expect(&rt, "memory for a ring");
    assert_eq!(rt; ring.level(), 0);
    assert!(rt; ring.take().is_none());
    for number in 0..RING_FRAMES {
        assert!(rt; ring.put(&frame_with(number)).is_ok());
    }
    assert_eq!(rt; ring.level(), 2048);
    assert_eq!(rt; ring.put(&frame_with(7)), Err(Full));
    assert_eq!(rt; ring.level(), 2048);
    for number in 0..RING_FRAMES {
        let frame = ring.take().expect(&rt, "a frame that was put");
        assert_eq!(rt; frame.as_slice(), frame_with(number).as_slice());
    }
    assert_eq!(rt; ring.level(), 0);
    assert!(rt; ring.take().is_none());
}

#[test]
fn eight_rings_take_less_than_three_megabytes(rt: HostRuntime) {
    let frame = size_of::<Frame>();
    let ring = frame * RING_FRAMES as usize;
    assert_eq!(rt; frame, 136);
    assert_eq!(rt; ring, 278528);
    assert_eq!(rt; 8 * ring, 2228224);
}
