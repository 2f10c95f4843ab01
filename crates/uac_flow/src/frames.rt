// Frames between packets and rings.
ghost use Rattle.std.specs.Prelude.{◌≡◌, ◌≤◌, ◌+◌, ◌*◌, ◌++◌, [], length, take, drop, replicate, pos};
ghost use Rattle.uac_pcm.specs.Packets.{bytes_of_frames, frames_of_bytes, whole_frames};
ghost use Rattle.uac_ring.specs.Rings.{ring_frames};
ghost use Rattle.uac_flow.specs.Flows.{AreFrames};

use arrayvec::ArrayVec;
use uac_pcm::{Format, Frame, Packet, are_zeros, fill_zeros, resize};
use uac_ring::Ring;

/// Puts the frames of a packet into a ring that has room for them.
pub(crate) fn put_frames(ring: &mut Ring, format: &Format, packet: &Packet)
    requires { length ring.old + whole_frames format.now.channels format.now.subslot packet.now.items ≤ ring_frames }
    ensures put { ring.new ≡ ring.old ++ frames_of_bytes format.now.channels format.now.subslot format.now.bits packet.now.items }
    ensures frames { AreFrames format.now.channels ring.old → AreFrames format.now.channels ring.new }
{
    if are_zeros(packet.as_slice()) {
        put_zeros(ring, format.channels, format.frames_in(packet));
    } else {
        put_each(ring, format, packet);
    }
}

// Puts the frames of a packet into a ring that has room for them, each by itself.
fn put_each(ring: &mut Ring, format: &Format, packet: &Packet)
    requires { length ring.old + whole_frames format.now.channels format.now.subslot packet.now.items ≤ ring_frames }
    ensures put { ring.new ≡ ring.old ++ frames_of_bytes format.now.channels format.now.subslot format.now.bits packet.now.items }
    ensures frames { AreFrames format.now.channels ring.old → AreFrames format.now.channels ring.new }
{
    let mut frame: Frame = ArrayVec::new();
    for bytes in packet.as_slice().chunks_exact(format.frame_bytes()) {
        format.unpack(bytes, &mut frame);
        let _ = ring.put(&frame);
    }
}

/// Puts so many silent frames into a ring; all of them where it has room for them.
pub(crate) fn put_zeros(ring: &mut Ring, channels: u8, count: u32)
    requires { channels ≤ 32 }
    ensures put { length ring.old + count ≤ ring_frames → ring.new ≡ ring.old ++ replicate count (replicate channels (pos 0)) }
    ensures frames { AreFrames channels ring.old → AreFrames channels ring.new }
{
    ring.put_silent(channels, count);
}

/// Moves the oldest frames of a ring, so many, into a packet, in place of what is there.
pub(crate) fn take_frames(ring: &mut Ring, format: &Format, count: u32, packet: &mut Packet)
    requires there { count ≤ length ring.old }
    requires frames { AreFrames format.now.channels ring.old }
    requires fits { count * (format.now.channels * format.now.subslot) ≤ 3072 }
    ensures packet { packet.new.items ≡ bytes_of_frames format.now.subslot format.now.bits (take count ring.old) }
    ensures ring { ring.new ≡ drop count ring.old }
{
    if ring.is_silent() {
        fill_zeros(packet, count as usize * format.frame_bytes());
    } else {
        pack_frames(ring, format, count, packet);
    }
    ring.drop_oldest(count);
}

// Writes the oldest frames of a ring, so many, into a packet, in place of what is there.
fn pack_frames(ring: &Ring, format: &Format, count: u32, packet: &mut Packet)
    requires there { count ≤ length ring.now }
    requires frames { AreFrames format.now.channels ring.now }
    requires fits { count * (format.now.channels * format.now.subslot) ≤ 3072 }
    ensures { packet.new.items ≡ bytes_of_frames format.now.subslot format.now.bits (take count ring.now) }
{
    let size = format.frame_bytes();
    resize(packet, count as usize * size);
    for number in 0..count {
        if let Some(frame) = ring.at(number) {
            format.write_at(frame, packet, number as usize * size);
        }
    }
}
