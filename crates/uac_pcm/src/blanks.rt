// Frames and packets of a size, before samples or bytes are written over what they hold.
ghost use Rattle.std.specs.Prelude.{◌≡◌, ◌↔◌, ◌≤◌, ◌+◌, ◌++◌, length, replicate, pos, IsTrue};
ghost use Rattle.arrayvec.specs.ArrayVec.{array_vec_len};

use crate::{Frame, Packet};
use byteorder::{ByteOrder, LittleEndian};

/// A zero for each channel of the widest frame.
const SILENCE: [i32; 32] = [0; 32];

/// A zero for each byte of the longest frame.
pub(crate) const ZEROS: [u8; 128] = [0; 128];

/// Makes a frame silent, on so many channels.
#[inline(never)]
pub fn silence(frame: &mut Frame, channels: u8)
    requires { channels ≤ 32 }
    ensures samples { frame.new.items ≡ replicate channels (pos 0) }
    ensures len { array_vec_len frame.new ≡ channels }
{
    frame.clear();
    // Most frames have one channel or two.
    if channels == 1 {
        frame.push(0);
    } else if channels == 2 {
        frame.push(0);
        frame.push(0);
    } else {
        let _ = frame.try_extend_from_slice(&SILENCE[..usize::from(channels)]);
    }
}

/// Gives a packet so many bytes, whatever they are.
pub fn resize(packet: &mut Packet, len: usize)
    requires { len ≤ 3072 }
    ensures { array_vec_len packet.new ≡ len }
{
    if packet.len() == len {
        return;
    }
    packet.truncate(len);
    let missing = len - packet.len();
    for _each in 0..missing / 128 {
        append_zeros(packet, 128);
    }
    append_zeros(packet, missing % 128);
}

/// Makes a packet so many zeros, in place of what is there.
pub fn fill_zeros(packet: &mut Packet, len: usize)
    requires { len ≤ 3072 }
    ensures { packet.new.items ≡ replicate len 0 }
{
    packet.clear();
    for _each in 0..len / 128 {
        append_zeros(packet, 128);
    }
    append_zeros(packet, len % 128);
}

/// Whether all bytes are zeros. Eight are read at once, and none after eight that aren't all zeros.
pub fn are_zeros(bytes: &[u8]) -> bool
    ensures { IsTrue result ↔ (bytes.now ≡ replicate (length bytes.now) 0) }
{
    let eights = bytes.len() / 8;
    for number in 0..eights {
        if LittleEndian::read_u64(&bytes[number * 8..number * 8 + 8]) != 0 {
            return false;
        }
    }
    are_zeros_each(&bytes[eights * 8..])
}

// Whether all bytes are zeros, one by one.
fn are_zeros_each(bytes: &[u8]) -> bool
    ensures { IsTrue result ↔ (bytes.now ≡ replicate (length bytes.now) 0) }
{
    for byte in bytes {
        if *byte != 0 {
            return false;
        }
    }
    true
}

// Appends so many zeros to a packet.
fn append_zeros(packet: &mut Packet, count: usize)
    requires few { count ≤ 128 }
    requires room { array_vec_len packet.old + count ≤ 3072 }
    ensures len { array_vec_len packet.new ≡ array_vec_len packet.old + count }
    ensures zeros { packet.new.items ≡ packet.old.items ++ replicate count 0 }
{
    let _ = packet.try_extend_from_slice(&ZEROS[..count]);
}
