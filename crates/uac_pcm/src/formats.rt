// How frames stand in packets.
ghost use Rattle.std.specs.Prelude.{◌≡◌, ◌↔◌, ◌<◌, ◌≤◌, ◌+◌, ◌*◌, ℤ, List, [], ◌∷◌, ◌++◌, length, take, drop, slice_get};
ghost use Rattle.std.specs.Prelude.{Some, IsTrue, IsSome, IfSome};
ghost use Rattle.std.specs.Bool.{OnTrue, OnFalse};
ghost use Rattle.arrayvec.specs.ArrayVec.{array_vec_len};
ghost use Rattle.uac_pcm.specs.Frames.{IsFormat, bytes_of_frame, frame_of_bytes};
ghost use Rattle.uac_pcm.specs.Packets.{bytes_of_frames, frames_of_bytes, whole_frames};

use crate::blanks::{ZEROS, silence};
use crate::subslots::{read_subslots, write_subslots};
use crate::{Frame, Packet};

/// A format of Type I PCM: how many channels, bytes for each sample, and bits of them that are used.
///
/// There are 1 to 32 channels, subslots of 1 to 4 bytes, and a resolution of 1 bit to all of the subslot.
#[derive(Clone, Copy, Debug, PartialEq, Eq)]
pub struct Format {
    /// Channels of a frame.
    pub channels: u8,
    /// Bytes of a sample (bSubslotSize).
    pub subslot: u8,
    /// Bits of a sample that are used, the uppermost ones (bBitResolution).
    pub bits: u8,
    pub ghost in_range: { IsFormat channels subslot bits },
}

impl Format {
    /// The format of these numbers; None exactly where one of them is out of its range.
    /// Tests alone call it.
    pub fn new(channels: u8, subslot: u8, bits: u8) -> Option<Format>
        ensures in_range { IsSome result ↔ IsFormat channels subslot bits }
        ensures fields { IfSome result (λ format. (format.channels ≡ channels) × (format.subslot ≡ subslot) × (format.bits ≡ bits)) }
    {
        let fits = matches!(channels, 1..=32) && matches!(subslot, 1..=4);
        if fits && bits >= 1 && bits <= 8 * subslot {
            Some(Format {
                channels,
                subslot,
                bits,
            })
        } else {
            None
        }
    }

    /// The number of bytes of a frame.
    pub fn frame_bytes(&self) -> usize
        ensures { result ≡ self.now.channels * self.now.subslot }
    {
        usize::from(self.channels) * usize::from(self.subslot)
    }

    /// Appends the frame's bytes to the packet; false exactly where they do not fit, and then the packet stays as it was.
    /// Tests alone call it.
    pub fn pack(&self, frame: &Frame, packet: &mut Packet) -> bool
        requires { array_vec_len frame.now ≡ self.now.channels }
        ensures fits { IsTrue result ↔ (array_vec_len packet.old + self.now.channels * self.now.subslot ≤ 3072) }
        ensures appended { OnTrue result
            (packet.new.items ≡ packet.old.items ++ bytes_of_frame self.now.subslot self.now.bits frame.now.items) }
        ensures packed { (frames : List (List ℤ)) → packet.old.items ≡ bytes_of_frames self.now.subslot self.now.bits frames
            → OnTrue result (packet.new.items ≡ bytes_of_frames self.now.subslot self.now.bits (frames ++ frame.now.items ∷ [])) }
        ensures len { OnTrue result (array_vec_len packet.new ≡ array_vec_len packet.old + self.now.channels * self.now.subslot) }
        ensures full { OnFalse result (packet.new ≡ packet.old) }
    {
        let start = packet.len();
        match packet.try_extend_from_slice(&ZEROS[..self.frame_bytes()]) {
            Ok(()) => {}
            Err(_) => return false,
        }
        self.write_at(frame, packet, start);
        true
    }

    /// Writes the frame's bytes over so many of the packet, from a place on.
    pub fn write_at(&self, frame: &Frame, packet: &mut Packet, start: usize)
        requires channels { array_vec_len frame.now ≡ self.now.channels }
        requires room { start + self.now.channels * self.now.subslot ≤ array_vec_len packet.old }
        ensures written { packet.new.items ≡ take start packet.old.items ++ (bytes_of_frame self.now.subslot self.now.bits frame.now.items
            ++ drop (start + self.now.channels * self.now.subslot) packet.old.items) }
        ensures len { array_vec_len packet.new ≡ array_vec_len packet.old }
    {
        let bytes = packet.as_mut_slice();
        let end = start + self.frame_bytes();
        self.write(frame, &mut bytes[start..end]);
    }

    // Writes the frame's bytes over so many others.
    fn write(&self, frame: &Frame, bytes: &mut [u8])
        requires channels { array_vec_len frame.now ≡ self.now.channels }
        requires sized { length bytes.old ≡ self.now.channels * self.now.subslot }
        ensures { bytes.new ≡ bytes_of_frame self.now.subslot self.now.bits frame.now.items }
    {
        let samples = frame.as_slice();
        // Each size of a subslot has a loop of its own.
        match self.subslot {
            1 => write_subslots::<1>(samples, self.bits, bytes),
            2 => write_subslots::<2>(samples, self.bits, bytes),
            3 => write_subslots::<3>(samples, self.bits, bytes),
            _ => write_subslots::<4>(samples, self.bits, bytes),
        }
    }

    /// Makes `frame` the samples of these bytes, which are one frame's.
    pub fn unpack(&self, bytes: &[u8], frame: &mut Frame)
        requires { length bytes.now ≡ self.now.channels * self.now.subslot }
        ensures samples { frame.new.items ≡ frame_of_bytes self.now.channels self.now.subslot self.now.bits bytes.now }
        ensures len { array_vec_len frame.new ≡ self.now.channels }
    {
        if frame.len() == usize::from(self.channels) {
            self.read(bytes, frame.as_mut_slice());
        } else {
            self.unpack_anew(bytes, frame);
        }
    }

    // Makes `frame` the samples of these bytes, which are one frame's, where it hasn't as many.
    #[cold]
    #[inline(never)]
    fn unpack_anew(&self, bytes: &[u8], frame: &mut Frame)
        requires { length bytes.now ≡ self.now.channels * self.now.subslot }
        ensures samples { frame.new.items ≡ frame_of_bytes self.now.channels self.now.subslot self.now.bits bytes.now }
        ensures len { array_vec_len frame.new ≡ self.now.channels }
    {
        silence(frame, self.channels);
        self.read(bytes, frame.as_mut_slice());
    }

    // Writes the samples of these bytes, which are one frame's, over so many others.
    fn read(&self, bytes: &[u8], samples: &mut [i32])
        requires channels { length samples.old ≡ self.now.channels }
        requires whole { length bytes.now ≡ self.now.channels * self.now.subslot }
        ensures { samples.new ≡ frame_of_bytes self.now.channels self.now.subslot self.now.bits bytes.now }
    {
        // Each size of a subslot has a loop of its own.
        match self.subslot {
            1 => read_subslots::<1>(bytes, self.bits, samples),
            2 => read_subslots::<2>(bytes, self.bits, samples),
            3 => read_subslots::<3>(bytes, self.bits, samples),
            _ => read_subslots::<4>(bytes, self.bits, samples),
        }
    }

    /// The number of frames that stand whole in the packet; bytes after them that make no frame do not count.
    pub fn frames_in(&self, packet: &Packet) -> u32
        ensures frames { result ≡ whole_frames self.now.channels self.now.subslot packet.now.items }
        ensures bounded { result ≤ 3072 }
    {
        (packet.len() / self.frame_bytes()) as u32
    }

    /// Makes `frame` the samples of the packet's frame of a number, which counts from 0; false exactly where the packet has no whole
    /// frame of that number, and then `frame` stays as it was.
    pub fn frame_at(&self, packet: &Packet, number: u32, frame: &mut Frame) -> bool
        ensures there { IsTrue result ↔ (number < whole_frames self.now.channels self.now.subslot packet.now.items) }
        ensures samples { OnTrue result
            (slice_get (frames_of_bytes self.now.channels self.now.subslot self.now.bits packet.now.items) number ≡ Some frame.new.items) }
        ensures len { OnTrue result (array_vec_len frame.new ≡ self.now.channels) }
        ensures unchanged { OnFalse result (frame.new ≡ frame.old) }
    {
        if number >= self.frames_in(packet) {
            return false;
        }
        let size = self.frame_bytes();
        let start = number as usize * size;
        self.unpack(&packet.as_slice()[start..start + size], frame);
        true
    }
}
