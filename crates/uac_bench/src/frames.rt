// Frames of one channel, and rings of them.
ghost use Rattle.std.specs.Prelude.{◌≡◌, ◌≤◌, ◌+◌, ◌%◌, ◌^◌, ◌++◌, ◌∷◌, [], ℕ, length, replicate};
ghost use Rattle.uac_ring.specs.Rings.{ring_frames};
ghost use Rattle.uac_bench.specs.BenchStreams.{numbered, silent_frame};

use arrayvec::ArrayVec;
use uac_pcm::Frame;
use uac_ring::Ring;

/// A frame of one channel.
pub(crate) fn mono(only: i32) -> Frame
    ensures { result.items ≡ only ∷ [] }
{
    let mut frame: Frame = ArrayVec::new();
    frame.push(only);
    frame
}

/// Puts frames that are formed after others into a ring that has room for them; each holds its number.
pub(crate) fn put_numbered(ring: &mut Ring, formed: u32, count: u32)
    requires { length ring.old + count ≤ ring_frames }
    ensures { (n : ℕ) → formed ≡ n % 2 ^ 32 → ring.new ≡ ring.old ++ numbered n count }
{
    let first = formed.wrapping_add(1);
    for at in 0..count {
        let frame = mono(first.wrapping_add(at).cast_signed());
        let _ = ring.put(&frame);
    }
}

/// Puts so many silent frames into a ring; all of them where it has room for them.
pub(crate) fn put_zeros(ring: &mut Ring, count: u32)
    ensures { length ring.old + count ≤ ring_frames → ring.new ≡ ring.old ++ replicate count silent_frame }
{
    let frame = mono(0);
    for _each in 0..count {
        let _ = ring.put(&frame);
    }
}
