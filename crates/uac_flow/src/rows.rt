// Frames between rings and rows.
ghost use Rattle.std.specs.Prelude.{◌≡◌, ◌+◌, ◌<◌, ◌≤◌, ℕ, [], length, get_or, replicate, pos};
ghost use Rattle.uac_units.specs.SampleRows.{HaveTicks, frame_at, row_lengths};
ghost use Rattle.uac_flow.specs.Flows.{AreFrames};

use arrayvec::ArrayVec;
use uac_pcm::{Frame, silence};
use uac_ring::Ring;
use uac_units::{Row, write_frame};

/// Puts the oldest frames of a ring, so many, at as many ticks. What stands at the others stays.
pub(crate) fn lay_frames(ring: &Ring, count: u32, rows: &mut [Row])
    requires there { count ≤ length ring.now }
    requires frames { AreFrames (length rows.old) ring.now }
    requires inside { HaveTicks count rows.old }
    ensures here { (tick : ℕ) → tick < count → frame_at tick rows.new ≡ get_or ring.now tick [] }
    ensures others { (tick : ℕ) → count ≤ tick → frame_at tick rows.new ≡ frame_at tick rows.old }
    ensures lengths { row_lengths rows.new ≡ row_lengths rows.old }
{
    for tick in 0..count {
        if let Some(frame) = ring.at(tick) {
            write_frame(rows, tick as usize, frame.as_slice());
        }
    }
}

/// Puts silence at the ticks from one on, up to another. What stands at the others stays.
pub(crate) fn lay_silence(from: u32, ticks: u32, rows: &mut [Row])
    requires few { length rows.old ≤ 32 }
    requires inside { HaveTicks ticks rows.old }
    ensures here { (tick : ℕ) → from ≤ tick → tick < ticks → frame_at tick rows.new ≡ replicate (length rows.old) (pos 0) }
    ensures others { (tick : ℕ) → tick < from → frame_at tick rows.new ≡ frame_at tick rows.old }
    ensures lengths { row_lengths rows.new ≡ row_lengths rows.old }
{
    let mut zero: Frame = ArrayVec::new();
    silence(&mut zero, rows.len() as u8);
    for tick in from..ticks {
        write_frame(rows, tick as usize, zero.as_slice());
    }
}
