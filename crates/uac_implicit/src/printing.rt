// The lines of a packet from the device.
ghost use Rattle.std.specs.Prelude.{◌≡◌, ◌&&◌, ◌++◌, ◌∷◌, [], ℕ, not, nat_le, length, map};
ghost use Rattle.uac_edges.specs.Faults.{HasCause};
ghost use Rattle.uac_transcript.specs.Printing.{Prints};
ghost use Rattle.uac_transcript.specs.Transcript.{says_frame, says_in};
ghost use Rattle.uac_bench.specs.BenchLines.{if_said};

use uac_edges::{Failed, Sink};
use uac_ring::Ring;
use uac_transcript::{write_frame, write_in};

/// Prints the packet from the device, which has all frames that wait: from detail 2 on how many and whether it was lost, and from detail 1
/// on the frames of one that came.
pub(crate) fn write_fetched<K: Sink>(
    sink: &mut K,
    detail: u8,
    lost: bool,
    waiting: &Ring,
) -> Result<(), Failed>
    ensures printed { Prints (K.written sink.old) (K.written sink.new) result
        (if_said (nat_le 2 detail) (says_in 2 (length waiting.now) lost ∷ [])
        ++ if_said (nat_le 1 detail && not lost) (map (says_frame 2) waiting.now)) }
    ensures cause { HasCause (K.faults sink.old) (K.faults sink.new) result }
{
    match write_arrived(sink, detail, lost, waiting.level()) {
        Ok(()) => {}
        Err(failed) => return Err(failed),
    }
    write_if_heard(sink, detail, lost, waiting)
}

/// Prints from detail 2 on how the packet from the device came.
fn write_arrived<K: Sink>(sink: &mut K, detail: u8, lost: bool, frames: u32) -> Result<(), Failed>
    ensures printed { Prints (K.written sink.old) (K.written sink.new) result
        (if_said (nat_le 2 detail) (says_in 2 frames lost ∷ [])) }
    ensures cause { HasCause (K.faults sink.old) (K.faults sink.new) result }
{
    if detail < 2 {
        return Ok(());
    }
    write_in(sink, 2, frames, lost)
}

/// Prints from detail 1 on the frames of a packet that came.
fn write_if_heard<K: Sink>(
    sink: &mut K,
    detail: u8,
    lost: bool,
    waiting: &Ring,
) -> Result<(), Failed>
    ensures printed { Prints (K.written sink.old) (K.written sink.new) result
        (if_said (nat_le 1 detail && not lost) (map (says_frame 2) waiting.now)) }
    ensures cause { HasCause (K.faults sink.old) (K.faults sink.new) result }
{
    if detail < 1 || lost {
        return Ok(());
    }
    write_frames(sink, waiting)
}

/// Prints the frames of a ring, the oldest first.
fn write_frames<K: Sink>(sink: &mut K, waiting: &Ring) -> Result<(), Failed>
    ensures printed { Prints (K.written sink.old) (K.written sink.new) result (map (says_frame 2) waiting.now) }
    ensures cause { HasCause (K.faults sink.old) (K.faults sink.new) result }
{
    for place in 0..waiting.level() {
        let Some(frame) = waiting.at(place) else {
            return Ok(());
        };
        match write_frame(sink, 2, frame) {
            Ok(()) => {}
            Err(failed) => return Err(failed),
        }
    }
    Ok(())
}
