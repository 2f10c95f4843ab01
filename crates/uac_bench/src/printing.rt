// The lines of a bench's stream.
ghost use Rattle.std.specs.Prelude.{◌≡◌, ◌++◌, ◌∷◌, [], nat_le};
ghost use Rattle.uac_edges.specs.Faults.{HasCause};
ghost use Rattle.uac_transcript.specs.Printing.{Prints};
ghost use Rattle.uac_transcript.specs.Transcript.{says_out, says_played, says_under};
ghost use Rattle.uac_bench.specs.BenchLines.{arrival_lines, if_said, number_lines, over_lines, ticked_lines, told_level};

use crate::stream::BenchTick;
use uac_edges::{Failed, Sink};
use uac_pcm::Frame;
use uac_ring::Arrival;
use uac_transcript::{
    write_level, write_microframe, write_out, write_over, write_played, write_under,
};

/// Prints the number of a frame of the bus, from detail 2 on.
pub fn write_number<K: Sink>(sink: &mut K, detail: u8, number: u64) -> Result<(), Failed>
    ensures printed { Prints (K.written sink.old) (K.written sink.new) result (number_lines detail number) }
    ensures cause { HasCause (K.faults sink.old) (K.faults sink.new) result }
{
    if detail < 2 {
        return Ok(());
    }
    write_microframe(sink, number)
}

/// Prints a packet: from detail 2 on its frames and how it arrived, and at any detail that it was over.
pub fn write_packet<K: Sink>(
    sink: &mut K,
    detail: u8,
    frames: u32,
    arrival: Arrival,
) -> Result<(), Failed>
    ensures printed { Prints (K.written sink.old) (K.written sink.new) result (arrival_lines detail frames arrival) }
    ensures cause { HasCause (K.faults sink.old) (K.faults sink.new) result }
{
    match write_arrival(sink, detail, frames, arrival) {
        Ok(()) => {}
        Err(failed) => return Err(failed),
    }
    write_if_over(sink, arrival)
}

/// Prints from detail 2 on how a packet arrived.
fn write_arrival<K: Sink>(
    sink: &mut K,
    detail: u8,
    frames: u32,
    arrival: Arrival,
) -> Result<(), Failed>
    ensures printed { Prints (K.written sink.old) (K.written sink.new) result
        (if_said (nat_le 2 detail) (says_out 1 frames arrival ∷ [])) }
    ensures cause { HasCause (K.faults sink.old) (K.faults sink.new) result }
{
    if detail < 2 {
        return Ok(());
    }
    write_out(sink, 1, frames, arrival)
}

/// Prints that a packet was over, where it was.
fn write_if_over<K: Sink>(sink: &mut K, arrival: Arrival) -> Result<(), Failed>
    ensures printed { Prints (K.written sink.old) (K.written sink.new) result (over_lines arrival) }
    ensures cause { HasCause (K.faults sink.old) (K.faults sink.new) result }
{
    match arrival {
        Arrival::Taken => Ok(()),
        Arrival::Lost => Ok(()),
        Arrival::Over => write_over(sink, 1),
    }
}

/// Prints a tick: at any detail that it found the ring empty, and from detail 1 on the frame that was played.
pub fn write_tick<K: Sink>(sink: &mut K, detail: u8, ticked: &BenchTick) -> Result<(), Failed>
    ensures printed { Prints (K.written sink.old) (K.written sink.new) result
        (ticked_lines detail ticked.now.under ticked.now.frame.items) }
    ensures cause { HasCause (K.faults sink.old) (K.faults sink.new) result }
{
    match write_if_under(sink, ticked.under) {
        Ok(()) => {}
        Err(failed) => return Err(failed),
    }
    write_if_played(sink, detail, &ticked.frame)
}

/// Prints that the ring was found empty, where it was.
fn write_if_under<K: Sink>(sink: &mut K, under: bool) -> Result<(), Failed>
    ensures printed { Prints (K.written sink.old) (K.written sink.new) result (if_said under (says_under 1 ∷ [])) }
    ensures cause { HasCause (K.faults sink.old) (K.faults sink.new) result }
{
    if !under {
        return Ok(());
    }
    write_under(sink, 1)
}

/// Prints from detail 1 on the frame that was played.
fn write_if_played<K: Sink>(sink: &mut K, detail: u8, frame: &Frame) -> Result<(), Failed>
    ensures printed { Prints (K.written sink.old) (K.written sink.new) result
        (if_said (nat_le 1 detail) (says_played 1 frame.now.items ∷ [])) }
    ensures cause { HasCause (K.faults sink.old) (K.faults sink.new) result }
{
    if detail < 1 {
        return Ok(());
    }
    write_played(sink, 1, frame)
}

/// Prints the level and the target, from detail 2 on.
pub fn write_level_at<K: Sink>(
    sink: &mut K,
    detail: u8,
    level: u32,
    target: Option<u32>,
) -> Result<(), Failed>
    ensures printed { Prints (K.written sink.old) (K.written sink.new) result (told_level detail level target) }
    ensures cause { HasCause (K.faults sink.old) (K.faults sink.new) result }
{
    if detail < 2 {
        return Ok(());
    }
    write_level(sink, 1, level, target)
}
