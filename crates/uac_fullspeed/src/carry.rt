// A bus frame of the stream: its packet, its ticks, zeros and priming, each printed as it happens.
ghost use Rattle.std.specs.Prelude.{◌≡◌, ◌+◌, ◌≤◌, ◌-◌};
ghost use Rattle.uac_edges.specs.Faults.{HasCause};
ghost use Rattle.uac_bench.specs.BenchStreams.{StreamWorld, after_packet, after_priming, after_tick, after_ticks, arrival_of, level_of};
ghost use Rattle.uac_ring.specs.Rings.{ring_frames};
ghost use Rattle.uac_bench.specs.BenchKept.{BenchStreamStands};
ghost use Rattle.uac_fullspeed.specs.FullSpeedWorld.{replaced_by, after_frame};
ghost use Rattle.uac_bench.specs.BenchLines.{arrival_lines};
ghost use Rattle.uac_fullspeed.specs.FullSpeedLines.{stream_lines, tick_lines, ticks_lines};
ghost use Rattle.uac_fullspeed.specs.FullSpeedKept.{HasRoom, StreamTells};

use uac_bench::{BenchStream, write_level_at, write_packet, write_tick};
use uac_edges::{Failed, Sink};

/// What a bus frame brings to a stream: the frames of its packet, whether that is lost, and how often the clock ticks.
#[derive(Clone, Copy, Debug, PartialEq, Eq)]
pub(crate) struct Brought {
    pub(crate) frames: u32,
    pub(crate) lost: bool,
    pub(crate) ticks: u32,
}

/// A bus frame of the stream, up to its report.
pub(crate) fn carry<K: Sink>(
    stream: &mut BenchStream,
    detail: u8,
    brought: Brought,
    sink: &mut K,
) -> Result<(), Failed>
    ensures tells { (s : StreamWorld) → BenchStreamStands stream.old s → HasRoom s → brought.ticks ≤ 769
        → StreamTells (stream_lines detail brought.lost brought.frames brought.ticks s) (after_frame brought.lost brought.frames brought.ticks s)
        stream.new (K.written sink.old) (K.written sink.new) result }
    ensures cause { HasCause (K.faults sink.old) (K.faults sink.new) result }
{
    send_out(stream, detail, brought.frames, brought.lost, sink)?;
    play(stream, detail, brought.ticks, sink)?;
    end_frame(stream, brought.lost, brought.ticks);
    write_level_at(sink, detail, stream.level(), stream.target())
}

/// The end of a bus frame: zeros in place of a lost packet, and priming.
fn end_frame(stream: &mut BenchStream, lost: bool, ticks: u32)
    ensures { (s : StreamWorld) → BenchStreamStands stream.old s → level_of s + ticks ≤ ring_frames
        → BenchStreamStands stream.new (after_priming (replaced_by lost ticks s)) }
{
    if lost {
        stream.replace(ticks);
        stream.prime();
    } else {
        stream.prime();
    }
}

/// The packet of a bus frame.
fn send_out<K: Sink>(
    stream: &mut BenchStream,
    detail: u8,
    frames: u32,
    lost: bool,
    sink: &mut K,
) -> Result<(), Failed>
    ensures tells { (s : StreamWorld) → BenchStreamStands stream.old s
        → StreamTells (arrival_lines detail frames (arrival_of 1024 lost frames s)) (after_packet 1024 lost frames s) stream.new
        (K.written sink.old) (K.written sink.new) result }
    ensures cause { HasCause (K.faults sink.old) (K.faults sink.new) result }
{
    let arrival = stream.receive(frames, lost, 1024);
    write_packet(sink, detail, frames, arrival)
}

/// The ticks of a bus frame.
fn play<K: Sink>(
    stream: &mut BenchStream,
    detail: u8,
    ticks: u32,
    sink: &mut K,
) -> Result<(), Failed>
    ensures tells { (s : StreamWorld) → BenchStreamStands stream.old s
        → StreamTells (ticks_lines ticks detail s) (after_ticks ticks s) stream.new (K.written sink.old) (K.written sink.new) result }
    ensures cause { HasCause (K.faults sink.old) (K.faults sink.new) result }
{
    for _ticked in 0..ticks {
        play_one(stream, detail, sink)?;
    }
    Ok(())
}

/// One tick.
fn play_one<K: Sink>(stream: &mut BenchStream, detail: u8, sink: &mut K) -> Result<(), Failed>
    ensures tells { (s : StreamWorld) → BenchStreamStands stream.old s
        → StreamTells (tick_lines detail s) (after_tick s) stream.new (K.written sink.old) (K.written sink.new) result }
    ensures cause { HasCause (K.faults sink.old) (K.faults sink.new) result }
{
    let tick = stream.tick();
    write_tick(sink, detail, &tick)
}
