// Lines of packets, ticks and reports.
ghost use Rattle.std.specs.Prelude.{◌≡◌, ◌++◌, ◌∷◌, [], nat_le, if◌then◌else◌, ℕ, ℤ, List, Bool, length, map};
ghost use Rattle.std.specs.List.{filter};
ghost use Rattle.uac_edges.specs.Faults.{HasCause};
ghost use Rattle.uac_entities.specs.declared.stream.StreamInterface as streamed;
ghost use Rattle.uac_host.specs.HostWorld.{HostWorld};
ghost use Rattle.uac_host.specs.HostCalls.{heard_in};
ghost use Rattle.uac_host.specs.HostKept as kept;
ghost use Rattle.uac_transcript.specs.Printing.{Prints};
ghost use Rattle.uac_transcript.specs.Transcript.{says_feedback, says_frame, says_in, says_out};
ghost use Rattle.uac_device.specs.InterfaceStreams.{set_of_streams};
ghost use Rattle.uac_streaming.specs.FoundRings.{says_found};
ghost use Rattle.uac_streaming.specs.StreamingWorld as spec;

use uac_edges::{Failed, Sink};
use uac_entities::StreamInterface;
use uac_flow::Arrival;
use uac_host::Host;
use uac_pcm::{Frame, Packet};
use uac_transcript::{write_feedback, write_frame, write_in, write_out, write_over, write_under};

/// Prints a packet to the device: from detail 2 on how it arrived, and at any detail that it was over.
#[tactic(auto, using(uac_transcript::proofs::PrintingLemmas::stops))]
pub(crate) fn write_sent_out<K: Sink>(
    sink: &mut K,
    detail: u8,
    interface: u8,
    frames: u32,
    arrival: Arrival,
) -> Result<(), Failed>
    ensures printed { Prints (K.written sink.old) (K.written sink.new) result (spec.out_lines detail interface frames arrival) }
    ensures cause { HasCause (K.faults sink.old) (K.faults sink.new) result }
{
    write_arrival(sink, detail, interface, frames, arrival)?;
    match arrival {
        Arrival::Taken => Ok(()),
        Arrival::Lost => Ok(()),
        Arrival::Over => write_over(sink, interface),
    }
}

/// Prints how a packet to the device arrived, from detail 2 on.
fn write_arrival<K: Sink>(
    sink: &mut K,
    detail: u8,
    interface: u8,
    frames: u32,
    arrival: Arrival,
) -> Result<(), Failed>
    ensures printed { Prints (K.written sink.old) (K.written sink.new) result
        (if nat_le 2 detail then says_out interface frames arrival ∷ [] else []) }
    ensures cause { HasCause (K.faults sink.old) (K.faults sink.new) result }
{
    if detail < 2 {
        return Ok(());
    }
    write_out(sink, interface, frames, arrival)
}

/// A packet from the device: its interface, how many frames it has, and whether it was lost.
#[derive(Clone, Copy, Debug, PartialEq, Eq)]
pub(crate) struct Fetched {
    pub(crate) interface: u8,
    pub(crate) frames: u32,
    pub(crate) lost: bool,
}

/// Prints a packet from the device: from detail 2 on how it came, and from detail 1 on the frames of one that did.
#[tactic(auto, using(uac_transcript::proofs::PrintingLemmas::stops))]
pub(crate) fn write_fetched<K: Sink>(
    sink: &mut K,
    detail: u8,
    fetched: Fetched,
    host: &Host,
    packet: &Packet,
    frame: &mut Frame,
) -> Result<(), Failed>
    ensures printed { (w : HostWorld) → kept.HostStands host.now w → Prints (K.written sink.old) (K.written sink.new) result
        (spec.in_lines detail fetched.lost fetched.interface fetched.frames (heard_in w fetched.interface packet.now.items)) }
    ensures cause { HasCause (K.faults sink.old) (K.faults sink.new) result }
{
    write_arrived(sink, detail, fetched)?;
    if detail < 1 || fetched.lost {
        return Ok(());
    }
    write_heard(sink, fetched.interface, host, packet, frame)
}

/// Prints how a packet from the device came, from detail 2 on.
fn write_arrived<K: Sink>(sink: &mut K, detail: u8, fetched: Fetched) -> Result<(), Failed>
    ensures printed { Prints (K.written sink.old) (K.written sink.new) result
        (if nat_le 2 detail then says_in fetched.interface fetched.frames fetched.lost ∷ [] else []) }
    ensures cause { HasCause (K.faults sink.old) (K.faults sink.new) result }
{
    if detail < 2 {
        return Ok(());
    }
    write_in(sink, fetched.interface, fetched.frames, fetched.lost)
}

/// Prints the frames that the host hears in a packet. It has no more frames than bytes.
fn write_heard<K: Sink>(
    sink: &mut K,
    interface: u8,
    host: &Host,
    packet: &Packet,
    frame: &mut Frame,
) -> Result<(), Failed>
    ensures printed { (w : HostWorld) → kept.HostStands host.now w → Prints (K.written sink.old) (K.written sink.new) result
        (map (says_frame interface) (heard_in w interface packet.now.items)) }
    ensures cause { HasCause (K.faults sink.old) (K.faults sink.new) result }
{
    for at in 0..packet.len() as u32 {
        if !host.hear(interface, packet, at, frame) {
            return Ok(());
        }
        write_frame(sink, interface, frame)?;
    }
    Ok(())
}

/// What a tick finds of a ring.
#[derive(Clone, Copy, Debug, PartialEq, Eq)]
pub(crate) enum FoundRing {
    Empty,
    Full,
}

/// Prints the rings that a tick found so, a bit for each of these interfaces, the lowest for the first.
pub(crate) fn write_rings<K: Sink>(
    sink: &mut K,
    streams: &[StreamInterface],
    bits: u8,
    ring: FoundRing,
) -> Result<(), Failed>
    ensures printed { (test : streamed.StreamInterface → Bool) → bits ≡ set_of_streams (map test streams.now)
        → Prints (K.written sink.old) (K.written sink.new) result (map (λ s. says_found ring s.number) (filter test streams.now)) }
    ensures cause { HasCause (K.faults sink.old) (K.faults sink.new) result }
{
    let mut rest = bits;
    for stream in streams {
        let found = rest % 2 == 1;
        rest /= 2;
        write_if_found(sink, stream.number, ring, found)?;
    }
    Ok(())
}

/// Prints that a ring was found so, where it was.
fn write_if_found<K: Sink>(
    sink: &mut K,
    interface: u8,
    ring: FoundRing,
    found: bool,
) -> Result<(), Failed>
    ensures printed { Prints (K.written sink.old) (K.written sink.new) result (if found then says_found ring interface ∷ [] else []) }
    ensures cause { HasCause (K.faults sink.old) (K.faults sink.new) result }
{
    if !found {
        return Ok(());
    }
    match ring {
        FoundRing::Empty => write_under(sink, interface),
        FoundRing::Full => write_over(sink, interface),
    }
}

/// Prints a feedback report, from detail 2 on.
pub(crate) fn write_feedback_at<K: Sink>(
    sink: &mut K,
    detail: u8,
    interface: u8,
    value: u32,
    lost: bool,
) -> Result<(), Failed>
    ensures printed { Prints (K.written sink.old) (K.written sink.new) result
        (if nat_le 2 detail then says_feedback interface value lost ∷ [] else []) }
    ensures cause { HasCause (K.faults sink.old) (K.faults sink.new) result }
{
    if detail < 2 {
        return Ok(());
    }
    write_feedback(sink, interface, value, lost)
}
