// The events of a microframe, interface by interface, each printed as it happens.
ghost use Rattle.std.specs.Prelude.{◌≡◌, ◌&&◌, ◌<◌, nat_le, ℕ, length, map};
ghost use Rattle.uac_edges.specs.Faults.{HasCause};
ghost use Rattle.uac_script.specs.Line.{phrase_mark};
ghost use Rattle.uac_device.specs.DeviceWorld.{DeviceWorld, ZerosFitIn, is_due_in, met_of, after_end};
ghost use Rattle.uac_device.specs.DeviceKept as device_kept;
ghost use Rattle.uac_transcript.specs.Printing.{Prints};
ghost use Rattle.uac_streaming.specs.StreamingWorld.{StreamingWorld, all_feedback, all_ends, found_lines, in_packets};
ghost use Rattle.uac_streaming.specs.StreamingWorld.{inward_turn, out_packets, outward_turn, feedback_turn, end_turn};
ghost use Rattle.uac_streaming.specs.StreamingWorld as spec;
ghost use Rattle.uac_streaming.specs.StreamingKept.{StreamingStands, StreamingTells};

use crate::printing::{
    Fetched, FoundRing, write_feedback_at, write_fetched, write_rings, write_sent_out,
};
use crate::streaming::Streaming;
use crate::ways::goes_out;
use uac_device::{Device, Ticked};
use uac_edges::{Failed, Sink};
use uac_entities::StreamInterface;
use uac_script::{Mark, loses_feedback, loses_in, loses_out};
use uac_transcript::write_level;

impl Streaming {
    /// The packets to the device of a microframe, by interface number, with these losses.
    pub fn out_packets<K: Sink>(
        &mut self,
        device: &mut Device,
        detail: u8,
        marks: &[Mark],
        sink: &mut K,
    ) -> Result<(), Failed>
        ensures tells { (w : StreamingWorld) → StreamingStands self.old device.old w
            → StreamingTells (out_packets detail (map phrase_mark marks.now) w) self.new device.new (K.written sink.old)
            (K.written sink.new)
            result }
        ensures function { device.new.function ≡ device.old.function }
        ensures cause { HasCause (K.faults sink.old) (K.faults sink.new) result }
    {
        for at in 0..self.outs.len() {
            let interface = self.outs[at];
            self.out_packet(device, interface, detail, marks, sink)?;
        }
        Ok(())
    }

    /// The packet of an interface that carries a stream to the device, where that is due.
    fn out_packet<K: Sink>(
        &mut self,
        device: &mut Device,
        interface: u8,
        detail: u8,
        marks: &[Mark],
        sink: &mut K,
    ) -> Result<(), Failed>
        ensures tells { (w : StreamingWorld) → StreamingStands self.old device.old w
            → StreamingTells (outward_turn detail (map phrase_mark marks.now) interface w) self.new device.new (K.written sink.old)
            (K.written sink.new) result }
        ensures order { self.new.outs ≡ self.old.outs }
        ensures function { device.new.function ≡ device.old.function }
        ensures cause { HasCause (K.faults sink.old) (K.faults sink.new) result }
    {
        if !device.due(interface) {
            return Ok(());
        }
        let sent = self.send_out(device, interface, loses_out(marks, interface));
        write_sent_out(sink, detail, interface, sent.frames, sent.arrival)
    }

    /// The packets from the device of a microframe, by interface number, with these losses.
    pub fn in_packets<K: Sink>(
        &mut self,
        device: &mut Device,
        detail: u8,
        marks: &[Mark],
        sink: &mut K,
    ) -> Result<(), Failed>
        ensures tells { (w : StreamingWorld) → StreamingStands self.old device.old w
            → StreamingTells (in_packets detail (map phrase_mark marks.now) w) self.new device.new (K.written sink.old) (K.written sink.new)
            result }
        ensures function { device.new.function ≡ device.old.function }
        ensures cause { HasCause (K.faults sink.old) (K.faults sink.new) result }
    {
        for at in 0..self.ins.len() {
            let interface = self.ins[at];
            self.in_packet(device, interface, detail, marks, sink)?;
        }
        Ok(())
    }

    /// The packet of an interface that carries a stream from the device, where that is due.
    fn in_packet<K: Sink>(
        &mut self,
        device: &mut Device,
        interface: u8,
        detail: u8,
        marks: &[Mark],
        sink: &mut K,
    ) -> Result<(), Failed>
        ensures tells { (w : StreamingWorld) → StreamingStands self.old device.old w
            → StreamingTells (inward_turn detail (map phrase_mark marks.now) interface w) self.new device.new (K.written sink.old)
            (K.written sink.new) result }
        ensures order { self.new.ins ≡ self.old.ins }
        ensures function { device.new.function ≡ device.old.function }
        ensures cause { HasCause (K.faults sink.old) (K.faults sink.new) result }
    {
        if !device.due(interface) {
            return Ok(());
        }
        let lost = loses_in(marks, interface);
        let frames = self.fetch(device, interface, lost);
        let fetched = Fetched {
            interface,
            frames,
            lost,
        };
        write_fetched(
            sink,
            detail,
            fetched,
            &self.host,
            &*self.fetched_packet,
            &mut self.frame,
        )
    }

    /// A microframe ends for each stream, by interface number. Where a packet to the device was lost, its ring has room for the zeros
    /// that are due.
    pub fn end_microframe<K: Sink>(
        &mut self,
        device: &mut Device,
        detail: u8,
        sink: &mut K,
    ) -> Result<(), Failed>
        ensures tells { (w : StreamingWorld) → StreamingStands self.old device.old w → ((interface : ℕ) → ZerosFitIn w.device interface)
            → StreamingTells (all_ends detail w) self.new device.new (K.written sink.old) (K.written sink.new) result }
        ensures function { device.new.function ≡ device.old.function }
        ensures cause { HasCause (K.faults sink.old) (K.faults sink.new) result }
    {
        for at in 0..self.order.len() {
            let interface = self.order[at];
            end_one(device, interface, detail, sink)?;
        }
        Ok(())
    }

    /// The feedback reports of a microframe, by interface number, with these losses.
    pub fn give_feedback<K: Sink>(
        &mut self,
        device: &Device,
        detail: u8,
        marks: &[Mark],
        sink: &mut K,
    ) -> Result<(), Failed>
        ensures tells { (w : StreamingWorld) → StreamingStands self.old device.now w
            → StreamingTells (all_feedback detail (map phrase_mark marks.now) w) self.new device.now (K.written sink.old)
            (K.written sink.new)
            result }
        ensures cause { HasCause (K.faults sink.old) (K.faults sink.new) result }
    {
        for at in 0..self.order.len() {
            let interface = self.order[at];
            self.give_feedback_on(device, interface, detail, marks, sink)?;
        }
        Ok(())
    }

    /// The feedback report of an interface, where one is due.
    fn give_feedback_on<K: Sink>(
        &mut self,
        device: &Device,
        interface: u8,
        detail: u8,
        marks: &[Mark],
        sink: &mut K,
    ) -> Result<(), Failed>
        ensures tells { (w : StreamingWorld) → StreamingStands self.old device.now w
            → StreamingTells (feedback_turn detail (map phrase_mark marks.now) interface w) self.new device.now (K.written sink.old)
            (K.written sink.new) result }
        ensures order { self.new.order ≡ self.old.order }
        ensures cause { HasCause (K.faults sink.old) (K.faults sink.new) result }
    {
        let Some(value) = device.feedback(interface) else {
            return Ok(());
        };
        let lost = loses_feedback(marks, interface);
        self.bring_feedback(device.function(), interface, value, lost);
        write_feedback_at(sink, detail, interface, value, lost)
    }
}

/// A microframe ends for the stream of an interface.
fn end_one<K: Sink>(
    device: &mut Device,
    interface: u8,
    detail: u8,
    sink: &mut K,
) -> Result<(), Failed>
    ensures tells { (w : DeviceWorld) → device_kept.DeviceStands device.old w → ZerosFitIn w interface
        → Prints (K.written sink.old) (K.written sink.new) result (spec.end_lines detail interface w)
        × device_kept.DeviceStands device.new (after_end interface w) }
    ensures function { device.new.function ≡ device.old.function }
    ensures cause { HasCause (K.faults sink.old) (K.faults sink.new) result }
{
    let says = says_level(device, interface, detail);
    device.settle(interface);
    if !says {
        return Ok(());
    }
    write_level(
        sink,
        interface,
        device.level(interface),
        device.target(interface),
    )
}

/// Whether the level of a stream is said at the end of this microframe: from detail 2 on, that of one to the device that is due.
fn says_level(device: &Device, interface: u8, detail: u8) -> bool
    ensures { (w : DeviceWorld) → device_kept.DeviceStands device.now w
        → result ≡ (nat_le 2 detail && (spec.goes_out w.function interface && is_due_in w interface)) }
{
    if detail < 2 {
        return false;
    }
    is_out_due(device, interface)
}

/// Prints what a tick found: the rings that were empty, and then those that were full.
pub fn write_found<K: Sink>(
    sink: &mut K,
    streams: &[StreamInterface],
    found: Ticked,
) -> Result<(), Failed>
    ensures printed { (w : DeviceWorld) (clock : ℕ) → w.function.streams ≡ streams.now → found ≡ met_of clock w
        → Prints (K.written sink.old) (K.written sink.new) result (found_lines clock w) }
    ensures cause { HasCause (K.faults sink.old) (K.faults sink.new) result }
{
    // Most ticks find nothing.
    if found.under == 0 && found.over == 0 {
        return Ok(());
    }
    write_some(sink, streams, found)
}

/// Prints what a tick found that found some.
#[cold]
#[inline(never)]
fn write_some<K: Sink>(
    sink: &mut K,
    streams: &[StreamInterface],
    found: Ticked,
) -> Result<(), Failed>
    ensures printed { (w : DeviceWorld) (clock : ℕ) → w.function.streams ≡ streams.now → found ≡ met_of clock w
        → Prints (K.written sink.old) (K.written sink.new) result (found_lines clock w) }
    ensures cause { HasCause (K.faults sink.old) (K.faults sink.new) result }
{
    write_rings(sink, streams, found.under, FoundRing::Empty)?;
    write_rings(sink, streams, found.over, FoundRing::Full)
}

/// Whether an interface runs a stream to the device that is due.
fn is_out_due(device: &Device, interface: u8) -> bool
    ensures { (w : DeviceWorld) → device_kept.DeviceStands device.now w
        → result ≡ (spec.goes_out w.function interface && is_due_in w interface) }
{
    goes_out(device.function(), interface) && device.due(interface)
}
