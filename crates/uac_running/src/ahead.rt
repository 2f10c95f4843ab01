// Microframes of a running device whose ticks wait while the counts of its streams run ahead.
ghost use Rattle.std.specs.Prelude.{◌≡◌, ◌+◌, ◌≤◌, ℕ, List, [], true, IfOk, IfSome, map, replicate};
ghost use Rattle.std.specs.List.{All, list_all};
ghost use Rattle.uac_units.specs.Fitting.{IsFitted};
ghost use Rattle.uac_units.specs.Hearing.{Reading};
ghost use Rattle.uac_units.specs.MeterReadings.{readings};
ghost use Rattle.uac_edges.specs.Faults.{HasCause};
ghost use Rattle.uac_script.specs.Line.{phrase_mark};
ghost use Rattle.uac_script.specs.Losses.{marks_feedback};
ghost use Rattle.uac_device.specs.DeviceWorld.{DeviceWorld, feedback_in, next_ticks};
ghost use Rattle.uac_device.specs.DeviceTicks.{HoldPlayed};
ghost use Rattle.uac_device.specs.DeviceWaits.{AreSteady, HaveSent, SentAreThere, after_sent, feedback_later_in};
ghost use Rattle.uac_transcript.specs.Printing.{Prints};
ghost use Rattle.uac_streaming.specs.StreamingWorld.{numbers_out};
ghost use Rattle.uac_streaming.specs.StreamingWaits.{LosesNoPacket, after_reports_of, fits};
ghost use Rattle.uac_running.specs.RunningWorld.{RunningWorld, streaming_of, with_streaming};
ghost use Rattle.uac_running.specs.Events.{microframe, microframes};
ghost use Rattle.uac_running.specs.EventTicks.{met_after, running_after, tones_of};
ghost use Rattle.uac_running.specs.RunningKept.{RunningStands, RunningStandsBetween, RunningTellsBetween};
ghost use Rattle.uac_running.specs.Ahead.{IsAhead, IsLone, gone_ahead, numbered, sent_of, sent_then, ticks_then};

use crate::running::Running;
use uac_edges::{Failed, Sink};
use uac_script::{Mark, MarkKind};
use uac_topology::laws::{functions_are_sound, interfaces_are_numbered};
use uac_units::{Meter, Meters, Rack, Unit};

/// What waits of a running device: so many ticks of its only domain; and of each interface with a stream from it so many frames went in
/// packets, which these ticks make: the first number is that of the first interface, and so on.
#[derive(Clone, Copy)]
pub(crate) struct Ahead {
    ticks: u32,
    sent: [u32; 8],
}

impl Ahead {
    /// Nothing waits.
    fn none() -> Ahead
        ensures ticks { result.ticks ≡ 0 }
        ensures sent { result.sent ≡ replicate 8 0 }
    {
        Ahead {
            ticks: 0,
            sent: [0; 8],
        }
    }
}

impl Running {
    /// The only domain of a device at detail 0 with at most eight interfaces that carry a stream from it, in microframes that lose no
    /// packet.
    pub(crate) fn lone_domain(&self, marks: &[Mark]) -> Option<u8>
        ensures lone { (meters : List Reading) (r : RunningWorld) → RunningStands self.now meters r
            → IfSome result (λ domain. IsLone domain r) }
        ensures packets { IfSome result (λ domain. LosesNoPacket (map phrase_mark marks.now)) }
    {
        if self.detail >= 1 || !loses_no_packet(marks) || !self.streaming.has_few_ins() {
            return None;
        }
        match self.device.function().domains() {
            [domain] => Some(*domain),
            _ => None,
        }
    }

    /// Runs so many microframes of such a device. Where its streams are steady, their counts run ahead and the ticks wait, so that many are
    /// done at once; none waits at the end.
    pub(crate) fn ahead_microframes<K: Sink>(
        &mut self,
        count: u32,
        marks: &[Mark],
        domain: u8,
        rack: &Rack,
        meters: &mut Meters,
        sink: &mut K,
    ) -> Result<(), Failed>
        requires rack { IsFitted (λ v x. (⟦<dyn Unit as Unit>⟧ v).kind_of x) rack.now }
        requires packets { LosesNoPacket (map phrase_mark marks.now) }
        ensures tells { (r : RunningWorld)
            → RunningStandsBetween self.old (readings (λ v x. (⟦<dyn Meter as Meter>⟧ v).reading_of x) meters.old) r → IsLone domain r
            → RunningTellsBetween (microframes (map phrase_mark marks.now) count r) self.new
            (readings (λ v x. (⟦<dyn Meter as Meter>⟧ v).reading_of x) meters.new)
            (K.written sink.old) (K.written sink.new) result }
        ensures cause { HasCause (K.faults sink.old) (K.faults sink.new) result }
    {
        let mut ahead = Ahead::none();
        for _passed in 0..count {
            ahead = self.ahead_microframe(ahead, marks, domain, rack, meters, sink)?;
        }
        self.catch_up(ahead, domain, rack, meters);
        Ok(())
    }

    /// One microframe more. Where the streams are steady its counts run ahead; else what waits is done, and it goes as any.
    fn ahead_microframe<K: Sink>(
        &mut self,
        ahead: Ahead,
        marks: &[Mark],
        domain: u8,
        rack: &Rack,
        meters: &mut Meters,
        sink: &mut K,
    ) -> Result<Ahead, Failed>
        requires rack { IsFitted (λ v x. (⟦<dyn Unit as Unit>⟧ v).kind_of x) rack.now }
        requires packets { LosesNoPacket (map phrase_mark marks.now) }
        requires ticks { ahead.ticks ≤ 128 }
        requires sent { All (λ m. m ≤ 2176) ahead.sent }
        ensures tells { (r : RunningWorld)
            → IsAhead domain ahead.ticks ahead.sent self.old (readings (λ v x. (⟦<dyn Meter as Meter>⟧ v).reading_of x) meters.old) r
            → Prints (K.written sink.old) (K.written sink.new) result (microframe (map phrase_mark marks.now) r).lines
            × IfOk result (λ next. IsAhead domain next.ticks next.sent self.new
            (readings (λ v x. (⟦<dyn Meter as Meter>⟧ v).reading_of x) meters.new) (microframe (map phrase_mark marks.now) r).world) }
        ensures ticks { IfOk result (λ next. next.ticks ≤ 128) }
        ensures sent { IfOk result (λ next. All (λ m. m ≤ 2176) next.sent) }
        ensures cause { HasCause (K.faults sink.old) (K.faults sink.new) result }
    {
        functions_are_sound(self.device.function());
        interfaces_are_numbered();
        if self.goes_ahead(ahead.ticks, domain) {
            return self.run_ahead(ahead, marks, domain, sink);
        }
        self.catch_up(ahead, domain, rack, meters);
        self.microframe(true, marks, rack, meters, sink)?;
        Ok(Ahead::none())
    }

    /// Whether the next microframe's counts may run ahead, when so many ticks wait: there is room for its ticks, at most 27, among those
    /// that are done at once, the streams are steady over all of these, and the packets to the device fit.
    fn goes_ahead(&self, ticks: u32, domain: u8) -> bool
        ensures few { result ≡ true → ticks ≤ 101 }
        ensures steady { (meters : List Reading) (r : RunningWorld) → RunningStands self.now meters r → result ≡ true
            → AreSteady domain (ticks + 27) r.device }
        ensures fit { (meters : List Reading) (r : RunningWorld) → RunningStands self.now meters r → result ≡ true
            → list_all (fits (streaming_of r)) (numbers_out r.device.function) ≡ true }
    {
        ticks <= 101
            && self.device.may_wait(domain, ticks + 27)
            && self.streaming.all_fit(&self.device)
    }

    /// The counts of one microframe, whose ticks wait: its packets, of which those from the device are counted alone, the clock, the end
    /// of the microframe, and the reports. It says nothing.
    fn run_ahead<K: Sink>(
        &mut self,
        ahead: Ahead,
        marks: &[Mark],
        domain: u8,
        sink: &mut K,
    ) -> Result<Ahead, Failed>
        requires packets { LosesNoPacket (map phrase_mark marks.now) }
        requires ticks { ahead.ticks ≤ 101 }
        requires sent { All (λ m. m ≤ 2176) ahead.sent }
        ensures tells { (meters : List Reading) (r : RunningWorld) → RunningStands self.old meters r → IsLone domain r
            → AreSteady domain (ahead.ticks + 27) r.device → list_all (fits (streaming_of r)) (numbers_out r.device.function) ≡ true
            → Prints (K.written sink.old) (K.written sink.new) result []
            × IfOk result (λ next. RunningStands self.new meters (gone_ahead (map phrase_mark marks.now) domain ahead.ticks ahead.sent (numbered r))) }
        ensures ticks { (meters : List Reading) (r : RunningWorld) → RunningStands self.old meters r → IsLone domain r
            → IfOk result (λ next. next.ticks ≡ ticks_then domain ahead.ticks (numbered r)) }
        ensures sent { (meters : List Reading) (r : RunningWorld) → RunningStands self.old meters r → IsLone domain r
            → IfOk result (λ next. next.sent ≡ sent_then ahead.ticks ahead.sent (numbered r)) }
        ensures few_ticks { IfOk result (λ next. next.ticks ≤ ahead.ticks + 27) }
        ensures few_sent { IfOk result (λ next. All (λ m. m ≤ 2176) next.sent) }
        ensures cause { HasCause (K.faults sink.old) (K.faults sink.new) result }
    {
        self.pass();
        self.out_packets(marks, sink)?;
        let mut sent = ahead.sent;
        self.streaming
            .send_later(&self.device, ahead.ticks, &mut sent);
        let ticks = ahead.ticks + self.advance(domain);
        self.end_microframe(sink)?;
        self.give_feedback_later(ticks, marks);
        Ok(Ahead { ticks, sent })
    }

    /// The reports of the device as it is when so many ticks that wait are done, with these losses.
    fn give_feedback_later(&mut self, ticks: u32, marks: &[Mark])
        ensures { (meters : List Reading) (r : RunningWorld) (later : DeviceWorld) → RunningStands self.old meters r
            → later.function ≡ r.device.function
            → ((interface : ℕ) → feedback_in later interface ≡ feedback_later_in r.device interface ticks)
            → RunningStands self.new meters (with_streaming r (after_reports_of (map phrase_mark marks.now) later (streaming_of r))) }
    {
        self.streaming
            .give_feedback_later(&self.device, ticks, marks);
    }

    /// Does what waits.
    fn catch_up(&mut self, ahead: Ahead, domain: u8, rack: &Rack, meters: &mut Meters)
        requires rack { IsFitted (λ v x. (⟦<dyn Unit as Unit>⟧ v).kind_of x) rack.now }
        requires ticks { ahead.ticks ≤ 128 }
        ensures { (r : RunningWorld)
            → IsAhead domain ahead.ticks ahead.sent self.old (readings (λ v x. (⟦<dyn Meter as Meter>⟧ v).reading_of x) meters.old) r
            → RunningStands self.new (readings (λ v x. (⟦<dyn Meter as Meter>⟧ v).reading_of x) meters.new) r }
    {
        self.do_ticks(ahead.ticks, domain, rack, meters);
        self.drop_sent(&ahead.sent);
    }

    /// Does so many ticks of a domain at once, if any.
    pub(crate) fn do_ticks(&mut self, count: u32, domain: u8, rack: &Rack, meters: &mut Meters)
        requires rack { IsFitted (λ v x. (⟦<dyn Unit as Unit>⟧ v).kind_of x) rack.now }
        requires few { count ≤ 128 }
        ensures stands { (r : RunningWorld)
            → RunningStands self.old (readings (λ v x. (⟦<dyn Meter as Meter>⟧ v).reading_of x) meters.old) r
            → met_after domain count r ≡ r.met
            → RunningStands self.new (readings (λ v x. (⟦<dyn Meter as Meter>⟧ v).reading_of x) meters.new) (running_after domain count r) }
        ensures played { (r : RunningWorld)
            → RunningStands self.old (readings (λ v x. (⟦<dyn Meter as Meter>⟧ v).reading_of x) meters.old) r
            → HoldPlayed domain (tones_of domain r.jacks) count r.device self.new.device.rows }
        ensures function { self.new.device.function ≡ self.old.device.function }
        ensures detail { self.new.detail ≡ self.old.detail }
    {
        if count > 0 {
            self.tick_rows(count, domain, rack, meters);
        }
    }

    /// So many frames of each interface with a stream from the device are gone: they were sent.
    fn drop_sent(&mut self, sent: &[u32])
        ensures { (meters : List Reading) (r : RunningWorld) → RunningStands self.old meters r → SentAreThere (sent_of sent.now r) r.device
            → RunningStands self.new meters (record r { device = after_sent (sent_of sent.now r) r.device }) }
    {
        self.streaming.drop_sent(&mut self.device, sent);
    }
}

/// Whether no packet is lost where these marks tell what is.
fn loses_no_packet(marks: &[Mark]) -> bool
    ensures { result ≡ true → LosesNoPacket (map phrase_mark marks.now) }
{
    marks.iter().all(|mark| is_feedback(mark.kind))
}

fn is_feedback(kind: MarkKind) -> bool
    ensures { result ≡ marks_feedback kind }
{
    match kind {
        MarkKind::Out => false,
        MarkKind::In => false,
        MarkKind::Feedback => true,
    }
}
