// The microframes of a running device: packets, ticks, and the ends of microframes.
ghost use Rattle.std.specs.Prelude.{◌≡◌, ◌++◌, ℕ, List, ◌+◌, ◌*◌, ◌<◌, ◌≤◌, nat_le, true, false, if◌then◌else◌, [], IfSome, length, map, slice_index};
ghost use Rattle.std.specs.List.{All, list_all, list_any};
ghost use Rattle.uac_entities.specs.EntityInterfaces.{channels_of};
ghost use Rattle.uac_units.specs.Fitting.{IsFitted};
ghost use Rattle.uac_units.specs.Hearing.{Reading, at_most_u64};
ghost use Rattle.uac_units.specs.MeterReadings.{readings};
ghost use Rattle.uac_edges.specs.Faults.{HasCause};
ghost use Rattle.uac_script.specs.Line.{phrase_mark};
ghost use Rattle.uac_script.specs.Phrase.{PhraseMark};
ghost use Rattle.uac_device.specs.DeviceKept as device;
ghost use Rattle.uac_device.specs.DeviceWorld.{DeviceWorld, ZerosFitIn, after_advance, met_of, next_ticks};
ghost use Rattle.uac_device.specs.DeviceTicks.{HoldPlayed};
ghost use Rattle.uac_device.specs.DeviceSums.{after_advances, kept_ticks, ticks_over};
ghost use Rattle.uac_device.specs.Stillness.{IsStill};
ghost use Rattle.uac_host.specs.HostFields.{GivesSilence};
ghost use Rattle.uac_transcript.specs.Printing.{Prints};
ghost use Rattle.uac_streaming.specs.StreamingWorld.{all_feedback, all_ends, found_lines, in_packets, out_packets};
ghost use Rattle.uac_running.specs.RunningWorld.{RunningWorld};
ghost use Rattle.uac_running.specs.ReportLines.{played_lines};
ghost use Rattle.uac_running.specs.Events.{after_all_jacks, domain_microframe, domain_microframes, ends_and_feedback, microframe};
ghost use Rattle.uac_running.specs.Events.{microframes};
ghost use Rattle.uac_running.specs.Events.{number_said, of_streams, packets_and_ticks, tick, tick_times};
ghost use Rattle.uac_running.specs.EventTicks.{lines_after, met_after, running_after, shown_after, shown_from, tones_of};
ghost use Rattle.uac_running.specs.RunningKept.{RunningStands, RunningStandsBetween, RunningTells, RunningTellsBetween};
ghost use Rattle.uac_running.specs.Quiet.{IsIdle, IsQuiet, Waits};
ghost use Rattle.uac_running.specs.Silence.{AreAtRest, packets};
ghost use Rattle.uac_running.specs.Silence as silence;

use crate::counts::count_ticks;
use crate::jacks::{any_is_audible, next_frames, one_is_audible, pass_frames};
use crate::printing::{gather_jacks, write_jacks};
use crate::running::Running;
use uac_device::Ticked;
use uac_edges::{Failed, Sink, TextLine, give_all};
use uac_graph::laws::{fresh_steps_have_room, fresh_steps_have_room_for_ticks};
use uac_script::Mark;
use uac_streaming::write_found;
use uac_topology::Function;
use uac_topology::laws::{functions_are_sound, interfaces_are_numbered};
use uac_transcript::write_microframe;
use uac_units::{Meter, Meters, Rack, Steps, Unit};

/// What of a domain rests at a tick: its jacks, where each is silent and gave silence last, and its streams, where none runs and the
/// terminals of the bus gave silence last.
#[derive(Clone, Copy)]
struct Resting {
    jacks: bool,
    device_streams: bool,
}

impl Running {
    /// Runs so many microframes, printed as they come; in each of them these packets and reports are lost. A run takes no memory.
    pub fn microframes<K: Sink>(
        &mut self,
        count: u32,
        marks: &[Mark],
        rack: &Rack,
        meters: &mut Meters,
        sink: &mut K,
    ) -> Result<(), Failed>
        requires rack { IsFitted (λ v x. (⟦<dyn Unit as Unit>⟧ v).kind_of x) rack.now }
        ensures tells { (r : RunningWorld)
            → RunningStandsBetween self.old (readings (λ v x. (⟦<dyn Meter as Meter>⟧ v).reading_of x) meters.old) r
            → RunningTellsBetween (microframes (map phrase_mark marks.now) count r) self.new
            (readings (λ v x. (⟦<dyn Meter as Meter>⟧ v).reading_of x) meters.new)
            (K.written sink.old) (K.written sink.new) result }
        ensures cause { HasCause (K.faults sink.old) (K.faults sink.new) result }
    {
        if !self.suits_rows() {
            return self.each_microframe(false, count, marks, rack, meters, sink);
        }
        if let Some(domain) = self.idle_domain() {
            if self.detail >= 1 {
                return self.idle_microframes(count, domain, rack, meters, sink);
            }
            self.quiet_microframes(count, domain, rack, meters);
            return Ok(());
        }
        if let Some(domain) = self.lone_domain(marks) {
            return self.ahead_microframes(count, marks, domain, rack, meters, sink);
        }
        self.each_microframe(true, count, marks, rack, meters, sink)
    }

    /// Runs so many microframes, one after the other; where `rows` tells so, several ticks of each at once.
    fn each_microframe<K: Sink>(
        &mut self,
        rows: bool,
        count: u32,
        marks: &[Mark],
        rack: &Rack,
        meters: &mut Meters,
        sink: &mut K,
    ) -> Result<(), Failed>
        requires rack { IsFitted (λ v x. (⟦<dyn Unit as Unit>⟧ v).kind_of x) rack.now }
        ensures tells { (r : RunningWorld)
            → RunningStandsBetween self.old (readings (λ v x. (⟦<dyn Meter as Meter>⟧ v).reading_of x) meters.old) r
            → RunningTellsBetween (microframes (map phrase_mark marks.now) count r) self.new
            (readings (λ v x. (⟦<dyn Meter as Meter>⟧ v).reading_of x) meters.new)
            (K.written sink.old) (K.written sink.new) result }
        ensures cause { HasCause (K.faults sink.old) (K.faults sink.new) result }
    {
        for _passed in 0..count {
            self.microframe(rows, marks, rack, meters, sink)?;
        }
        Ok(())
    }

    /// The only domain of a device that runs no stream.
    fn idle_domain(&self) -> Option<u8>
        ensures { (meters : List Reading) (r : RunningWorld) → RunningStands self.now meters r → IfSome result (λ domain. IsIdle domain r) }
    {
        if self.device.runs() {
            return None;
        }
        match self.device.function().domains() {
            [domain] => Some(*domain),
            _ => None,
        }
    }

    /// Whether several ticks are done faster at once: where no stream has more than two channels, or nothing sounds. A few frames of more
    /// are moved faster one by one than channel by channel.
    fn suits_rows(&self) -> bool
        ensures narrow { list_all (λ s. nat_le (channels_of self.now.device.function.entities s.terminal) 2) self.now.device.function.streams ≡ true
            → result ≡ true }
        ensures silent { (All (λ l. GivesSilence l.track) self.now.streaming.host)
            × (list_any (λ j. silence.is_audible j.tone) self.now.jacks ≡ false) → result ≡ true }
    {
        has_narrow_streams(self.device.function())
            || (self.streaming.is_silent() && !any_is_audible(&self.jacks))
    }

    /// Runs so many microframes of a device of one domain that runs no stream, at detail 0. They go several at once.
    fn quiet_microframes(&mut self, count: u32, domain: u8, rack: &Rack, meters: &mut Meters)
        requires rack { IsFitted (λ v x. (⟦<dyn Unit as Unit>⟧ v).kind_of x) rack.now }
        ensures { (marks : List PhraseMark) (r : RunningWorld)
            → RunningStandsBetween self.old (readings (λ v x. (⟦<dyn Meter as Meter>⟧ v).reading_of x) meters.old) r → IsQuiet domain r
            → RunningStandsBetween self.new (readings (λ v x. (⟦<dyn Meter as Meter>⟧ v).reading_of x) meters.new)
            (microframes marks count r).world }
    {
        functions_are_sound(self.device.function());
        interfaces_are_numbered();
        let mut passed = 0;
        while passed < count {
            passed += self.quiet_at_once(count - passed, domain, rack, meters);
        }
    }

    /// Several microframes of such a device at once, at most so many: its clock goes on by all of them, and then their ticks are done.
    /// Answers how many they are, at least one.
    fn quiet_at_once(&mut self, most: u32, domain: u8, rack: &Rack, meters: &mut Meters) -> u32
        requires rack { IsFitted (λ v x. (⟦<dyn Unit as Unit>⟧ v).kind_of x) rack.now }
        requires some { 1 ≤ most }
        ensures stands { (marks : List PhraseMark) (r : RunningWorld)
            → RunningStands self.old (readings (λ v x. (⟦<dyn Meter as Meter>⟧ v).reading_of x) meters.old) r → IsQuiet domain r
            → RunningStands self.new (readings (λ v x. (⟦<dyn Meter as Meter>⟧ v).reading_of x) meters.new) (microframes marks result r).world }
        ensures some { 1 ≤ result }
        ensures few { result ≤ most }
    {
        let count = self.device.microframes_within(domain, 128).min(most);
        self.pass_by(count);
        let waiting = self.advance_over(domain, count);
        self.do_waiting(waiting, domain, rack, meters);
        count
    }

    /// Does the ticks that wait.
    fn do_waiting(&mut self, waiting: u32, domain: u8, rack: &Rack, meters: &mut Meters)
        requires rack { IsFitted (λ v x. (⟦<dyn Unit as Unit>⟧ v).kind_of x) rack.now }
        requires few { waiting ≤ 128 }
        ensures { (r : RunningWorld) → Waits domain waiting self.old (readings (λ v x. (⟦<dyn Meter as Meter>⟧ v).reading_of x) meters.old) r
            → RunningStands self.new (readings (λ v x. (⟦<dyn Meter as Meter>⟧ v).reading_of x) meters.new) r }
    {
        self.do_ticks(waiting, domain, rack, meters);
    }

    /// One microframe; where `rows` tells so, several ticks of it at once.
    #[inline(never)]
    pub(crate) fn microframe<K: Sink>(
        &mut self,
        rows: bool,
        marks: &[Mark],
        rack: &Rack,
        meters: &mut Meters,
        sink: &mut K,
    ) -> Result<(), Failed>
        requires rack { IsFitted (λ v x. (⟦<dyn Unit as Unit>⟧ v).kind_of x) rack.now }
        ensures tells { (r : RunningWorld)
            → RunningStandsBetween self.old (readings (λ v x. (⟦<dyn Meter as Meter>⟧ v).reading_of x) meters.old) r
            → RunningTellsBetween (microframe (map phrase_mark marks.now) r) self.new
            (readings (λ v x. (⟦<dyn Meter as Meter>⟧ v).reading_of x) meters.new)
            (K.written sink.old) (K.written sink.new) result }
        ensures cause { HasCause (K.faults sink.old) (K.faults sink.new) result }
    {
        functions_are_sound(self.device.function());
        interfaces_are_numbered();
        self.pass();
        self.write_number(self.time, sink)?;
        self.packets_and_ticks(rows, marks, rack, meters, sink)?;
        self.ends_and_feedback(marks, sink)
    }

    /// The packets of a microframe, and the ticks of each domain.
    fn packets_and_ticks<K: Sink>(
        &mut self,
        rows: bool,
        marks: &[Mark],
        rack: &Rack,
        meters: &mut Meters,
        sink: &mut K,
    ) -> Result<(), Failed>
        requires rack { IsFitted (λ v x. (⟦<dyn Unit as Unit>⟧ v).kind_of x) rack.now }
        ensures tells { (r : RunningWorld) → RunningStands self.old (readings (λ v x. (⟦<dyn Meter as Meter>⟧ v).reading_of x) meters.old) r
            → RunningTells (packets_and_ticks (map phrase_mark marks.now) r) self.new
            (readings (λ v x. (⟦<dyn Meter as Meter>⟧ v).reading_of x) meters.new)
            (K.written sink.old) (K.written sink.new) result }
        ensures cause { HasCause (K.faults sink.old) (K.faults sink.new) result }
    {
        self.packets(marks, sink)?;
        self.domain_microframes(rows, rack, meters, sink)
    }

    /// The packets of a microframe: those to the device, and those from it. Where no stream runs there are none.
    fn packets<K: Sink>(&mut self, marks: &[Mark], sink: &mut K) -> Result<(), Failed>
        ensures tells { (meters : List Reading) (r : RunningWorld) → RunningStands self.old meters r
            → RunningTells (packets (map phrase_mark marks.now) r) self.new meters (K.written sink.old) (K.written sink.new) result }
        ensures cause { HasCause (K.faults sink.old) (K.faults sink.new) result }
    {
        if !self.device.runs() {
            return Ok(());
        }
        self.out_packets(marks, sink)?;
        self.in_packets(marks, sink)
    }

    /// The end of a microframe for each stream, and the feedback reports; nothing happens where no stream runs. Where a packet was lost,
    /// its ring has room for the zeros.
    fn ends_and_feedback<K: Sink>(&mut self, marks: &[Mark], sink: &mut K) -> Result<(), Failed>
        ensures tells { (meters : List Reading) (r : RunningWorld) → RunningStands self.old meters r
            → ((interface : ℕ) → ZerosFitIn r.device interface)
            → RunningTells (ends_and_feedback (map phrase_mark marks.now) r) self.new meters (K.written sink.old) (K.written sink.new)
            result }
        ensures cause { HasCause (K.faults sink.old) (K.faults sink.new) result }
    {
        if !self.device.runs() {
            return Ok(());
        }
        self.end_microframe(sink)?;
        self.give_feedback(marks, sink)
    }

    /// The packets to the device.
    pub(crate) fn out_packets<K: Sink>(
        &mut self,
        marks: &[Mark],
        sink: &mut K,
    ) -> Result<(), Failed>
        ensures tells { (meters : List Reading) (r : RunningWorld) → RunningStands self.old meters r
            → RunningTells (of_streams (out_packets r.detail (map phrase_mark marks.now)) r) self.new meters
            (K.written sink.old) (K.written sink.new) result }
        ensures cause { HasCause (K.faults sink.old) (K.faults sink.new) result }
    {
        self.streaming
            .out_packets(&mut self.device, self.detail, marks, sink)
    }

    /// The packets from the device.
    fn in_packets<K: Sink>(&mut self, marks: &[Mark], sink: &mut K) -> Result<(), Failed>
        ensures tells { (meters : List Reading) (r : RunningWorld) → RunningStands self.old meters r
            → RunningTells (of_streams (in_packets r.detail (map phrase_mark marks.now)) r) self.new meters
            (K.written sink.old) (K.written sink.new) result }
        ensures cause { HasCause (K.faults sink.old) (K.faults sink.new) result }
    {
        self.streaming
            .in_packets(&mut self.device, self.detail, marks, sink)
    }

    /// The end of the microframe for each stream.
    pub(crate) fn end_microframe<K: Sink>(&mut self, sink: &mut K) -> Result<(), Failed>
        ensures tells { (meters : List Reading) (r : RunningWorld) → RunningStands self.old meters r
            → ((interface : ℕ) → ZerosFitIn r.device interface)
            → RunningTells (of_streams (all_ends r.detail) r) self.new meters (K.written sink.old) (K.written sink.new) result }
        ensures cause { HasCause (K.faults sink.old) (K.faults sink.new) result }
    {
        self.streaming
            .end_microframe(&mut self.device, self.detail, sink)
    }

    /// The feedback reports.
    fn give_feedback<K: Sink>(&mut self, marks: &[Mark], sink: &mut K) -> Result<(), Failed>
        ensures tells { (meters : List Reading) (r : RunningWorld) → RunningStands self.old meters r
            → RunningTells (of_streams (all_feedback r.detail (map phrase_mark marks.now)) r) self.new meters
            (K.written sink.old) (K.written sink.new) result }
        ensures cause { HasCause (K.faults sink.old) (K.faults sink.new) result }
    {
        self.streaming
            .give_feedback(&self.device, self.detail, marks, sink)
    }

    /// One microframe more has come.
    pub(crate) fn pass(&mut self)
        ensures { self.new ≡ record self.old { time = at_most_u64 (self.old.time + 1) } }
    {
        self.pass_by(1);
    }

    /// So many microframes more have come.
    fn pass_by(&mut self, count: u32)
        ensures { self.new ≡ record self.old { time = at_most_u64 (self.old.time + count) } }
    {
        self.time = self.time.saturating_add(u64::from(count));
    }

    /// Prints the number of a microframe from detail 2 on.
    pub(crate) fn write_number<K: Sink>(&self, time: u64, sink: &mut K) -> Result<(), Failed>
        ensures printed { Prints (K.written sink.old) (K.written sink.new) result (number_said self.now.detail time) }
        ensures cause { HasCause (K.faults sink.old) (K.faults sink.new) result }
    {
        if self.detail >= 2 {
            return write_microframe(sink, time);
        }
        Ok(())
    }

    /// Each domain's part of a microframe, in order.
    fn domain_microframes<K: Sink>(
        &mut self,
        rows: bool,
        rack: &Rack,
        meters: &mut Meters,
        sink: &mut K,
    ) -> Result<(), Failed>
        requires rack { IsFitted (λ v x. (⟦<dyn Unit as Unit>⟧ v).kind_of x) rack.now }
        ensures tells { (r : RunningWorld) → RunningStands self.old (readings (λ v x. (⟦<dyn Meter as Meter>⟧ v).reading_of x) meters.old) r
            → RunningTells (domain_microframes r.device.function.domains r) self.new
            (readings (λ v x. (⟦<dyn Meter as Meter>⟧ v).reading_of x) meters.new)
            (K.written sink.old) (K.written sink.new) result }
        ensures cause { HasCause (K.faults sink.old) (K.faults sink.new) result }
    {
        for index in 0..self.domain_count() {
            self.domain_microframe(rows, self.clock_at(index), rack, meters, sink)?;
        }
        Ok(())
    }

    /// How many domains there are.
    fn domain_count(&self) -> usize
        ensures { result ≡ length self.now.device.function.domains }
    {
        self.device.function().domains().len()
    }

    /// The clock of the domain at an index.
    fn clock_at(&self, index: usize) -> u8
        requires { index < length self.now.device.function.domains }
        ensures { result ≡ slice_index self.now.device.function.domains index }
    {
        self.device.function().domains()[index]
    }

    /// A domain's part of a microframe.
    fn domain_microframe<K: Sink>(
        &mut self,
        rows: bool,
        domain: u8,
        rack: &Rack,
        meters: &mut Meters,
        sink: &mut K,
    ) -> Result<(), Failed>
        requires rack { IsFitted (λ v x. (⟦<dyn Unit as Unit>⟧ v).kind_of x) rack.now }
        ensures tells { (r : RunningWorld) → RunningStands self.old (readings (λ v x. (⟦<dyn Meter as Meter>⟧ v).reading_of x) meters.old) r
            → RunningTells (domain_microframe domain r) self.new (readings (λ v x. (⟦<dyn Meter as Meter>⟧ v).reading_of x) meters.new)
            (K.written sink.old) (K.written sink.new) result }
        ensures cause { HasCause (K.faults sink.old) (K.faults sink.new) result }
        ensures function { self.new.device.function ≡ self.old.device.function }
    {
        let ticks = self.advance(domain);
        self.ticks(rows, ticks, domain, rack, meters, sink)
    }

    /// A domain's clock goes on by one microframe; answers how often it ticks. These ticks are counted.
    pub(crate) fn advance(&mut self, domain: u8) -> u32
        ensures stands { (meters : List Reading) (r : RunningWorld) → RunningStands self.old meters r
            → RunningStands self.new meters (record r { device = after_advance domain r.device }) }
        ensures ticks { (meters : List Reading) (r : RunningWorld) → RunningStands self.old meters r → result ≡ next_ticks domain r.device }
        ensures few { result ≤ 27 }
        ensures function { self.new.device.function ≡ self.old.device.function }
        ensures detail { self.new.detail ≡ self.old.detail }
    {
        self.advance_over(domain, 1)
    }

    /// A domain's clock goes on by so many microframes; answers how often it ticks in all of them. These ticks are counted.
    fn advance_over(&mut self, domain: u8, count: u32) -> u32
        requires some { 1 ≤ count }
        requires few { count ≤ 64 }
        ensures stands { (meters : List Reading) (r : RunningWorld) → RunningStands self.old meters r
            → RunningStands self.new meters (record r { device = after_advances domain count r.device }) }
        ensures ticks { (meters : List Reading) (r : RunningWorld) → RunningStands self.old meters r
            → result ≡ ticks_over domain count r.device }
        ensures kept { result ≡ kept_ticks self.old.device domain count }
        ensures few { result ≤ 27 * count }
        ensures function { self.new.device.function ≡ self.old.device.function }
        ensures detail { self.new.detail ≡ self.old.detail }
    {
        let ticks = self.device.ticks_over(domain, count);
        count_ticks(&mut self.counts, domain, ticks);
        ticks
    }

    /// Does so many ticks of a domain: at once, where `rows` tells so and it can be, or one after the other.
    fn ticks<K: Sink>(
        &mut self,
        rows: bool,
        count: u32,
        domain: u8,
        rack: &Rack,
        meters: &mut Meters,
        sink: &mut K,
    ) -> Result<(), Failed>
        requires rack { IsFitted (λ v x. (⟦<dyn Unit as Unit>⟧ v).kind_of x) rack.now }
        ensures tells { (r : RunningWorld) → RunningStands self.old (readings (λ v x. (⟦<dyn Meter as Meter>⟧ v).reading_of x) meters.old) r
            → RunningTells (tick_times count domain r) self.new (readings (λ v x. (⟦<dyn Meter as Meter>⟧ v).reading_of x) meters.new)
            (K.written sink.old) (K.written sink.new) result }
        ensures cause { HasCause (K.faults sink.old) (K.faults sink.new) result }
        ensures function { self.new.device.function ≡ self.old.device.function }
    {
        if rows && self.meets_nothing(count, domain) {
            self.tick_rows(count, domain, rack, meters);
            return self.show_rows(0, count, domain, sink);
        }
        self.tick_each(count, domain, rack, meters, sink)
    }

    /// Whether so many ticks of a domain are done at once, where none of them finds a ring empty or full. A single one is done faster by
    /// itself.
    fn meets_nothing(&self, count: u32, domain: u8) -> bool
        ensures some { result ≡ true → 2 ≤ count }
        ensures most { result ≡ true → count ≤ 128 }
        ensures lines { (meters : List Reading) (r : RunningWorld) → RunningStands self.now meters r → result ≡ true
            → lines_after domain count r ≡ shown_after domain count r }
        ensures met { (meters : List Reading) (r : RunningWorld) → RunningStands self.now meters r → result ≡ true
            → met_after domain count r ≡ r.met }
    {
        count >= 2 && count <= 128 && self.device.goes_on(domain, count)
    }

    /// Prints what a domain's output jacks played at each of so many ticks, after so many others, of those that were done at once last, from
    /// detail 1 on.
    pub(crate) fn show_rows<K: Sink>(
        &self,
        from: u32,
        count: u32,
        domain: u8,
        sink: &mut K,
    ) -> Result<(), Failed>
        requires { from + count ≤ 128 }
        ensures printed { (done : ℕ) (r : RunningWorld) → from + count ≤ done → self.now.detail ≡ r.detail
            → self.now.device.function ≡ r.device.function → HoldPlayed domain (tones_of domain r.jacks) done r.device self.now.device.rows
            → Prints (K.written sink.old) (K.written sink.new) result (shown_from domain from count r) }
        ensures cause { HasCause (K.faults sink.old) (K.faults sink.new) result }
    {
        if self.detail == 0 {
            return Ok(());
        }
        let mut text: TextLine<1024> = TextLine::new();
        for tick in from..from + count {
            gather_jacks(&mut text, sink, &self.device, domain, tick)?;
        }
        give_all(sink, text.as_bytes())
    }

    /// So many ticks of a domain at once: its jacks give their next frames, the device ticks, and the meters hear its output jacks. The
    /// renders are counted.
    pub(crate) fn tick_rows(&mut self, count: u32, domain: u8, rack: &Rack, meters: &mut Meters)
        requires rack { IsFitted (λ v x. (⟦<dyn Unit as Unit>⟧ v).kind_of x) rack.now }
        requires some { 1 ≤ count }
        requires most { count ≤ 128 }
        ensures stands { (r : RunningWorld)
            → RunningStands self.old (readings (λ v x. (⟦<dyn Meter as Meter>⟧ v).reading_of x) meters.old) r
            → met_after domain count r ≡ r.met
            → RunningStands self.new (readings (λ v x. (⟦<dyn Meter as Meter>⟧ v).reading_of x) meters.new) (running_after domain count r) }
        ensures played { (r : RunningWorld)
            → RunningStands self.old (readings (λ v x. (⟦<dyn Meter as Meter>⟧ v).reading_of x) meters.old) r
            → HoldPlayed domain (tones_of domain r.jacks) count r.device self.new.device.rows }
        ensures function { self.new.device.function ≡ self.old.device.function }
        ensures detail { self.new.detail ≡ self.old.detail }
    {
        fresh_steps_have_room_for_ticks(self.device.function());
        let mut steps = Steps::new();
        self.device
            .tick_rows(domain, count, &self.jacks, rack, meters, &mut steps);
        pass_frames(&mut self.jacks, domain, count);
        self.renders = self.renders.saturating_add(steps.count());
    }

    /// Does so many ticks of a domain, one after the other. Where its jacks are silent they rest from the second tick on, and so do its
    /// streams where none runs.
    fn tick_each<K: Sink>(
        &mut self,
        count: u32,
        domain: u8,
        rack: &Rack,
        meters: &mut Meters,
        sink: &mut K,
    ) -> Result<(), Failed>
        requires rack { IsFitted (λ v x. (⟦<dyn Unit as Unit>⟧ v).kind_of x) rack.now }
        ensures tells { (r : RunningWorld) → RunningStands self.old (readings (λ v x. (⟦<dyn Meter as Meter>⟧ v).reading_of x) meters.old) r
            → RunningTells (tick_times count domain r) self.new (readings (λ v x. (⟦<dyn Meter as Meter>⟧ v).reading_of x) meters.new)
            (K.written sink.old) (K.written sink.new) result }
        ensures cause { HasCause (K.faults sink.old) (K.faults sink.new) result }
        ensures function { self.new.device.function ≡ self.old.device.function }
    {
        let silent = !one_is_audible(&self.jacks, domain);
        let still = !self.device.runs();
        let mut rest = Resting {
            jacks: false,
            device_streams: false,
        };
        for _ticked in 0..count {
            self.tick(rest, domain, rack, meters, sink)?;
            rest = Resting {
                jacks: silent,
                device_streams: still,
            };
        }
        Ok(())
    }

    /// One tick of a domain, whose jacks and streams may rest.
    fn tick<K: Sink>(
        &mut self,
        rest: Resting,
        domain: u8,
        rack: &Rack,
        meters: &mut Meters,
        sink: &mut K,
    ) -> Result<(), Failed>
        requires rack { IsFitted (λ v x. (⟦<dyn Unit as Unit>⟧ v).kind_of x) rack.now }
        ensures tells { (r : RunningWorld) → RunningStands self.old (readings (λ v x. (⟦<dyn Meter as Meter>⟧ v).reading_of x) meters.old) r
            → (rest.jacks ≡ true → AreAtRest domain r.jacks r.device) → (rest.device_streams ≡ true → IsStill domain r.device)
            → RunningTells (tick domain r) self.new (readings (λ v x. (⟦<dyn Meter as Meter>⟧ v).reading_of x) meters.new)
            (K.written sink.old) (K.written sink.new) result }
        ensures rests { (meters : List Reading) (r : RunningWorld) → RunningStands self.old meters r
            → silence.one_is_audible domain r.jacks ≡ false
            → AreAtRest domain (tick domain r).world.jacks (tick domain r).world.device }
        ensures cause { HasCause (K.faults sink.old) (K.faults sink.new) result }
        ensures function { self.new.device.function ≡ self.old.device.function }
    {
        let found = self.tick_device(rest, domain, rack, meters);
        self.show(domain, found, sink)
    }

    /// The jacks of a domain give their next frames, unless they rest, the device ticks, and the meters hear its output jacks. The renders
    /// are counted, and what rings were found empty and full. Answers which: none where the domain's streams rest.
    fn tick_device(&mut self, rest: Resting, domain: u8, rack: &Rack, meters: &mut Meters) -> Ticked
        requires rack { IsFitted (λ v x. (⟦<dyn Unit as Unit>⟧ v).kind_of x) rack.now }
        ensures stands { (r : RunningWorld)
            → RunningStands self.old (readings (λ v x. (⟦<dyn Meter as Meter>⟧ v).reading_of x) meters.old) r
            → (rest.jacks ≡ true → AreAtRest domain r.jacks r.device) → (rest.device_streams ≡ true → IsStill domain r.device)
            → RunningStands self.new (readings (λ v x. (⟦<dyn Meter as Meter>⟧ v).reading_of x) meters.new) (tick domain r).world }
        ensures found { (r : RunningWorld) → RunningStands self.old (readings (λ v x. (⟦<dyn Meter as Meter>⟧ v).reading_of x) meters.old) r
            → (rest.jacks ≡ true → AreAtRest domain r.jacks r.device) → (rest.device_streams ≡ true → IsStill domain r.device)
            → result ≡ met_of domain (after_all_jacks domain r) }
        ensures rests { (meters : List Reading) (r : RunningWorld) → RunningStands self.old meters r
            → silence.one_is_audible domain r.jacks ≡ false
            → AreAtRest domain (tick domain r).world.jacks (tick domain r).world.device }
        ensures function { self.new.device.function ≡ self.old.device.function }
        ensures detail { self.new.detail ≡ self.old.detail }
    {
        next_frames(&mut self.device, &mut self.jacks, domain, rest.jacks);
        fresh_steps_have_room(self.device.function());
        let mut steps = Steps::new();
        let found = self
            .device
            .tick_where(rest.device_streams, domain, rack, meters, &mut steps);
        self.renders = self.renders.saturating_add(steps.count());
        self.streaming.count_met(self.device.function(), found);
        found
    }

    /// Prints what a tick of a domain found, and from detail 1 on what its output jacks played.
    fn show<K: Sink>(&self, domain: u8, found: Ticked, sink: &mut K) -> Result<(), Failed>
        ensures printed { (before after : DeviceWorld) → before.function ≡ self.now.device.function → found ≡ met_of domain before
            → device.DeviceStands self.now.device after
            → Prints (K.written sink.old) (K.written sink.new) result
            (found_lines domain before ++ (if nat_le 1 self.now.detail then played_lines domain after else [])) }
        ensures cause { HasCause (K.faults sink.old) (K.faults sink.new) result }
    {
        write_found(sink, self.device.function().streams(), found)?;
        self.show_played(domain, sink)
    }

    /// Prints what a domain's output jacks played, from detail 1 on.
    fn show_played<K: Sink>(&self, domain: u8, sink: &mut K) -> Result<(), Failed>
        ensures printed { (w : DeviceWorld) → device.DeviceStands self.now.device w
            → Prints (K.written sink.old) (K.written sink.new) result (if nat_le 1 self.now.detail then played_lines domain w else []) }
        ensures cause { HasCause (K.faults sink.old) (K.faults sink.new) result }
    {
        if self.detail >= 1 {
            return write_jacks(sink, &self.device, domain);
        }
        Ok(())
    }
}

/// Whether no stream has more than two channels.
fn has_narrow_streams(function: &Function) -> bool
    ensures { result ≡ list_all (λ s. nat_le (channels_of function.now.entities s.terminal) 2) function.now.streams }
{
    function
        .streams()
        .iter()
        .all(|stream| function.channels_of(stream.terminal) <= 2)
}
