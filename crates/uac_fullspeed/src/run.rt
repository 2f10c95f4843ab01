// A stream under way: its ring, the clock, the host's pace and the feedback.
ghost use Rattle.std.specs.Prelude.{◌≡◌, ◌<◌, ◌≤◌, ◌+◌, ◌^◌, ◌≤ℤ◌, ◌++◌, ◌∷◌, [], ℕ, pos, negsuc, Some, IfOk};
ghost use Rattle.uac_edges.specs.Faults.{HasCause};
ghost use Rattle.uac_transcript.specs.Printing.{Prints};
ghost use Rattle.uac_fullspeed.specs.FullSpeedNominal.{IsFsNominal, fs_nominal_of};
ghost use Rattle.uac_fullspeed.specs.FullSpeedWorld as spec;
ghost use Rattle.uac_fullspeed.specs.FullSpeedWorld.{FullSpeedWorld, after_feedback, before_feedback, bus_frame, bus_frames, full_speed_start};
ghost use Rattle.uac_fullspeed.specs.FullSpeedWorld.{feedback_in, size_next, step_next, ticks_next, with_deviation, with_detail, whole_by};
ghost use Rattle.uac_fullspeed.specs.FullSpeedLines.{FsPrints, frame_lines, frame_number, frames_lines, lines_before_feedback, feedback_lines, state_lines};
ghost use Rattle.uac_fullspeed.specs.FullSpeedLines.{shown_in};
ghost use Rattle.uac_fullspeed.specs.FullSpeedKept.{CarryTells, FsRunStands, FsRunStandsBetween, FsSaysBetween, FsTellsBetween};

use crate::carry::{Brought, carry};
use crate::laws::fs_rates_have_bands;
use crate::printing::{Shown, write_feedback_at, write_shown};
use crate::rates::{fs_step, rate_of};
use crate::reports::fs_report;
use crate::values::FsNominal;
use std::alloc::Global;
use std::marker::Model;
use uac_bench::{BenchClock, BenchStream, write_number};
use uac_descriptor::NoMemory;
use uac_edges::{Failed, Sink};
use uac_rate::{Pacer, Steady};

/// A stream under way. Its clock and its pace count 65,536ths of a frame, so that their steps are four times those of a bus frame.
#[derive(Drop)]
pub struct FsRun {
    nominal: FsNominal,
    stream: BenchStream,
    clock: BenchClock,
    pace: Pacer,
    /// The rate value in force.
    value: u32,
    deviation: i32,
    steady: Steady,
    detail: u8,
    /// The bus frames since the start; the count stands still at 18446744073709551615.
    time: u64,
    /// The bus frames since a report last fell due.
    since: u32,
}

impl Model for FsRun {
    ghost use Rattle.std.specs.Prelude.{◌<◌, ◌≤ℤ◌, ◌^◌, pos, negsuc};
    ghost use Rattle.uac_fullspeed.specs.FullSpeedNominal.{IsFsNominal};
    ghost use Rattle.uac_fullspeed.specs.FullSpeedKept.{FsRunFields, IsFsRun};

    ghost Value = { FsRunFields };

    ghost view = { λ r. record {
      nominal = r.nominal;
      stream = r.stream;
      clock = r.clock;
      pace = r.pace;
      value = r.value;
      deviation = r.deviation;
      steady = r.steady;
      detail = r.detail;
      time = r.time;
      since = r.since;
    } };

    ghost invariant = { λ r. IsFsRun r.nominal r.value r.deviation r.since };
}

impl FsRun {
    /// A stream at its start.
    pub fn new(alloc: Global, nominal: FsNominal) -> Result<FsRun, NoMemory>
        requires { IsFsNominal nominal }
        ensures { IfOk result (λ run. (hertz : ℕ) → fs_nominal_of hertz ≡ Some nominal → FsRunStandsBetween run (full_speed_start hertz)) }
    {
        fs_rates_have_bands();
        let stream = BenchStream::new(alloc)?;
        Ok(FsRun {
            nominal,
            stream,
            clock: BenchClock::new(),
            pace: Pacer::new(),
            value: nominal.f,
            deviation: 0,
            steady: Steady::new(),
            detail: 0,
            time: 0,
            since: 0,
        })
    }

    /// The clock is off by so many ppm from now on.
    #[tactic(auto, unfolding(crate::specs::FullSpeedWorld::with_deviation))]
    pub fn deviate(&mut self, ppm: i32)
        requires low { negsuc 99999 ≤ℤ ppm }
        requires high { ppm ≤ℤ pos 100000 }
        ensures { (w : FullSpeedWorld) → FsRunStandsBetween self.old w → FsRunStandsBetween self.new (with_deviation ppm w) }
    {
        self.deviation = ppm;
        self.steady.deviate(ppm);
    }

    /// How much is printed from now on.
    #[tactic(auto, unfolding(crate::specs::FullSpeedWorld::with_detail))]
    pub fn set_detail(&mut self, detail: u8)
        ensures { (w : FullSpeedWorld) → FsRunStandsBetween self.old w → FsRunStandsBetween self.new (with_detail detail w) }
    {
        self.detail = detail;
    }

    /// So many bus frames, printed as they come; in each of them the packet is lost, or the report. They take no memory.
    pub fn frames<K: Sink>(
        &mut self,
        count: u32,
        packet_lost: bool,
        report_lost: bool,
        sink: &mut K,
    ) -> Result<(), Failed>
        ensures tells { (w : FullSpeedWorld) → FsRunStandsBetween self.old w
            → FsTellsBetween (frames_lines count packet_lost report_lost w) (bus_frames count packet_lost report_lost w) self.new
            (K.written sink.old) (K.written sink.new) result }
        ensures cause { HasCause (K.faults sink.old) (K.faults sink.new) result }
    {
        for _passed in 0..count {
            self.frame(packet_lost, report_lost, sink)?;
        }
        Ok(())
    }

    /// One bus frame.
    fn frame<K: Sink>(
        &mut self,
        packet_lost: bool,
        report_lost: bool,
        sink: &mut K,
    ) -> Result<(), Failed>
        ensures tells { (w : FullSpeedWorld) → FsRunStandsBetween self.old w
            → FsTellsBetween (frame_lines packet_lost report_lost w) (bus_frame packet_lost report_lost w) self.new
            (K.written sink.old) (K.written sink.new) result }
        ensures cause { HasCause (K.faults sink.old) (K.faults sink.new) result }
    {
        self.up_to_feedback(packet_lost, sink)?;
        self.give_feedback(report_lost, sink)
    }

    /// A bus frame up to its report.
    fn up_to_feedback<K: Sink>(&mut self, packet_lost: bool, sink: &mut K) -> Result<(), Failed>
        ensures tells { (w : FullSpeedWorld) → FsRunStandsBetween self.old w
            → FsSaysBetween (lines_before_feedback packet_lost w) (before_feedback packet_lost w) self.new
            (K.written sink.old) (K.written sink.new) result }
        ensures cause { HasCause (K.faults sink.old) (K.faults sink.new) result }
    {
        let brought = self.pass(packet_lost);
        self.write_number(sink)?;
        self.carry(brought, sink)
    }

    /// Prints the number of the bus frame, from detail 2 on.
    fn write_number<K: Sink>(&self, sink: &mut K) -> Result<(), Failed>
        ensures printed { (w : FullSpeedWorld) → FsRunStands self.now w
            → Prints (K.written sink.old) (K.written sink.new) result (frame_number w) }
        ensures cause { HasCause (K.faults sink.old) (K.faults sink.new) result }
    {
        write_number(sink, self.detail, self.time)
    }

    /// A bus frame comes: the host's pace and the clock go on.
    fn pass(&mut self, packet_lost: bool) -> Brought
        ensures stands { (w : FullSpeedWorld) → FsRunStands self.old w → FsRunStands self.new (spec.passed packet_lost w) }
        ensures frames { (w : FullSpeedWorld) → FsRunStands self.old w → result.frames ≡ size_next w }
        ensures ticks { (w : FullSpeedWorld) → FsRunStands self.old w → result.ticks ≡ ticks_next w }
        ensures few { (w : FullSpeedWorld) → FsRunStands self.old w → result.ticks ≤ 769 }
        ensures lost { result.lost ≡ packet_lost }
    {
        let frames = self.pace.next(4 * self.value);
        let step = fs_step(&self.nominal, self.deviation);
        let ticks = self.clock.advance(4 * step);
        self.time = self.time.saturating_add(1);
        self.since = (self.since + 1) % 8;
        Brought {
            frames,
            lost: packet_lost,
            ticks,
        }
    }

    /// What a bus frame brings to the stream.
    fn carry<K: Sink>(&mut self, brought: Brought, sink: &mut K) -> Result<(), Failed>
        ensures tells { (w : FullSpeedWorld) → FsRunStandsBetween self.old w → brought.ticks ≤ 769 → CarryTells brought w self.new
            (K.written sink.old) (K.written sink.new) result }
        ensures cause { HasCause (K.faults sink.old) (K.faults sink.new) result }
    {
        carry(&mut self.stream, self.detail, brought, sink)
    }

    /// The feedback report, where one is due.
    fn give_feedback<K: Sink>(&mut self, lost: bool, sink: &mut K) -> Result<(), Failed>
        ensures tells { (w : FullSpeedWorld) → FsRunStandsBetween self.old w
            → FsTellsBetween (feedback_lines lost w) (after_feedback lost w) self.new (K.written sink.old) (K.written sink.new) result }
        ensures cause { HasCause (K.faults sink.old) (K.faults sink.new) result }
    {
        if self.since != 0 {
            return Ok(());
        }
        let value = self.due_feedback();
        self.bring_feedback(lost, value);
        write_feedback_at(sink, self.detail, value, lost)
    }

    /// The feedback report of the stream as it is.
    fn due_feedback(&self) -> u32
        ensures value { (w : FullSpeedWorld) → FsRunStands self.now w → result ≡ feedback_in w }
        ensures fits { result < 2 ^ 24 }
    {
        fs_rates_have_bands();
        match self.stream.target() {
            Some(target) => fs_report(&self.nominal, target, self.stream.level()),
            None => self.nominal.f,
        }
    }

    /// A feedback report comes to the host, or is missed.
    fn bring_feedback(&mut self, lost: bool, value: u32)
        requires { value < 2 ^ 24 }
        ensures stands { (w : FullSpeedWorld) → FsRunStands self.old w → FsRunStands self.new (spec.feedback_given lost value w) }
        ensures detail { self.new.detail ≡ self.old.detail }
    {
        self.steady.report(0, lost);
        if lost {
            self.stream.miss();
        } else {
            self.value = value;
        }
    }

    /// Prints the report of the bench.
    pub fn write_state<K: Sink>(&self, sink: &mut K) -> Result<(), Failed>
        ensures printed { (w : FullSpeedWorld) → FsRunStandsBetween self.now w
            → FsPrints (K.written sink.old) (K.written sink.new) result (state_lines w) }
        ensures cause { HasCause (K.faults sink.old) (K.faults sink.new) result }
    {
        write_shown(sink, self.shown())
    }

    /// What the report of the bench shows.
    fn shown(&self) -> Shown
        ensures { (w : FullSpeedWorld) → FsRunStands self.now w → result ≡ shown_in w }
    {
        Shown {
            time: self.time,
            steady: self.steady.holds(),
            rate: rate_of(&self.nominal),
            ticks: self.clock.ticks(),
            level: self.stream.level(),
            target: self.stream.target(),
            met: self.stream.met(),
        }
    }
}
