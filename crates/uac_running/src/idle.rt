// Microframes of a device that runs no stream: they go several at once, and what they print comes after the ticks of all of them.
ghost use Rattle.std.specs.Prelude.{◌≡◌, ℕ, List, ◌+◌, ◌≤◌, ◌++◌, length};
ghost use Rattle.std.specs.List.{sum};
ghost use Rattle.uac_units.specs.Fitting.{IsFitted};
ghost use Rattle.uac_units.specs.Hearing.{Reading};
ghost use Rattle.uac_units.specs.MeterReadings.{readings};
ghost use Rattle.uac_edges.specs.Faults.{HasCause};
ghost use Rattle.uac_script.specs.Phrase.{PhraseMark};
ghost use Rattle.uac_device.specs.DeviceSums.{kept_ticks};
ghost use Rattle.uac_device.specs.DeviceTicks.{HoldPlayed};
ghost use Rattle.uac_transcript.specs.Printing.{Prints};
ghost use Rattle.uac_running.specs.RunningWorld.{RunningWorld};
ghost use Rattle.uac_running.specs.Events.{microframes, number_said};
ghost use Rattle.uac_running.specs.EventTicks.{shown_from, tones_of};
ghost use Rattle.uac_running.specs.RunningKept.{RunningStands, RunningStandsBetween, RunningTells, RunningTellsBetween};
ghost use Rattle.uac_running.specs.Quiet.{IsIdle, gone_by, said_of_each, ticks_of_each};

use crate::running::Running;
use uac_edges::{Failed, Sink};
use uac_topology::laws::{functions_are_sound, interfaces_are_numbered};
use uac_units::{Meter, Meters, Rack, Unit};

impl Running {
    /// Runs so many microframes of a device of one domain that runs no stream, printed as they come. They go several at once.
    pub(crate) fn idle_microframes<K: Sink>(
        &mut self,
        count: u32,
        domain: u8,
        rack: &Rack,
        meters: &mut Meters,
        sink: &mut K,
    ) -> Result<(), Failed>
        requires rack { IsFitted (λ v x. (⟦<dyn Unit as Unit>⟧ v).kind_of x) rack.now }
        ensures tells { (marks : List PhraseMark) (r : RunningWorld)
            → RunningStandsBetween self.old (readings (λ v x. (⟦<dyn Meter as Meter>⟧ v).reading_of x) meters.old) r → IsIdle domain r
            → RunningTellsBetween (microframes marks count r) self.new
            (readings (λ v x. (⟦<dyn Meter as Meter>⟧ v).reading_of x) meters.new)
            (K.written sink.old) (K.written sink.new) result }
        ensures cause { HasCause (K.faults sink.old) (K.faults sink.new) result }
    {
        functions_are_sound(self.device.function());
        interfaces_are_numbered();
        let mut passed = 0;
        while passed < count {
            let some = self
                .device
                .microframes_within(domain, 128)
                .min(count - passed);
            self.idle_at_once(some, domain, rack, meters, sink)?;
            passed += some;
        }
        Ok(())
    }

    /// So many microframes of such a device at once: the clock goes on by each, then the ticks of all of them are done, and at last what
    /// they say is printed.
    fn idle_at_once<K: Sink>(
        &mut self,
        count: u32,
        domain: u8,
        rack: &Rack,
        meters: &mut Meters,
        sink: &mut K,
    ) -> Result<(), Failed>
        requires rack { IsFitted (λ v x. (⟦<dyn Unit as Unit>⟧ v).kind_of x) rack.now }
        requires few { count ≤ 64 }
        requires ticks { kept_ticks self.old.device domain count ≤ 128 }
        ensures tells { (marks : List PhraseMark) (r : RunningWorld)
            → RunningStands self.old (readings (λ v x. (⟦<dyn Meter as Meter>⟧ v).reading_of x) meters.old) r → IsIdle domain r
            → RunningTells (microframes marks count r) self.new (readings (λ v x. (⟦<dyn Meter as Meter>⟧ v).reading_of x) meters.new)
            (K.written sink.old) (K.written sink.new) result }
        ensures cause { HasCause (K.faults sink.old) (K.faults sink.new) result }
    {
        let time = self.time;
        let mut ticks = [0; 64];
        let ticks = &mut ticks[..count as usize];
        let waiting = self.pass_each(ticks, domain);
        // It never is so, by what is asked of the count. But where a clock stands after a microframe is known of worlds alone, so it is
        // tested.
        if waiting > 128 {
            return Ok(());
        }
        self.do_ticks(waiting, domain, rack, meters);
        self.show_each(ticks, time, domain, sink)
    }

    /// So many microframes more have come as there are numbers, of which each is made that of the ticks of its microframe. Answers how many
    /// these are together.
    fn pass_each(&mut self, ticks: &mut [u32], domain: u8) -> u32
        requires few { length ticks.old ≤ 64 }
        ensures stands { (meters : List Reading) (r : RunningWorld) → RunningStands self.old meters r
            → RunningStands self.new meters (gone_by domain (length ticks.old) r) }
        ensures ticks { (meters : List Reading) (r : RunningWorld) → RunningStands self.old meters r
            → ticks.new ≡ ticks_of_each domain (length ticks.old) r }
        ensures sum { result ≡ sum ticks.new }
        ensures kept { (meters : List Reading) (r : RunningWorld) → RunningStands self.old meters r
            → result ≡ kept_ticks self.old.device domain (length ticks.old) }
        ensures length { length ticks.new ≡ length ticks.old }
        ensures function { self.new.device.function ≡ self.old.device.function }
        ensures detail { self.new.detail ≡ self.old.detail }
    {
        let mut waiting = 0;
        for index in 0..ticks.len() {
            self.pass();
            let more = self.advance(domain);
            ticks[index] = more;
            waiting += more;
        }
        waiting
    }

    /// Prints what microframes with so many ticks each say, of those that were done at once last; the number of the first comes after `time`.
    fn show_each<K: Sink>(
        &self,
        ticks: &[u32],
        time: u64,
        domain: u8,
        sink: &mut K,
    ) -> Result<(), Failed>
        requires { sum ticks.now ≤ 128 }
        ensures printed { (r : RunningWorld) → self.now.detail ≡ r.detail → self.now.device.function ≡ r.device.function
            → HoldPlayed domain (tones_of domain r.jacks) (sum ticks.now) r.device self.now.device.rows
            → Prints (K.written sink.old) (K.written sink.new) result (said_of_each domain ticks.now time 0 r) }
        ensures cause { HasCause (K.faults sink.old) (K.faults sink.new) result }
    {
        let mut time = time;
        let mut from = 0;
        for count in ticks {
            time = time.saturating_add(1);
            self.show_microframe(time, from, *count, domain, sink)?;
            from += *count;
        }
        Ok(())
    }

    /// Prints a microframe's number from detail 2 on, and then what so many ticks played, after so many others, of those that were done at
    /// once last.
    fn show_microframe<K: Sink>(
        &self,
        time: u64,
        from: u32,
        count: u32,
        domain: u8,
        sink: &mut K,
    ) -> Result<(), Failed>
        requires { from + count ≤ 128 }
        ensures printed { (done : ℕ) (r : RunningWorld) → from + count ≤ done → self.now.detail ≡ r.detail
            → self.now.device.function ≡ r.device.function → HoldPlayed domain (tones_of domain r.jacks) done r.device self.now.device.rows
            → Prints (K.written sink.old) (K.written sink.new) result (number_said r.detail time ++ shown_from domain from count r) }
        ensures cause { HasCause (K.faults sink.old) (K.faults sink.new) result }
    {
        self.write_number(time, sink)?;
        self.show_rows(from, count, domain, sink)
    }
}
