// The microframes of a pair.
ghost use Rattle.std.specs.Prelude.{◌≡◌, ◌≢◌, ◌≤◌, ◌<◌, ◌+◌, ◌++◌, ◌∷◌, [], ℕ, List, suc, true, if◌then◌else◌, length};
ghost use Rattle.uac_edges.specs.Faults.{HasCause};
ghost use Rattle.uac_transcript.specs.Printing.{Prints};
ghost use Rattle.uac_bench.specs.BenchStreams.{StreamWorld, level_of, with_zeros};
ghost use Rattle.uac_bench.specs.BenchKept.{BenchStreamStands};
ghost use Rattle.uac_implicit.specs.Following.{PairWorld, sent_in, sent_out, at_ticks, tick, ticks, step_next, ticks_next, ended, microframe};
ghost use Rattle.uac_implicit.specs.Following.{microframes};
ghost use Rattle.uac_implicit.specs.Following.{in_lines, level_lines, microframe_lines, microframes_lines, out_lines, packet_lines, tick_lines};
ghost use Rattle.uac_implicit.specs.Following.{ticks_lines, numbered_lines};
ghost use Rattle.uac_implicit.specs.PairKept.{IsShort, KeepsSettings, PairRunStands, PairStandsIn, PairTells};

use crate::marks::Losses;
use crate::pair::PairRun;
use crate::printing::write_fetched;
use uac_bench::{BenchStream, write_level_at, write_number, write_packet, write_tick};
use uac_edges::{Failed, Sink};
use uac_ring::RING_FRAMES;

impl PairRun {
    /// Runs so many microframes, printed as they come; in each of them these packets are lost.
    pub(crate) fn microframes<K: Sink>(
        &mut self,
        count: u32,
        losses: Losses,
        sink: &mut K,
    ) -> Result<(), Failed>
        ensures tells { (w : PairWorld) → PairRunStands self.old w
            → PairTells (microframes_lines losses count w) (PairRunStands self.new (microframes losses count w)) (K.written sink.old)
            (K.written sink.new) result }
        ensures cause { HasCause (K.faults sink.old) (K.faults sink.new) result }
    {
        for _passed in 0..count {
            match self.microframe(losses, sink) {
                Ok(()) => {}
                Err(failed) => return Err(failed),
            }
        }
        Ok(())
    }

    /// One microframe.
    fn microframe<K: Sink>(&mut self, losses: Losses, sink: &mut K) -> Result<(), Failed>
        ensures tells { (w : PairWorld) → PairRunStands self.old w
            → PairTells (microframe_lines losses w) (PairRunStands self.new (microframe losses w)) (K.written sink.old)
            (K.written sink.new) result }
        ensures cause { HasCause (K.faults sink.old) (K.faults sink.new) result }
    {
        match self.write_number(sink) {
            Ok(()) => {}
            Err(failed) => return Err(failed),
        }
        match self.packets(losses, sink) {
            Ok(()) => {}
            Err(failed) => return Err(failed),
        }
        self.ticks_and_end(losses, sink)
    }

    /// Prints the number of the microframe from detail 2 on.
    fn write_number<K: Sink>(&self, sink: &mut K) -> Result<(), Failed>
        ensures printed { (w : PairWorld) → PairRunStands self.now w
            → Prints (K.written sink.old) (K.written sink.new) result (numbered_lines w) }
        ensures cause { HasCause (K.faults sink.old) (K.faults sink.new) result }
    {
        write_number(sink, self.detail, self.time.saturating_add(1))
    }

    /// The packets of a microframe: that to the device, and that from it.
    fn packets<K: Sink>(&mut self, losses: Losses, sink: &mut K) -> Result<(), Failed>
        ensures tells { (w : PairWorld) → PairRunStands self.old w
            → PairTells (packet_lines losses w) (PairStandsIn (suc w.time) w.steps self.new (at_ticks losses w)) (K.written sink.old)
            (K.written sink.new) result }
        ensures cause { HasCause (K.faults sink.old) (K.faults sink.new) result }
    {
        match self.send_out(losses.loses_out, sink) {
            Ok(()) => {}
            Err(failed) => return Err(failed),
        }
        self.send_in(losses.loses_in, sink)
    }

    /// The packet to the device.
    fn send_out<K: Sink>(&mut self, lost: bool, sink: &mut K) -> Result<(), Failed>
        ensures tells { (w : PairWorld) → PairRunStands self.old w
            → PairTells (out_lines lost w) (PairStandsIn (suc w.time) w.steps self.new (sent_out lost w)) (K.written sink.old)
            (K.written sink.new) result }
        ensures cause { HasCause (K.faults sink.old) (K.faults sink.new) result }
    {
        let frames = self.follower.next();
        let arrival = self.out.receive(frames, lost, RING_FRAMES);
        write_packet(sink, self.detail, frames, arrival)
    }

    /// The packet from the device, which has all frames that wait. One that comes is heard, but for the first, which has none.
    fn send_in<K: Sink>(&mut self, lost: bool, sink: &mut K) -> Result<(), Failed>
        ensures tells { (sent : ℕ) (steps : List ℕ) (w : PairWorld) → PairStandsIn sent steps self.old w
            → PairTells (in_lines lost w) (PairStandsIn sent steps self.new (sent_in lost w)) (K.written sink.old)
            (K.written sink.new) result }
        ensures cause { HasCause (K.faults sink.old) (K.faults sink.new) result }
    {
        self.hear(lost);
        match write_fetched(sink, self.detail, lost, &self.waiting) {
            Ok(()) => {}
            Err(failed) => return Err(failed),
        }
        self.waiting.clear();
        Ok(())
    }

    /// The host hears a packet of all frames that wait, or that it was lost.
    fn hear(&mut self, lost: bool)
        ensures { (sent : ℕ) (steps : List ℕ) (w : PairWorld) → PairStandsIn sent steps self.old w
            → PairStandsIn sent steps self.new (record (sent_in lost w) { waiting = w.waiting }) }
    {
        if lost {
            self.in_lost = self.in_lost.saturating_add(1);
        } else if self.time > 0 {
            self.follower.heard(self.waiting.level());
        }
    }

    /// The ticks of a microframe, and its end.
    fn ticks_and_end<K: Sink>(&mut self, losses: Losses, sink: &mut K) -> Result<(), Failed>
        ensures tells { (w : PairWorld) → IsShort w → PairStandsIn (suc w.time) w.steps self.old (at_ticks losses w)
            → PairTells (ticks_lines (ticks_next w) (at_ticks losses w) ++ level_lines (microframe losses w))
            (PairRunStands self.new (microframe losses w)) (K.written sink.old) (K.written sink.new) result }
        ensures cause { HasCause (K.faults sink.old) (K.faults sink.new) result }
    {
        // What the ring holds now is known to fit it, so zeros for the ticks will fit, too.
        let _held = self.out.level();
        let ticks = self.advance();
        match self.ticks(ticks, sink) {
            Ok(()) => {}
            Err(failed) => return Err(failed),
        }
        self.end(losses, ticks);
        self.write_level(sink)
    }

    /// The clock goes on by one microframe; answers how often it ticks.
    fn advance(&mut self) -> u32
        ensures stands { (sent : ℕ) (w : PairWorld) → PairStandsIn sent w.steps self.old w
            → PairStandsIn sent (w.steps ++ step_next w ∷ []) self.new w }
        ensures ticks { (sent : ℕ) (w : PairWorld) → PairStandsIn sent w.steps self.old w → result ≡ ticks_next w }
        ensures few { (sent : ℕ) (w : PairWorld) → PairStandsIn sent w.steps self.old w → result ≤ 32 }
    {
        self.clock.advance(self.step)
    }

    /// So many ticks, for whose frames there is room.
    fn ticks<K: Sink>(&mut self, count: u32, sink: &mut K) -> Result<(), Failed>
        ensures tells { (sent : ℕ) (steps : List ℕ) (w : PairWorld) → PairStandsIn sent steps self.old w → length w.waiting + count ≤ 2048
            → PairTells (ticks_lines count w) (PairStandsIn sent steps self.new (ticks count w)) (K.written sink.old)
            (K.written sink.new) result }
        ensures cause { HasCause (K.faults sink.old) (K.faults sink.new) result }
    {
        for _ticked in 0..count {
            match self.tick(sink) {
                Ok(()) => {}
                Err(failed) => return Err(failed),
            }
        }
        Ok(())
    }

    /// One tick, for whose frame there is room.
    fn tick<K: Sink>(&mut self, sink: &mut K) -> Result<(), Failed>
        ensures tells { (sent : ℕ) (steps : List ℕ) (w : PairWorld) → PairStandsIn sent steps self.old w → length w.waiting < 2048
            → PairTells (tick_lines w) (PairStandsIn sent steps self.new (tick w)) (K.written sink.old) (K.written sink.new) result }
        ensures cause { HasCause (K.faults sink.old) (K.faults sink.new) result }
    {
        let ticked = self.out.tick();
        // The ring was emptied in this microframe, so there is room.
        let _ = self.waiting.put(&ticked.frame);
        write_tick(sink, self.detail, &ticked)
    }

    /// The end of a microframe: zeros in place of a lost packet to the device, for which there is room, and the priming. `before` is the
    /// world before the microframe.
    fn end(&mut self, losses: Losses, ticks: u32)
        ensures { (before w : PairWorld) → PairStandsIn (suc before.time) (before.steps ++ step_next before ∷ []) self.old w
            → KeepsSettings before w → ticks ≡ ticks_next before → (losses.loses_out ≡ true → level_of w.out + ticks ≤ 2048)
            → PairRunStands self.new (ended losses before w) }
    {
        fill(&mut self.out, losses.loses_out, ticks);
        self.out.prime();
        self.time = self.time.saturating_add(1);
    }

    /// Prints the level of the stream to the device from detail 2 on.
    fn write_level<K: Sink>(&self, sink: &mut K) -> Result<(), Failed>
        ensures printed { (sent : ℕ) (steps : List ℕ) (w : PairWorld) → PairStandsIn sent steps self.now w
            → Prints (K.written sink.old) (K.written sink.new) result (level_lines w) }
        ensures cause { HasCause (K.faults sink.old) (K.faults sink.new) result }
    {
        write_level_at(sink, self.detail, self.out.level(), self.out.target())
    }
}

/// Puts a zero frame for each tick in place of a lost packet, for which there is room.
fn fill(out: &mut BenchStream, lost: bool, ticks: u32)
    ensures { (s : StreamWorld) → BenchStreamStands out.old s → (lost ≡ true → level_of s + ticks ≤ 2048)
        → BenchStreamStands out.new (if lost then with_zeros ticks s else s) }
{
    if lost {
        out.replace(ticks);
    }
}
