// A pair, and what it keeps.
ghost use Rattle.std.specs.Prelude.{◌≡◌, ◌≢◌, ◌≤◌, ◌≤ℤ◌, ◌⊎◌, ℕ, pos, negsuc, true, false, Some, IfErr, IfOk, OnOk};
ghost use Rattle.uac_clock.specs.Nominal.{IsNominal, nominal_of, step_of};
ghost use Rattle.uac_edges.specs.Faults.{Rose};
ghost use Rattle.uac_script.specs.Line.{phrase_of, IsLineInRange};
ghost use Rattle.uac_script.specs.Lent.{lent_phrase, IsLentInRange};
ghost use Rattle.uac_implicit.specs.Following.{PairWorld, pair_start};
ghost use Rattle.uac_implicit.specs.PairKept.{PairStands, PairRunStands, PairAnswers};

use crate::fault::PairFault;
use crate::follower::Follower;
use crate::lines::play;
use std::alloc::Global;
use std::marker::Model;
use uac_bench::{BenchClock, BenchStream};
use uac_clock::{Nominal, step};
use uac_descriptor::NoMemory;
use uac_edges::Sink;
use uac_ring::Ring;
use uac_script::{LentLine, Line};

/// What runs of a pair.
#[derive(Drop)]
pub(crate) struct PairRun {
    pub(crate) nominal: Nominal,
    /// What the clock gives in a microframe, in 65,536ths of a frame.
    pub(crate) step: u32,
    pub(crate) clock: BenchClock,
    pub(crate) follower: Follower,
    /// The stream to the device.
    pub(crate) out: BenchStream,
    /// The frames that wait for the next packet from the device.
    pub(crate) waiting: Ring,
    pub(crate) time: u64,
    pub(crate) detail: u8,
    /// How many packets from the device were lost.
    pub(crate) in_lost: u64,
}

impl Model for PairRun {
    ghost use Rattle.std.specs.Prelude.{◌≤◌};
    ghost use Rattle.uac_clock.specs.Nominal.{IsNominal};
    ghost use Rattle.uac_implicit.specs.PairKept.{PairRunFields};

    ghost Value = { PairRunFields };

    ghost view = { λ p. record {
      nominal = p.nominal;
      step = p.step;
      clock = p.clock;
      follower = p.follower;
      out = p.out;
      waiting = p.waiting;
      time = p.time;
      detail = p.detail;
      in_lost = p.in_lost;
    } };

    ghost invariant = { λ p. IsNominal p.nominal × (p.step ≤ 2097152) };
}

/// A pair of mono streams of one clock at high speed: stream 1 to the device, without a feedback endpoint, and stream 2 from it, whose
/// packets tell the host how many frames to send.
#[derive(Drop)]
pub struct Pair {
    run: PairRun,
    failed: bool,
}

impl Model for Pair {
    ghost use Rattle.uac_implicit.specs.PairKept.{PairFields};

    ghost Value = { PairFields };

    ghost view = { λ p. record { run = p.run; failed = p.failed } };
}

impl Pair {
    /// A pair whose clock runs at the rate of these nominal values. All its memory is taken here.
    pub fn new(alloc: Global, nominal: Nominal) -> Result<Pair, NoMemory>
        requires { IsNominal nominal }
        ensures { (rate : ℕ) → nominal_of rate ≡ Some nominal → IfOk result (λ pair. PairStands pair (pair_start rate)) }
    {
        let out = BenchStream::new(alloc)?;
        let waiting = Ring::new(alloc)?;
        let step = step_within(&nominal, 0);
        let run = PairRun {
            nominal,
            step,
            clock: BenchClock::new(),
            follower: Follower::new(nominal),
            out,
            waiting,
            time: 0,
            detail: 0,
            in_lost: 0,
        };
        Ok(Pair { run, failed: false })
    }

    /// Does one line and prints its text.
    /// It is for other callers: the program's lines are done by `lent_line`.
    ///
    /// # Errors
    ///
    /// A rule of the script that the line breaks: 5 where it isn't empty, a comment, `k`, `m`, `v` or `q`, and 6 where it is one of these
    /// and names another domain than 1 or another packet than that of `o1` or `i2`; nothing is changed. A write that failed: it is
    /// answered to each further line, too, and nothing more is printed.
    pub fn line<K: Sink>(&mut self, line: &Line, sink: &mut K) -> Result<(), PairFault>
        requires keeps { IsLineInRange line.now }

        // What it does, in every world for which the pair stands: the step of what the line says, with its lines.
        ensures answers { (w : PairWorld) → PairStands self.old w
            → PairAnswers (phrase_of line.now) w self.new (K.written sink.old) (K.written sink.new) result }

        // A failed write is answered again.
        ensures again { self.old.failed ≡ true → (result ≡ Err PairFault.WriteFault) × (self.new ≡ self.old) × (sink.new ≡ sink.old) }
        ensures kept { IfErr result (λ fault. fault ≡ PairFault.WriteFault → self.new.failed ≡ true) }

        // What stays.
        ensures script { IfErr result (λ fault. fault ≢ PairFault.WriteFault → (self.new ≡ self.old) × (sink.new ≡ sink.old)) }

        // A failed write has its cause in this call, where it wasn't kept; and where the line is done no write met a fault.
        ensures cause { IfErr result (λ fault. fault ≡ PairFault.WriteFault → (self.old.failed ≡ true)
            ⊎ Rose (K.faults sink.old) (K.faults sink.new)) }
        ensures never_falls { K.faults sink.old ≤ K.faults sink.new }
        ensures faultless { OnOk result (K.faults sink.new ≡ K.faults sink.old) }
    {
        self.lent_line(line.lend(), sink)
    }

    /// Does a line whose long parts lie elsewhere, as `line` does one that has them in itself.
    ///
    /// # Errors
    ///
    /// The faults of `line`.
    pub fn lent_line<K: Sink>(&mut self, line: LentLine<'_>, sink: &mut K) -> Result<(), PairFault>
        requires keeps { IsLentInRange line }

        // What it does, in every world for which the pair stands: the step of what the line says, with its lines.
        ensures answers { (w : PairWorld) → PairStands self.old w
            → PairAnswers (lent_phrase line.entry) w self.new (K.written sink.old) (K.written sink.new) result }

        // A failed write is answered again.
        ensures again { self.old.failed ≡ true → (result ≡ Err PairFault.WriteFault) × (self.new ≡ self.old) × (sink.new ≡ sink.old) }
        ensures kept { IfErr result (λ fault. fault ≡ PairFault.WriteFault → self.new.failed ≡ true) }

        // What stays.
        ensures script { IfErr result (λ fault. fault ≢ PairFault.WriteFault → (self.new ≡ self.old) × (sink.new ≡ sink.old)) }

        // A failed write has its cause in this call, where it wasn't kept; and where the line is done no write met a fault.
        ensures cause { IfErr result (λ fault. fault ≡ PairFault.WriteFault → (self.old.failed ≡ true)
            ⊎ Rose (K.faults sink.old) (K.faults sink.new)) }
        ensures never_falls { K.faults sink.old ≤ K.faults sink.new }
        ensures faultless { OnOk result (K.faults sink.new ≡ K.faults sink.old) }
    {
        if self.failed {
            return Err(PairFault::WriteFault);
        }
        match play(&mut self.run, line, sink) {
            Ok(()) => return Ok(()),
            Err(PairFault::Script(rule)) => return Err(PairFault::Script(rule)),
            Err(PairFault::WriteFault) => {
                self.failed = true;
                return Err(PairFault::WriteFault);
            }
        }
    }
}

/// What a clock gives in a microframe that is off by so many ppm, which is below 33 frames.
pub(crate) fn step_within(nominal: &Nominal, ppm: i32) -> u32
    requires low { negsuc 99999 ≤ℤ ppm }
    requires high { ppm ≤ℤ pos 100000 }
    requires of_a_rate { IsNominal nominal.now }
    ensures value { result ≡ step_of nominal.now ppm }
    ensures bounded { result ≤ 2097152 }
{
    uac_clock::laws::nominal_values_leave_room();
    step(nominal, ppm)
}
