// The bench and its lines.
ghost use Rattle.std.specs.Prelude.{◌≡◌, ◌⊎◌, ◌≤◌, ℕ, Some, Ok, Err, true, false, IfErr, IfOk, OnOk};
ghost use Rattle.uac_edges.specs.Faults.{Rose};
ghost use Rattle.uac_script.specs.Line.{phrase_of, IsLineInRange};
ghost use Rattle.uac_script.specs.Lent.{lent_phrase, IsLentInRange};
ghost use Rattle.uac_fullspeed.specs.FullSpeedNominal.{IsFsNominal, fs_nominal_of};
ghost use Rattle.uac_fullspeed.specs.FullSpeedWorld.{FullSpeedWorld, full_speed_start};
ghost use Rattle.uac_fullspeed.specs.FullSpeedSteps.{fs_step};
ghost use Rattle.uac_fullspeed.specs.FullSpeedKept.{FsBenchStands, FsDoes, IsScript};

use crate::fault::BenchFault;
use crate::play::play;
use crate::run::FsRun;
use crate::values::FsNominal;
use std::alloc::Global;
use std::marker::Model;
use uac_descriptor::NoMemory;
use uac_edges::Sink;
use uac_script::{LentLine, Line};

/// One mono stream on a full-speed bus, under a script.
#[derive(Drop)]
pub struct FsBench {
    run: FsRun,
    /// A write failed.
    failed: bool,
}

impl Model for FsBench {
    ghost use Rattle.uac_fullspeed.specs.FullSpeedKept.{FsBenchFields};

    ghost Value = { FsBenchFields };

    ghost view = { λ b. record { run = b.run; failed = b.failed } };
}

impl FsBench {
    /// A bench of a rate, to which no line was given. All its memory is taken here.
    pub fn new(alloc: Global, nominal: FsNominal) -> Result<FsBench, NoMemory>
        requires { IsFsNominal nominal }
        ensures { IfOk result (λ bench. (hertz : ℕ) → fs_nominal_of hertz ≡ Some nominal → FsBenchStands bench (full_speed_start hertz)) }
    {
        let run = FsRun::new(alloc, nominal)?;
        Ok(FsBench { run, failed: false })
    }

    /// Does one line and prints its text. No line takes memory.
    /// It is for other callers: the program's lines are done by `lent_line`.
    ///
    /// # Errors
    ///
    /// Rule 5, where the line is none of the bench's (an empty line, `#`, `k`, `m`, `v` or `q`); rule 6, where it names another domain or
    /// stream than 1, or loses a packet from the device. Nothing is changed then. A write that failed is answered to each further line,
    /// too, and nothing more is printed.
    pub fn line<K: Sink>(&mut self, line: &Line, sink: &mut K) -> Result<(), BenchFault>
        requires { IsLineInRange line.now }

        // What it does, in every world for which the bench stands: the step of what the line says, with its lines.
        ensures does { (w : FullSpeedWorld) → FsBenchStands self.old w
            → FsDoes (fs_step (phrase_of line.now) w) FsBenchStands self.new (K.written sink.old) (K.written sink.new) result }

        // A failed write is answered again.
        ensures again { self.old.failed ≡ true → (result ≡ Err BenchFault.WriteFault) × (self.new ≡ self.old) × (sink.new ≡ sink.old) }
        ensures kept { result ≡ Err BenchFault.WriteFault → self.new.failed ≡ true }

        // A line that breaks a rule changes nothing and prints nothing.
        ensures script { IfErr result (λ fault. IsScript fault → (self.new ≡ self.old) × (sink.new ≡ sink.old)) }

        // A failed write has its cause in this call, where it wasn't kept; and where the line is done no write met a fault.
        ensures cause { result ≡ Err BenchFault.WriteFault → (self.old.failed ≡ true) ⊎ Rose (K.faults sink.old) (K.faults sink.new) }
        ensures never_falls { K.faults sink.old ≤ K.faults sink.new }
        ensures faultless { OnOk result (K.faults sink.new ≡ K.faults sink.old) }
    {
        self.lent_line(line.lend(), sink)
    }

    /// Does a line whose long parts lie elsewhere, as `line` does one that has them in itself.
    ///
    /// # Errors
    ///
    /// The faults of `line`.
    pub fn lent_line<K: Sink>(&mut self, line: LentLine<'_>, sink: &mut K) -> Result<(), BenchFault>
        requires { IsLentInRange line }

        // What it does, in every world for which the bench stands: the step of what the line says, with its lines.
        ensures does { (w : FullSpeedWorld) → FsBenchStands self.old w
            → FsDoes (fs_step (lent_phrase line.entry) w) FsBenchStands self.new (K.written sink.old) (K.written sink.new) result }

        // A failed write is answered again.
        ensures again { self.old.failed ≡ true → (result ≡ Err BenchFault.WriteFault) × (self.new ≡ self.old) × (sink.new ≡ sink.old) }
        ensures kept { result ≡ Err BenchFault.WriteFault → self.new.failed ≡ true }

        // A line that breaks a rule changes nothing and prints nothing.
        ensures script { IfErr result (λ fault. IsScript fault → (self.new ≡ self.old) × (sink.new ≡ sink.old)) }

        // A failed write has its cause in this call, where it wasn't kept; and where the line is done no write met a fault.
        ensures cause { result ≡ Err BenchFault.WriteFault → (self.old.failed ≡ true) ⊎ Rose (K.faults sink.old) (K.faults sink.new) }
        ensures never_falls { K.faults sink.old ≤ K.faults sink.new }
        ensures faultless { OnOk result (K.faults sink.new ≡ K.faults sink.old) }
    {
        if self.failed {
            return Err(BenchFault::WriteFault);
        }
        match play(&mut self.run, line, sink) {
            Ok(()) => Ok(()),
            Err(BenchFault::Script(rule)) => Err(BenchFault::Script(rule)),
            Err(BenchFault::WriteFault) => {
                self.failed = true;
                Err(BenchFault::WriteFault)
            }
        }
    }

    /// The script's end, which breaks no rule: a failed write is answered again.
    pub fn finish(&self) -> Result<(), BenchFault>
        ensures again { self.now.failed ≡ true → result ≡ Err BenchFault.WriteFault }
        ensures finishes { self.now.failed ≡ false → result ≡ Ok tt }
    {
        if self.failed {
            return Err(BenchFault::WriteFault);
        }
        Ok(())
    }
}
