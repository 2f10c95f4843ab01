// The bus and its lines.
ghost use Rattle.std.specs.Prelude.{◌≡◌, ◌≢◌, ◌≤◌, ◌⊎◌, List, true, false, IfErr, OnOk};
ghost use Rattle.uac_units.specs.Fitting.{IsFitted};
ghost use Rattle.uac_units.specs.Hearing.{Reading};
ghost use Rattle.uac_units.specs.MeterReadings.{readings};
ghost use Rattle.uac_edges.specs.Faults.{Rose};
ghost use Rattle.uac_script.specs.Line.{phrase_of, IsLineInRange};
ghost use Rattle.uac_script.specs.Lent.{lent_phrase, IsLentInRange};
ghost use Rattle.uac_script.specs.Phrase.{go_line};
ghost use Rattle.uac_rows.specs.BusWorld.{BusWorld, start, step, finish_of};
ghost use Rattle.uac_bus.specs.BusKept.{BusStands, BusStageStands, Answers};
ghost use Rattle.uac_rows.specs.BusSteps.{Does, may_want, is_final};
ghost use Rattle.uac_rows.specs.Rows.{HasWriteCause, Leaves};

use crate::describing::{begin, feed};
use std::alloc::Global;
use std::marker::Model;
use std::mem;
use uac_edges::Sink;
use uac_fault::BusFault;
use uac_grammar::Reader;
use uac_rows::play;
use uac_running::Running;
use uac_script::{LentLine, Line};
use uac_units::{Meter, Meters, Rack, Unit};

/// How far a script is.
#[derive(Drop)]
pub enum BusStage {
    /// The descriptor's bytes are read.
    Describing(Reader),
    /// The device runs.
    Running(Running),
}

impl BusStage {
    /// Lets all go that the stage holds, part by part: a stage that is dropped in place makes the proof several times as long.
    fn let_go(self) {
        match self {
            BusStage::Describing(reader) => reader.let_go(),
            BusStage::Running(running) => running.let_go(),
        }
    }
}

/// A device under a script.
#[derive(Drop)]
pub struct Bus {
    alloc: Global,
    stage: BusStage,
    fault: Option<BusFault>,
}

impl Model for Bus {
    ghost use Rattle.uac_bus.specs.BusKept.{BusFields};

    ghost Value = { BusFields };

    ghost view = { λ b. record { stage = b.stage; fault = b.fault } };
}

impl Bus {
    /// A bus to which no line was given. It takes no memory.
    pub fn new(alloc: Global) -> Bus
        ensures { (meters : List Reading) → BusStands result meters (start meters) }
    {
        Bus {
            alloc,
            stage: BusStage::Describing(Reader::new(alloc)),
            fault: None,
        }
    }

    /// Lets all go that the bus holds. A caller that ends so needs no proof of its own of how each part is let go.
    pub fn let_go(self) {
        self.stage.let_go();
    }

    /// Does one line and prints its text. The lines `d`, `g` and `a` alone take memory.
    /// Tests alone call it: the program's lines are done by `lent_line`.
    ///
    /// # Errors
    ///
    /// A rule of the script that the line breaks; nothing is changed. Any other fault is answered to each further line, too, and
    /// nothing more is printed: the descriptor's first fault, a write that failed, want of memory.
    pub fn line<K: Sink>(
        &mut self,
        line: &Line,
        rack: &Rack,
        meters: &mut Meters,
        sink: &mut K,
    ) -> Result<(), BusFault>
        requires rack { IsFitted (λ v x. (⟦<dyn Unit as Unit>⟧ v).kind_of x) rack.now }
        requires keeps { IsLineInRange line.now }

        // What it does, in every world for which the bus and the meters stand: the step of what the line says, with its lines.
        ensures answers { (w : BusWorld) → BusStands self.old (readings (λ v x. (⟦<dyn Meter as Meter>⟧ v).reading_of x) meters.old) w
            → Answers (phrase_of line.now) w self.new (readings (λ v x. (⟦<dyn Meter as Meter>⟧ v).reading_of x) meters.new)
            (K.written sink.old) (K.written sink.new) result }

        // A fault that was answered before is answered again.
        ensures again { (fault : BusFault) → self.old.fault ≡ Some fault → (result ≡ Err fault) × (self.new ≡ self.old)
            × (sink.new ≡ sink.old) }
        ensures unheard_again { (fault : BusFault) → self.old.fault ≡ Some fault
            → readings (λ v x. (⟦<dyn Meter as Meter>⟧ v).reading_of x) meters.new
            ≡ readings (λ v x. (⟦<dyn Meter as Meter>⟧ v).reading_of x) meters.old }
        ensures kept { IfErr result (λ fault. is_final fault ≡ true → self.new.fault ≡ Some fault) }

        // What stays.
        ensures script { IfErr result (λ fault. is_final fault ≡ false → self.new ≡ self.old) }
        ensures unwritten { IfErr result (λ fault. fault ≢ BusFault.WriteFault → sink.new ≡ sink.old) }
        ensures unheard { IfErr result (λ fault. fault ≢ BusFault.WriteFault
            → readings (λ v x. (⟦<dyn Meter as Meter>⟧ v).reading_of x) meters.new
            ≡ readings (λ v x. (⟦<dyn Meter as Meter>⟧ v).reading_of x) meters.old) }

        // A failed write has its cause in this call, where it wasn't kept; and where the line is done no write met a fault.
        ensures cause { IfErr result (λ fault. fault ≡ BusFault.WriteFault → (self.old.fault ≡ Some BusFault.WriteFault)
            ⊎ Rose (K.faults sink.old) (K.faults sink.new)) }
        ensures never_falls { K.faults sink.old ≤ K.faults sink.new }
        ensures faultless { OnOk result (K.faults sink.new ≡ K.faults sink.old) }
    {
        self.lent_line(line.lend(), rack, meters, sink)
    }

    /// Does a line whose long parts lie elsewhere, as `line` does one that has them in itself.
    ///
    /// # Errors
    ///
    /// The faults of `line`.
    pub fn lent_line<K: Sink>(
        &mut self,
        line: LentLine<'_>,
        rack: &Rack,
        meters: &mut Meters,
        sink: &mut K,
    ) -> Result<(), BusFault>
        requires rack { IsFitted (λ v x. (⟦<dyn Unit as Unit>⟧ v).kind_of x) rack.now }
        requires keeps { IsLentInRange line }

        // What it does, in every world for which the bus and the meters stand: the step of what the line says, with its lines.
        ensures answers { (w : BusWorld) → BusStands self.old (readings (λ v x. (⟦<dyn Meter as Meter>⟧ v).reading_of x) meters.old) w
            → Answers (lent_phrase line.entry) w self.new (readings (λ v x. (⟦<dyn Meter as Meter>⟧ v).reading_of x) meters.new)
            (K.written sink.old) (K.written sink.new) result }

        // A fault that was answered before is answered again.
        ensures again { (fault : BusFault) → self.old.fault ≡ Some fault → (result ≡ Err fault) × (self.new ≡ self.old)
            × (sink.new ≡ sink.old) }
        ensures unheard_again { (fault : BusFault) → self.old.fault ≡ Some fault
            → readings (λ v x. (⟦<dyn Meter as Meter>⟧ v).reading_of x) meters.new
            ≡ readings (λ v x. (⟦<dyn Meter as Meter>⟧ v).reading_of x) meters.old }
        ensures kept { IfErr result (λ fault. is_final fault ≡ true → self.new.fault ≡ Some fault) }

        // What stays.
        ensures script { IfErr result (λ fault. is_final fault ≡ false → self.new ≡ self.old) }
        ensures unwritten { IfErr result (λ fault. fault ≢ BusFault.WriteFault → sink.new ≡ sink.old) }
        ensures unheard { IfErr result (λ fault. fault ≢ BusFault.WriteFault
            → readings (λ v x. (⟦<dyn Meter as Meter>⟧ v).reading_of x) meters.new
            ≡ readings (λ v x. (⟦<dyn Meter as Meter>⟧ v).reading_of x) meters.old) }

        // A failed write has its cause in this call, where it wasn't kept; and where the line is done no write met a fault.
        ensures cause { IfErr result (λ fault. fault ≡ BusFault.WriteFault → (self.old.fault ≡ Some BusFault.WriteFault)
            ⊎ Rose (K.faults sink.old) (K.faults sink.new)) }
        ensures never_falls { K.faults sink.old ≤ K.faults sink.new }
        ensures faultless { OnOk result (K.faults sink.new ≡ K.faults sink.old) }
    {
        if let Some(fault) = self.fault {
            return Err(fault);
        }
        match advance(self.alloc, &mut self.stage, line, rack, meters, sink) {
            Ok(()) => return Ok(()),
            Err(fault) => {
                if !is_final(fault) {
                    return Err(fault);
                }
                self.fault = Some(fault);
                return Err(fault);
            }
        }
    }

    /// The script's end: rule 8 where no descriptor's end came, and a fault that was answered before.
    pub fn finish(&self) -> Result<(), BusFault>
        ensures again { (fault : BusFault) → self.now.fault ≡ Some fault → result ≡ Err fault }
        ensures finishes { (meters : List Reading) (w : BusWorld) → BusStands self.now meters w → result ≡ finish_of w }
    {
        if let Some(fault) = self.fault {
            return Err(fault);
        }
        match self.stage {
            BusStage::Describing(_) => Err(BusFault::Script(8)),
            BusStage::Running(_) => Ok(()),
        }
    }
}

/// Whether a fault is answered again from now on.
fn is_final(fault: BusFault) -> bool
    ensures { result ≡ is_final fault }
{
    match fault {
        BusFault::Script(_) => false,
        BusFault::Grammar(_) | BusFault::Topology(_) => true,
        BusFault::WriteFault | BusFault::NoMemory => true,
    }
}

/// The descriptor's end. It is apart from the other lines, since a call clears at its entry what it has room for, here a whole device.
#[inline(never)]
fn go<K: Sink>(alloc: Global, stage: &mut BusStage, sink: &mut K) -> Result<(), BusFault>
    ensures does { (shown : List Reading) (w : BusWorld) → BusStageStands stage.old shown w
        → Does (step go_line w) (may_want go_line w) (BusStageStands stage.new shown) (K.written sink.old) (K.written sink.new) result }
    ensures script { IfErr result (λ fault. is_final fault ≡ false → stage.new ≡ stage.old) }
    ensures unwritten { IfErr result (λ fault. fault ≢ BusFault.WriteFault → sink.new ≡ sink.old) }
    ensures faults { HasWriteCause (K.faults sink.old) (K.faults sink.new) result }
{
    match stage {
        BusStage::Describing(reader) => {
            let whole = mem::replace(reader, Reader::new(alloc));
            match begin(alloc, whole, sink) {
                Ok(running) => {
                    mem::replace(stage, BusStage::Running(running)).let_go();
                    Ok(())
                }
                Err(fault) => Err(fault),
            }
        }
        BusStage::Running(_) => Err(BusFault::Script(5)),
    }
}

/// Does a line, however far the script is.
fn advance<K: Sink>(
    alloc: Global,
    stage: &mut BusStage,
    line: LentLine<'_>,
    rack: &Rack,
    meters: &mut Meters,
    sink: &mut K,
) -> Result<(), BusFault>
    requires rack { IsFitted (λ v x. (⟦<dyn Unit as Unit>⟧ v).kind_of x) rack.now }
    requires keeps { IsLentInRange line }
    ensures does { (w : BusWorld) → BusStageStands stage.old (readings (λ v x. (⟦<dyn Meter as Meter>⟧ v).reading_of x) meters.old) w
        → Does (step (lent_phrase line.entry) w) (may_want (lent_phrase line.entry) w)
        (BusStageStands stage.new (readings (λ v x. (⟦<dyn Meter as Meter>⟧ v).reading_of x) meters.new)) (K.written sink.old)
        (K.written sink.new) result }
    ensures leaves { Leaves stage.old stage.new sink.old sink.new meters.old meters.new result }
    ensures faults { HasWriteCause (K.faults sink.old) (K.faults sink.new) result }
{
    match stage {
        BusStage::Describing(reader) => match line {
            LentLine::Nothing => Ok(()),
            LentLine::Bytes(bytes) => feed(reader, bytes),
            LentLine::Go => go(alloc, stage, sink),
            LentLine::Control { .. }
            | LentLine::Get(_)
            | LentLine::Set(_, _)
            | LentLine::Show(_)
            | LentLine::Break { .. }
            | LentLine::Append { .. }
            | LentLine::Track { .. }
            | LentLine::Jack { .. }
            | LentLine::Deviate { .. }
            | LentLine::Run { .. }
            | LentLine::Detail(_)
            | LentLine::Report => Err(BusFault::Script(5)),
        },
        BusStage::Running(running) => play(running, line, rack, meters, sink),
    }
}
