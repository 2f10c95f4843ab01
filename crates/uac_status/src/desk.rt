// The desk and its lines.
ghost use Rattle.std.specs.Prelude.{◌≡◌, ◌≢◌, ◌≤◌, ◌⊎◌, length, true, false, IfErr, OnOk};
ghost use Rattle.uac_edges.specs.Faults.{Rose};
ghost use Rattle.uac_runner.specs.Machine.{ended_by};
ghost use Rattle.uac_script.specs.Lent.{lent_phrase};
ghost use Rattle.uac_status.specs.DeskLines as spec;
ghost use Rattle.uac_status.specs.DeskLines.{desk_phrase};
ghost use Rattle.uac_status.specs.DeskPhrases.{desk_answer, go_phrase};
ghost use Rattle.uac_status.specs.Desks.{DeskWorld, desk_finish, desk_start, desk_step, said_step, said_wants, wants_memory};
ghost use Rattle.uac_status.specs.FrontKept.{Does, HasWriteCause, Leaves, is_final};
ghost use Rattle.uac_status.specs.DeskKept.{DeskStands, StageStands};

use crate::describing::{begin, describe};
use crate::front::Front;
use crate::reading::{DeskLine, read};
use crate::rows::play;
use std::alloc::Global;
use std::marker::Model;
use std::mem;
use uac_edges::Sink;
use uac_ends::LineFault;
use uac_grammar::Reader;
use uac_script::{LentLine, LineRoom};

/// Why a line isn't done, or the end of the script.
pub type DeskFault = LineFault;

/// How far a script is.
#[derive(Drop)]
pub enum DeskStage {
    /// The descriptor's bytes are read.
    Describing(Reader),
    /// The device is there.
    Running(Front),
}

impl DeskStage {
    /// Lets all go that the stage holds, part by part: a stage that is dropped in place makes the proof several times as long.
    fn let_go(self) {
        match self {
            DeskStage::Describing(reader) => reader.let_go(),
            DeskStage::Running(front) => front.let_go(),
        }
    }
}

/// A device with a front panel, and its host, under a script.
#[derive(Drop)]
pub struct Desk {
    alloc: Global,
    stage: DeskStage,
    fault: Option<LineFault>,
}

impl Model for Desk {
    ghost use Rattle.uac_status.specs.DeskKept.{DeskFields};

    ghost Value = { DeskFields };

    ghost view = { λ d. record { stage = d.stage; fault = d.fault } };
}

impl Desk {
    /// A desk to which no line was given. It takes no memory.
    pub fn new(alloc: Global) -> Desk
        ensures { DeskStands result desk_start }
    {
        Desk {
            alloc,
            stage: DeskStage::Describing(Reader::new(alloc)),
            fault: None,
        }
    }

    /// Lets all go that the desk holds. A caller that ends so needs no proof of its own of how each part is let go.
    pub fn let_go(self) {
        self.stage.let_go();
    }

    /// Does the line that a text of at most 4,096 bytes spells, and prints what it says. The lines `d`, `g` and `w` alone take memory.
    ///
    /// # Errors
    ///
    /// The first of rules S2 to S7 that the text breaks; nothing is changed. Any other fault is answered to each further line, too, and
    /// nothing more is printed: the descriptor's first fault, a write that failed, want of memory.
    pub fn line<K: Sink>(&mut self, text: &[u8], sink: &mut K) -> Result<(), LineFault>
        requires { length text.now ≤ 4096 }

        // What it does, in every world for which the desk stands: the step of what the text says, with its lines.
        ensures answers { (w : DeskWorld) → DeskStands self.old w
            → Does (said_step (desk_answer text.now) w) (said_wants (desk_answer text.now) w) (DeskStands self.new)
            (K.written sink.old) (K.written sink.new) result }

        // A fault that was answered before is answered again.
        ensures again { (fault : LineFault) → self.old.fault ≡ Some fault → (result ≡ Err fault) × (self.new ≡ self.old)
            × (sink.new ≡ sink.old) }
        ensures kept { IfErr result (λ fault. is_final fault ≡ true → self.new.fault ≡ Some fault) }

        // What stays.
        ensures script { IfErr result (λ fault. is_final fault ≡ false → self.new ≡ self.old) }
        ensures unwritten { IfErr result (λ fault. fault ≢ LineFault.WriteFault → sink.new ≡ sink.old) }

        // A failed write has its cause in this call, where it wasn't kept; and where the line is done no write met a fault.
        ensures cause { IfErr result (λ fault. fault ≡ LineFault.WriteFault → (self.old.fault ≡ Some LineFault.WriteFault)
            ⊎ Rose (K.faults sink.old) (K.faults sink.new)) }
        ensures never_falls { K.faults sink.old ≤ K.faults sink.new }
        ensures faultless { OnOk result (K.faults sink.new ≡ K.faults sink.old) }
    {
        if let Some(fault) = self.fault {
            return Err(fault);
        }
        match advance(self.alloc, &mut self.stage, text, sink) {
            Ok(()) => return Ok(()),
            Err(fault) => {
                if !is_final(fault) {
                    return Err(fault);
                }
                self.fault = Some(fault);
                return Err(fault);
            }
        }
    }

    /// The script's end: rule 8 where no descriptor's end came, and a fault that was answered before.
    pub fn finish(&self) -> Result<(), LineFault>
        ensures again { (fault : LineFault) → self.now.fault ≡ Some fault → result ≡ Err fault }
        ensures finishes { (w : DeskWorld) → DeskStands self.now w → result ≡ ended_by (desk_finish w) }
    {
        if let Some(fault) = self.fault {
            return Err(fault);
        }
        match self.stage {
            DeskStage::Describing(_) => Err(LineFault::Script(8)),
            DeskStage::Running(_) => Ok(()),
        }
    }
}

/// Whether a fault is answered again from now on.
fn is_final(fault: LineFault) -> bool
    ensures { result ≡ is_final fault }
{
    match fault {
        LineFault::Script(_) => false,
        LineFault::Grammar(_) | LineFault::Topology(_) => true,
        LineFault::WriteFault | LineFault::NoMemory => true,
    }
}

/// Does the line that a text spells, however far the script is.
fn advance<K: Sink>(
    alloc: Global,
    stage: &mut DeskStage,
    text: &[u8],
    sink: &mut K,
) -> Result<(), LineFault>
    requires { length text.now ≤ 4096 }
    ensures does { (w : DeskWorld) → StageStands stage.old w
        → Does (said_step (desk_answer text.now) w) (said_wants (desk_answer text.now) w) (StageStands stage.new)
        (K.written sink.old) (K.written sink.new) result }
    ensures leaves { Leaves stage.old stage.new sink.old sink.new result }
    ensures faults { HasWriteCause (K.faults sink.old) (K.faults sink.new) result }
{
    let mut room = LineRoom::new();
    match read(text, &mut room) {
        Ok(line) => do_line(alloc, stage, line, sink),
        Err(rule) => Err(LineFault::Script(rule)),
    }
}

/// Does a line, however far the script is.
fn do_line<K: Sink>(
    alloc: Global,
    stage: &mut DeskStage,
    line: DeskLine<'_>,
    sink: &mut K,
) -> Result<(), LineFault>
    ensures does { (w : DeskWorld) → StageStands stage.old w
        → Does (desk_step (desk_phrase line.entry) w) (wants_memory (desk_phrase line.entry) w) (StageStands stage.new)
        (K.written sink.old) (K.written sink.new) result }
    ensures leaves { Leaves stage.old stage.new sink.old sink.new result }
    ensures faults { HasWriteCause (K.faults sink.old) (K.faults sink.new) result }
{
    if is_end(line) {
        return go(alloc, stage, sink);
    }
    match stage {
        DeskStage::Describing(reader) => describe(reader, line),
        DeskStage::Running(front) => play(front, line, sink),
    }
}

/// Whether a line is the descriptor's end.
fn is_end(line: DeskLine<'_>) -> bool
    ensures { result ≡ spec.is_end (desk_phrase line.entry) }
{
    match line {
        DeskLine::Table(line) => is_end_line(line),
        DeskLine::Turn(_, _) | DeskLine::Follow => false,
    }
}

/// Whether a line of the table of lines is the descriptor's end.
fn is_end_line(line: LentLine<'_>) -> bool
    ensures { result ≡ spec.is_end_line (lent_phrase line.entry) }
{
    match line {
        LentLine::Go => true,
        LentLine::Nothing
        | LentLine::Bytes(_)
        | LentLine::Control { .. }
        | LentLine::Get(_)
        | LentLine::Set(_, _)
        | LentLine::Show(_)
        | LentLine::Break { .. }
        | LentLine::Append { .. }
        | LentLine::Track { .. }
        | LentLine::Jack { .. }
        | LentLine::Deviate { .. }
        | LentLine::Run { .. }
        | LentLine::Detail(_)
        | LentLine::Report => false,
    }
}

/// The descriptor's end. It is apart from the other lines, since a call clears at its entry what it has room for, here a whole device.
#[inline(never)]
fn go<K: Sink>(alloc: Global, stage: &mut DeskStage, sink: &mut K) -> Result<(), LineFault>
    ensures does { (w : DeskWorld) → StageStands stage.old w
        → Does (desk_step go_phrase w) (wants_memory go_phrase w) (StageStands stage.new) (K.written sink.old) (K.written sink.new) result }
    ensures script { IfErr result (λ fault. is_final fault ≡ false → stage.new ≡ stage.old) }
    ensures unwritten { IfErr result (λ fault. fault ≢ LineFault.WriteFault → sink.new ≡ sink.old) }
    ensures faults { HasWriteCause (K.faults sink.old) (K.faults sink.new) result }
{
    match stage {
        DeskStage::Describing(reader) => {
            let whole = mem::replace(reader, Reader::new(alloc));
            match begin(alloc, whole, sink) {
                Ok(front) => {
                    mem::replace(stage, DeskStage::Running(front)).let_go();
                    Ok(())
                }
                Err(fault) => Err(fault),
            }
        }
        DeskStage::Running(_) => Err(LineFault::Script(5)),
    }
}
