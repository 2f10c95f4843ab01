// The lines of the descriptor.
ghost use Rattle.std.specs.Prelude.{◌≡◌, ◌≢◌, ◌++◌, ℕ, List, Option, None, Ok, true, false, IfErr, IfOk};
ghost use Rattle.uac_topology.specs.ConfigurationVerdict.{Describes};
ghost use Rattle.uac_edges.specs.Faults.{HasCause};
ghost use Rattle.uac_edges.specs.Writing.{Writes};
ghost use Rattle.uac_script.specs.Lent.{lent_phrase};
ghost use Rattle.uac_status.specs.DeskLines.{desk_phrase, is_end, is_end_line};
ghost use Rattle.uac_status.specs.Desks.{describing, early_memory, ready_line, step_describing, step_feed, step_go, step_table_early, wants_memory};
ghost use Rattle.uac_status.specs.PanelLines.{panel_spelling};
ghost use Rattle.uac_status.specs.FrontKept as spec;
ghost use Rattle.uac_status.specs.FrontKept.{Begins, Does, HasWriteCause, is_final};
ghost use Rattle.uac_status.specs.DeskKept.{StageStands};

use crate::desk::DeskStage;
use crate::front::Front;
use crate::reading::DeskLine;
use std::alloc::Global;
use uac_edges::Sink;
use uac_ends::LineFault;
use uac_grammar::Reader;
use uac_script::LentLine;
use uac_topology::{DescriptorFault, SoundDescriptor, sound_descriptor};

/// Does a line before the descriptor's end, which the line isn't.
pub(crate) fn describe(reader: &mut Reader, line: DeskLine<'_>) -> Result<(), LineFault>
    requires { is_end (desk_phrase line) ≡ false }
    ensures does { reader.old.stop ≡ None → (written : Option (List ℕ))
        → Does (step_describing reader.old.taken (desk_phrase line.entry)) (wants_memory (desk_phrase line.entry) (describing reader.old.taken))
        (StageStands (DeskStage.Describing reader.new)) written written result }
    ensures script { IfErr result (λ fault. is_final fault ≡ false → reader.new ≡ reader.old) }
    ensures unwritten { IfErr result (λ fault. fault ≢ LineFault.WriteFault) }
{
    match line {
        DeskLine::Table(line) => describe_table(reader, line),
        DeskLine::Turn(_, _) | DeskLine::Follow => Err(LineFault::Script(5)),
    }
}

/// Does a line of the table of lines before the descriptor's end. Those but for the descriptor's bytes break rule 5.
fn describe_table(reader: &mut Reader, line: LentLine<'_>) -> Result<(), LineFault>
    requires { is_end_line (lent_phrase line) ≡ false }
    ensures does { reader.old.stop ≡ None → (written : Option (List ℕ))
        → Does (step_table_early reader.old.taken (lent_phrase line.entry)) (early_memory (lent_phrase line.entry))
        (StageStands (DeskStage.Describing reader.new)) written written result }
    ensures script { IfErr result (λ fault. is_final fault ≡ false → reader.new ≡ reader.old) }
    ensures unwritten { IfErr result (λ fault. fault ≢ LineFault.WriteFault) }
{
    match line {
        LentLine::Nothing => Ok(()),
        LentLine::Bytes(bytes) => feed(reader, bytes),
        LentLine::Go => unreachable!(),
        LentLine::Control { .. }
        | LentLine::Get(_)
        | LentLine::Set(_, _)
        | LentLine::Show(_)
        | LentLine::Break { .. }
        | LentLine::Append { .. }
        | LentLine::Track { .. }
        | LentLine::Jack { .. }
        | LentLine::Deviate { .. }
        | LentLine::Run { .. }
        | LentLine::Detail(_)
        | LentLine::Report => Err(LineFault::Script(5)),
    }
}

/// Takes more bytes of the descriptor.
fn feed(reader: &mut Reader, bytes: &[u8]) -> Result<(), LineFault>
    ensures does { reader.old.stop ≡ None → (written : Option (List ℕ))
        → Does (step_feed (reader.old.taken ++ bytes.now)) true (StageStands (DeskStage.Describing reader.new)) written written result }
    ensures fault { IfErr result (λ fault. is_final fault ≡ true) }
    ensures unwritten { IfErr result (λ fault. fault ≢ LineFault.WriteFault) }
{
    match reader.feed(bytes) {
        Ok(()) => Ok(()),
        Err(stop) => Err(line_fault(DescriptorFault::from(stop))),
    }
}

/// The descriptor's end: the device that it describes begins to run, and says so.
pub(crate) fn begin<K: Sink>(
    alloc: Global,
    reader: Reader,
    sink: &mut K,
) -> Result<Front, LineFault>
    ensures begins { Begins (step_go reader.taken) (K.written sink.old) (K.written sink.new) result }
    ensures fault { IfErr result (λ fault. is_final fault ≡ true) }
    ensures unwritten { IfErr result (λ fault. fault ≢ LineFault.WriteFault → sink.new ≡ sink.old) }
    ensures faults { HasWriteCause (K.faults sink.old) (K.faults sink.new) result }
{
    match sound_descriptor(alloc, reader) {
        Ok(described) => start(alloc, described, sink),
        Err(fault) => Err(line_fault(fault)),
    }
}

/// The device that was described begins to run, and says so.
fn start<K: Sink>(
    alloc: Global,
    described: SoundDescriptor,
    sink: &mut K,
) -> Result<Front, LineFault>
    ensures begins { (bytes : List ℕ) → Describes bytes (Ok described)
        → Begins (step_go bytes) (K.written sink.old) (K.written sink.new) result }
    ensures fault { IfErr result (λ fault. is_final fault ≡ true) }
    ensures unwritten { IfErr result (λ fault. fault ≢ LineFault.WriteFault → sink.new ≡ sink.old) }
    ensures faults { HasWriteCause (K.faults sink.old) (K.faults sink.new) result }
{
    drop(described.configuration);
    let front = Front::new(alloc, described.function)?;
    announce(front, sink)
}

/// A device whose line of the descriptor's end is printed.
fn announce<K: Sink>(front: Front, sink: &mut K) -> Result<Front, LineFault>
    ensures same { IfOk result (λ announced. announced ≡ front) }
    ensures fault { IfErr result (λ fault. fault ≡ LineFault.WriteFault) }
    ensures written { Writes (K.written sink.old) (K.written sink.new) result (panel_spelling (ready_line front.device.function)) }
    ensures cause { HasCause (K.faults sink.old) (K.faults sink.new) result }
{
    match front.ready(sink) {
        Ok(()) => Ok(front),
        Err(_) => {
            front.let_go();
            Err(LineFault::WriteFault)
        }
    }
}

/// Why a descriptor's bytes come to nothing, as why a line isn't done.
fn line_fault(fault: DescriptorFault) -> LineFault
    ensures { result ≡ spec.line_fault fault }
{
    match fault {
        DescriptorFault::Grammar(fault) => LineFault::Grammar(fault),
        DescriptorFault::Topology(fault) => LineFault::Topology(fault),
        DescriptorFault::NoMemory => LineFault::NoMemory,
    }
}
