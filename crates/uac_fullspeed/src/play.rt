// The lines of a bench, by what they say.
ghost use Rattle.std.specs.Prelude.{◌≡◌, ◌≤ℤ◌, ◌==◌, ◌&&◌, ℕ, List, Option, pos, negsuc, map, IfErr};
ghost use Rattle.std.specs.List.{list_all};
ghost use Rattle.uac_script.specs.Line.{phrase_mark};
ghost use Rattle.uac_script.specs.Lent.{lent_phrase, IsLentInRange};
ghost use Rattle.uac_script.specs.Phrase.{deviate_line, microframes_line, report_line};
ghost use Rattle.uac_fullspeed.specs.FullSpeedWorld.{FullSpeedWorld};
ghost use Rattle.uac_fullspeed.specs.FullSpeedSteps as spec;
ghost use Rattle.uac_fullspeed.specs.FullSpeedSteps.{fs_step};
ghost use Rattle.uac_fullspeed.specs.FullSpeedKept.{FsDoes, FsRunStandsBetween, HasFsCause, IsScript};

use crate::fault::BenchFault;
use crate::run::FsRun;
use uac_edges::Sink;
use uac_script::{LentLine, Mark, MarkKind, loses_feedback, loses_out};

/// Does a line of a bench. No line takes memory.
///
/// # Errors
///
/// A rule of the script that the line breaks, 5 or 6; nothing is changed. A write that failed.
#[tactic(auto, unfolding(crate::specs::FullSpeedSteps::fs_step))]
pub(crate) fn play<K: Sink>(
    run: &mut FsRun,
    line: LentLine<'_>,
    sink: &mut K,
) -> Result<(), BenchFault>
    requires { IsLentInRange line }
    ensures does { (w : FullSpeedWorld) → FsRunStandsBetween run.old w
        → FsDoes (fs_step (lent_phrase line.entry) w) FsRunStandsBetween run.new (K.written sink.old) (K.written sink.new) result }
    ensures script { IfErr result (λ fault. IsScript fault → run.new ≡ run.old) }
    ensures unwritten { IfErr result (λ fault. IsScript fault → sink.new ≡ sink.old) }
    ensures cause { HasFsCause (K.faults sink.old) (K.faults sink.new) result }
{
    match line {
        LentLine::Nothing => Ok(()),
        LentLine::Bytes(_) => Err(BenchFault::Script(5)),
        LentLine::Go => Err(BenchFault::Script(5)),
        LentLine::Control { setup: _, sent: _ } => Err(BenchFault::Script(5)),
        LentLine::Get(_) => Err(BenchFault::Script(5)),
        LentLine::Set(_, _) => Err(BenchFault::Script(5)),
        LentLine::Show(_) => Err(BenchFault::Script(5)),
        LentLine::Break { after: _ } => Err(BenchFault::Script(5)),
        LentLine::Append {
            interface: _,
            samples: _,
        } => Err(BenchFault::Script(5)),
        LentLine::Track {
            interface: _,
            tone: _,
        } => Err(BenchFault::Script(5)),
        LentLine::Jack {
            terminal: _,
            tone: _,
        } => Err(BenchFault::Script(5)),
        LentLine::Deviate { domain, ppm } => deviate(run, domain, ppm),
        LentLine::Run { count, marks } => frames(run, count, marks, sink),
        LentLine::Detail(level) => {
            run.set_detail(level);
            Ok(())
        }
        LentLine::Report => report(run, sink),
    }
}

/// The deviation of the clock.
#[tactic(auto, unfolding(crate::specs::FullSpeedSteps::fs_step))]
fn deviate(run: &mut FsRun, domain: u8, ppm: i32) -> Result<(), BenchFault>
    requires low { negsuc 99999 ≤ℤ ppm }
    requires high { ppm ≤ℤ pos 100000 }
    ensures does { (w : FullSpeedWorld) (written : Option (List ℕ)) → FsRunStandsBetween run.old w
        → FsDoes (fs_step (deviate_line (pos domain) ppm) w) FsRunStandsBetween run.new written written result }
    ensures script { IfErr result (λ fault. IsScript fault × (run.new ≡ run.old)) }
{
    if domain != 1 {
        return Err(BenchFault::Script(6));
    }
    run.deviate(ppm);
    Ok(())
}

/// Bus frames. Marks have to name the stream, and none a packet from the device.
fn frames<K: Sink>(
    run: &mut FsRun,
    count: u32,
    marks: &[Mark],
    sink: &mut K,
) -> Result<(), BenchFault>
    ensures does { (w : FullSpeedWorld) → FsRunStandsBetween run.old w
        → FsDoes (fs_step (microframes_line (pos count) (map phrase_mark marks.now)) w) FsRunStandsBetween run.new (K.written sink.old)
        (K.written sink.new) result }
    ensures script { IfErr result (λ fault. IsScript fault → run.new ≡ run.old) }
    ensures unwritten { IfErr result (λ fault. IsScript fault → sink.new ≡ sink.old) }
    ensures cause { HasFsCause (K.faults sink.old) (K.faults sink.new) result }
{
    if !are_of_stream(marks) {
        return Err(BenchFault::Script(6));
    }
    match run.frames(count, loses_out(marks, 1), loses_feedback(marks, 1), sink) {
        Ok(()) => Ok(()),
        Err(failed) => Err(BenchFault::from(failed)),
    }
}

/// The report.
#[tactic(auto, unfolding(crate::specs::FullSpeedSteps::fs_step))]
fn report<K: Sink>(run: &FsRun, sink: &mut K) -> Result<(), BenchFault>
    ensures does { (w : FullSpeedWorld) → FsRunStandsBetween run.now w
        → FsDoes (fs_step report_line w) FsRunStandsBetween run.now (K.written sink.old) (K.written sink.new) result }
    ensures fault { IfErr result (λ fault. fault ≡ BenchFault.WriteFault) }
    ensures cause { HasFsCause (K.faults sink.old) (K.faults sink.new) result }
{
    run.write_state(sink)?;
    Ok(())
}

/// Whether each mark is of the stream's packet or of its report.
fn are_of_stream(marks: &[Mark]) -> bool
    ensures { result ≡ list_all (λ mark. spec.can_be_lost mark.kind && (mark.interface == 1)) marks.now }
{
    marks
        .iter()
        .all(|mark| can_be_lost(mark.kind) && mark.interface == 1)
}

fn can_be_lost(kind: MarkKind) -> bool
    ensures { result ≡ spec.can_be_lost kind }
{
    match kind {
        MarkKind::Out => true,
        MarkKind::In => false,
        MarkKind::Feedback => true,
    }
}
