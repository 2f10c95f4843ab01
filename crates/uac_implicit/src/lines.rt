// The lines of a script.
ghost use Rattle.std.specs.Prelude.{◌≡◌, ◌≢◌, ◌≤◌, ◌≤ℤ◌, ℕ, List, Option, pos, negsuc, map, IfErr, OnErr, OnOk};
ghost use Rattle.uac_edges.specs.Faults.{Rose};
ghost use Rattle.uac_script.specs.Line.{phrase_mark};
ghost use Rattle.uac_script.specs.Lent.{lent_phrase, IsLentInRange};
ghost use Rattle.uac_script.specs.Phrase as phrase;
ghost use Rattle.uac_implicit.specs.Following.{PairWorld};
ghost use Rattle.uac_implicit.specs.PairLines.{pair_step};
ghost use Rattle.uac_implicit.specs.PairKept.{HasPairCause, LeavesPair, PairDoes, PairRunStands};

use crate::fault::PairFault;
use crate::marks::{are_of_pair, losses_of};
use crate::pair::{PairRun, step_within};
use uac_edges::Sink;
use uac_script::{LentLine, Mark};

/// Does a line.
///
/// # Errors
///
/// A rule of the script that the line breaks, 5 or 6; nothing is changed. A write that failed.
pub(crate) fn play<K: Sink>(
    run: &mut PairRun,
    line: LentLine<'_>,
    sink: &mut K,
) -> Result<(), PairFault>
    requires keeps { IsLentInRange line }
    ensures does { (w : PairWorld) → PairRunStands run.old w
        → PairDoes (pair_step (lent_phrase line.entry) w) (PairRunStands run.new) (K.written sink.old) (K.written sink.new) result }
    ensures leaves { LeavesPair run.old run.new sink.old sink.new result }
    ensures faults { HasPairCause (K.faults sink.old) (K.faults sink.new) result }
{
    match line {
        LentLine::Nothing => Ok(()),
        LentLine::Deviate { domain, ppm } => deviate(run, domain, ppm),
        LentLine::Run { count, marks } => run_microframes(run, count, marks, sink),
        LentLine::Detail(level) => {
            run.detail = level;
            Ok(())
        }
        LentLine::Report => report(run, sink),
        LentLine::Bytes(_)
        | LentLine::Go
        | LentLine::Control { .. }
        | LentLine::Get(_)
        | LentLine::Set(_, _)
        | LentLine::Show(_)
        | LentLine::Break { .. }
        | LentLine::Append { .. }
        | LentLine::Track { .. }
        | LentLine::Jack { .. } => Err(PairFault::Script(5)),
    }
}

/// The deviation of the clock, whose domain is 1.
fn deviate(run: &mut PairRun, domain: u8, ppm: i32) -> Result<(), PairFault>
    requires low { negsuc 99999 ≤ℤ ppm }
    requires high { ppm ≤ℤ pos 100000 }
    ensures does { (w : PairWorld) (written : Option (List ℕ)) → PairRunStands run.old w
        → PairDoes (pair_step (phrase.deviate_line (pos domain) ppm) w) (PairRunStands run.new) written written result }
    ensures rule { IfErr result (λ fault. fault ≢ PairFault.WriteFault) }
    ensures unchanged { OnErr result (run.new ≡ run.old) }
{
    if domain != 1 {
        return Err(PairFault::Script(6));
    }
    run.step = step_within(&run.nominal, ppm);
    Ok(())
}

/// Microframes, with marks of a pair alone.
fn run_microframes<K: Sink>(
    run: &mut PairRun,
    count: u32,
    marks: &[Mark],
    sink: &mut K,
) -> Result<(), PairFault>
    ensures does { (w : PairWorld) → PairRunStands run.old w
        → PairDoes (pair_step (phrase.microframes_line (pos count) (map phrase_mark marks.now)) w) (PairRunStands run.new)
        (K.written sink.old) (K.written sink.new) result }
    ensures leaves { LeavesPair run.old run.new sink.old sink.new result }
    ensures faults { HasPairCause (K.faults sink.old) (K.faults sink.new) result }
{
    if !are_of_pair(marks) {
        return Err(PairFault::Script(6));
    }
    match run.microframes(count, losses_of(marks), sink) {
        Ok(()) => Ok(()),
        Err(_) => Err(PairFault::WriteFault),
    }
}

/// The report.
fn report<K: Sink>(run: &PairRun, sink: &mut K) -> Result<(), PairFault>
    ensures does { (w : PairWorld) → PairRunStands run.now w
        → PairDoes (pair_step phrase.report_line w) (PairRunStands run.now) (K.written sink.old) (K.written sink.new) result }
    ensures fault { IfErr result (λ fault. fault ≡ PairFault.WriteFault) }
    ensures faults { HasPairCause (K.faults sink.old) (K.faults sink.new) result }
{
    match run.report(sink) {
        Ok(()) => Ok(()),
        Err(_) => Err(PairFault::WriteFault),
    }
}
