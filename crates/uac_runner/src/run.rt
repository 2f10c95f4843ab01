// Running a script, line by line.
ghost use Rattle.std.specs.Prelude.{◌≡◌, ◌≢◌, ◌≤◌, ◌+◌, ◌<◌, true, false, [], None, length, IfErr, OnErr, OnOk};
ghost use Rattle.std.specs.Io.KnownBytes.{IsAtEnd, Keeps};
ghost use Rattle.uac_edges.specs.Faults.{Rose};
ghost use Rattle.uac_lines.specs.ScriptLines.{most_of_input};
ghost use Rattle.uac_lines.specs.Words.{is_idle};
ghost use Rattle.uac_ends.specs.Closing.{Closes, IsFaultless};
ghost use Rattle.uac_ends.specs.Outcome.{at_refusal, told};
ghost use Rattle.uac_ends.specs.Outside.{outside};
ghost use Rattle.uac_runner.specs.Run.{IsRun, Runs};
ghost use Rattle.uac_runner.specs.LineOutcomes.{DoesLine, stop_last};
ghost use Rattle.uac_runner.specs.Transcript.{last_by};

use crate::machine::LineMachine;
use uac_edges::{Failed, Sink, Source};
use uac_ends::{
    LineFault, NO_MEMORY, READ_FAULT, Status, TOO_LONG, close, misread_line, refusal_line,
    unsound_line,
};
use uac_lines::{LineStop, Lines, Next};

/// Does the lines of a script in order, up to the first that is refused, and prints what each prints, and the last line of a
/// refusal.
pub fn run_script<M: LineMachine, S: Source, K: Sink>(
    machine: &mut M,
    beside: &mut M::Beside,
    source: &mut S,
    sink: &mut K,
) -> Status
    requires fits { M.fits machine.old }
    requires fresh { M.counted machine.old ≡ 0 }
    ensures { (w : M.World) → M.stands machine.old beside.old w
        → Runs M.machine w (M.shows beside.new)
        (outside (S.left source.old) (S.faults source.old) (K.written sink.old) (K.faults sink.old))
        (outside (S.left source.new) (S.faults source.new) (K.written sink.new) (K.faults sink.new)) result }
{
    let mut lines = Lines::new();
    run_lines(machine, beside, &mut lines, source, sink)
}

/// Runs a script from its first line on, with a machine to which no line was given.
fn run_lines<M: LineMachine, S: Source, K: Sink>(
    machine: &mut M,
    beside: &mut M::Beside,
    lines: &mut Lines,
    source: &mut S,
    sink: &mut K,
) -> Status
    requires fits { M.fits machine.old }
    requires fresh { M.counted machine.old ≡ 0 }
    requires unread { lines.old ≡ record { text = []; number = 0; unread = []; spare = most_of_input; stop = None; ended = false } }
    ensures run { (w : M.World) → M.stands machine.old beside.old w
        → IsRun M.machine w (M.shows beside.new)
        (outside (S.left source.old) (S.faults source.old) (K.written sink.old) (K.faults sink.old))
        (outside (S.left source.new) (S.faults source.new) (K.written sink.new) (K.faults sink.new)) result }
    ensures read_fault { result ≡ Status.ReadFault → Rose (S.faults source.old) (S.faults source.new) }
    ensures write_fault { (w : M.World) → M.stands machine.old beside.old w
        → result ≡ Status.WriteFault → Rose (K.faults sink.old) (K.faults sink.new) }
    ensures faultless { (w : M.World) → M.stands machine.old beside.old w
        → IsFaultless
        (outside (S.left source.old) (S.faults source.old) (K.written sink.old) (K.faults sink.old))
        (outside (S.left source.new) (S.faults source.new) (K.written sink.new) (K.faults sink.new)) result }
    ensures ok { (w : M.World) → M.stands machine.old beside.old w → result ≡ Status.Ok → IsAtEnd (S.left source.new) }
{
    loop {
        match lines.next(source) {
            Ok(Next::Line) => match do_line(machine, lines.text(), beside, sink) {
                Ok(()) => {}
                Err(fault) => return refuse_line(fault, lines.number(), sink),
            },
            Ok(Next::End) => return finish(machine, beside, lines.number().saturating_add(1), sink),
            Err(stop) => return stop_lines(stop, lines.number(), sink),
        }
    }
}

/// Does the line that a text spells, and hands on what it printed.
fn do_line<M: LineMachine, K: Sink>(
    machine: &mut M,
    text: &[u8],
    beside: &mut M::Beside,
    sink: &mut K,
) -> Result<(), LineFault>
    requires short { length text.now ≤ 4096 }
    requires fits { M.fits machine.old }
    requires few { M.counted machine.old < most_of_input }
    ensures does { (w : M.World) → M.stands machine.old beside.old w
        → DoesLine M.machine text.now w (M.stands machine.new beside.new) (M.shows beside.new w)
        (K.written sink.old) (K.written sink.new) (K.faults sink.old) (K.faults sink.new) result }
    ensures never_falls { K.faults sink.old ≤ K.faults sink.new }
    ensures counts { M.counted machine.new ≤ M.counted machine.old + 1 }
    ensures still_fits { M.fits machine.new }
    ensures handed_on { K.waiting sink.old ≡ 0 → OnOk result (K.waiting sink.new ≡ 0) }
{
    if is_idle(text) {
        return Ok(());
    }
    match machine.line(text, beside, sink) {
        Ok(()) => hand_on_line(sink),
        Err(fault) => Err(fault),
    }
}

/// Whether a line does nothing: it is empty, or begins with `#`.
fn is_idle(text: &[u8]) -> bool
    ensures { result ≡ is_idle text.now }
{
    match text {
        [] => true,
        [first, ..] => *first == b'#',
    }
}

/// Hands on what a line printed.
fn hand_on_line<K: Sink>(sink: &mut K) -> Result<(), LineFault>
    ensures kept { Keeps (K.written sink.old) (K.written sink.new) }
    ensures handed_on { OnOk result (K.waiting sink.new ≡ 0) }
    ensures never_falls { K.faults sink.old ≤ K.faults sink.new }
    ensures faultless { OnOk result (K.faults sink.new ≡ K.faults sink.old) }
    ensures fault { IfErr result (λ fault. fault ≡ LineFault.WriteFault) }
    ensures cause { OnErr result (Rose (K.faults sink.old) (K.faults sink.new)) }
{
    match sink.flush() {
        Ok(()) => Ok(()),
        Err(Failed) => Err(LineFault::WriteFault),
    }
}

/// Prints why the line with this number was refused. After a write that failed nothing is printed.
fn refuse_line<K: Sink>(fault: LineFault, number: u64, sink: &mut K) -> Status
    ensures closed { Closes (told (at_refusal fault number)) (K.written sink.old) (K.written sink.new) (K.faults sink.old)
        (K.faults sink.new) result }
    ensures never_ok { result ≢ Status.Ok }
    ensures never_read { result ≢ Status.ReadFault }
    ensures cause { result ≡ Status.WriteFault → fault ≢ LineFault.WriteFault → Rose (K.faults sink.old) (K.faults sink.new) }
    ensures silent { fault ≡ LineFault.WriteFault → (result ≡ Status.WriteFault) × (sink.new ≡ sink.old) }
{
    match fault {
        LineFault::Script(rule) => close(
            sink,
            misread_line(rule, number).as_bytes(),
            Status::Script,
        ),
        LineFault::Grammar(fault) => close(
            sink,
            refusal_line(&fault).as_bytes(),
            Status::Descriptor,
        ),
        LineFault::Topology(fault) => close(
            sink,
            unsound_line(&fault).as_bytes(),
            Status::Descriptor,
        ),
        LineFault::WriteFault => Status::WriteFault,
        LineFault::NoMemory => close(sink, NO_MEMORY, Status::NoMemory),
    }
}

/// Prints why there is no next line; `number` is that of a line that is too long.
fn stop_lines<K: Sink>(stop: LineStop, number: u64, sink: &mut K) -> Status
    ensures closed { Closes (told (stop_last stop number)) (K.written sink.old) (K.written sink.new) (K.faults sink.old)
        (K.faults sink.new) result }
    ensures never_ok { result ≢ Status.Ok }
    ensures read { result ≡ Status.ReadFault → stop ≡ LineStop.Failed }
    ensures cause { result ≡ Status.WriteFault → Rose (K.faults sink.old) (K.faults sink.new) }
{
    match stop {
        LineStop::Long => close(sink, misread_line(1, number).as_bytes(), Status::Script),
        LineStop::TooLong => close(sink, TOO_LONG, Status::TooLong),
        LineStop::Failed => close(sink, READ_FAULT, Status::ReadFault),
    }
}

/// The script's end, where the next line would have this number.
fn finish<M: LineMachine, K: Sink>(
    machine: &M,
    beside: &M::Beside,
    number: u64,
    sink: &mut K,
) -> Status
    ensures closed { (w : M.World) → M.stands machine.now beside.now w
        → Closes (told (last_by (M.machine.finish w) number)) (K.written sink.old) (K.written sink.new) (K.faults sink.old)
        (K.faults sink.new) result }
    ensures never_read { result ≢ Status.ReadFault }
    ensures cause { (w : M.World) → M.stands machine.now beside.now w → result ≡ Status.WriteFault
        → Rose (K.faults sink.old) (K.faults sink.new) }
{
    match machine.finish(beside) {
        Ok(()) => Status::Ok,
        Err(fault) => refuse_line(fault, number, sink),
    }
}
