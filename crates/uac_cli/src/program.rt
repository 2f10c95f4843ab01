// The program over any source and sink: from the arguments of its process to its status.
ghost use Rattle.std.specs.Prelude.{◌≡◌, ◌≢◌, true};
ghost use Rattle.std.specs.Io.KnownBytes.{IsAtEnd};
ghost use Rattle.uac_edges.specs.Faults.{Rose};
ghost use Rattle.std.specs.Process.{exit_status};
ghost use Rattle.uac_boxes.specs.Boxes.{IsCompleteFreshCall, IsFreshCall, IsFreshRun};
ghost use Rattle.uac_call.specs.Call.{ask_to_read};
ghost use Rattle.uac_ends.specs.Closing.{IsFaultless};
ghost use Rattle.uac_ends.specs.Outside.{outside};
ghost use Rattle.uac_cli.specs.Program.{Exits, asked_by};

use crate::arguments::words;
use std::alloc::Global;
use std::env::Args;
use std::io;
use std::process::ExitCode;
use uac_boxes::run_in_boxes;
use uac_descriptor::NoMemory;
use uac_edges::{Sink, Source};
use uac_ends::{NO_MEMORY, Status, conclude, exit_code};

/// Runs the program with the arguments of its process, of which the first is its name, and answers the exit status of the process: the
/// number of the status (0 to 7) with which the run ended.
pub fn run_program<S: Source, K: Sink>(
    alloc: Global,
    args: io::Result<Args>,
    source: &mut S,
    sink: &mut K,
) -> ExitCode
    // All that holds of the run holds for the status whose number the process ends with.
    ensures run { Exits (λ status. IsFreshRun (asked_by args)
        (outside (S.left source.old) (S.faults source.old) (K.written sink.old) (K.faults sink.old))
        (outside (S.left source.new) (S.faults source.new) (K.written sink.new) (K.faults sink.new)) (K.waiting sink.new) status)
        (exit_status result) }
{
    exit_code(run_arguments(alloc, args, source, sink))
}

/// Runs the program with the arguments of its process.
fn run_arguments<S: Source, K: Sink>(
    alloc: Global,
    args: io::Result<Args>,
    source: &mut S,
    sink: &mut K,
) -> Status
    // Status and text follow from the words after the name and the bytes that were taken.
    ensures call { IsFreshCall (asked_by args)
        (outside (S.left source.old) (S.faults source.old) (K.written sink.old) (K.faults sink.old))
        (outside (S.left source.new) (S.faults source.new) (K.written sink.new) (K.faults sink.new)) result }

    // Each fault of the outside has its cause in this call; and a call that tells of none met none.
    ensures read_fault { result ≡ Status.ReadFault → Rose (S.faults source.old) (S.faults source.new) }
    ensures write_fault { result ≡ Status.WriteFault → Rose (K.faults sink.old) (K.faults sink.new) }
    ensures faultless { IsFaultless
        (outside (S.left source.old) (S.faults source.old) (K.written sink.old) (K.faults sink.old))
        (outside (S.left source.new) (S.faults source.new) (K.written sink.new) (K.faults sink.new)) result }

    // The whole input was read, where the command reads it.
    ensures ok { result ≡ Status.Ok → ask_to_read (asked_by args) ≡ true → IsAtEnd (S.left source.new) }

    // Where no read and no write failed and there was memory, status and text are what the whole input comes to, to its end.
    ensures complete { IsCompleteFreshCall (asked_by args)
        (outside (S.left source.old) (S.faults source.old) (K.written sink.old) (K.faults sink.old))
        (outside (S.left source.new) (S.faults source.new) (K.written sink.new) (K.faults sink.new)) result }

    // Where no failed write is told, all that was written was handed on.
    ensures handed_on { result ≢ Status.WriteFault → K.waiting sink.new ≡ 0 }
{
    match words(alloc, args) {
        Ok(words) => match run_in_boxes(alloc, &words, source, sink) {
            Ok(status) => status,
            Err(_) => conclude(sink, NO_MEMORY, Status::NoMemory),
        },
        Err(NoMemory) => conclude(sink, NO_MEMORY, Status::NoMemory),
    }
}
