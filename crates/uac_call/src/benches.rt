// Scripts that are run on a bench.
ghost use Rattle.std.specs.Prelude.{◌≡◌, true, List};
ghost use Rattle.uac_clock.specs.Nominal.{is_listed};
ghost use Rattle.uac_units.specs.Hearing.{Reading};
ghost use Rattle.uac_fullspeed.specs.FullSpeedNominal.{is_fs_listed};
ghost use Rattle.uac_ends.specs.Outside.{outside};
ghost use Rattle.uac_scripts.specs.Surroundings.{surroundings};
ghost use Rattle.uac_call.specs.Performing.{Performs};

use std::alloc::Global;
use uac_clock::nominal;
use uac_descriptor::NoMemory;
use uac_edges::{Sink, Source};
use uac_ends::{NO_MEMORY, Status, close};
use uac_fullspeed::laws::full_speed_scripts_keep_promises;
use uac_fullspeed::{FsBench, FsScript, fs_nominal};
use uac_implicit::laws::pair_scripts_keep_promises;
use uac_implicit::{Pair, PairScript};
use uac_runner::run_script;
use uac_script::LineRoom;
use uac_words::Command;

/// Runs a script on a full-speed stream of this rate in Hz. It takes its memory before the first line.
#[inline(never)]
pub(crate) fn run_full<S: Source, K: Sink>(
    alloc: Global,
    rate: u32,
    source: &mut S,
    sink: &mut K,
) -> Status
    requires { is_fs_listed rate ≡ true }
    ensures { (shown : List Reading) → Performs (Command.Full rate)
        (surroundings (outside (S.left source.old) (S.faults source.old) (K.written sink.old) (K.faults sink.old)) shown)
        (surroundings (outside (S.left source.new) (S.faults source.new) (K.written sink.new) (K.faults sink.new)) shown) result }
{
    full_speed_scripts_keep_promises();
    let Some(values) = fs_nominal(rate) else {
        unreachable!()
    };
    match FsBench::new(alloc, values) {
        Ok(mut bench) => {
            let mut room = LineRoom::new();
            let mut run = FsScript {
                bench: &mut bench,
                room: &mut room,
            };
            run_script(&mut run, &mut uac_fullspeed::NothingBeside {}, source, sink)
        }
        Err(NoMemory) => close(sink, NO_MEMORY, Status::NoMemory),
    }
}

/// Runs a script on a pair of streams of this rate in Hz. It takes its memory before the first line.
#[inline(never)]
pub(crate) fn run_pair<S: Source, K: Sink>(
    alloc: Global,
    rate: u32,
    source: &mut S,
    sink: &mut K,
) -> Status
    requires { is_listed rate ≡ true }
    ensures { (shown : List Reading) → Performs (Command.Pair rate)
        (surroundings (outside (S.left source.old) (S.faults source.old) (K.written sink.old) (K.faults sink.old)) shown)
        (surroundings (outside (S.left source.new) (S.faults source.new) (K.written sink.new) (K.faults sink.new)) shown) result }
{
    pair_scripts_keep_promises();
    let Some(values) = nominal(rate) else {
        unreachable!()
    };
    match Pair::new(alloc, values) {
        Ok(mut pair) => {
            let mut room = LineRoom::new();
            let mut run = PairScript {
                pair: &mut pair,
                room: &mut room,
            };
            run_script(&mut run, &mut uac_implicit::NothingBeside {}, source, sink)
        }
        Err(NoMemory) => close(sink, NO_MEMORY, Status::NoMemory),
    }
}
