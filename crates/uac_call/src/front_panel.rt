// Scripts that are run on a front panel.
ghost use Rattle.std.specs.Prelude.{List};
ghost use Rattle.uac_units.specs.Hearing.{Reading};
ghost use Rattle.uac_ends.specs.Outside.{outside};
ghost use Rattle.uac_scripts.specs.Surroundings.{surroundings};
ghost use Rattle.uac_call.specs.Performing.{Performs};

use std::alloc::Global;
use uac_edges::{Sink, Source};
use uac_ends::Status;
use uac_runner::run_script;
use uac_status::laws::{each_text_says_one_thing, panel_scripts_keep_promises};
use uac_status::{Desk, NothingBeside};
use uac_words::Command;

/// Runs a script on a desk: a device with a front panel, and its host.
#[inline(never)]
pub(crate) fn run_panel<S: Source, K: Sink>(alloc: Global, source: &mut S, sink: &mut K) -> Status
    ensures { (shown : List Reading) → Performs Command.Panel
        (surroundings (outside (S.left source.old) (S.faults source.old) (K.written sink.old) (K.faults sink.old)) shown)
        (surroundings (outside (S.left source.new) (S.faults source.new) (K.written sink.new) (K.faults sink.new)) shown) result }
{
    each_text_says_one_thing();
    panel_scripts_keep_promises();
    let mut desk = Desk::new(alloc);
    let status = run_script(&mut desk, &mut NothingBeside {}, source, sink);
    desk.let_go();
    status
}
