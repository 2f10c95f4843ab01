// The desk as a machine that does the lines of a script.
ghost use Rattle.std.specs.Prelude.{◌≡◌, ◌≤◌, ⊤, length};
ghost use Rattle.uac_runner.specs.LineOutcomes.{DoesLine};
ghost use Rattle.uac_status.specs.Desks.{DeskWorld, desk_machine};
ghost use Rattle.uac_status.specs.DeskKept.{DeskStands};

use crate::desk::Desk;
use uac_edges::Sink;
use uac_ends::LineFault;
use uac_runner::LineMachine;

/// What stands beside a desk: nothing.
#[derive(Clone, Copy, Debug)]
pub struct NothingBeside {}

/// Does the line that a text spells.
fn do_line<K: Sink>(desk: &mut Desk, text: &[u8], sink: &mut K) -> Result<(), LineFault>
    requires short { length text.now ≤ 4096 }
    ensures does { (w : DeskWorld) → DeskStands desk.old w
        → DoesLine desk_machine text.now w (DeskStands desk.new) ⊤
        (K.written sink.old) (K.written sink.new) (K.faults sink.old) (K.faults sink.new) result }
    ensures never_falls { K.faults sink.old ≤ K.faults sink.new }
{
    Desk::line(desk, text, sink)
}

impl LineMachine for Desk {
    ghost use Rattle.std.specs.Prelude.{⊤};
    ghost use Rattle.uac_status.specs.PanelLines.{PanelLine};
    ghost use Rattle.uac_status.specs.Desks.{DeskWorld, desk_machine};
    ghost use Rattle.uac_status.specs.DeskKept.{DeskStands};
    ghost use Rattle.uac_status.specs.DeskMachine.{desk_free, desk_idle};

    type Beside = NothingBeside;

    ghost World = { DeskWorld };

    ghost Printed = { PanelLine };

    ghost machine = { desk_machine };

    ghost stands = { λ desk beside w. DeskStands desk w };

    ghost shows = { λ beside w. ⊤ };

    ghost fits = { λ desk. ⊤ };

    ghost counted = { λ desk. 0 };

    fn line<K: Sink>(
        &mut self,
        text: &[u8],
        _beside: &mut NothingBeside,
        sink: &mut K,
    ) -> Result<(), LineFault> {
        do_line(self, text, sink)
    }

    fn finish(&self, _beside: &NothingBeside) -> Result<(), LineFault> {
        Desk::finish(self)
    }

    ghost shown = { λ desk beside w h. tt };

    ghost free = { desk_free };

    ghost idle = { desk_idle };
}
