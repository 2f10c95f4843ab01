// A full-speed bench as a machine that does a script's lines.
ghost use Rattle.std.specs.Prelude.{◌≡◌, ◌≤◌, ℕ, ⊤, List, length, IfOk};
ghost use Rattle.uac_script.specs.Lent.{lent_phrase_result, IsLentInRange};
ghost use Rattle.uac_script.specs.LineParsing.{answer};
ghost use Rattle.uac_runner.specs.LineOutcomes.{DoesLine};
ghost use Rattle.uac_fullspeed.specs.FullSpeedWorld.{FullSpeedWorld};
ghost use Rattle.uac_fullspeed.specs.FullSpeedKept.{FsBenchStands};
ghost use Rattle.uac_fullspeed.specs.FullSpeedMachine.{fs_machine, line_fault};

use crate::bench::FsBench;
use crate::fault::BenchFault;
use uac_edges::Sink;
use uac_ends::LineFault;
use uac_runner::LineMachine;
use uac_script::{LentLine, LineRoom};

/// A bench under the lines of a script, with room for their long parts.
#[derive(Drop)]
pub struct FsScript<'a> {
    pub bench: &'a mut FsBench,
    pub room: &'a mut LineRoom,
}

/// What stands beside a bench: nothing.
#[derive(Clone, Copy, Debug)]
pub struct NothingBeside {}

/// A fault of the bench as that of a line.
fn line_fault(fault: BenchFault) -> LineFault
    ensures { result ≡ line_fault fault }
{
    match fault {
        BenchFault::Script(rule) => LineFault::Script(rule),
        BenchFault::WriteFault => LineFault::WriteFault,
    }
}

/// Does a line that was read, or answers the rule that its spelling breaks.
fn do_said<K: Sink>(
    bench: &mut FsBench,
    said: Result<LentLine<'_>, u8>,
    sink: &mut K,
) -> Result<(), LineFault>
    requires keeps { IfOk said IsLentInRange }
    ensures does { (text : List ℕ) (w : FullSpeedWorld) → lent_phrase_result said.entry ≡ answer text → FsBenchStands bench.old w
        → DoesLine (fs_machine answer) text w (FsBenchStands bench.new) ⊤
        (K.written sink.old) (K.written sink.new) (K.faults sink.old) (K.faults sink.new) result }
    ensures never_falls { K.faults sink.old ≤ K.faults sink.new }
{
    match said {
        Ok(line) => match bench.lent_line(line, sink) {
            Ok(()) => Ok(()),
            Err(fault) => Err(line_fault(fault)),
        },
        Err(rule) => Err(LineFault::Script(rule)),
    }
}

/// Does the line that a text spells. `room` is for its long parts.
fn do_line<K: Sink>(
    bench: &mut FsBench,
    text: &[u8],
    room: &mut LineRoom,
    sink: &mut K,
) -> Result<(), LineFault>
    requires short { length text.now ≤ 4096 }
    ensures does { (w : FullSpeedWorld) → FsBenchStands bench.old w
        → DoesLine (fs_machine answer) text.now w (FsBenchStands bench.new) ⊤
        (K.written sink.old) (K.written sink.new) (K.faults sink.old) (K.faults sink.new) result }
    ensures never_falls { K.faults sink.old ≤ K.faults sink.new }
{
    do_said(bench, LentLine::read(text, room), sink)
}

impl<'a> LineMachine for FsScript<'a> {
    ghost use Rattle.std.specs.Prelude.{⊤};
    ghost use Rattle.uac_script.specs.LineParsing.{answer};
    ghost use Rattle.uac_fullspeed.specs.FullSpeedWorld.{FullSpeedWorld};
    ghost use Rattle.uac_fullspeed.specs.FullSpeedLines.{FsLine};
    ghost use Rattle.uac_fullspeed.specs.FullSpeedKept.{FsBenchStands};
    ghost use Rattle.uac_fullspeed.specs.FullSpeedMachine.{fs_machine};
    ghost use Rattle.uac_fullspeed.specs.FullSpeedMachineLaws.{fs_free, fs_idle};

    type Beside = NothingBeside;

    ghost World = { FullSpeedWorld };

    ghost Printed = { FsLine };

    ghost machine = { fs_machine answer };

    ghost stands = { λ s beside w. FsBenchStands s.bench.now w };

    ghost shows = { λ beside w. ⊤ };

    ghost fits = { λ s. ⊤ };

    ghost counted = { λ s. 0 };

    fn line<K: Sink>(
        &mut self,
        text: &[u8],
        _beside: &mut NothingBeside,
        sink: &mut K,
    ) -> Result<(), LineFault> {
        do_line(self.bench, text, self.room, sink)
    }

    fn finish(&self, _beside: &NothingBeside) -> Result<(), LineFault> {
        match self.bench.finish() {
            Ok(()) => Ok(()),
            Err(fault) => Err(line_fault(fault)),
        }
    }

    ghost shown = { λ s beside w h. tt };

    ghost free = { fs_free };

    ghost idle = { fs_idle };
}
