// A pair as a machine that does a script's lines.
ghost use Rattle.std.specs.Prelude.{◌≡◌, ◌≤◌, ℕ, ⊤, List, length, IfOk};
ghost use Rattle.uac_script.specs.Lent.{lent_phrase_result, IsLentInRange};
ghost use Rattle.uac_script.specs.LineParsing.{answer};
ghost use Rattle.uac_runner.specs.LineOutcomes.{DoesLine};
ghost use Rattle.uac_implicit.specs.Following.{PairWorld};
ghost use Rattle.uac_implicit.specs.PairKept.{PairStands};
ghost use Rattle.uac_implicit.specs.PairMachine.{pair_machine, line_fault};

use crate::fault::PairFault;
use crate::pair::Pair;
use uac_edges::Sink;
use uac_ends::LineFault;
use uac_runner::LineMachine;
use uac_script::{LentLine, LineRoom};

/// A pair under the lines of a script, with room for their long parts.
#[derive(Drop)]
pub struct PairScript<'a> {
    pub pair: &'a mut Pair,
    pub room: &'a mut LineRoom,
}

/// What stands beside a pair: nothing.
#[derive(Clone, Copy, Debug)]
pub struct NothingBeside {}

/// A fault of the pair as that of a line.
fn line_fault(fault: PairFault) -> LineFault
    ensures { result ≡ line_fault fault }
{
    match fault {
        PairFault::Script(rule) => LineFault::Script(rule),
        PairFault::WriteFault => LineFault::WriteFault,
    }
}

/// Does a line that was read, or answers the rule that its spelling breaks.
fn do_said<K: Sink>(
    pair: &mut Pair,
    said: Result<LentLine<'_>, u8>,
    sink: &mut K,
) -> Result<(), LineFault>
    requires keeps { IfOk said IsLentInRange }
    ensures does { (text : List ℕ) (w : PairWorld) → lent_phrase_result said.entry ≡ answer text → PairStands pair.old w
        → DoesLine (pair_machine answer) text w (PairStands pair.new) ⊤
        (K.written sink.old) (K.written sink.new) (K.faults sink.old) (K.faults sink.new) result }
    ensures never_falls { K.faults sink.old ≤ K.faults sink.new }
{
    match said {
        Ok(line) => match pair.lent_line(line, sink) {
            Ok(()) => Ok(()),
            Err(fault) => Err(line_fault(fault)),
        },
        Err(rule) => Err(LineFault::Script(rule)),
    }
}

/// Does the line that a text spells. `room` is for its long parts.
fn do_line<K: Sink>(
    pair: &mut Pair,
    text: &[u8],
    room: &mut LineRoom,
    sink: &mut K,
) -> Result<(), LineFault>
    requires short { length text.now ≤ 4096 }
    ensures does { (w : PairWorld) → PairStands pair.old w
        → DoesLine (pair_machine answer) text.now w (PairStands pair.new) ⊤
        (K.written sink.old) (K.written sink.new) (K.faults sink.old) (K.faults sink.new) result }
    ensures never_falls { K.faults sink.old ≤ K.faults sink.new }
{
    do_said(pair, LentLine::read(text, room), sink)
}

impl<'a> LineMachine for PairScript<'a> {
    ghost use Rattle.std.specs.Prelude.{⊤};
    ghost use Rattle.uac_script.specs.LineParsing.{answer};
    ghost use Rattle.uac_implicit.specs.Following.{PairWorld};
    ghost use Rattle.uac_implicit.specs.PairLines.{PairSaid};
    ghost use Rattle.uac_implicit.specs.PairKept.{PairStands};
    ghost use Rattle.uac_implicit.specs.PairMachine.{pair_machine};
    ghost use Rattle.uac_implicit.specs.PairMachineLaws.{pair_free, pair_idle};

    type Beside = NothingBeside;

    ghost World = { PairWorld };

    ghost Printed = { PairSaid };

    ghost machine = { pair_machine answer };

    ghost stands = { λ s beside w. PairStands s.pair.now w };

    ghost shows = { λ beside w. ⊤ };

    ghost fits = { λ s. ⊤ };

    ghost counted = { λ s. 0 };

    fn line<K: Sink>(
        &mut self,
        text: &[u8],
        _beside: &mut NothingBeside,
        sink: &mut K,
    ) -> Result<(), LineFault> {
        do_line(self.pair, text, self.room, sink)
    }

    fn finish(&self, _beside: &NothingBeside) -> Result<(), LineFault> {
        Ok(())
    }

    ghost shown = { λ s beside w h. tt };

    ghost free = { pair_free };

    ghost idle = { pair_idle };
}
