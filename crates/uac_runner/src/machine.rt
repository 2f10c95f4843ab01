// What does the lines of a script.
ghost use Rattle.std.specs.Prelude.{◌≡◌, ◌≢◌, ℕ, ◌+◌, ◌<◌, ◌≤◌, true, List, [], length, Result};
ghost use Rattle.uac_lines.specs.ScriptLines.{most_of_input, most_of_line};
ghost use Rattle.uac_lines.specs.Words.{is_idle};
ghost use Rattle.uac_runner.specs.Machine.{Machine, IsFree, done, ended_by};
ghost use Rattle.uac_runner.specs.LineOutcomes.{DoesLine};

use uac_edges::Sink;
use uac_ends::LineFault;

/// Does the lines of a script, each as a text.
pub trait LineMachine {
    /// What a line may change beside the machine and the sink.
    type Beside;

    // The worlds that the machine may stand for.
    ghost World: { Type 0 };

    // The lines that it prints.
    ghost Printed: { Type 0 };

    // What a text makes of a world, what the script's end is answered, and where memory may be wanted.
    ghost machine: { Machine Self.World Self.Printed };

    // The machine, with what stands beside it, stands for this world.
    ghost stands: { Self → Self.Beside → Self.World → Type 0 };

    // What stands beside it shows this world.
    ghost shows: { Self.Beside → Self.World → Type 0 };

    // The machine may be given lines.
    ghost fits: { Self → Type 0 };

    // How many lines it counts.
    ghost counted: { Self → ℕ };

    /// Does the line that a text spells, and prints what it says.
    fn line<K: Sink>(
        &mut self,
        text: &[u8],
        beside: &mut Self::Beside,
        sink: &mut K,
    ) -> Result<(), LineFault>
        requires short { length text.now ≤ most_of_line }
        requires fits { fits self.old }
        requires few { counted self.old < most_of_input }
        ensures does { (w : Self.World) → stands self.old beside.old w
            → DoesLine Self.machine text.now w (stands self.new beside.new) (shows beside.new w)
            (K.written sink.old) (K.written sink.new) (K.faults sink.old) (K.faults sink.new) result }
        ensures never_falls { K.faults sink.old ≤ K.faults sink.new }
        ensures counts { counted self.new ≤ counted self.old + 1 }
        ensures still_fits { fits self.new };

    /// The script's end.
    fn finish(&self, beside: &Self::Beside) -> Result<(), LineFault>
        ensures { (w : Self.World) → stands self.now beside.now w → result ≡ ended_by (Self.machine.finish w) };

    // A machine that stands for a world shows it.
    ghost shown: { (machine : Self) (beside : Self.Beside) (w : Self.World) → stands machine beside w → shows beside w };

    // No step is refused for want of memory.
    ghost free: { IsFree Self.machine };

    // An empty line and a comment do nothing.
    ghost idle: { (text : List ℕ) (w : Self.World) → is_idle text ≡ true → Self.machine.step text w ≡ done w [] };
}
