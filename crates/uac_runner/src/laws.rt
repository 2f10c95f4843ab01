// Laws of runs, each the contract of a function that does nothing.
ghost use Rattle.std.specs.Prelude.{◌≡◌, ◌≢◌, ℕ, ◌+◌, ◌-◌, ◌≤◌, List, ◌++◌, length};
ghost use Rattle.std.specs.List.{AllByRecursion};
ghost use Rattle.uac_edges.specs.TextLines.{with_newlines};
ghost use Rattle.uac_lines.specs.ScriptLines.{most_of_input};
ghost use Rattle.uac_ends.specs.declared.status.Status.{Status};
ghost use Rattle.uac_ends.specs.Outcome.{End, stopped, told};
ghost use Rattle.uac_runner.specs.Machine.{after};
ghost use Rattle.uac_runner.specs.Done.{IsScriptLine, come_to};
ghost use Rattle.uac_runner.specs.Transcript.{goes, transcript};

use crate::machine::LineMachine;

/// A refusal that stands in the bytes of a script is that of every longer script that begins with them.
#[tactic(auto, using(crate::proofs::WholeLemmas::transcript_stays))]
pub fn refusal_stays<M: LineMachine>()
    ensures { (w : M.World) (taken more : List ℕ) (end : End) → (told (transcript M.machine w taken stopped).last).status ≢ Status.WriteFault
        → transcript M.machine w (taken ++ more) end ≡ transcript M.machine w taken stopped }
{}

/// The transcript of bytes that are lines and a rest: what the lines print one after the other, up to the first refusal, which names its
/// line; and where none is refused, then what the rest comes to in the world that they leave.
#[tactic(auto, using(crate::proofs::ScriptLemmas::script_lines))]
pub fn script_is_its_lines<M: LineMachine>()
    ensures { (w : M.World) (texts : List (List ℕ)) (rest : List ℕ) (end : End) → AllByRecursion IsScriptLine texts
        → length (with_newlines texts) ≤ most_of_input
        → transcript M.machine w (with_newlines texts ++ rest) end
        ≡ come_to (after M.machine.step texts w) 1
        (λ v. goes M.machine (most_of_input - length (with_newlines texts)) rest end (length texts + 1) v) }
{}
