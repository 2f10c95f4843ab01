// Laws of `run` and `gen`, each the contract of a function that does nothing.
ghost use Rattle.uac_call.specs.GeneratedCall.{GeneratedScriptsRunWhole};

pub use uac_scripts::laws::{
    a_script_has_one_transcript, lines_are_sayings, refusal_stays, script_is_what_its_lines_say,
};

/// `gen` has no refused line, and is steady: for every number its script prints the lines of all its lines, with status Ok, and every one
/// of them is as promised of steady scripts.
pub fn generated_scripts_run_whole()
    ensures { GeneratedScriptsRunWhole }
{}
