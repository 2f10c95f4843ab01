// Laws of `run`, each the contract of a function that does nothing.
ghost use Rattle.uac_scripts.specs.BusLaws.{LinesAreSayings, ScriptIsWhatItsLinesSay, RefusalStays, HasOneTranscript};

/// Lines come to what they say does.
#[tactic(auto, using(crate::proofs::BusLemmas::lines_are_sayings))]
pub fn lines_are_sayings()
    ensures { LinesAreSayings }
{}

/// What a script comes to, by what its lines say by the table of their spellings alone: what the lines print one after the other, up to
/// the first refusal, which names its line; and where none is refused, then what the rest comes to in the world that they leave.
#[tactic(auto, using(crate::proofs::BusLemmas::script_said))]
pub fn script_is_what_its_lines_say()
    ensures { ScriptIsWhatItsLinesSay }
{}

/// A refusal that stands in the bytes of a script is that of every longer script that begins with them: lines, status and meters are
/// the same. (Where nothing is refused yet, the bytes alone come to no last line.)
#[tactic(auto, using(crate::proofs::BusLemmas::refusal_stays))]
pub fn refusal_stays()
    ensures { RefusalStays }
{}

/// The table of spellings gives a script one transcript.
#[tactic(auto, using(crate::proofs::BusLemmas::one_transcript))]
pub fn a_script_has_one_transcript()
    ensures { HasOneTranscript }
{}
