// The last lines of runs, each from a buffer of fixed size.
ghost use Rattle.std.specs.Prelude.{◌≡◌, ◌≤◌, length};
ghost use Rattle.uac_transcript.specs.Transcript.{offender_text, says_misread, says_refused, says_unsound, spelling_of};

use uac_edges::TextLine;
use uac_grammar_rules::GrammarFault;
use uac_topology_rules::TopologyFault;

pub const NO_MEMORY: &[u8] = b"no memory\n";

pub const READ_FAULT: &[u8] = b"read fault\n";

pub const TOO_LONG: &[u8] = b"input too long\n";

/// The line for a script whose line of this number breaks a rule.
#[tactic(auto, unfolding(uac_transcript::specs::Transcript::spelling_of))]
pub fn misread_line(rule: u8, number: u64) -> TextLine<64>
    ensures { result ≡ spelling_of (says_misread rule number) }
{
    let mut line = TextLine::new();
    line.push(b"script S");
    line.push_number(u64::from(rule));
    line.push(b" line ");
    line.push_number(number);
    line.push(b"\n");
    line
}

/// The line for a descriptor that breaks a rule of the grammar.
#[tactic(auto, unfolding(uac_transcript::specs::Transcript::spelling_of))]
pub fn refusal_line(fault: &GrammarFault) -> TextLine<64>
    ensures { result ≡ spelling_of (says_refused fault.now.rule fault.now.at) }
{
    let mut line = TextLine::new();
    line.push(b"descriptor G");
    line.push_number(u64::from(fault.rule));
    line.push(b" at ");
    line.push_number(u64::from(fault.at));
    line.push(b"\n");
    line
}

/// The line for a function that breaks a rule of the topology.
#[tactic(auto, unfolding(uac_transcript::specs::Transcript::spelling_of))]
pub fn unsound_line(fault: &TopologyFault) -> TextLine<96>
    ensures { result ≡ spelling_of (says_unsound fault.now.rule fault.now.interface fault.now.id) }
{
    let mut line = TextLine::new();
    line.push(b"descriptor U");
    line.push_number(u64::from(fault.rule));
    line.push(offender_text(fault.interface));
    line.push_number(u64::from(fault.id));
    line.push(b"\n");
    line
}

/// What an offender is.
fn offender_text(interface: bool) -> &'static [u8]
    ensures text { result.now ≡ offender_text interface }
    ensures short { length result.now ≤ 11 }
{
    if interface {
        b" interface "
    } else {
        b" entity "
    }
}
