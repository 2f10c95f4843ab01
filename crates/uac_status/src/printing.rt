// The lines of knobs and of messages.
ghost use Rattle.std.specs.Prelude.{◌≡◌};
ghost use Rattle.uac_edges.specs.Faults.{HasCause};
ghost use Rattle.uac_edges.specs.Writing.{Writes};
ghost use Rattle.uac_status.specs.PanelCalls.{outcome_of};
ghost use Rattle.uac_status.specs.PanelLines.{knob_text, panel_spelling, says_knob, says_message, says_none};

use crate::panel::Turned;
use uac_edges::{Failed, Sink, TextLine, give_all};

/// Prints what came of a knob.
#[tactic(auto, unfolding(crate::specs::PanelLines::panel_spelling))]
pub(crate) fn write_turned<K: Sink>(sink: &mut K, turned: Turned) -> Result<(), Failed>
    ensures written { Writes (K.written sink.old) (K.written sink.new) result (panel_spelling (says_knob (outcome_of turned))) }
    ensures cause { HasCause (K.faults sink.old) (K.faults sink.new) result }
{
    match turned {
        Turned::Stall(rule) => give_all(sink, stall_text(rule).as_bytes()),
        Turned::Same => give_all(sink, b"w same\n"),
        Turned::Done => give_all(sink, b"w done\n"),
    }
}

fn stall_text(rule: u8) -> TextLine<64>
    ensures { result ≡ knob_text (outcome_of (Turned.Stall rule)) }
{
    let mut text = TextLine::new();
    text.push(b"w stall Q");
    text.push_number(u64::from(rule));
    text.push_byte(b'\n');
    text
}

/// Prints a message that is followed.
pub(crate) fn write_message<K: Sink>(sink: &mut K, message: [u8; 6]) -> Result<(), Failed>
    ensures written { Writes (K.written sink.old) (K.written sink.new) result (panel_spelling (says_message message)) }
    ensures cause { HasCause (K.faults sink.old) (K.faults sink.new) result }
{
    give_all(sink, message_text(message).as_bytes())
}

#[tactic(auto, unfolding(crate::specs::PanelLines::panel_spelling))]
fn message_text(message: [u8; 6]) -> TextLine<64>
    ensures { result ≡ panel_spelling (says_message message) }
{
    let mut text = TextLine::new();
    text.push(b"n ");
    text.push_hex(&message);
    text.push_byte(b'\n');
    text
}

/// Prints that no message waits.
#[tactic(auto, unfolding(crate::specs::PanelLines::panel_spelling))]
pub(crate) fn write_no_message<K: Sink>(sink: &mut K) -> Result<(), Failed>
    ensures written { Writes (K.written sink.old) (K.written sink.new) result (panel_spelling says_none) }
    ensures cause { HasCause (K.faults sink.old) (K.faults sink.new) result }
{
    give_all(sink, b"n -\n")
}
