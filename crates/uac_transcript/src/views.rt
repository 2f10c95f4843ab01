// The lines that name an element of the host's view.
ghost use Rattle.std.specs.Prelude.{◌≡◌, ◌≤◌, length};
ghost use Rattle.uac_edges.specs.Faults.{HasCause};
ghost use Rattle.uac_edges.specs.Writing.{Writes};
ghost use Rattle.uac_transcript.specs.Transcript.{element_has_value, is_unknown, says_view, spelling_of, was_broken, was_set};
ghost use Rattle.uac_transcript.specs.Transcript.{element_was_stalled};

use uac_edges::{Failed, Sink, TextLine, give_all};

/// Prints an element's name, of at most 64 bytes, and its value.
pub fn write_value<K: Sink>(sink: &mut K, name: &[u8], value: i32) -> Result<(), Failed>
    requires { length name.now ≤ 64 }
    ensures written { Writes (K.written sink.old) (K.written sink.new) result (spelling_of (says_view (element_has_value name.now value))) }
    ensures cause { HasCause (K.faults sink.old) (K.faults sink.new) result }
{
    give_all(sink, value_text(name, value).as_bytes())
}

#[tactic(auto, unfolding(crate::specs::Transcript::spelling_of))]
fn value_text(name: &[u8], value: i32) -> TextLine<128>
    requires { length name.now ≤ 64 }
    ensures { result ≡ spelling_of (says_view (element_has_value name.now value)) }
{
    let mut text = TextLine::new();
    text.push(b"h ");
    text.push(name);
    text.push_byte(b' ');
    text.push_signed(value);
    text.push_byte(b'\n');
    text
}

/// Prints an element's name, of at most 64 bytes, where its value is unknown.
pub fn write_unknown<K: Sink>(sink: &mut K, name: &[u8]) -> Result<(), Failed>
    requires { length name.now ≤ 64 }
    ensures written { Writes (K.written sink.old) (K.written sink.new) result (spelling_of (says_view (is_unknown name.now))) }
    ensures cause { HasCause (K.faults sink.old) (K.faults sink.new) result }
{
    give_all(sink, unknown_text(name).as_bytes())
}

#[tactic(auto, unfolding(crate::specs::Transcript::spelling_of))]
fn unknown_text(name: &[u8]) -> TextLine<128>
    requires { length name.now ≤ 64 }
    ensures { result ≡ spelling_of (says_view (is_unknown name.now)) }
{
    let mut text = TextLine::new();
    text.push(b"h ");
    text.push(name);
    text.push(b" unknown\n");
    text
}

/// Prints that an element was set.
#[tactic(auto, unfolding(crate::specs::Transcript::spelling_of))]
pub fn write_set<K: Sink>(sink: &mut K) -> Result<(), Failed>
    ensures written { Writes (K.written sink.old) (K.written sink.new) result (spelling_of (says_view was_set)) }
    ensures cause { HasCause (K.faults sink.old) (K.faults sink.new) result }
{
    give_all(sink, b"h done\n")
}

/// Prints the rule by which the transfer of an element was stalled.
pub fn write_set_stalled<K: Sink>(sink: &mut K, rule: u8) -> Result<(), Failed>
    ensures written { Writes (K.written sink.old) (K.written sink.new) result (spelling_of (says_view (element_was_stalled rule))) }
    ensures cause { HasCause (K.faults sink.old) (K.faults sink.new) result }
{
    give_all(sink, set_stalled_text(rule).as_bytes())
}

#[tactic(auto, unfolding(crate::specs::Transcript::spelling_of))]
fn set_stalled_text(rule: u8) -> TextLine<64>
    ensures { result ≡ spelling_of (says_view (element_was_stalled rule)) }
{
    let mut text = TextLine::new();
    text.push(b"h stall Q");
    text.push_number(u64::from(rule));
    text.push_byte(b'\n');
    text
}

/// Prints that the transfer of an element broke.
#[tactic(auto, unfolding(crate::specs::Transcript::spelling_of))]
pub fn write_view_broken<K: Sink>(sink: &mut K) -> Result<(), Failed>
    ensures written { Writes (K.written sink.old) (K.written sink.new) result (spelling_of (says_view was_broken)) }
    ensures cause { HasCause (K.faults sink.old) (K.faults sink.new) result }
{
    give_all(sink, b"h broken\n")
}
