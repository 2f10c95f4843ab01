// The lines of the descriptor's end and of a microframe's number.
ghost use Rattle.std.specs.Prelude.{◌≡◌, []};
ghost use Rattle.uac_edges.specs.Faults.{HasCause};
ghost use Rattle.uac_edges.specs.Writing.{Writes};
ghost use Rattle.uac_transcript.specs.Transcript.{says_ready, says_microframe, spelling_of};

use uac_edges::{Failed, Sink, TextLine, give_all};

/// Prints the line of the descriptor's end: how many entities, streaming interfaces and domains there are.
pub fn write_ready<K: Sink>(
    sink: &mut K,
    entities: usize,
    streams: usize,
    domains: usize,
) -> Result<(), Failed>
    ensures written { Writes (K.written sink.old) (K.written sink.new) result (spelling_of (says_ready entities streams domains)) }
    ensures cause { HasCause (K.faults sink.old) (K.faults sink.new) result }
{
    give_all(sink, ready(entities, streams, domains).as_bytes())
}

#[tactic(auto, unfolding(crate::specs::Transcript::spelling_of))]
fn ready(entities: usize, streams: usize, domains: usize) -> TextLine<128>
    ensures { result ≡ spelling_of (says_ready entities streams domains) }
{
    let mut text = TextLine::new();
    text.push(b"ready entities ");
    text.push_number(entities as u64);
    text.push(b" streams ");
    text.push_number(streams as u64);
    text.push(b" domains ");
    text.push_number(domains as u64);
    text.push_byte(b'\n');
    text
}

/// Prints the number of a microframe, from 1.
pub fn write_microframe<K: Sink>(sink: &mut K, number: u64) -> Result<(), Failed>
    ensures written { Writes (K.written sink.old) (K.written sink.new) result (spelling_of (says_microframe number)) }
    ensures cause { HasCause (K.faults sink.old) (K.faults sink.new) result }
{
    let mut text: TextLine<32> = TextLine::new();
    push_microframe(&mut text, number);
    give_all(sink, text.as_bytes())
}

#[tactic(auto, unfolding(crate::specs::Transcript::spelling_of))]
fn push_microframe(text: &mut TextLine<32>, number: u64)
    requires { text.old ≡ [] }
    ensures { text.new ≡ spelling_of (says_microframe number) }
{
    text.push(b"u ");
    text.push_number(number);
    text.push_byte(b'\n');
}
