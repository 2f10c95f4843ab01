// The lines of packets, levels and feedback.
ghost use Rattle.std.specs.Prelude.{◌≡◌, ◌+◌, ◌≤◌, [], ◌++◌, length};
ghost use Rattle.uac_edges.specs.Faults.{HasCause};
ghost use Rattle.uac_edges.specs.Writing.{Writes};
ghost use Rattle.uac_transcript.specs.Transcript.{arrival_name, says_feedback, says_in, says_level, says_out, says_over, says_under};
ghost use Rattle.uac_transcript.specs.Transcript.{spelling_of};

use crate::pieces::{push_lost_or_ok, push_number_or_dash};
use uac_edges::{Failed, Sink, TextLine, give_all};
use uac_ring::Arrival;

// Appends how a packet to the device arrived.
fn push_arrival<const N: usize>(text: &mut TextLine<N>, arrival: Arrival)
    requires { length text.old + 4 ≤ N }
    ensures text { text.new ≡ text.old ++ arrival_name arrival }
    ensures len { length text.new ≤ length text.old + 4 }
{
    match arrival {
        Arrival::Taken => text.push(b"ok"),
        Arrival::Lost => text.push(b"lost"),
        Arrival::Over => text.push(b"over"),
    }
}

/// Prints the packet to the device of an interface: its frames and how it arrived.
pub fn write_out<K: Sink>(
    sink: &mut K,
    interface: u8,
    frames: u32,
    arrival: Arrival,
) -> Result<(), Failed>
    ensures written { Writes (K.written sink.old) (K.written sink.new) result (spelling_of (says_out interface frames arrival)) }
    ensures cause { HasCause (K.faults sink.old) (K.faults sink.new) result }
{
    let mut text: TextLine<64> = TextLine::new();
    push_out(&mut text, interface, frames, arrival);
    give_all(sink, text.as_bytes())
}

#[tactic(auto, unfolding(crate::specs::Transcript::spelling_of))]
fn push_out(text: &mut TextLine<64>, interface: u8, frames: u32, arrival: Arrival)
    requires { text.old ≡ [] }
    ensures { text.new ≡ spelling_of (says_out interface frames arrival) }
{
    text.push(b"o ");
    text.push_number(u64::from(interface));
    text.push_byte(b' ');
    text.push_number(u64::from(frames));
    text.push_byte(b' ');
    push_arrival(text, arrival);
    text.push_byte(b'\n');
}

/// Prints the packet from the device of an interface: its frames and whether it was lost.
pub fn write_in<K: Sink>(sink: &mut K, interface: u8, frames: u32, lost: bool) -> Result<(), Failed>
    ensures written { Writes (K.written sink.old) (K.written sink.new) result (spelling_of (says_in interface frames lost)) }
    ensures cause { HasCause (K.faults sink.old) (K.faults sink.new) result }
{
    let mut text: TextLine<64> = TextLine::new();
    push_in(&mut text, interface, frames, lost);
    give_all(sink, text.as_bytes())
}

#[tactic(auto, unfolding(crate::specs::Transcript::spelling_of))]
fn push_in(text: &mut TextLine<64>, interface: u8, frames: u32, lost: bool)
    requires { text.old ≡ [] }
    ensures { text.new ≡ spelling_of (says_in interface frames lost) }
{
    text.push(b"i ");
    text.push_number(u64::from(interface));
    text.push_byte(b' ');
    text.push_number(u64::from(frames));
    text.push_byte(b' ');
    push_lost_or_ok(text, lost);
    text.push_byte(b'\n');
}

/// Prints that the ring of an interface was found empty.
pub fn write_under<K: Sink>(sink: &mut K, interface: u8) -> Result<(), Failed>
    ensures written { Writes (K.written sink.old) (K.written sink.new) result (spelling_of (says_under interface)) }
    ensures cause { HasCause (K.faults sink.old) (K.faults sink.new) result }
{
    let mut text: TextLine<32> = TextLine::new();
    push_under(&mut text, interface);
    give_all(sink, text.as_bytes())
}

#[tactic(auto, unfolding(crate::specs::Transcript::spelling_of))]
fn push_under(text: &mut TextLine<32>, interface: u8)
    requires { text.old ≡ [] }
    ensures { text.new ≡ spelling_of (says_under interface) }
{
    text.push(b"under ");
    text.push_number(u64::from(interface));
    text.push_byte(b'\n');
}

/// Prints that the ring of an interface had no room.
pub fn write_over<K: Sink>(sink: &mut K, interface: u8) -> Result<(), Failed>
    ensures written { Writes (K.written sink.old) (K.written sink.new) result (spelling_of (says_over interface)) }
    ensures cause { HasCause (K.faults sink.old) (K.faults sink.new) result }
{
    let mut text: TextLine<32> = TextLine::new();
    push_over(&mut text, interface);
    give_all(sink, text.as_bytes())
}

#[tactic(auto, unfolding(crate::specs::Transcript::spelling_of))]
fn push_over(text: &mut TextLine<32>, interface: u8)
    requires { text.old ≡ [] }
    ensures { text.new ≡ spelling_of (says_over interface) }
{
    text.push(b"over ");
    text.push_number(u64::from(interface));
    text.push_byte(b'\n');
}

/// Prints the level of a stream to the device in frames, and its target once it is primed.
pub fn write_level<K: Sink>(
    sink: &mut K,
    interface: u8,
    level: u32,
    target: Option<u32>,
) -> Result<(), Failed>
    ensures written { Writes (K.written sink.old) (K.written sink.new) result (spelling_of (says_level interface level target)) }
    ensures cause { HasCause (K.faults sink.old) (K.faults sink.new) result }
{
    let mut text: TextLine<80> = TextLine::new();
    push_level(&mut text, interface, level, target);
    give_all(sink, text.as_bytes())
}

#[tactic(auto, unfolding(crate::specs::Transcript::spelling_of))]
fn push_level(text: &mut TextLine<80>, interface: u8, level: u32, target: Option<u32>)
    requires { text.old ≡ [] }
    ensures { text.new ≡ spelling_of (says_level interface level target) }
{
    text.push(b"l ");
    text.push_number(u64::from(interface));
    text.push_byte(b' ');
    text.push_number(u64::from(level));
    text.push_byte(b' ');
    push_number_or_dash(text, target);
    text.push_byte(b'\n');
}

/// Prints the value that a stream's feedback reports, in 65,536ths of a frame in a microframe, and whether the report was lost.
pub fn write_feedback<K: Sink>(
    sink: &mut K,
    interface: u8,
    value: u32,
    lost: bool,
) -> Result<(), Failed>
    ensures written { Writes (K.written sink.old) (K.written sink.new) result (spelling_of (says_feedback interface value lost)) }
    ensures cause { HasCause (K.faults sink.old) (K.faults sink.new) result }
{
    let mut text: TextLine<64> = TextLine::new();
    push_feedback(&mut text, interface, value, lost);
    give_all(sink, text.as_bytes())
}

#[tactic(auto, unfolding(crate::specs::Transcript::spelling_of))]
fn push_feedback(text: &mut TextLine<64>, interface: u8, value: u32, lost: bool)
    requires { text.old ≡ [] }
    ensures { text.new ≡ spelling_of (says_feedback interface value lost) }
{
    text.push(b"f ");
    text.push_number(u64::from(interface));
    text.push_byte(b' ');
    text.push_hex(&value.to_be_bytes());
    text.push_byte(b' ');
    push_lost_or_ok(text, lost);
    text.push_byte(b'\n');
}
