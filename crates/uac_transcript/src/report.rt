// The lines of the report.
ghost use Rattle.std.specs.Prelude.{◌≡◌, ◌≤◌, length};
ghost use Rattle.uac_edges.specs.Faults.{HasCause};
ghost use Rattle.uac_edges.specs.Writing.{Writes};
ghost use Rattle.uac_transcript.specs.Transcript.{meter_name, says_domain, says_in_stream, says_meter, says_out_stream, says_time};
ghost use Rattle.uac_transcript.specs.Transcript.{says_renders, says_steady, spelling_of};

use crate::pieces::{push_number_or_dash, push_stream, yes_or_no};
use uac_edges::{Failed, Sink, TextLine, give_all};
use uac_ring::StreamCounts;
use uac_units::MeterKind;

/// Prints the microframes since the start.
pub fn write_time<K: Sink>(sink: &mut K, time: u64) -> Result<(), Failed>
    ensures written { Writes (K.written sink.old) (K.written sink.new) result (spelling_of (says_time time)) }
    ensures cause { HasCause (K.faults sink.old) (K.faults sink.new) result }
{
    give_all(sink, time_line(time).as_bytes())
}

#[tactic(auto, unfolding(crate::specs::Transcript::spelling_of))]
fn time_line(time: u64) -> TextLine<32>
    ensures { result ≡ spelling_of (says_time time) }
{
    let mut text = TextLine::new();
    text.push(b"time ");
    text.push_number(time);
    text.push_byte(b'\n');
    text
}

/// Prints whether all clocks and reports were steady since the start.
pub fn write_steady<K: Sink>(sink: &mut K, steady: bool) -> Result<(), Failed>
    ensures written { Writes (K.written sink.old) (K.written sink.new) result (spelling_of (says_steady steady)) }
    ensures cause { HasCause (K.faults sink.old) (K.faults sink.new) result }
{
    give_all(sink, steadiness(steady).as_bytes())
}

#[tactic(auto, unfolding(crate::specs::Transcript::spelling_of))]
fn steadiness(steady: bool) -> TextLine<32>
    ensures { result ≡ spelling_of (says_steady steady) }
{
    let mut text = TextLine::new();
    text.push(b"steady ");
    text.push(yes_or_no(steady));
    text.push_byte(b'\n');
    text
}

/// Prints a domain: its clock, its rate if it has one, and its ticks since the start.
pub fn write_domain<K: Sink>(
    sink: &mut K,
    domain: u8,
    rate: Option<u32>,
    ticks: u64,
) -> Result<(), Failed>
    ensures written { Writes (K.written sink.old) (K.written sink.new) result (spelling_of (says_domain domain rate ticks)) }
    ensures cause { HasCause (K.faults sink.old) (K.faults sink.new) result }
{
    give_all(sink, domain_text(domain, rate, ticks).as_bytes())
}

#[tactic(auto, unfolding(crate::specs::Transcript::spelling_of))]
fn domain_text(domain: u8, rate: Option<u32>, ticks: u64) -> TextLine<128>
    ensures { result ≡ spelling_of (says_domain domain rate ticks) }
{
    let mut text = TextLine::new();
    text.push(b"domain ");
    text.push_number(u64::from(domain));
    text.push(b" rate ");
    push_number_or_dash(&mut text, rate);
    text.push(b" ticks ");
    text.push_number(ticks);
    text.push_byte(b'\n');
    text
}

/// Prints a stream to the device: its interface, its setting, its level in frames, the level at which it was primed, and what it met.
pub fn write_out_stream<K: Sink>(
    sink: &mut K,
    interface: u8,
    setting: u8,
    level: u32,
    target: Option<u32>,
    met: StreamCounts,
) -> Result<(), Failed>
    ensures written { Writes (K.written sink.old) (K.written sink.new) result
        (spelling_of (says_out_stream interface setting level target met)) }
    ensures cause { HasCause (K.faults sink.old) (K.faults sink.new) result }
{
    give_all(
        sink,
        out_stream(interface, setting, level, target, met).as_bytes(),
    )
}

#[tactic(auto, unfolding(crate::specs::Transcript::spelling_of))]
fn out_stream(
    interface: u8,
    setting: u8,
    level: u32,
    target: Option<u32>,
    met: StreamCounts,
) -> TextLine<256>
    ensures { result ≡ spelling_of (says_out_stream interface setting level target met) }
{
    let mut text = TextLine::new();
    text.push(b"stream ");
    text.push_number(u64::from(interface));
    text.push(b" out setting ");
    text.push_number(u64::from(setting));
    push_stream(&mut text, level, target, met);
    text.push(b" missed ");
    text.push_number(met.missed);
    text.push_byte(b'\n');
    text
}

/// Prints a stream from the device: its interface, its setting, its level in frames, and of what it met the frames for which
/// there was no room, and the packets lost.
pub fn write_in_stream<K: Sink>(
    sink: &mut K,
    interface: u8,
    setting: u8,
    level: u32,
    met: StreamCounts,
) -> Result<(), Failed>
    ensures written { Writes (K.written sink.old) (K.written sink.new) result (spelling_of (says_in_stream interface setting level met.over met.lost)) }
    ensures cause { HasCause (K.faults sink.old) (K.faults sink.new) result }
{
    give_all(sink, in_stream(interface, setting, level, met).as_bytes())
}

#[tactic(auto, unfolding(crate::specs::Transcript::spelling_of))]
fn in_stream(interface: u8, setting: u8, level: u32, met: StreamCounts) -> TextLine<160>
    ensures { result ≡ spelling_of (says_in_stream interface setting level met.over met.lost) }
{
    let mut text = TextLine::new();
    text.push(b"stream ");
    text.push_number(u64::from(interface));
    text.push(b" in setting ");
    text.push_number(u64::from(setting));
    text.push(b" level ");
    text.push_number(u64::from(level));
    text.push(b" over ");
    text.push_number(met.over);
    text.push(b" lost ");
    text.push_number(met.lost);
    text.push_byte(b'\n');
    text
}

/// Prints what a meter shows.
pub fn write_meter<K: Sink>(sink: &mut K, kind: MeterKind, value: u64) -> Result<(), Failed>
    ensures written { Writes (K.written sink.old) (K.written sink.new) result
        (spelling_of (says_meter (record { kind = kind; value = value }))) }
    ensures cause { HasCause (K.faults sink.old) (K.faults sink.new) result }
{
    give_all(sink, meter(kind, value).as_bytes())
}

#[tactic(auto, unfolding(crate::specs::Transcript::spelling_of))]
fn meter(kind: MeterKind, value: u64) -> TextLine<64>
    ensures { result ≡ spelling_of (says_meter (record { kind = kind; value = value })) }
{
    let mut text = TextLine::new();
    text.push(b"meter ");
    text.push(meter_name(kind));
    text.push_byte(b' ');
    text.push_number(value);
    text.push_byte(b'\n');
    text
}

fn meter_name(kind: MeterKind) -> &'static [u8]
    ensures text { result.now ≡ meter_name kind }
    ensures short { length result.now ≤ 7 }
{
    match kind {
        MeterKind::Peak => b"peak",
        MeterKind::Clipped => b"clipped",
        MeterKind::Sum => b"sum",
    }
}

/// Prints how many units were rendered since the start.
pub fn write_renders<K: Sink>(sink: &mut K, count: u64) -> Result<(), Failed>
    ensures written { Writes (K.written sink.old) (K.written sink.new) result (spelling_of (says_renders count)) }
    ensures cause { HasCause (K.faults sink.old) (K.faults sink.new) result }
{
    give_all(sink, renders(count).as_bytes())
}

#[tactic(auto, unfolding(crate::specs::Transcript::spelling_of))]
fn renders(count: u64) -> TextLine<32>
    ensures { result ≡ spelling_of (says_renders count) }
{
    let mut text = TextLine::new();
    text.push(b"renders ");
    text.push_number(count);
    text.push_byte(b'\n');
    text
}
