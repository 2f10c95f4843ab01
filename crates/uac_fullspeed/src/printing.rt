// The lines that a full-speed bench alone prints: its reports to the host, and the report of the bench.
ghost use Rattle.std.specs.Prelude.{◌≡◌, ◌<◌, ◌^◌, ◌∷◌, [], nat_le, Some};
ghost use Rattle.uac_edges.specs.Faults.{HasCause};
ghost use Rattle.uac_transcript.specs.Transcript.{says_domain, says_steady};
ghost use Rattle.uac_bench.specs.BenchLines.{if_said};
ghost use Rattle.uac_fullspeed.specs.FullSpeedLines.{FsPrints, fs_spelling_of, says_as_run, says_fs_feedback, says_stream, shown_lines};

use uac_edges::{Failed, Sink, TextLine, give_all};
use uac_ring::StreamCounts;
use uac_transcript::{push_lost_or_ok, push_stream, write_domain, write_steady, write_time};

/// Prints a feedback report, from detail 2 on.
#[tactic(auto, using(crate::proofs::FsPrintingLemmas::fs_prints_line))]
pub(crate) fn write_feedback_at<K: Sink>(
    sink: &mut K,
    detail: u8,
    value: u32,
    lost: bool,
) -> Result<(), Failed>
    requires { value < 2 ^ 24 }
    ensures printed { FsPrints (K.written sink.old) (K.written sink.new) result (if_said (nat_le 2 detail) (says_fs_feedback value lost ∷ [])) }
    ensures cause { HasCause (K.faults sink.old) (K.faults sink.new) result }
{
    if detail < 2 {
        return Ok(());
    }
    let text = feedback_text(value, lost);
    give_all(sink, text.as_bytes())
}

#[tactic(auto, unfolding(crate::specs::FullSpeedLines::fs_spelling_of))]
fn feedback_text(value: u32, lost: bool) -> TextLine<32>
    requires { value < 2 ^ 24 }
    ensures { result ≡ fs_spelling_of (says_fs_feedback value lost) }
{
    let mut text = TextLine::new();
    text.push(b"f 1 ");
    text.push_hex(&value.to_be_bytes()[1..]);
    text.push_byte(b' ');
    push_lost_or_ok(&mut text, lost);
    text.push_byte(b'\n');
    text
}

/// What the report of a bench shows: the bus frames since the start, whether all was steady, the rate in Hz, the ticks, and of the stream
/// its level and target, and what it met.
#[derive(Clone, Copy, Debug, PartialEq, Eq)]
pub(crate) struct Shown {
    pub(crate) time: u64,
    pub(crate) steady: bool,
    pub(crate) rate: u32,
    pub(crate) ticks: u64,
    pub(crate) level: u32,
    pub(crate) target: Option<u32>,
    pub(crate) met: StreamCounts,
}

/// Prints the report of a bench.
pub(crate) fn write_shown<K: Sink>(sink: &mut K, shown: Shown) -> Result<(), Failed>
    ensures printed { FsPrints (K.written sink.old) (K.written sink.new) result (shown_lines shown) }
    ensures cause { HasCause (K.faults sink.old) (K.faults sink.new) result }
{
    write_time(sink, shown.time)?;
    write_from_steady(sink, shown)
}

/// Prints it from whether all was steady on.
fn write_from_steady<K: Sink>(sink: &mut K, shown: Shown) -> Result<(), Failed>
    ensures printed { FsPrints (K.written sink.old) (K.written sink.new) result
        (says_as_run (says_steady shown.steady) ∷ says_as_run (says_domain 1 (Some shown.rate) shown.ticks)
        ∷ says_stream shown.level shown.target shown.met ∷ []) }
    ensures cause { HasCause (K.faults sink.old) (K.faults sink.new) result }
{
    write_steady(sink, shown.steady)?;
    write_from_domain(sink, shown)
}

/// Prints it from the domain on.
fn write_from_domain<K: Sink>(sink: &mut K, shown: Shown) -> Result<(), Failed>
    ensures printed { FsPrints (K.written sink.old) (K.written sink.new) result
        (says_as_run (says_domain 1 (Some shown.rate) shown.ticks) ∷ says_stream shown.level shown.target shown.met ∷ []) }
    ensures cause { HasCause (K.faults sink.old) (K.faults sink.new) result }
{
    write_domain(sink, 1, Some(shown.rate), shown.ticks)?;
    write_stream(sink, shown.level, shown.target, shown.met)
}

/// Prints the stream: its level and target, and what it met.
#[tactic(auto, using(crate::proofs::FsPrintingLemmas::fs_prints_line))]
fn write_stream<K: Sink>(
    sink: &mut K,
    level: u32,
    target: Option<u32>,
    met: StreamCounts,
) -> Result<(), Failed>
    ensures printed { FsPrints (K.written sink.old) (K.written sink.new) result (says_stream level target met ∷ []) }
    ensures cause { HasCause (K.faults sink.old) (K.faults sink.new) result }
{
    let text = stream_text(level, target, met);
    give_all(sink, text.as_bytes())
}

#[tactic(auto, unfolding(crate::specs::FullSpeedLines::fs_spelling_of))]
fn stream_text(level: u32, target: Option<u32>, met: StreamCounts) -> TextLine<192>
    ensures { result ≡ fs_spelling_of (says_stream level target met) }
{
    let mut text = TextLine::new();
    text.push(b"stream 1");
    push_stream(&mut text, level, target, met);
    text.push(b" missed ");
    text.push_number(met.missed);
    text.push_byte(b'\n');
    text
}
