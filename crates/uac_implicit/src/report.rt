// The lines of the report.
ghost use Rattle.std.specs.Prelude.{◌≡◌, ◌+◌, ◌*◌, ◌/◌, ◌<◌, ◌^◌, [], ℕ, Some};
ghost use Rattle.uac_clock.specs.Nominal.{IsNominal, nominal_of};
ghost use Rattle.uac_edges.specs.Faults.{HasCause};
ghost use Rattle.uac_edges.specs.Writing.{Writes};
ghost use Rattle.uac_implicit.specs.Following.{PairWorld};
ghost use Rattle.uac_implicit.specs.PairLines.{pair_report, pair_spelling, pair_text, says_pair_in, says_pair_out};
ghost use Rattle.uac_implicit.specs.PairKept.{PairRunStands};

use crate::pair::PairRun;
use uac_clock::Nominal;
use uac_edges::{Failed, Sink, TextLine, give_all};
use uac_ring::StreamCounts;
use uac_transcript::{push_stream, write_domain, write_time};

impl PairRun {
    /// Prints the report.
    pub(crate) fn report<K: Sink>(&self, sink: &mut K) -> Result<(), Failed>
        ensures written { (w : PairWorld) → PairRunStands self.now w
            → Writes (K.written sink.old) (K.written sink.new) result (pair_text (pair_report w)) }
        ensures cause { HasCause (K.faults sink.old) (K.faults sink.new) result }
    {
        match write_time(sink, self.time) {
            Ok(()) => {}
            Err(failed) => return Err(failed),
        }
        match write_domain(sink, 1, Some(rate_of(&self.nominal)), self.clock.ticks()) {
            Ok(()) => {}
            Err(failed) => return Err(failed),
        }
        match write_pair_out(sink, self.out.level(), self.out.target(), self.out.met()) {
            Ok(()) => {}
            Err(failed) => return Err(failed),
        }
        write_pair_in(sink, self.in_lost)
    }
}

/// The rate, in Hz, of which these are the nominal values.
fn rate_of(nominal: &Nominal) -> u32
    requires { IsNominal nominal.now }
    ensures { (hertz : ℕ) → nominal_of hertz ≡ Some nominal.now → result ≡ hertz }
{
    // The nominal value is the rate over 8,000 in 65,536ths of a frame, rounded down; so it goes back rounded up.
    ((u64::from(nominal.f) * 8000 + 65535) / 65536) as u32
}

/// Prints the stream to the device in the report.
fn write_pair_out<K: Sink>(
    sink: &mut K,
    level: u32,
    target: Option<u32>,
    met: StreamCounts,
) -> Result<(), Failed>
    ensures written { Writes (K.written sink.old) (K.written sink.new) result (pair_spelling (says_pair_out level target met)) }
    ensures cause { HasCause (K.faults sink.old) (K.faults sink.new) result }
{
    give_all(sink, out_text(level, target, met).as_bytes())
}

#[tactic(auto, unfolding(crate::specs::PairLines::pair_spelling))]
fn out_text(level: u32, target: Option<u32>, met: StreamCounts) -> TextLine<256>
    ensures { result ≡ pair_spelling (says_pair_out level target met) }
{
    let mut text = TextLine::new();
    text.push(b"stream 1 out");
    push_stream(&mut text, level, target, met);
    text.push_byte(b'\n');
    text
}

/// Prints the stream from the device in the report.
fn write_pair_in<K: Sink>(sink: &mut K, lost: u64) -> Result<(), Failed>
    ensures written { Writes (K.written sink.old) (K.written sink.new) result (pair_spelling (says_pair_in lost)) }
    ensures cause { HasCause (K.faults sink.old) (K.faults sink.new) result }
{
    give_all(sink, in_text(lost).as_bytes())
}

#[tactic(auto, unfolding(crate::specs::PairLines::pair_spelling))]
fn in_text(lost: u64) -> TextLine<64>
    ensures { result ≡ pair_spelling (says_pair_in lost) }
{
    let mut text = TextLine::new();
    text.push(b"stream 2 in lost ");
    text.push_number(lost);
    text.push_byte(b'\n');
    text
}
