// Printing the report.
ghost use Rattle.std.specs.Prelude.{◌≡◌, ℕ, ◌∷◌, [], ◌++◌, map, Some};
ghost use Rattle.uac_edges.specs.Faults.{HasCause};
ghost use Rattle.uac_edges.specs.Writing.{Writes};
ghost use Rattle.uac_store.specs.Rates.{rate_of};
ghost use Rattle.uac_units.specs.MeterReadings.{readings};
ghost use Rattle.uac_device.specs.DeviceKept.{DeviceStands};
ghost use Rattle.uac_device.specs.DeviceWorld.{DeviceWorld};
ghost use Rattle.uac_transcript.specs.Printing.{Prints};
ghost use Rattle.uac_transcript.specs.Transcript.{says_meter, says_time, says_renders, says_steady, spelling_of};
ghost use Rattle.uac_running.specs.TickCounts.{tick_count_of};
ghost use Rattle.uac_running.specs.ReportLines.{domain_line, stream_line};
ghost use Rattle.uac_streaming.specs.StreamingWorld.{met_in, stream_index};

use crate::counts::TickCount;
use uac_device::Device;
use uac_edges::{Failed, Sink};
use uac_entities::StreamInterface;
use uac_ring::StreamCounts;
use uac_streaming::Streaming;
use uac_transcript::{
    write_domain, write_in_stream, write_meter, write_out_stream, write_renders, write_steady,
    write_time,
};
use uac_units::{Meter, Meters};

/// Prints the microframes since the start, and whether all clocks were steady.
pub(crate) fn write_head<K: Sink>(sink: &mut K, time: u64, steady: bool) -> Result<(), Failed>
    ensures printed { Prints (K.written sink.old) (K.written sink.new) result (says_time time ∷ says_steady steady ∷ []) }
    ensures cause { HasCause (K.faults sink.old) (K.faults sink.new) result }
{
    write_time(sink, time)?;
    write_steady(sink, steady)
}

/// Prints each domain's rate and ticks, each stream, each meter, and how often units were rendered.
pub(crate) fn write_rest<K: Sink>(
    sink: &mut K,
    device: &Device,
    streaming: &Streaming,
    counts: &[TickCount],
    meters: &Meters,
    renders: u64,
) -> Result<(), Failed>
    ensures printed { (w : DeviceWorld) (met : ℕ → StreamCounts) → DeviceStands device.now w → streaming.now.met ≡ met_in met w.function
        → counts.now ≡ map tick_count_of w.domains → Prints (K.written sink.old) (K.written sink.new) result
        (map (domain_line w) w.domains ++ (map (stream_line w met) w.function.streams
        ++ (map says_meter (readings (λ v x. (⟦<dyn Meter as Meter>⟧ v).reading_of x) meters.now) ++ says_renders renders ∷ []))) }
    ensures cause { HasCause (K.faults sink.old) (K.faults sink.new) result }
{
    write_domains(sink, device, counts)?;
    write_streams(sink, device, streaming)?;
    write_last(sink, meters, renders)
}

/// Prints each meter, and how often units were rendered.
fn write_last<K: Sink>(sink: &mut K, meters: &Meters, renders: u64) -> Result<(), Failed>
    ensures printed { Prints (K.written sink.old) (K.written sink.new) result
        (map says_meter (readings (λ v x. (⟦<dyn Meter as Meter>⟧ v).reading_of x) meters.now) ++ says_renders renders ∷ []) }
    ensures cause { HasCause (K.faults sink.old) (K.faults sink.new) result }
{
    write_meters(sink, meters)?;
    write_renders(sink, renders)
}

/// Prints each domain's rate and ticks.
fn write_domains<K: Sink>(sink: &mut K, device: &Device, counts: &[TickCount]) -> Result<(), Failed>
    ensures printed { (w : DeviceWorld) → DeviceStands device.now w → counts.now ≡ map tick_count_of w.domains
        → Prints (K.written sink.old) (K.written sink.new) result (map (domain_line w) w.domains) }
    ensures cause { HasCause (K.faults sink.old) (K.faults sink.new) result }
{
    for count in counts {
        write_domain(
            sink,
            count.domain,
            domain_rate(device, count.domain),
            count.ticks,
        )?;
    }
    Ok(())
}

/// The rate of a domain, if it has one.
fn domain_rate(device: &Device, domain: u8) -> Option<u32>
    ensures { result ≡ rate_of device.now.function.entities device.now.controls domain }
{
    device.store().rate(device.function(), domain)
}

/// Prints the streams of each interface.
fn write_streams<K: Sink>(
    sink: &mut K,
    device: &Device,
    streaming: &Streaming,
) -> Result<(), Failed>
    ensures printed { (w : DeviceWorld) (met : ℕ → StreamCounts) → DeviceStands device.now w → streaming.now.met ≡ met_in met w.function
        → Prints (K.written sink.old) (K.written sink.new) result (map (stream_line w met) w.function.streams) }
    ensures cause { HasCause (K.faults sink.old) (K.faults sink.new) result }
{
    for stream in device.function().streams() {
        write_stream(sink, device, streaming, stream)?;
    }
    Ok(())
}

/// Prints the streams of an interface of the function.
fn write_stream<K: Sink>(
    sink: &mut K,
    device: &Device,
    streaming: &Streaming,
    stream: &StreamInterface,
) -> Result<(), Failed>
    ensures written { (w : DeviceWorld) (met : ℕ → StreamCounts) (index : ℕ) → DeviceStands device.now w
        → streaming.now.met ≡ met_in met w.function
        → stream_index w.function stream.now.number ≡ Some index
        → Writes (K.written sink.old) (K.written sink.new) result (spelling_of (stream_line w met stream.now)) }
    ensures cause { HasCause (K.faults sink.old) (K.faults sink.new) result }
{
    let setting = device.settings().get(stream.number).unwrap_or(0);
    let level = device.level(stream.number);
    let target = device.target(stream.number);
    let met = streaming.met_on(device.function(), stream.number);
    if stream.out {
        write_out_stream(sink, stream.number, setting, level, target, met)
    } else {
        write_in_stream(sink, stream.number, setting, level, met)
    }
}

/// Prints each meter.
fn write_meters<K: Sink>(sink: &mut K, meters: &Meters) -> Result<(), Failed>
    ensures printed { Prints (K.written sink.old) (K.written sink.new) result
        (map says_meter (readings (λ v x. (⟦<dyn Meter as Meter>⟧ v).reading_of x) meters.now)) }
    ensures cause { HasCause (K.faults sink.old) (K.faults sink.new) result }
{
    for at in 0..meters.len() {
        write_meter(sink, meters.kind(at), meters.value(at))?;
    }
    Ok(())
}
