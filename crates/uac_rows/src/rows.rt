// The lines of the running device.
ghost use Rattle.std.specs.Prelude.{◌≡◌, ◌≢◌, ◌≤ℤ◌, ℕ, List, Option, true, false, pos, negsuc, map, IfErr, OnErr};
ghost use Rattle.uac_units.specs.Fitting.{IsFitted};
ghost use Rattle.uac_units.specs.Hearing.{Reading};
ghost use Rattle.uac_units.specs.MeterReadings.{readings};
ghost use Rattle.uac_script.specs.Line.{phrase_tone_of, phrase_mark};
ghost use Rattle.uac_script.specs.Lent.{lent_phrase, IsLentInRange};
ghost use Rattle.uac_script.specs.Phrase as phrase;
ghost use Rattle.uac_running.specs.RunningWorld.{RunningWorld};
ghost use Rattle.uac_running.specs.RunningKept.{RunningStandsBetween};
ghost use Rattle.uac_rows.specs.BusWorld.{step_running};
ghost use Rattle.uac_rows.specs.Rows.{RunsAs, HasWriteCause, Leaves};
ghost use Rattle.uac_rows.specs.BusSteps.{Does, is_append, is_final};

use crate::transfers::{control, get, set, show};
use uac_edges::Sink;
use uac_fault::BusFault;
use uac_pcm::Tone;
use uac_running::{Running, all_name_streams, are_frames, has_out};
use uac_script::{LentLine, Mark};
use uac_units::{Meter, Meters, Rack, Unit};

/// Samples for a track.
fn append(running: &mut Running, interface: u8, samples: &[i32]) -> Result<(), BusFault>
    ensures does { (shown : List Reading) (r : RunningWorld) (written : Option (List ℕ)) → RunningStandsBetween running.old shown r
        → Does (step_running r (phrase.append_line (pos interface) samples.now)) true
        (RunsAs running.new shown) written written result }
    ensures unwritten { IfErr result (λ fault. fault ≢ BusFault.WriteFault) }
    ensures script { IfErr result (λ fault. is_final fault ≡ false → running.new ≡ running.old) }
{
    let function = running.function();
    if !has_out(function, interface) {
        return Err(BusFault::Script(6));
    }
    if !are_frames(function, interface, samples.len()) {
        return Err(BusFault::Script(7));
    }
    running.append(interface, samples)?;
    Ok(())
}

/// The tone of a track.
fn track(running: &mut Running, interface: u8, tone: Tone) -> Result<(), BusFault>
    ensures does { (shown : List Reading) (r : RunningWorld) (written : Option (List ℕ)) → RunningStandsBetween running.old shown r
        → Does (step_running r (phrase.track_line (pos interface) (phrase_tone_of tone))) false
        (RunsAs running.new shown) written written result }
    ensures rule { IfErr result (λ fault. is_final fault ≡ false) }
    ensures unchanged { OnErr result (running.new ≡ running.old) }
{
    if !has_out(running.function(), interface) {
        return Err(BusFault::Script(6));
    }
    running.track(interface, tone);
    Ok(())
}

/// The tone of an input jack.
fn set_jack(running: &mut Running, terminal: u8, tone: Tone) -> Result<(), BusFault>
    ensures does { (shown : List Reading) (r : RunningWorld) (written : Option (List ℕ)) → RunningStandsBetween running.old shown r
        → Does (step_running r (phrase.jack_line (pos terminal) (phrase_tone_of tone))) false
        (RunsAs running.new shown) written written result }
    ensures rule { IfErr result (λ fault. is_final fault ≡ false) }
    ensures unchanged { OnErr result (running.new ≡ running.old) }
{
    if !running.has_jack(terminal) {
        return Err(BusFault::Script(6));
    }
    running.set_tone(terminal, tone);
    Ok(())
}

/// The deviation of a domain's clock.
fn deviate(running: &mut Running, domain: u8, ppm: i32) -> Result<(), BusFault>
    requires low { negsuc 99999 ≤ℤ ppm }
    requires high { ppm ≤ℤ pos 100000 }
    ensures does { (shown : List Reading) (r : RunningWorld) (written : Option (List ℕ)) → RunningStandsBetween running.old shown r
        → Does (step_running r (phrase.deviate_line (pos domain) ppm)) false
        (RunsAs running.new shown) written written result }
    ensures rule { IfErr result (λ fault. is_final fault ≡ false) }
    ensures unchanged { OnErr result (running.new ≡ running.old) }
{
    if !running.has_domain(domain) {
        return Err(BusFault::Script(6));
    }
    running.deviate(domain, ppm);
    Ok(())
}

/// Microframes. Marks have to name interfaces.
fn run<K: Sink>(
    running: &mut Running,
    count: u32,
    marks: &[Mark],
    rack: &Rack,
    meters: &mut Meters,
    sink: &mut K,
) -> Result<(), BusFault>
    requires rack { IsFitted (λ v x. (⟦<dyn Unit as Unit>⟧ v).kind_of x) rack.now }
    ensures does { (r : RunningWorld)
        → RunningStandsBetween running.old (readings (λ v x. (⟦<dyn Meter as Meter>⟧ v).reading_of x) meters.old) r
        → Does (step_running r (phrase.microframes_line (pos count) (map phrase_mark marks.now))) false
        (RunsAs running.new (readings (λ v x. (⟦<dyn Meter as Meter>⟧ v).reading_of x) meters.new))
        (K.written sink.old) (K.written sink.new) result }
    ensures leaves { Leaves running.old running.new sink.old sink.new meters.old meters.new result }
    ensures faults { HasWriteCause (K.faults sink.old) (K.faults sink.new) result }
{
    if !all_name_streams(running.function(), marks) {
        return Err(BusFault::Script(6));
    }
    running.microframes(count, marks, rack, meters, sink)?;
    Ok(())
}

/// The report.
fn report<K: Sink>(running: &Running, meters: &Meters, sink: &mut K) -> Result<(), BusFault>
    ensures does { (r : RunningWorld)
        → RunningStandsBetween running.now (readings (λ v x. (⟦<dyn Meter as Meter>⟧ v).reading_of x) meters.now) r
        → Does (step_running r phrase.report_line) false
        (RunsAs running.now (readings (λ v x. (⟦<dyn Meter as Meter>⟧ v).reading_of x) meters.now))
        (K.written sink.old) (K.written sink.new) result }
    ensures fault { IfErr result (λ fault. fault ≡ BusFault.WriteFault) }
    ensures faults { HasWriteCause (K.faults sink.old) (K.faults sink.new) result }
{
    running.report(meters, sink)?;
    Ok(())
}

/// Does a line of the running device. The line `a` alone takes memory.
///
/// # Errors
///
/// A rule of the script that the line breaks, 5, 6 or 7; nothing is changed. A write that failed; want of memory.
pub fn play<K: Sink>(
    running: &mut Running,
    line: LentLine<'_>,
    rack: &Rack,
    meters: &mut Meters,
    sink: &mut K,
) -> Result<(), BusFault>
    requires rack { IsFitted (λ v x. (⟦<dyn Unit as Unit>⟧ v).kind_of x) rack.now }
    requires keeps { IsLentInRange line }
    ensures does { (r : RunningWorld)
        → RunningStandsBetween running.old (readings (λ v x. (⟦<dyn Meter as Meter>⟧ v).reading_of x) meters.old) r
        → Does (step_running r (lent_phrase line.entry)) (is_append (lent_phrase line.entry))
        (RunsAs running.new (readings (λ v x. (⟦<dyn Meter as Meter>⟧ v).reading_of x) meters.new))
        (K.written sink.old) (K.written sink.new) result }
    ensures leaves { Leaves running.old running.new sink.old sink.new meters.old meters.new result }
    ensures faults { HasWriteCause (K.faults sink.old) (K.faults sink.new) result }
{
    match line {
        LentLine::Nothing => Ok(()),
        LentLine::Bytes(_) => Err(BusFault::Script(5)),
        LentLine::Go => Err(BusFault::Script(5)),
        LentLine::Control { setup, sent } => control(running, setup, sent, sink),
        LentLine::Get(name) => get(running, name, sink),
        LentLine::Set(name, value) => set(running, name, value, sink),
        LentLine::Show(name) => show(running, name, sink),
        LentLine::Break { after } => {
            running.set_break(after);
            Ok(())
        }
        LentLine::Append { interface, samples } => append(running, interface, samples),
        LentLine::Track { interface, tone } => track(running, interface, tone),
        LentLine::Jack { terminal, tone } => set_jack(running, terminal, tone),
        LentLine::Deviate { domain, ppm } => deviate(running, domain, ppm),
        LentLine::Run { count, marks } => run(running, count, marks, rack, meters, sink),
        LentLine::Detail(level) => {
            running.set_detail(level);
            Ok(())
        }
        LentLine::Report => report(running, meters, sink),
    }
}
