// The lines of the descriptor.
ghost use Rattle.std.specs.Prelude.{◌≡◌, ◌≢◌, ◌++◌, ℕ, List, Option, None, Ok, true, IfErr, IfOk};
ghost use Rattle.uac_topology.specs.ConfigurationVerdict.{Describes};
ghost use Rattle.uac_units.specs.Hearing.{Reading};
ghost use Rattle.uac_edges.specs.Faults.{HasCause};
ghost use Rattle.uac_edges.specs.Writing.{Writes};
ghost use Rattle.uac_running.specs.RunningLines.{ready_line};
ghost use Rattle.uac_transcript.specs.Transcript.{spelling_of};
ghost use Rattle.uac_rows.specs.BusWorld.{step_feed, step_go};
ghost use Rattle.uac_bus.specs.BusKept.{BusStageStands};
ghost use Rattle.uac_rows.specs.BusSteps.{Does, is_final};
ghost use Rattle.uac_bus.specs.Beginning.{BeginsRunning};
ghost use Rattle.uac_rows.specs.Rows.{HasWriteCause};

use crate::bus::BusStage;
use std::alloc::Global;
use uac_edges::Sink;
use uac_fault::BusFault;
use uac_grammar::Reader;
use uac_running::Running;
use uac_topology::{SoundDescriptor, sound_descriptor};

/// Takes more bytes of the descriptor.
pub(crate) fn feed(reader: &mut Reader, bytes: &[u8]) -> Result<(), BusFault>
    ensures does { reader.old.stop ≡ None → (shown : List Reading) (written : Option (List ℕ))
        → Does (step_feed (reader.old.taken ++ bytes.now) shown) true (BusStageStands (BusStage.Describing reader.new) shown) written
        written
        result }
    ensures fault { IfErr result (λ fault. is_final fault ≡ true) }
    ensures unwritten { IfErr result (λ fault. fault ≢ BusFault.WriteFault) }
{
    reader.feed(bytes)?;
    Ok(())
}

/// The descriptor's end: the device that it describes begins to run, and says so.
pub(crate) fn begin<K: Sink>(
    alloc: Global,
    reader: Reader,
    sink: &mut K,
) -> Result<Running, BusFault>
    ensures begins { (shown : List Reading)
        → BeginsRunning (step_go reader.taken shown) shown (K.written sink.old) (K.written sink.new) result }
    ensures fault { IfErr result (λ fault. is_final fault ≡ true) }
    ensures unwritten { IfErr result (λ fault. fault ≢ BusFault.WriteFault → sink.new ≡ sink.old) }
    ensures faults { HasWriteCause (K.faults sink.old) (K.faults sink.new) result }
{
    match sound_descriptor(alloc, reader) {
        Ok(described) => start(alloc, described, sink),
        Err(fault) => Err(BusFault::from(fault)),
    }
}

/// The device that was described begins to run, and says so.
fn start<K: Sink>(
    alloc: Global,
    described: SoundDescriptor,
    sink: &mut K,
) -> Result<Running, BusFault>
    ensures begins { (bytes : List ℕ) → Describes bytes (Ok described)
        → (shown : List Reading) → BeginsRunning (step_go bytes shown) shown (K.written sink.old) (K.written sink.new) result }
    ensures fault { IfErr result (λ fault. is_final fault ≡ true) }
    ensures unwritten { IfErr result (λ fault. fault ≢ BusFault.WriteFault → sink.new ≡ sink.old) }
    ensures faults { HasWriteCause (K.faults sink.old) (K.faults sink.new) result }
{
    let running = Running::new(alloc, described.function, described.configuration)?;
    announce(running, sink)
}

/// A device whose line of the descriptor's end is printed.
fn announce<K: Sink>(running: Running, sink: &mut K) -> Result<Running, BusFault>
    ensures same { IfOk result (λ announce. announce ≡ running) }
    ensures fault { IfErr result (λ fault. fault ≡ BusFault.WriteFault) }
    ensures written { Writes (K.written sink.old) (K.written sink.new) result (spelling_of (ready_line running.device.function)) }
    ensures cause { HasCause (K.faults sink.old) (K.faults sink.new) result }
{
    match running.ready(sink) {
        Ok(()) => Ok(running),
        Err(_) => {
            running.let_go();
            Err(BusFault::WriteFault)
        }
    }
}
