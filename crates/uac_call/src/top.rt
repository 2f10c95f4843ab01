// The top call: from the words and the bytes of a source to the text in a sink and a status.
ghost use Rattle.std.specs.Prelude.{◌≡◌, ◌≢◌, ℕ, true, List, Option, map, string_bytes};
ghost use Rattle.std.specs.Io.KnownBytes.{IsAtEnd};
ghost use Rattle.uac_edges.specs.Faults.{Rose};
ghost use Rattle.uac_units.specs.Fitting.{IsFitted};
ghost use Rattle.uac_units.specs.MeterReadings.{readings};
ghost use Rattle.uac_words.specs.CommandLines.{IsCommandInRange};
ghost use Rattle.uac_words.specs.Plain.{plainly};
ghost use Rattle.uac_call.specs.Call.{IsCall, IsGenerated, ask_to_read};
ghost use Rattle.uac_call.specs.Completeness.{IsCompleteCall};
ghost use Rattle.uac_call.specs.Performing.{Performs};
ghost use Rattle.uac_ends.specs.Closing.{IsFaultless};
ghost use Rattle.uac_ends.specs.Outside.{outside};
ghost use Rattle.uac_scripts.specs.Surroundings.{surroundings};

use crate::benches::{run_full, run_pair};
use crate::front_panel::run_panel;
use std::alloc::Global;
use uac_edges::{Sink, Source};
use uac_ends::{NO_MEMORY, Status, conclude, hand_on};
use uac_gen::GenSource;
use uac_listing::{Description, describe, settle};
use uac_scripts::run_script;
use uac_units::{Meter, Meters, Rack, Unit};
use uac_words::{Command, Invocation, RackChoice, WordsFault};

/// What is written where the words are no command: how the program is used.
const USAGE: &[u8] =
    b"usage: uac_cli check|show|elements|run|gen NUMBER|full RATE|settle|pair RATE|panel [--rack plain|lanes]\n";

/// The units with which graphs are rendered: one sample after the other, and many side by side.
#[derive(Drop)]
pub struct Racks {
    pub plain: Rack,
    pub lanes: Rack,
}

/// Runs the program: `words` are those after its name. `check`, `show` and `elements` read a descriptor from the source, to its end or to
/// the first fault that its bytes show, and write what is said of it to the sink. `run` does the lines of a script, to its end or to the
/// first that is refused, and `gen` those of a generated script, without the source: they are rendered with the units of the rack that
/// the words choose, and heard by the meters. `full`, `pair` and `panel` do the lines of a script, too, on one full-speed stream, on a
/// pair of streams and on a front panel. `settle` writes how long streams take to come home. Every other list of words takes nothing and
/// is answered by the usage line.
pub fn uac_main<S: Source, K: Sink>(
    alloc: Global,
    words: &[String],
    source: &mut S,
    sink: &mut K,
    racks: &Racks,
    meters: &mut Meters,
) -> Status
    requires plain { IsFitted (λ v x. (⟦<dyn Unit as Unit>⟧ v).kind_of x) racks.now.plain }
    requires lanes { IsFitted (λ v x. (⟦<dyn Unit as Unit>⟧ v).kind_of x) racks.now.lanes }

    // Status, text and what the meters show follow from the words and the bytes that were taken.
    ensures call { IsCall (plainly (map (λ word. string_bytes word) words.now))
        (surroundings (outside (S.left source.old) (S.faults source.old) (K.written sink.old) (K.faults sink.old))
        (readings (λ v x. (⟦<dyn Meter as Meter>⟧ v).reading_of x) meters.old))
        (surroundings (outside (S.left source.new) (S.faults source.new) (K.written sink.new) (K.faults sink.new))
        (readings (λ v x. (⟦<dyn Meter as Meter>⟧ v).reading_of x) meters.new)) result }

    // Each fault of the outside has its cause in this call; and a call that tells of none met none.
    ensures read_fault { result ≡ Status.ReadFault → Rose (S.faults source.old) (S.faults source.new) }
    ensures write_fault { result ≡ Status.WriteFault → Rose (K.faults sink.old) (K.faults sink.new) }
    ensures faultless { IsFaultless
        (outside (S.left source.old) (S.faults source.old) (K.written sink.old) (K.faults sink.old))
        (outside (S.left source.new) (S.faults source.new) (K.written sink.new) (K.faults sink.new)) result }

    // The whole input was read, where the command reads it.
    ensures ok { result ≡ Status.Ok → ask_to_read (plainly (map (λ word. string_bytes word) words.now)) ≡ true
        → IsAtEnd (S.left source.new) }

    // Where no read and no write failed and there was memory, status and text are what the whole input comes to, to its end.
    ensures complete { IsCompleteCall (plainly (map (λ word. string_bytes word) words.now))
        (surroundings (outside (S.left source.old) (S.faults source.old) (K.written sink.old) (K.faults sink.old))
        (readings (λ v x. (⟦<dyn Meter as Meter>⟧ v).reading_of x) meters.old))
        (surroundings (outside (S.left source.new) (S.faults source.new) (K.written sink.new) (K.faults sink.new))
        (readings (λ v x. (⟦<dyn Meter as Meter>⟧ v).reading_of x) meters.new)) result }

    // Where no failed write is told, all that was written was handed on.
    ensures handed_on { result ≢ Status.WriteFault → K.waiting sink.new ≡ 0 }
{
    match uac_words::read(alloc, words) {
        Ok(words) => {
            let status = perform(alloc, words, source, sink, racks, meters);
            hand_on(status, sink)
        }
        Err(WordsFault::Usage) => conclude(sink, USAGE, Status::Usage),
        Err(WordsFault::NoMemory) => conclude(sink, NO_MEMORY, Status::NoMemory),
    }
}

/// Does what the words ask for, with the rack that they choose.
fn perform<S: Source, K: Sink>(
    alloc: Global,
    words: Invocation,
    source: &mut S,
    sink: &mut K,
    racks: &Racks,
    meters: &mut Meters,
) -> Status
    requires plain { IsFitted (λ v x. (⟦<dyn Unit as Unit>⟧ v).kind_of x) racks.now.plain }
    requires lanes { IsFitted (λ v x. (⟦<dyn Unit as Unit>⟧ v).kind_of x) racks.now.lanes }
    requires range { IsCommandInRange words.command }
    ensures { Performs words.command
        (surroundings (outside (S.left source.old) (S.faults source.old) (K.written sink.old) (K.faults sink.old))
        (readings (λ v x. (⟦<dyn Meter as Meter>⟧ v).reading_of x) meters.old))
        (surroundings (outside (S.left source.new) (S.faults source.new) (K.written sink.new) (K.faults sink.new))
        (readings (λ v x. (⟦<dyn Meter as Meter>⟧ v).reading_of x) meters.new)) result }
{
    match words.rack {
        RackChoice::Plain => do_command(alloc, words.command, source, sink, &racks.plain, meters),
        RackChoice::Lanes => do_command(alloc, words.command, source, sink, &racks.lanes, meters),
    }
}

/// Does a command with this rack.
fn do_command<S: Source, K: Sink>(
    alloc: Global,
    command: Command,
    source: &mut S,
    sink: &mut K,
    rack: &Rack,
    meters: &mut Meters,
) -> Status
    requires rack { IsFitted (λ v x. (⟦<dyn Unit as Unit>⟧ v).kind_of x) rack.now }
    requires range { IsCommandInRange command }
    ensures { Performs command
        (surroundings (outside (S.left source.old) (S.faults source.old) (K.written sink.old) (K.faults sink.old))
        (readings (λ v x. (⟦<dyn Meter as Meter>⟧ v).reading_of x) meters.old))
        (surroundings (outside (S.left source.new) (S.faults source.new) (K.written sink.new) (K.faults sink.new))
        (readings (λ v x. (⟦<dyn Meter as Meter>⟧ v).reading_of x) meters.new)) result }
{
    match command {
        Command::Check => describe(alloc, Description::Check, source, sink),
        Command::Show => describe(alloc, Description::Show, source, sink),
        Command::Elements => describe(alloc, Description::Elements, source, sink),
        Command::Run => run_script(alloc, source, sink, rack, meters),
        Command::Gen(number) => generate(alloc, number, sink, rack, meters),
        Command::Full(rate) => run_full(alloc, rate, source, sink),
        Command::Settle => settle(sink),
        Command::Pair(rate) => run_pair(alloc, rate, source, sink),
        Command::Panel => run_panel(alloc, source, sink),
    }
}

/// Runs the script of a number.
fn generate<K: Sink>(
    alloc: Global,
    number: u32,
    sink: &mut K,
    rack: &Rack,
    meters: &mut Meters,
) -> Status
    requires rack { IsFitted (λ v x. (⟦<dyn Unit as Unit>⟧ v).kind_of x) rack.now }
    ensures generated { (left : Option (List ℕ)) (reads : ℕ) → IsGenerated number
        (surroundings (outside left reads (K.written sink.old) (K.faults sink.old))
        (readings (λ v x. (⟦<dyn Meter as Meter>⟧ v).reading_of x) meters.old))
        (surroundings (outside left reads (K.written sink.new) (K.faults sink.new))
        (readings (λ v x. (⟦<dyn Meter as Meter>⟧ v).reading_of x) meters.new)) result }
    ensures never_read { result ≢ Status.ReadFault }
    ensures write_fault { result ≡ Status.WriteFault → Rose (K.faults sink.old) (K.faults sink.new) }
    ensures faultless { result ≢ Status.WriteFault → K.faults sink.new ≡ K.faults sink.old }
{
    let mut script = GenSource::new(number);
    run_script(alloc, &mut script, sink, rack, meters)
}
