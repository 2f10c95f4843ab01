// The boxes of a call: its units and its meters. They are made where the call is made.
ghost use Rattle.std.specs.Prelude.{◌≡◌, map, string_bytes, IfOk, OnErr};
ghost use Rattle.uac_units.specs.Fitting.{IsFitted};
ghost use Rattle.uac_words.specs.Plain.{plainly};
ghost use Rattle.uac_ends.specs.Outside.{outside};
ghost use Rattle.uac_boxes.specs.Boxes.{IsFreshRun};

use std::alloc::{AllocError, Global};
use uac_call::{Racks, uac_main};
use uac_edges::{Sink, Source};
use uac_ends::Status;
use uac_units::{
    ClippedMeter, LaneEffect, LaneFeature, LaneMixer, LaneSelector, Meter, Meters, PeakMeter,
    PlainEffect, PlainFeature, PlainMixer, PlainSelector, Rack, SumMeter, Unit,
};

/// Runs the program with a rack of plain units, one of units on eight lanes, and three meters, for which there may be no memory.
pub fn run_in_boxes<S: Source, K: Sink>(
    alloc: Global,
    words: &[String],
    source: &mut S,
    sink: &mut K,
) -> Result<Status, AllocError>
    // What it comes to, with meters that have heard nothing.
    ensures run { IfOk result (λ status. IsFreshRun (plainly (map (λ word. string_bytes word) words.now))
        (outside (S.left source.old) (S.faults source.old) (K.written sink.old) (K.faults sink.old))
        (outside (S.left source.new) (S.faults source.new) (K.written sink.new) (K.faults sink.new)) (K.waiting sink.new) status) }

    // Where there is no memory for the boxes nothing is taken and nothing is written.
    ensures untaken { OnErr result (source.new ≡ source.old) }
    ensures unwritten { OnErr result (sink.new ≡ sink.old) }
{
    let racks = Racks {
        plain: Rack::new(
            Box::new(alloc, PlainMixer)?,
            Box::new(alloc, PlainSelector)?,
            Box::new(alloc, PlainFeature)?,
            Box::new(alloc, PlainEffect)?,
        ),
        lanes: Rack::new(
            Box::new(alloc, LaneMixer)?,
            Box::new(alloc, LaneSelector)?,
            Box::new(alloc, LaneFeature)?,
            Box::new(alloc, LaneEffect)?,
        ),
    };
    run_with_racks(alloc, words, source, sink, &racks)
}

/// Runs the words with racks that were made, and meters that have heard nothing.
fn run_with_racks<S: Source, K: Sink>(
    alloc: Global,
    words: &[String],
    source: &mut S,
    sink: &mut K,
    racks: &Racks,
) -> Result<Status, AllocError>
    requires plain { IsFitted (λ v x. (⟦<dyn Unit as Unit>⟧ v).kind_of x) racks.now.plain }
    requires lanes { IsFitted (λ v x. (⟦<dyn Unit as Unit>⟧ v).kind_of x) racks.now.lanes }
    ensures run { IfOk result (λ status. IsFreshRun (plainly (map (λ word. string_bytes word) words.now))
        (outside (S.left source.old) (S.faults source.old) (K.written sink.old) (K.faults sink.old))
        (outside (S.left source.new) (S.faults source.new) (K.written sink.new) (K.faults sink.new)) (K.waiting sink.new) status) }
    ensures untaken { OnErr result (source.new ≡ source.old) }
    ensures unwritten { OnErr result (sink.new ≡ sink.old) }
{
    let mut list: Vec<Box<dyn Meter>> = Vec::new(alloc);
    list.push(Box::new(alloc, PeakMeter::new())?)?;
    list.push(Box::new(alloc, ClippedMeter::new())?)?;
    list.push(Box::new(alloc, SumMeter::new())?)?;
    let mut meters = Meters::new(list);
    Ok(uac_main(alloc, words, source, sink, racks, &mut meters))
}
