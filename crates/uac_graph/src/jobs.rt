// What a unit is asked to render, and over which inputs.
ghost use Rattle.std.specs.Prelude.{◌≡◌, ◌≤◌, ◌<◌, ◌+◌, ◌*◌, ◌++◌, map, take, length, sum};
ghost use Rattle.std.specs.List.{range_with_len};
ghost use Rattle.uac_store.specs.StoreControls.{pins_of};
ghost use Rattle.std.specs.Option.{option_map};
ghost use Rattle.uac_units.specs.Fitting.{IsFitted, slot};
ghost use Rattle.uac_units.specs.Rendering.{in_a_row};
ghost use Rattle.uac_units.specs.declared.jobs.UnitKind.TheVariants.{Selector};
ghost use Rattle.uac_graph.specs.GraphControls.{controls_in};
ghost use Rattle.uac_graph.specs.Jobs as spec;
ghost use Rattle.uac_graph.specs.Needs as needs;
ghost use Rattle.uac_graph.specs.Jobs.{HasJob, IsAskable, IsJob};
ghost use Rattle.uac_graph.specs.Wiring.{samples_on};

use crate::controls::{chosen_pin, feature_gain, node_gain};
use crate::frame_table::FrameTable;
use crate::samples::{refill, write_over};
use arrayvec::ArrayVec;
use uac_entities::{Entity, EntityKind};
use uac_store::Store;
use uac_topology_rules::EntityTable;
use uac_units::{Job, Pins, Rack, Unit, UnitKind};

/// The unit that renders an entity of this kind, None for terminals and clocks.
pub(crate) fn unit_of(kind: EntityKind) -> Option<UnitKind>
    ensures { result ≡ needs.unit_of kind }
{
    match kind {
        EntityKind::Mixer => Some(UnitKind::Mixer),
        EntityKind::Selector => Some(UnitKind::Selector),
        EntityKind::Feature => Some(UnitKind::Feature),
        EntityKind::Effect => Some(UnitKind::Effect),
        EntityKind::InputTerminal
        | EntityKind::OutputTerminal
        | EntityKind::ClockSource
        | EntityKind::ClockSelector
        | EntityKind::ClockMultiplier => None,
    }
}

/// The rack's unit that renders an entity of this kind, None for terminals and clocks.
pub(crate) fn unit_for(rack: &Rack, kind: EntityKind) -> Option<&dyn Unit>
    requires { IsFitted (λ v x. (⟦<dyn Unit as Unit>⟧ v).kind_of x) rack.now }
    ensures kind { option_map (λ unit. kind_of unit.now) result ≡ needs.unit_of kind }
    ensures slot { option_map (λ unit. unit.now) result ≡ option_map (slot rack.now) (needs.unit_of kind) }
{
    match unit_of(kind) {
        Some(kind) => Some(rack.unit(kind)),
        None => None,
    }
}

/// No job yet.
pub(crate) fn no_job() -> Job {
    Job {
        outputs: 0,
        pin: 0,
        gains: ArrayVec::new(),
    }
}

/// Makes it the job of an entity of the table under the controls held, where the entity is a unit.
pub(crate) fn ask(job: &mut Job, table: &EntityTable, store: &Store, entity: &Entity)
    requires { IsAskable table.now entity.now }
    ensures { HasJob (controls_in store.now) entity.now (sum (pins_of table.now entity.now)) job.new }
{
    match unit_of(entity.kind) {
        Some(kind) => set_job(job, store, entity, kind, inputs_of(table, entity)),
        None => {}
    }
}

// How many channels the pins of an entity have together.
fn inputs_of(table: &EntityTable, entity: &Entity) -> usize
    requires { sum (pins_of table.now entity.now) ≤ 256 }
    ensures { result ≡ sum (pins_of table.now entity.now) }
{
    let mut inputs = 0;
    for source in entity.sources.as_slice() {
        inputs += table.channels_of(*source) as usize;
    }
    inputs
}

// Makes it the job of an entity's unit over so many input channels, under the controls held.
fn set_job(job: &mut Job, store: &Store, entity: &Entity, kind: UnitKind, inputs: usize)
    requires pins { kind ≡ Selector → length entity.now.sources ≤ 256 }
    requires gains { spec.gain_count kind entity.now.cluster.channels inputs ≤ 256 }
    ensures job { IsJob (controls_in store.now) entity.now.id kind entity.now.cluster.channels (length entity.now.sources) inputs job.new }
{
    job.outputs = entity.cluster.channels;
    job.pin = pin_at(store, entity, kind);
    let count = gain_count(kind, entity.cluster.channels as usize, inputs);
    set_gains(&mut job.gains, store, entity.id, kind, count);
}

// Makes them the first gains of a unit, so many.
fn set_gains(gains: &mut ArrayVec<u32, 256>, store: &Store, id: u8, kind: UnitKind, count: usize)
    requires { count ≤ 256 }
    ensures { gains.new.items ≡ map (spec.gain_at (controls_in store.now) id kind) (range_with_len 0 count) }
{
    gains.clear();
    for number in 0..count {
        gains.push(gain_at(store, id, kind, number));
    }
}

fn gain_count(kind: UnitKind, outputs: usize, inputs: usize) -> usize
    requires { spec.gain_count kind outputs inputs ≤ 256 }
    ensures { result ≡ spec.gain_count kind outputs inputs }
{
    match kind {
        UnitKind::Mixer => inputs * outputs,
        UnitKind::Feature => 2 * outputs,
        UnitKind::Selector | UnitKind::Effect => 0,
    }
}

// A mixer's gains are those of its nodes; a feature's are in turn that of a channel and that of the master. The others have none.
fn gain_at(store: &Store, id: u8, kind: UnitKind, number: usize) -> u32
    requires { number < 256 }
    ensures { result ≡ spec.gain_at (controls_in store.now) id kind number }
{
    match kind {
        UnitKind::Mixer => node_gain(store, id, number as u8),
        UnitKind::Feature => {
            if number % 2 == 0 {
                feature_gain(store, id, (number / 2 + 1) as u8)
            } else {
                feature_gain(store, id, 0)
            }
        }
        UnitKind::Selector | UnitKind::Effect => 0,
    }
}

fn pin_at(store: &Store, entity: &Entity, kind: UnitKind) -> u16
    requires { kind ≡ Selector → length entity.now.sources ≤ 256 }
    ensures { result ≡ spec.pin_at (controls_in store.now) entity.now.id kind (length entity.now.sources) }
{
    match kind {
        UnitKind::Selector => chosen_pin(store, entity.id, entity.sources.as_slice().len()),
        UnitKind::Mixer | UnitKind::Feature | UnitKind::Effect => 0,
    }
}

/// Makes `pins` the channels of these entities' frames, one after the other. Most have one source.
pub(crate) fn gather(pins: &mut Pins, frames: &FrameTable, sources: &[u8])
    requires { length (in_a_row (map (samples_on frames.now) sources.now)) ≤ 256 }
    ensures { pins.new.items ≡ in_a_row (map (samples_on frames.now) sources.now) }
{
    if sources.len() == 1 {
        gather_one(pins, frames, sources[0]);
    } else {
        gather_all(pins, frames, sources);
    }
}

/// Makes `pins` the channels of an entity's frame.
pub(crate) fn gather_one(pins: &mut Pins, frames: &FrameTable, source: u8)
    requires { length (samples_on frames.now source) ≤ 256 }
    ensures { pins.new.items ≡ samples_on frames.now source }
{
    match frames.get(source) {
        Some(frame) => refill(pins, frame.as_slice()),
        None => pins.clear(),
    }
}

// Makes `pins` the channels of these entities' frames, one after the other, written over those that are there.
fn gather_all(pins: &mut Pins, frames: &FrameTable, sources: &[u8])
    requires { length (in_a_row (map (samples_on frames.now) sources.now)) ≤ 256 }
    ensures { pins.new.items ≡ in_a_row (map (samples_on frames.now) sources.now) }
{
    let mut end = 0;
    for source in sources {
        if let Some(frame) = frames.get(*source) {
            end = write(pins, end, frame.as_slice());
        }
    }
    pins.truncate(end);
}

// Puts samples after the first pins, so many, and answers how many these are then. Others that lie there are written over.
fn write(pins: &mut Pins, from: usize, samples: &[i32]) -> usize
    requires inside { from ≤ length pins.old.items }
    requires fits { from + length samples.now ≤ 256 }
    ensures end { result ≡ from + length samples.now }
    ensures inside { result ≤ length pins.new.items }
    ensures front { take result pins.new.items ≡ take from pins.old.items ++ samples.now }
{
    let end = from + samples.len();
    if end <= pins.len() {
        write_over(&mut pins.as_mut_slice()[from..end], samples);
    } else {
        pins.truncate(from);
        let _ = pins.try_extend_from_slice(samples);
    }
    end
}
