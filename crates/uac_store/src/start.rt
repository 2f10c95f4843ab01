// The values at the start.
ghost use Rattle.std.specs.Prelude.{◌≡◌, ℕ, ◌*◌, ◌<◌, ◌++◌, None, IfOk, OnOk, sum};
ghost use Rattle.uac_store.specs.Keyed.{key_of, value_of};
ghost use Rattle.uac_store.specs.declared.controls.Start.TheVariants as starts;
ghost use Rattle.uac_store.specs.ControlTable as table;
ghost use Rattle.uac_store.specs.StoreControls as spec;
ghost use Rattle.uac_store.specs.ControlTable.{IsSmall};
ghost use Rattle.uac_store.specs.StoreControls.{IsKeyed, initial_controls, controls_of, channel_controls};

use crate::controls::{Start, count_of, facts_at, selectors_of};
use crate::keys::Key;
use indexmap::IndexMap;
use std::alloc::Global;
use uac_descriptor::NoMemory;
use uac_topology::{Entity, Function};

/// The volume that means silence (Audio Class 2.0, 5.2.5.7.2).
const SILENCE: i32 = -32768;

/// The value that each control of these entities has at the start.
pub(crate) fn start_values(
    alloc: Global,
    function: &Function,
) -> Result<IndexMap<Key, i32>, NoMemory>
    requires { IsKeyed function.now.entities }
    ensures { IfOk result (λ values. values.entries ≡ initial_controls function.now.entities) }
{
    let mut values = IndexMap::new(alloc);
    for entity in function.entities() {
        add_controls(alloc, function, entity, &mut values)?;
    }
    Ok(values)
}

// Adds the controls of one entity.
fn add_controls(
    alloc: Global,
    function: &Function,
    entity: &Entity,
    values: &mut IndexMap<Key, i32>,
) -> Result<(), NoMemory>
    requires small { IsSmall entity.now.kind (sum (spec.pins_of function.now.entities entity.now)) entity.now.cluster.channels }
    requires absent { (selector channel : ℕ) → value_of values.old.entries (key_of entity.now.id selector channel) ≡ None }
    ensures { OnOk result (values.new.entries ≡ values.old.entries ++ controls_of function.now.entities entity.now) }
{
    let pins = pins_of(alloc, function, entity)?;
    for below in 0..selectors_of(entity.kind) {
        add_channels(function, entity, &pins, below + 1, values)?;
    }
    Ok(())
}

// Adds one control of an entity, for each of its channels.
fn add_channels(
    function: &Function,
    entity: &Entity,
    pins: &[u8],
    selector: u8,
    values: &mut IndexMap<Key, i32>,
) -> Result<(), NoMemory>
    requires pins { pins.now ≡ spec.pins_of function.now.entities entity.now }
    requires small { IsSmall entity.now.kind (sum pins.now) entity.now.cluster.channels }
    requires absent { (channel : ℕ) → value_of values.old.entries (key_of entity.now.id selector channel) ≡ None }
    ensures { OnOk result (values.new.entries ≡ values.old.entries ++ channel_controls function.now.entities entity.now selector) }
{
    for channel in 0..count_of(function, entity) {
        let key = Key {
            entity: entity.id,
            selector,
            channel: channel as u8,
        };
        values.insert(key, start_of(entity, selector, pins, channel))?;
    }
    Ok(())
}

// The value of an entity's control at the start, on one of its channels.
#[tactic(auto, using(crate::proofs::ControlTableLemmas::has_outputs))]
fn start_of(entity: &Entity, selector: u8, pins: &[u8], channel: usize) -> i32
    requires { channel < table.count_by entity.now.kind (sum pins.now * entity.now.cluster.channels) entity.now.cluster.channels }
    ensures { result ≡ table.start_by entity.now.kind selector (spec.node_start pins.now entity.now.cluster.channels channel) }
{
    match facts_at(entity.kind, selector) {
        Some(facts) => start_in(facts.start, pins, entity.cluster.channels as usize, channel),
        None => 0,
    }
}

// The value at the start that a control's row tells.
fn start_in(start: Start, pins: &[u8], outputs: usize, channel: usize) -> i32
    requires { start ≡ starts.ByNode → 0 < outputs }
    ensures { result ≡ table.start_in start (spec.node_start pins.now outputs channel) }
{
    match start {
        Start::At(value) => value,
        Start::ByNode => node_start(pins, outputs, channel),
    }
}

// A mixer passes each channel of a pin on to its own channel of the same number.
#[tactic(auto, unfolding(crate::specs::StoreControls::node_start))]
fn node_start(pins: &[u8], outputs: usize, node: usize) -> i32
    requires { 0 < outputs }
    ensures { result ≡ spec.node_start pins.now outputs node }
{
    if channel_within(pins, node / outputs) == node % outputs {
        0
    } else {
        SILENCE
    }
}

fn channel_within(pins: &[u8], input: usize) -> usize
    ensures { result ≡ spec.channel_within pins.now input }
{
    let mut left = input;
    for channels in pins {
        let channels = *channels as usize;
        if left < channels {
            return left;
        }
        left -= channels;
    }
    left
}

// The channels of each pin.
#[tactic(auto, unfolding(crate::specs::StoreControls::pins_of))]
fn pins_of(alloc: Global, function: &Function, entity: &Entity) -> Result<Vec<u8>, NoMemory>
    ensures { IfOk result (λ pins. pins.items ≡ spec.pins_of function.now.entities entity.now) }
{
    let mut pins = Vec::new(alloc);
    for id in entity.sources.as_slice() {
        pins.push(function.channels_of(*id))?;
    }
    Ok(pins)
}
