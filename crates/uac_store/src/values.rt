// The values that controls can take.
ghost use Rattle.std.specs.Prelude.{◌≡◌, ◌%◌, ◌<◌, ◌≤◌, ◌^◌, IsSome, Some, is_some, length, map, nat_lt, sum};
ghost use Rattle.std.specs.List.{All};
ghost use Rattle.std.specs.Option.{option_map};
ghost use Rattle.uac_gain.specs.Gain.{gain_of};
ghost use Rattle.uac_store.specs.ControlTable as table;
ghost use Rattle.uac_store.specs.StoreControls as controls;
ghost use Rattle.uac_store.specs.ControlTable.{IsSmall};
ghost use Rattle.uac_store.specs.Keyed.{value_of, with_value};
ghost use Rattle.uac_store.specs.Rates.{rate_of};
ghost use Rattle.uac_store.specs.StoreValues as spec;

use crate::controls::{ValueSet, count_of, facts_at, selectors_of};
use crate::keys::{Key, Range, Ranges};
use crate::rates::rate_within;
use crate::store::Store;
use arrayvec::ArrayVec;
use uac_clock::RATES;
use uac_gain::gain;
use uac_topology::laws::functions_are_sound;
use uac_topology::{Entity, Function};
use uac_topology_rules::is_clock;

/// The volumes that come by whole decibels, in 1/256 decibel: -96 to -33 decibels (profile).
const WHOLE_DECIBELS: Range = Range {
    min: -24576,
    max: -8448,
    res: 256,
};

/// The volumes that come by half decibels, in 1/256 decibel: -32 to 12 decibels (profile).
const HALF_DECIBELS: Range = Range {
    min: -8192,
    max: 3072,
    res: 128,
};

/// The frequency in Hz of a clock source that is external or fixed (profile).
const FIXED: u32 = 48000;

/// The greatest numerator and denominator of a clock multiplier (profile).
const MOST_TIMES: u8 = 8;

/// A control, and a value that it might be given: in Hz, 1/256 decibel, pins from 1, or 0 and 1, as the control has it.
#[derive(Clone, Copy, PartialEq, Eq, Debug)]
pub(crate) struct Change {
    pub(crate) key: Key,
    pub(crate) value: i32,
}

/// The subranges of a control's values, as RANGE answers them (Audio Class 2.0, 5.2.1 and 5.2.5), in the control's own
/// units: frequencies in Hz, volumes and mixer nodes in 1/256 decibel, selectors' pins from 1.
///
/// None comes exactly where there is no control with this key that keeps a value, or it has no ranges, as mutes and
/// enables have none. It takes no memory.
#[tactic(auto, unfolding(crate::specs::StoreValues::ranges_of), using(crate::proofs::StoreControlsIdLemmas::few_pins, crate::proofs::StoreControlsIdLemmas::small_named, crate::proofs::StoreControlsSoundLemmas::keyed))]
pub fn ranges(function: &Function, key: Key) -> Option<Ranges>
    ensures { option_map (λ ranges. ranges.items) result ≡ spec.ranges_of function.now.entities key }
{
    functions_are_sound(function);
    let entity = function.entity(key.entity)?;
    if has_on(function, entity, key) {
        ranges_on(entity, key.selector)
    } else {
        None
    }
}

// Whether an entity of the function has a control of this selector and channel that keeps a value.
#[tactic(auto, unfolding(crate::specs::StoreControls::has_on))]
fn has_on(function: &Function, entity: &Entity, key: Key) -> bool
    requires { IsSmall entity.now.kind (sum (controls.pins_of function.now.entities entity.now)) entity.now.cluster.channels }
    ensures { result ≡ controls.has_on function.now.entities key entity.now }
{
    key.selector >= 1
        && key.selector <= selectors_of(entity.kind)
        && usize::from(key.channel) < count_of(function, entity)
}

// The subranges of a control that an entity has.
fn ranges_on(entity: &Entity, selector: u8) -> Option<Ranges>
    requires { length entity.now.sources ≤ 248 }
    ensures { option_map (λ ranges. ranges.items) result
        ≡ table.ranges_by entity.now.kind (length entity.now.sources) entity.now.attributes selector }
{
    match facts_at(entity.kind, selector)?.values {
        ValueSet::Rates => Some(frequencies(entity.attributes)),
        ValueSet::Pins => Some(one_range(1, entity.sources.as_slice().len() as i32, 1)),
        ValueSet::Factors => Some(one_range(1, i32::from(MOST_TIMES), 1)),
        ValueSet::Volumes => Some(volumes()),
        ValueSet::Switch | ValueSet::ReadOnly => None,
    }
}

// The volumes but for silence, in 1/256 decibel.
fn volumes() -> Ranges
    ensures { result.items ≡ table.volumes }
{
    let mut ranges = ArrayVec::new();
    ranges.push(WHOLE_DECIBELS);
    ranges.push(HALF_DECIBELS);
    ranges
}

fn one_range(min: i32, max: i32, res: i32) -> Ranges
    ensures { Some result.items ≡ table.one_range min max res }
{
    let mut ranges = ArrayVec::new();
    ranges.push(Range { min, max, res });
    ranges
}

// The frequencies of a clock source, each a subrange by itself.
fn frequencies(attributes: u8) -> Ranges
    ensures { result.items ≡ map table.alone (table.frequencies attributes) }
{
    if is_fixed(attributes) {
        each_alone(&[FIXED])
    } else {
        each_alone(&RATES)
    }
}

// Whether a clock source is external or fixed (Audio Class 2.0, 4.7.2.1: bits 1 and 0 of bmAttributes).
fn is_fixed(attributes: u8) -> bool
    ensures { result ≡ nat_lt (attributes % 4) 2 }
{
    attributes % 4 < 2
}

// Each frequency as a subrange by itself.
fn each_alone(rates: &[u32]) -> Ranges
    requires few { length rates.now ≤ 12 }
    requires held { All (λ rate. rate < 2 ^ 31) rates.now }
    ensures { result.items ≡ map table.alone rates.now }
{
    let mut ranges = ArrayVec::new();
    for rate in rates {
        let hertz = *rate as i32;
        ranges.push(Range {
            min: hertz,
            max: hertz,
            res: 0,
        });
    }
    ranges
}

/// Whether a change gives its control a value that is legal: one that the control takes, and where it is a clock
/// entity's, one under which every clock entity has a rate. It takes no memory.
#[tactic(auto, unfolding(crate::specs::StoreValues::is_legal, crate::specs::StoreControls::takes))]
pub(crate) fn is_legal(function: &Function, store: &Store, change: Change) -> bool
    requires { IsSome (value_of store.now change.key) }
    ensures { result ≡ spec.is_legal function.now.entities store.now change.key change.value }
{
    match function.entity(change.key.entity) {
        Some(entity) => {
            takes(entity, change.key.selector, change.value)
                && (!is_clock(entity.kind) || are_clocked(function, store, change))
        }
        None => false,
    }
}

// Whether an entity's control takes a value (profile).
#[tactic(auto, unfolding(crate::specs::StoreControls::takes_on))]
fn takes(entity: &Entity, selector: u8, value: i32) -> bool
    ensures { result ≡ controls.takes_on selector value entity.now }
{
    match facts_at(entity.kind, selector) {
        Some(facts) => is_among(facts.values, entity, value),
        None => false,
    }
}

// Whether a value is one of a set, of this entity.
fn is_among(values: ValueSet, entity: &Entity, value: i32) -> bool
    ensures { result ≡ table.is_among values (length entity.now.sources) entity.now.attributes value }
{
    match values {
        ValueSet::Rates => is_frequency(entity.attributes, value),
        ValueSet::Pins => is_pin(entity.sources.as_slice(), value),
        ValueSet::Factors => is_one_to(MOST_TIMES, value),
        ValueSet::Volumes => is_volume(value),
        ValueSet::Switch => is_switch(value),
        ValueSet::ReadOnly => false,
    }
}

fn is_frequency(attributes: u8, value: i32) -> bool
    ensures { result ≡ table.is_frequency attributes value }
{
    match u32::try_from(value) {
        Ok(hertz) if is_fixed(attributes) => hertz == FIXED,
        Ok(hertz) => RATES.contains(&hertz),
        Err(_) => false,
    }
}

// Whether a value is the number of one of these pins, counted from 1, in one byte (profile).
fn is_pin(sources: &[u8], value: i32) -> bool
    ensures { result ≡ table.is_pin (length sources.now) value }
{
    match u8::try_from(value) {
        Ok(pin) => pin >= 1 && usize::from(pin) <= sources.len(),
        Err(_) => false,
    }
}

fn is_one_to(most: u8, value: i32) -> bool
    ensures { result ≡ table.is_one_to most value }
{
    value >= 1 && value <= i32::from(most)
}

fn is_switch(value: i32) -> bool
    ensures { result ≡ table.is_switch value }
{
    value == 0 || value == 1
}

// Whether a volume is silence, a whole number of decibels from -96 to -33 or a half number from -32 to 12, in 1/256 decibel.
fn is_volume(value: i32) -> bool
    ensures { result ≡ is_some (gain_of value) }
{
    match i16::try_from(value) {
        Ok(volume) => gain(volume).is_some(),
        Err(_) => false,
    }
}

// Whether each clock entity has a rate under a change.
#[tactic(auto, unfolding(crate::specs::StoreValues::are_clocked))]
fn are_clocked(function: &Function, store: &Store, change: Change) -> bool
    requires { IsSome (value_of store.now change.key) }
    ensures { result ≡ spec.are_clocked function.now.entities (with_value store.now change.key change.value) }
{
    function.entities().iter().all(|entity| !is_clock(entity.kind)
        || has_rate(function, store, change, entity.id))
}

// Whether the clock entity with an id has a rate under a change.
#[tactic(auto, unfolding(crate::specs::Rates::rate_of))]
fn has_rate(function: &Function, store: &Store, change: Change, clock: u8) -> bool
    requires { IsSome (value_of store.now change.key) }
    ensures { result ≡ is_some (rate_of function.now.entities (with_value store.now change.key change.value) clock) }
{
    rate_within(
        function.entities().len(),
        function,
        store,
        Some(change),
        clock,
    )
    .is_some()
}
