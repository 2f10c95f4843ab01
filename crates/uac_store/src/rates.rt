// The rates of clock entities.
ghost use Rattle.std.specs.Prelude.{◌≡◌, ◌≤◌, IfSome, IsSome};
ghost use Rattle.uac_clock.specs.Nominal.{is_listed};
ghost use Rattle.uac_store.specs.Keyed.{value_of};
ghost use Rattle.uac_store.specs.Rates as spec;
ghost use Rattle.uac_store.specs.StoreValues.{values_after};

use crate::keys::Key;
use crate::selectors::{
    CM_DENOMINATOR_CONTROL, CM_NUMERATOR_CONTROL, CS_SAM_FREQ_CONTROL, CX_CLOCK_SELECTOR_CONTROL,
};
use crate::store::Store;
use crate::values::Change;
use uac_clock::RATES;
use uac_topology::{Entity, EntityKind, Function};

/// The rate of the clock entity with an id, along at most so many entities.
#[tactic(auto, unfolding(crate::specs::Rates::rate_step), using(crate::proofs::RatesStepLemmas::rate_within_none, crate::proofs::RatesStepLemmas::rate_within_more))]
pub(crate) fn rate_within(
    steps: usize,
    function: &Function,
    store: &Store,
    change: Option<Change>,
    id: u8,
) -> Option<u32>
    requires { IfSome change (λ c. IsSome (value_of store.now c.key)) }
    ensures { result ≡ spec.rate_within steps function.now.entities (values_after store.now change) id }
{
    if steps == 0 {
        return None;
    }
    let entity = function.entity(id)?;
    match entity.kind {
        EntityKind::ClockSource => source_rate(store, change, entity.id),
        EntityKind::ClockSelector => {
            let source = chosen_source(store, change, entity)?;
            rate_within(steps - 1, function, store, change, source)
        }
        EntityKind::ClockMultiplier => {
            let source = entity.sources.as_slice().first().copied()?;
            let rate = rate_within(steps - 1, function, store, change, source)?;
            multiplier_rate(store, change, entity.id, rate)
        }
        EntityKind::InputTerminal
        | EntityKind::OutputTerminal
        | EntityKind::Mixer
        | EntityKind::Selector
        | EntityKind::Feature
        | EntityKind::Effect => None,
    }
}

// The rate that a source's frequency is.
#[tactic(auto, unfolding(crate::specs::Rates::source_rate))]
fn source_rate(store: &Store, change: Option<Change>, id: u8) -> Option<u32>
    requires { IfSome change (λ c. IsSome (value_of store.now c.key)) }
    ensures { result ≡ spec.source_rate (values_after store.now change) id }
{
    let hertz = value(store, change, id, CS_SAM_FREQ_CONTROL)?;
    of_frequency(hertz)
}

// The clock source that a clock selector chooses.
#[tactic(auto, unfolding(crate::specs::Rates::chosen_source))]
fn chosen_source(store: &Store, change: Option<Change>, entity: &Entity) -> Option<u8>
    requires { IfSome change (λ c. IsSome (value_of store.now c.key)) }
    ensures { result ≡ spec.chosen_source (values_after store.now change) entity.now }
{
    let pin = value(store, change, entity.id, CX_CLOCK_SELECTOR_CONTROL)?;
    source_on_pin(entity.sources.as_slice(), pin)
}

// The rate of a multiplier by the rate of its source.
#[tactic(auto, unfolding(crate::specs::Rates::multiplier_rate))]
fn multiplier_rate(store: &Store, change: Option<Change>, id: u8, rate: u32) -> Option<u32>
    requires { IfSome change (λ c. IsSome (value_of store.now c.key)) }
    ensures { result ≡ spec.multiplier_rate (values_after store.now change) id rate }
{
    let numerator = value(store, change, id, CM_NUMERATOR_CONTROL)?;
    let denominator = value(store, change, id, CM_DENOMINATOR_CONTROL)?;
    rate_times(rate, numerator, denominator)
}

// The value of a control that has no channels but 0.
fn value(store: &Store, change: Option<Change>, entity: u8, selector: u8) -> Option<i32>
    requires { IfSome change (λ c. IsSome (value_of store.now c.key)) }
    ensures { result ≡ spec.value_at (values_after store.now change) entity selector }
{
    let key = Key {
        entity,
        selector,
        channel: 0,
    };
    cur_under(store, change, key)
}

// The value of a control under a change.
#[tactic(auto, using(crate::proofs::KeyedLemmas::changed_alone))]
fn cur_under(store: &Store, change: Option<Change>, key: Key) -> Option<i32>
    requires { IfSome change (λ c. IsSome (value_of store.now c.key)) }
    ensures { result ≡ value_of (values_after store.now change) key }
{
    match change {
        Some(change) if change.key == key => Some(change.value),
        _ => store.cur(key),
    }
}

fn listed_rate(hertz: u64) -> Option<u32>
    ensures { result ≡ spec.listed_rate hertz }
{
    let hertz = u32::try_from(hertz).ok()?;
    if RATES.contains(&hertz) {
        Some(hertz)
    } else {
        None
    }
}

fn of_frequency(hertz: i32) -> Option<u32>
    ensures { result ≡ spec.of_frequency hertz }
{
    listed_rate(u64::try_from(hertz).ok()?)
}

// The pin that a selector's value chooses.
fn source_on_pin(sources: &[u8], pin: i32) -> Option<u8>
    ensures { result ≡ spec.source_on_pin sources.now pin }
{
    if pin < 1 {
        return None;
    }
    sources.get((pin - 1) as usize).copied()
}

fn rate_times(rate: u32, numerator: i32, denominator: i32) -> Option<u32>
    ensures { result ≡ spec.rate_times rate numerator denominator }
{
    if numerator < 1 || denominator < 1 {
        return None;
    }
    let times = u64::from(rate) * numerator as u64;
    let parts = denominator as u64;
    if times % parts != 0 {
        return None;
    }
    listed_rate(times / parts)
}
