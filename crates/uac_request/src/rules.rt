// The rules that requests to controls break.
ghost use Rattle.std.specs.Prelude.{◌≡◌, ◌≤◌, ◌==◌, IfOk, IfErr, IfSome, IsSome, List, nat_le, Some, None, if◌then◌else◌, length, true};
ghost use Rattle.std.specs.Prelude.{nat_lt};
ghost use Rattle.std.specs.Int.{w32};
ghost use Rattle.std.specs.Int.RustNames.{FitsSigned};
ghost use Rattle.std.specs.Option.{option_map};
ghost use Rattle.uac_entities.specs.EntityInterfaces.{entity_by_id};
ghost use Rattle.uac_entities.specs.declared.entity.Entity.{Entity};
ghost use Rattle.uac_topology.specs.Function.{FunctionFields};
ghost use Rattle.uac_alt.specs.declared.settings.InterfaceSetting.{InterfaceSetting};
ghost use Rattle.uac_store.specs.StoreControls.{IsStoreOf, count_of, takes};
ghost use Rattle.uac_store.specs.Keyed.{value_of};
ghost use Rattle.uac_store.specs.StoreValues.{is_legal};
ghost use Rattle.uac_request.specs.Owners.{get_rules, owner_fields, set_rules};
ghost use Rattle.uac_request.specs.RuleNumbers.{rule_number};
ghost use Rattle.uac_request.specs.Requests as spec;
ghost use Rattle.uac_request.specs.Requests.{by_entity, first_broken, request_state, key_named, least, owner_of, sent_value};

use crate::bytes::value_from;
use crate::controls::{has_range, is_declared, width_of, writable_entity};
use crate::owner::Owner;
use crate::rule::RequestRule;
use crate::setup::{Setup, key_named, low_byte};
use uac_alt::Settings;
use uac_store::controls::{facts_at, selectors_of};
use uac_store::{Key, Store};
use uac_topology::{Entity, EntityKind, Function};
use uac_topology_rules::is_clock;

/// The first rule that a request for a control's values, or for its ranges, breaks.
pub(crate) fn get_broken(
    function: &Function,
    store: &Store,
    setup: &Setup,
    sent: &[u8],
    range: bool,
    owner: Owner<'_>,
) -> Option<RequestRule>
    requires of_function { IsStoreOf function.now.entities store.now }
    requires asked { setup.now.request_type ≡ 161 }
    requires number { setup.now.request ≡ (if range then 2 else 1) }
    requires of_interface { spec.has_interface function.now (spec.low setup.now.index) ≡ true }
    requires of_index { owner_of function.now setup.now.index ≡ Some (owner_fields owner) }
    ensures broken { (settings : List InterfaceSetting)
        → option_map rule_number result ≡ first_broken function.now (request_state store.now settings) setup.now sent.now }
    ensures ranged { result ≡ None → range ≡ true → spec.has_range (owner_fields owner.entry) (spec.high setup.now.value) ≡ true }
{
    broken_at(function, store, setup, sent, range, owner)
}

// The first rule that it breaks, of those that are left where its control is kept by something.
fn broken_at(
    function: &Function,
    store: &Store,
    setup: &Setup,
    sent: &[u8],
    range: bool,
    owner: Owner<'_>,
) -> Option<RequestRule>
    requires of_function { IsStoreOf function.now.entities store.now }
    requires of_index { owner_of function.now setup.now.index ≡ Some (owner_fields owner) }
    ensures broken { option_map rule_number result ≡ least (get_rules function.now setup.now sent.now (owner_fields owner.entry) range) }
    ensures ranged { result ≡ None → range ≡ true → spec.has_range (owner_fields owner.entry) (spec.high setup.now.value) ≡ true }
{
    let key = key_named(setup);
    if width_of(owner, key.selector).is_none() || (range && !has_range(owner, key.selector)) {
        return Some(RequestRule::UnknownSelector);
    }
    let within = is_in_range(store, setup, owner);
    if within && !is_declared(owner, key.selector, key.channel) {
        return Some(RequestRule::UndeclaredControl);
    }
    if !within {
        return Some(RequestRule::UnknownChannel);
    }
    if !sent.is_empty() {
        return Some(RequestRule::WrongLength);
    }
    None
}

// Whether a control has the channel, or the node, that wValue names.
#[tactic(auto, using(crate::proofs::RequestsOwnerLemmas::entity_named))]
fn is_in_range(store: &Store, setup: &Setup, owner: Owner<'_>) -> bool
    ensures { (function : FunctionFields) → IsStoreOf function.entities store.now → owner_of function setup.now.index
        ≡ Some (owner_fields owner.entry)
        → result ≡ spec.is_in_range function.entities (owner_fields owner.entry) (spec.low setup.now.value) }
{
    match owner {
        Owner::Entity(entity) => has_channel(store, entity.kind, key_named(setup)),
        Owner::Interface(_) => low_byte(setup.value) == 0,
    }
}

// Whether the controls of an entity have a channel: those that keep a value have it exactly where the store has, and a
// terminal's connector is on channel 0 alone.
#[tactic(auto, using(crate::proofs::RequestsOwnerLemmas::of_terminal, crate::proofs::RequestsOwnerLemmas::of_store))]
fn has_channel(store: &Store, kind: EntityKind, key: Key) -> bool
    ensures { (entities : List Entity) (e : Entity) → IsStoreOf entities store.now → entity_by_id entities key.entity ≡ Some e
        → e.kind ≡ kind
        → result ≡ nat_lt key.channel (count_of entities e) }
{
    if selectors_of(kind) >= 1 {
        store.cur(Key { selector: 1, ..key }).is_some()
    } else {
        key.channel == 0
    }
}

/// The value that a request to set a control's value sends, or the first rule that it breaks.
pub(crate) fn value_to_set(
    function: &Function,
    store: &Store,
    settings: &Settings,
    setup: &Setup,
    sent: &[u8],
    owner: Owner<'_>,
) -> Result<i32, RequestRule>
    requires of_function { IsStoreOf function.now.entities store.now }
    requires asked { setup.now.request_type ≡ 33 }
    requires number { setup.now.request ≡ 1 }
    requires of_interface { spec.has_interface function.now (spec.low setup.now.index) ≡ true }
    requires of_index { owner_of function.now setup.now.index ≡ Some (owner_fields owner) }
    ensures broken { IfErr result
        (λ rule. first_broken function.now (request_state store.now settings.now) setup.now sent.now ≡ Some (rule_number rule)) }
    ensures met { IfOk result (λ value. first_broken function.now (request_state store.now settings.now) setup.now sent.now ≡ None) }
    ensures value { IfOk result (λ value. value ≡ sent_value (owner_fields owner.entry) (spec.high setup.now.value) sent.now) }
    ensures kept { IfOk result (λ value. IsSome (value_of store.now (key_named setup.now))) }
    ensures taken { IfOk result (λ value. takes function.now.entities (key_named setup.now) value ≡ true) }
{
    value_sent(function, store, settings, setup, sent, owner)
}

// The value that a SET sends, or its first broken rule, where its control is kept by something.
#[tactic(auto, using(crate::proofs::RequestsOwnerLemmas::entity_named))]
fn value_sent(
    function: &Function,
    store: &Store,
    settings: &Settings,
    setup: &Setup,
    sent: &[u8],
    owner: Owner<'_>,
) -> Result<i32, RequestRule>
    requires of_function { IsStoreOf function.now.entities store.now }
    requires of_index { owner_of function.now setup.now.index ≡ Some (owner_fields owner) }
    ensures broken { IfErr result
        (λ rule. least (set_rules function.now (request_state store.now settings.now) setup.now sent.now (owner_fields owner.entry))
        ≡ Some (rule_number rule)) }
    ensures met { IfOk result
        (λ value. least (set_rules function.now (request_state store.now settings.now) setup.now sent.now (owner_fields owner.entry))
        ≡ None) }
    ensures value { IfOk result (λ value. value ≡ sent_value (owner_fields owner.entry) (spec.high setup.now.value) sent.now) }
    ensures kept { IfOk result (λ value. IsSome (value_of store.now (key_named setup.now))) }
    ensures taken { IfOk result (λ value. takes function.now.entities (key_named setup.now) value ≡ true) }
{
    let key = key_named(setup);
    let Some(width) = width_of(owner, key.selector) else {
        return Err(RequestRule::UnknownSelector);
    };
    let within = is_in_range(store, setup, owner);
    if within && !is_declared(owner, key.selector, key.channel) {
        return Err(RequestRule::UndeclaredControl);
    }
    if !within {
        return Err(RequestRule::UnknownChannel);
    }
    let Some(entity) = writable_entity(owner, key.selector, key.channel) else {
        return Err(RequestRule::ReadOnlyControl);
    };
    if !(setup.length == u16::from(width) && sent.len() == usize::from(width)) {
        return Err(RequestRule::WrongLength);
    }
    let Some(value) = legal_value(function, store, entity, key, sent) else {
        return Err(RequestRule::IllegalValue);
    };
    if is_clock(entity.kind) && (settings.running() && store.cur(key) != Some(value)) {
        return Err(RequestRule::RunningClock);
    }
    Ok(value)
}

// The value that bytes are, where it is legal for a control that a host may set.
#[tactic(auto, unfolding(uac_store::specs::StoreValues::is_legal), using(crate::proofs::RequestsSentLemmas::is_held, crate::proofs::RequestsSentLemmas::at_most_four))]
fn legal_value(
    function: &Function,
    store: &Store,
    entity: &Entity,
    key: Key,
    sent: &[u8],
) -> Option<i32>
    requires of_function { IsStoreOf function.now.entities store.now }
    requires named { entity_by_id function.now.entities key.entity ≡ Some entity.now }
    requires some { 1 ≤ key.selector }
    requires low { key.selector ≤ 2 }
    requires whole { spec.entity_width entity.now.kind key.selector ≡ Some (length sent.now) }
    requires writable { spec.is_writable_on entity.now.kind entity.now key.selector key.channel ≡ true }
    requires within { nat_lt key.channel (count_of function.now.entities entity.now) ≡ true }
    ensures value { result ≡ (if is_legal function.now.entities store.now key (sent_value (by_entity entity.now) key.selector sent.now)
        then Some (sent_value (by_entity entity.now) key.selector sent.now) else None) }
    ensures taken { IfSome result (λ value. takes function.now.entities key value ≡ true) }
    ensures kept { IsSome (value_of store.now key) }
{
    let number = value_from(is_signed(entity.kind, key.selector), sent);
    let Some(value) = in_32_bits(number) else {
        return None;
    };
    if store.legal(function, key, value) {
        Some(value)
    } else {
        None
    }
}

// A value as one of 32 bits, None where it is none.
fn in_32_bits(value: i64) -> Option<i32>
    ensures kept { IfSome result (λ narrow. narrow ≡ value) }
    ensures fits { FitsSigned w32 value → IsSome result }
{
    i32::try_from(value).ok()
}

// Whether a control's values are signed.
fn is_signed(kind: EntityKind, selector: u8) -> bool
    ensures { result ≡ spec.is_signed kind selector }
{
    match facts_at(kind, selector) {
        Some(facts) => facts.signed,
        None => false,
    }
}
