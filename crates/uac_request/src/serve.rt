// The six requests, each by itself.
ghost use Rattle.std.specs.Prelude.{◌≡◌, ℤ, List, ℕ, IfErr, IfOk, None, Some, take, true};
ghost use Rattle.uac_alt.specs.declared.settings.InterfaceSetting.{InterfaceSetting};
ghost use Rattle.uac_store.specs.StoreControls.{IsStoreOf};
ghost use Rattle.uac_store.specs.declared.keys.Key.{Key};
ghost use Rattle.uac_request.specs.Owners.{owner_fields};
ghost use Rattle.uac_request.specs.Requests as spec;
ghost use Rattle.uac_request.specs.Requests.{AreSettingsOf, RequestState, after_request, answer_fields, first_broken};
ghost use Rattle.uac_request.specs.Requests.{request_state, is_to_control, low, reply_of};
ghost use Rattle.uac_request.specs.RuleNumbers.{rule_number};

use crate::current::write_cur;
use crate::owner::{Owner, has_interface, interface_named, owner_of, setting_named};
use crate::ranging::write_ranges;
use crate::reply::{Answer, Reply, stalled};
use crate::rule::RequestRule;
use crate::rules::{get_broken, value_to_set};
use crate::setup::{Setup, key_named, low_byte};
use crate::valid::is_valid;
use arrayvec::ArrayVec;
use uac_alt::Settings;
use uac_store::Store;
use uac_topology::Function;

/// What a request for a control's value is told (Audio Class 2.0, 5.2.2).
#[tactic(auto, unfolding(crate::specs::Requests::reply_of, crate::specs::Requests::after_request), using(crate::proofs::RequestsRuleLemmas::answered_cur, crate::proofs::RequestsRuleLemmas::left_cur))]
pub(crate) fn get_cur(
    function: &Function,
    store: &Store,
    settings: &Settings,
    setup: &Setup,
    sent: &[u8],
) -> Answer
    requires of_function { IsStoreOf function.now.entities store.now }
    requires asked { setup.now.request_type ≡ 161 }
    requires number { setup.now.request ≡ 1 }
    ensures told { answer_fields result ≡ reply_of function.now (request_state store.now settings.now) setup.now sent.now }
    ensures held { request_state store.now settings.now
        ≡ after_request function.now (request_state store.now settings.now) setup.now sent.now }
{
    let owner = match owner_named(function, setup) {
        Ok(owner) => owner,
        Err(rule) => return stalled(rule),
    };
    match get_broken(function, store, setup, sent, false, owner) {
        Some(rule) => stalled(rule),
        None => {
            let mut reply = ArrayVec::new();
            write_cur(&mut reply, function, store, settings, setup, owner);
            cut(&mut reply, setup.length);
            Answer::Bytes(reply)
        }
    }
}

/// What a request for a control's ranges is told (Audio Class 2.0, 5.2.1).
#[tactic(auto, unfolding(crate::specs::Requests::reply_of, crate::specs::Requests::after_request), using(crate::proofs::RequestsRuleLemmas::answered_range, crate::proofs::RequestsRuleLemmas::left_cur))]
pub(crate) fn get_range(function: &Function, store: &Store, setup: &Setup, sent: &[u8]) -> Answer
    requires of_function { IsStoreOf function.now.entities store.now }
    requires asked { setup.now.request_type ≡ 161 }
    requires number { setup.now.request ≡ 2 }
    ensures told { (settings : List InterfaceSetting)
        → answer_fields result ≡ reply_of function.now (request_state store.now settings) setup.now sent.now }
    ensures held { (settings : List InterfaceSetting)
        → request_state store.now settings ≡ after_request function.now (request_state store.now settings) setup.now sent.now }
{
    let owner = match owner_named(function, setup) {
        Ok(owner) => owner,
        Err(rule) => return stalled(rule),
    };
    match get_broken(function, store, setup, sent, true, owner) {
        Some(rule) => stalled(rule),
        None => {
            let mut reply = ArrayVec::new();
            write_ranges(&mut reply, function, setup, owner);
            cut(&mut reply, setup.length);
            Answer::Bytes(reply)
        }
    }
}

/// What a request to set a control's value is told, and the controls after it (Audio Class 2.0, 5.2.2).
#[tactic(auto, unfolding(crate::specs::Requests::reply_of, crate::specs::Requests::after_request), using(crate::proofs::RequestsRuleLemmas::answered_set, crate::proofs::RequestsRuleLemmas::left_set))]
pub(crate) fn set_cur(
    function: &Function,
    store: &mut Store,
    settings: &Settings,
    setup: &Setup,
    sent: &[u8],
) -> Answer
    requires of_function { IsStoreOf function.now.entities store.old }
    requires asked { setup.now.request_type ≡ 33 }
    requires number { setup.now.request ≡ 1 }
    ensures told { answer_fields result ≡ reply_of function.now (request_state store.old settings.now) setup.now sent.now }
    ensures held { request_state store.new settings.now
        ≡ after_request function.now (request_state store.old settings.now) setup.now sent.now }
    ensures of_function { IsStoreOf function.now.entities store.new }
{
    let owner = match owner_named(function, setup) {
        Ok(owner) => owner,
        Err(rule) => return stalled(rule),
    };
    match value_to_set(function, store, settings, setup, sent, owner) {
        Ok(value) => {
            store.set(key_named(setup), value);
            Answer::Done
        }
        Err(rule) => stalled(rule),
    }
}

/// What a request for the configuration is told (USB 2.0, 9.4.3).
#[tactic(auto, unfolding(crate::specs::Requests::reply_of, crate::specs::Requests::after_request), using(crate::proofs::RequestsRuleLemmas::first_descriptor, crate::proofs::RequestsRuleLemmas::answered_descriptor, crate::proofs::RequestsRuleLemmas::left_descriptor))]
pub(crate) fn get_descriptor(function: &Function, setup: &Setup, sent: &[u8]) -> Answer
    requires asked { setup.now.request_type ≡ 128 }
    requires number { setup.now.request ≡ 6 }
    ensures told { (held : RequestState) → answer_fields result ≡ reply_of function.now held setup.now sent.now }
    ensures held { (held : RequestState) → held ≡ after_request function.now held setup.now sent.now }
{
    if setup.value != 0x0200 {
        return stalled(RequestRule::UnknownSelector);
    }
    if !sent.is_empty() {
        return stalled(RequestRule::WrongLength);
    }
    let to = if setup.length <= function.total() {
        setup.length
    } else {
        function.total()
    };
    Answer::Descriptor {
        from: 0,
        to: u32::from(to),
    }
}

/// What a request for an interface's setting is told (USB 2.0, 9.4.4).
#[tactic(auto, unfolding(crate::specs::Requests::reply_of, crate::specs::Requests::after_request), using(crate::proofs::RequestsRuleLemmas::first_interface, crate::proofs::RequestsRuleLemmas::answered_interface, crate::proofs::RequestsRuleLemmas::left_interface))]
pub(crate) fn get_interface(
    function: &Function,
    settings: &Settings,
    setup: &Setup,
    sent: &[u8],
) -> Answer
    requires asked { setup.now.request_type ≡ 129 }
    requires number { setup.now.request ≡ 10 }
    ensures told { (controls : List (Key × ℤ)) → answer_fields result
        ≡ reply_of function.now (request_state controls settings.now) setup.now sent.now }
    ensures held { (controls : List (Key × ℤ))
        → request_state controls settings.now ≡ after_request function.now (request_state controls settings.now) setup.now sent.now }
{
    let Some(interface) = interface_named(function, setup.index) else {
        return stalled(RequestRule::UnknownInterface);
    };
    if !sent.is_empty() {
        return stalled(RequestRule::WrongLength);
    }
    let mut reply = ArrayVec::new();
    reply.push(settings.get(interface).unwrap_or(0));
    cut(&mut reply, setup.length);
    Answer::Bytes(reply)
}

/// What a request to set an interface's setting is told, and the settings after it (USB 2.0, 9.4.10).
#[tactic(auto, unfolding(crate::specs::Requests::reply_of, crate::specs::Requests::after_request), using(crate::proofs::RequestsRuleLemmas::first_set_interface, crate::proofs::RequestsRuleLemmas::answered_set_interface, crate::proofs::RequestsRuleLemmas::left_set_interface))]
pub(crate) fn set_interface(
    function: &Function,
    store: &Store,
    settings: &mut Settings,
    setup: &Setup,
    sent: &[u8],
) -> Answer
    requires settings { AreSettingsOf function.now settings.old }
    requires asked { setup.now.request_type ≡ 1 }
    requires number { setup.now.request ≡ 11 }
    ensures told { answer_fields result ≡ reply_of function.now (request_state store.now settings.old) setup.now sent.now }
    ensures held { request_state store.now settings.new
        ≡ after_request function.now (request_state store.now settings.old) setup.now sent.now }
    ensures of_function { AreSettingsOf function.now settings.new }
{
    let Some(interface) = interface_named(function, setup.index) else {
        return stalled(RequestRule::UnknownInterface);
    };
    if !(setup.length == 0 && sent.is_empty()) {
        return stalled(RequestRule::WrongLength);
    }
    let Some(setting) = setting_named(function, interface, setup.value) else {
        return stalled(RequestRule::UnknownSetting);
    };
    if !can_hold(function, store, interface, setting) {
        return stalled(RequestRule::InvalidSetting);
    }
    settings.set(interface, setting);
    Answer::Done
}

// Whether a setting of an interface is valid; those of the control interface are.
fn can_hold(function: &Function, store: &Store, interface: u8, setting: u8) -> bool
    ensures { result ≡ spec.can_hold function.now store.now interface setting }
{
    match function.interface(interface) {
        Some(stream) => is_valid(function, store, stream, setting),
        None => true,
    }
}

// What keeps the control that a request names, or the rule by which it is stalled where nothing does.
#[tactic(auto, using(crate::proofs::RequestsRuleLemmas::no_interface, crate::proofs::RequestsRuleLemmas::no_owner))]
fn owner_named<'a>(function: &'a Function, setup: &Setup) -> Result<Owner<'a>, RequestRule>
    requires { is_to_control setup.now ≡ true }
    ensures none { IfErr result
        (λ rule. (held : RequestState) (sent : List ℕ) → first_broken function.now held setup.now sent ≡ Some (rule_number rule)) }
    ensures interface { IfOk result (λ owner. spec.has_interface function.now (low setup.now.index) ≡ true) }
    ensures owner { IfOk result (λ owner. spec.owner_of function.now setup.now.index ≡ Some (owner_fields owner)) }
{
    if !has_interface(function, u16::from(low_byte(setup.index))) {
        return Err(RequestRule::UnknownInterface);
    }
    match owner_of(function, setup.index) {
        Some(owner) => Ok(owner),
        None => Err(RequestRule::UnknownOwner),
    }
}

// Cuts the bytes of an answer at wLength.
fn cut(reply: &mut Reply, length: u16)
    ensures { reply.new.items ≡ take length reply.old.items }
{
    reply.truncate(usize::from(length));
}
