// What holds of requests.
ghost use Rattle.std.specs.Prelude.{◌≡◌, ◌⊎◌, ◌<◌, ◌≤◌, ◌*◌, ◌&&◌, ℕ, ℤ, Bool, List, Some, [], drop, length, true};
ghost use Rattle.std.specs.Prelude.{if◌then◌else◌};
ghost use Rattle.std.specs.Int.{bit_at};
ghost use Rattle.byteorder.specs.Endian.{little_number};
ghost use Rattle.uac_alt.specs.AltSettings.{initial_settings, is_running};
ghost use Rattle.uac_alt.specs.declared.settings.InterfaceSetting.{InterfaceSetting};
ghost use Rattle.uac_entities.specs.declared.entity.Entity.{Entity};
ghost use Rattle.uac_entities.specs.declared.stream.StreamInterface.{StreamInterface};
ghost use Rattle.uac_topology.specs.Function.{FunctionFields, interface_in};
ghost use Rattle.uac_topology.specs.Topology.{IsSoundFunction};
ghost use Rattle.uac_store.specs.StoreControls.{IsStoreOf};
ghost use Rattle.uac_store.specs.Keyed.{value_of, with_value};
ghost use Rattle.uac_store.specs.Rates.{rate_of};
ghost use Rattle.uac_store.specs.declared.keys.Key.{Key};
ghost use Rattle.uac_request.specs.RequestElements.{get_of, is_present, set_of, is_signed_at, width_at};
ghost use Rattle.uac_request.specs.Requests.{AreSettingsOf, AreValidSettings, RequestState, IsWithin, after_request, request_state};
ghost use Rattle.uac_request.specs.Requests.{has_setting, is_done, is_stalled, is_valid, map_bytes, valid_bytes, valid_sum};
ghost use Rattle.uac_request.specs.Requests.{reply_of, value_bytes, value_from, with_bytes, with_descriptor};
ghost use Rattle.uac_request.specs.declared.setup.Setup.{Setup};

/// At the start each interface of a function, and no other, has a setting.
#[tactic(auto, using(crate::proofs::RequestsStartLemmas::are_settings))]
pub fn each_interface_starts_with_a_setting()
    ensures { (function : FunctionFields) → AreSettingsOf function (initial_settings function) }
{}

/// A value comes back from its bytes: one that has a place in one, two or four bytes, and so each that a control holds.
#[tactic(auto, using(crate::proofs::RequestsByteLemmas::value_back, crate::proofs::RequestElementsValueLemmas::held_comes_back))]
pub fn values_come_back()
    ensures plain { (width : ℕ) (signed : Bool) (v : ℤ) → (width ≡ 1) ⊎ (width ≡ 2) ⊎ (width ≡ 4) → IsWithin signed width v
        → value_from signed (value_bytes width v) ≡ v }
    ensures held { (entities : List Entity) (controls : List (Key × ℤ)) (k : Key) (v : ℤ) → IsStoreOf entities controls
        → value_of controls k ≡ Some v → value_from (is_signed_at entities k) (value_bytes (width_at entities k) v) ≡ v }
{}

/// The request for the value of a declared control is answered with the value that is held, in the control's bytes, and
/// changes nothing.
#[tactic(auto, using(crate::proofs::RequestElementsLemmas::element_answered, crate::proofs::RequestElementsLemmas::element_keeps, crate::proofs::RequestsByteLemmas::length_value))]
pub fn elements_are_answered()
    ensures value { (function : FunctionFields) (controls : List (Key × ℤ)) (settings : List InterfaceSetting) (k : Key) (v : ℤ)
        → IsSoundFunction function → IsStoreOf function.entities controls
        → is_present function.entities k ≡ true → value_of controls k ≡ Some v
        → reply_of function (request_state controls settings) (get_of function k) []
        ≡ with_bytes (value_bytes (width_at function.entities k) v) }
    ensures width { (width : ℕ) (v : ℤ) → length (value_bytes width v) ≡ width }
    ensures unchanged { (function : FunctionFields) (held : RequestState) (k : Key)
        → after_request function held (get_of function k) [] ≡ held }
{}

/// Where the request to set a control is done, the control holds the value that the bytes are, which are as many as its
/// width, and nothing else changes.
#[tactic(auto, using(crate::proofs::RequestElementsLemmas::set_holds, crate::proofs::RequestElementsLemmas::set_has_width))]
pub fn sets_hold_the_value()
    ensures held { (function : FunctionFields) (controls : List (Key × ℤ)) (settings : List InterfaceSetting) (k : Key) (v : ℤ)
        (sent : List ℕ) → IsSoundFunction function → IsStoreOf function.entities controls
        → value_of controls k ≡ Some v → reply_of function (request_state controls settings) (set_of function k) sent ≡ is_done
        → after_request function (request_state controls settings) (set_of function k) sent
        ≡ request_state (with_value controls k (value_from (is_signed_at function.entities k) sent)) settings }
    ensures width { (function : FunctionFields) (controls : List (Key × ℤ)) (settings : List InterfaceSetting) (k : Key) (v : ℤ)
        (sent : List ℕ) → IsSoundFunction function → IsStoreOf function.entities controls
        → value_of controls k ≡ Some v → reply_of function (request_state controls settings) (set_of function k) sent ≡ is_done
        → length sent ≡ width_at function.entities k }
{}

/// Every request leaves the store and the settings of the function, and settings that are valid at the rates that are
/// held; at the start they are valid.
#[tactic(auto, using(crate::proofs::RequestsLemmas::store_stays, crate::proofs::RequestsLemmas::settings_stay, crate::proofs::RequestsLemmas::valid_stays, crate::proofs::RequestsLemmas::valid_at_start))]
pub fn settings_stay_valid()
    ensures store { (function : FunctionFields) (held : RequestState) (p : Setup) (sent : List ℕ)
        → IsStoreOf function.entities held.controls
        → IsStoreOf function.entities (after_request function held p sent).controls }
    ensures settings { (function : FunctionFields) (held : RequestState) (p : Setup) (sent : List ℕ) → AreSettingsOf function held.settings
        → AreSettingsOf function (after_request function held p sent).settings }
    ensures valid { (function : FunctionFields) (held : RequestState) (p : Setup) (sent : List ℕ)
        → IsStoreOf function.entities held.controls
        → AreSettingsOf function held.settings → AreValidSettings function held
        → AreValidSettings function (after_request function held p sent) }
    ensures starts { (function : FunctionFields) (controls : List (Key × ℤ))
        → AreValidSettings function (request_state controls (initial_settings function)) }
{}

/// In the map of an interface's valid settings bit i is set exactly where the interface has setting i and it is valid, and
/// so it is in the map's bytes, as far as they go (Audio Class 2.0, 5.2.6).
#[tactic(auto, using(crate::proofs::RequestsMapLemmas::bit_by_bit, crate::proofs::RequestsMapLemmas::bytes_bit_by_bit))]
pub fn settings_map_is_bit_by_bit()
    ensures sum { (function : FunctionFields) (controls : List (Key × ℤ)) (interface : ℕ) (s : StreamInterface) (i : ℕ)
        → IsSoundFunction function → interface_in function interface ≡ Some s
        → bit_at (valid_sum function controls s s.settings) i
        ≡ (if has_setting function interface i && is_valid function controls s i then 1 else 0) }
    ensures bytes { (function : FunctionFields) (controls : List (Key × ℤ)) (interface : ℕ) (s : StreamInterface) (i : ℕ)
        → IsSoundFunction function → interface_in function interface ≡ Some s → i < 8 * map_bytes s
        → bit_at (little_number (map_bytes s) (drop 1 (valid_bytes function controls s))) i
        ≡ (if has_setting function interface i && is_valid function controls s i then 1 else 0) }
{}

/// While some setting isn't 0, no request changes the rate of a clock.
#[tactic(auto, using(crate::proofs::RequestsLemmas::rates_stay))]
pub fn running_keeps_rates()
    ensures { (function : FunctionFields) (held : RequestState) (p : Setup) (sent : List ℕ) → IsStoreOf function.entities held.controls
        → is_running held.settings ≡ true → (id : ℕ)
        → rate_of function.entities (after_request function held p sent).controls id ≡ rate_of function.entities held.controls id }
{}

/// A stalled request changes nothing.
#[tactic(auto, using(crate::proofs::RequestsLemmas::stall_leaves_all))]
pub fn stalls_change_nothing()
    ensures { (function : FunctionFields) (held : RequestState) (p : Setup) (sent : List ℕ) (rule : ℕ)
        → reply_of function held p sent ≡ is_stalled rule → after_request function held p sent ≡ held }
{}

/// An answer that is a piece of the configuration begins with its first byte, and ends within it.
#[tactic(auto, using(crate::proofs::RequestsLemmas::begins_at_0, crate::proofs::RequestsLemmas::ends_within))]
pub fn descriptors_end_within_the_total()
    ensures start { (function : FunctionFields) (held : RequestState) (p : Setup) (sent : List ℕ) (from to : ℕ)
        → reply_of function held p sent ≡ with_descriptor from to → from ≡ 0 }
    ensures end { (function : FunctionFields) (held : RequestState) (p : Setup) (sent : List ℕ) (from to : ℕ)
        → reply_of function held p sent ≡ with_descriptor from to → to ≤ function.total }
{}
