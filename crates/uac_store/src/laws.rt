// What holds of the controls' values and of the rates of clocks.
ghost use Rattle.std.specs.Prelude.{◌≡◌, ℕ, ◌+◌, ℤ, List, length, nat_eq, map};
ghost use Rattle.std.specs.List.{IsDistinct};
ghost use Rattle.uac_entities.specs.declared.entity.Entity.{Entity};
ghost use Rattle.uac_store.specs.declared.keys.Key.{Key};
ghost use Rattle.uac_store.specs.Keyed.{value_of};
ghost use Rattle.uac_store.specs.StoreControls.{initial_controls, start_at, IsKeyed};
ghost use Rattle.uac_topology.specs.Function.{FunctionFields};
ghost use Rattle.uac_topology.specs.Topology.{IsSoundFunction};
ghost use Rattle.uac_store.specs.Rates.{rate_step, rate_within, rate_of, EndsWithin, IsClockTree};

/// Where ids differ, each control has at the start the one value that its kind gives it, and no other key has one.
#[tactic(auto, using(crate::proofs::StoreControlsLemmas::initial_value))]
pub fn each_control_has_its_start_value()
    ensures { (entities : List Entity) (k : Key) → IsDistinct nat_eq (map (λ e. e.id) entities)
        → value_of (initial_controls entities) k ≡ start_at entities k }
{}

/// Steps past the longest walk change no rate.
#[tactic(auto, using(crate::proofs::RatesWalkLemmas::settles))]
pub fn more_steps_change_no_rate()
    ensures { (entities : List Entity) (controls : List (Key × ℤ)) (id n more : ℕ) → EndsWithin n entities id
        → rate_within (n + more) entities controls id ≡ rate_within n entities controls id }
{}

/// Where no clock feeds itself, each clock's rate is what it makes of its sources' rates.
#[tactic(auto, using(crate::proofs::RatesWalkLemmas::follows))]
pub fn each_rate_follows_its_sources()
    ensures { (entities : List Entity) (controls : List (Key × ℤ)) (id : ℕ) → IsClockTree entities
        → rate_of entities controls id ≡ rate_step entities controls (rate_of entities controls) id }
{}

/// The controls of a sound function have a key each, and none of its clocks feeds itself.
#[tactic(auto, using(crate::proofs::StoreControlsSoundLemmas::keyed, crate::proofs::StoreControlsSoundLemmas::clock_tree))]
pub fn sound_functions_have_keys_and_rates()
    ensures keys { (function : FunctionFields) → IsSoundFunction function → IsKeyed function.entities }
    ensures rates { (function : FunctionFields) → IsSoundFunction function → IsClockTree function.entities }
{}
