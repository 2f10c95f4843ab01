// What a user of the graph may rely on. Each function does nothing: its contract is the law.

ghost use Rattle.std.specs.Prelude.{◌≡◌, ◌==◌, ◌<◌, ◌≤◌, ◌*◌, ◌^◌, ◌&&◌, nat_eq, ℕ, ℤ, List, true, false, length};
ghost use Rattle.std.specs.List.{IsDistinct, list_any};
ghost use Rattle.uac_entities.specs.declared.entity.Entity.{Entity};
ghost use Rattle.uac_topology_rules.specs.Links.{is_clock};
ghost use Rattle.uac_topology_rules.specs.Rules.{is_output};
ghost use Rattle.uac_graph.specs.GraphControls.{Controls};
ghost use Rattle.uac_graph.specs.Fitness.{IsSignalGraph};
ghost use Rattle.uac_graph.specs.Meaning.{entity, meaning, samples_by};
ghost use Rattle.uac_graph.specs.Needs.{depends_on, is_end, is_unit, needed_units, reaches};
ghost use Rattle.uac_topology.specs.Function.{FunctionFields};
ghost use Rattle.uac_topology.specs.Topology.{IsSoundFunction};

use uac_topology::Function;

/// The samples on each wire are those that its entity makes of the samples on the wires of its sources.
pub fn each_wire_has_its_equation()
    ensures { (entities : List Entity) (controls : Controls) (ins : ℕ → List ℤ) (id : ℕ) → IsSignalGraph entities
        → meaning entities controls ins id ≡ samples_by entities controls ins (meaning entities controls ins) id }
{}

/// A sound function has a signal graph.
#[tactic(auto, using(crate::proofs::FitnessLemmas::sound_graph))]
pub fn sound_functions_have_a_graph()
    ensures { (function : FunctionFields) → IsSoundFunction function → IsSignalGraph function.entities }
{}

/// On each unit that a domain needs one of its output terminals depends, in any list of entities; in a sound one these are exactly the
/// units on which one does, each of them once.
#[tactic(auto, using(crate::proofs::NeedsLemmas::needed_depended, crate::proofs::NeedsLemmas::needed_are, crate::proofs::NeedsLemmas::needed_apart))]
pub fn needed_units_are_depended_on()
    ensures depended { (entities : List Entity) (domain id : ℕ) → list_any (λ n. n == id) (needed_units entities domain) ≡ true
        → depends_on entities domain id ≡ true }
    ensures members { (entities : List Entity) (domain id : ℕ) → IsSignalGraph entities
        → list_any (λ n. n == id) (needed_units entities domain) ≡ (is_unit (entity entities id).kind && depends_on entities domain id) }
    ensures apart { (entities : List Entity) (domain : ℕ) → IsSignalGraph entities → IsDistinct nat_eq (needed_units entities domain) }
{}

/// A walk of signal source links, of any number of links, is one of those that are counted: as many links as there are entities are
/// never needed.
#[tactic(auto, using(crate::proofs::NeedsLemmas::reached_by_any))]
pub fn no_walk_is_too_long()
    ensures { (entities : List Entity) (n from id : ℕ) → IsSignalGraph entities → is_clock (entity entities from).kind ≡ false
        → reaches entities n from id ≡ true → reaches entities (length entities) from id ≡ true }
{}

/// An output terminal of a sound function is no entity's source, so a clock domain renders it exactly where it is an end of the
/// domain.
#[tactic(auto, using(crate::proofs::NeedsEndLemmas::output_terminals))]
pub fn output_terminals_are_ends()
    ensures { (function : FunctionFields) → IsSoundFunction function → (domain id : ℕ) → is_output (entity function.entities id).kind ≡ true
        → depends_on function.entities domain id ≡ is_end domain (entity function.entities id) }
{}

/// A domain needs no more units than its function has entities, so a fresh count has room for those of so many ticks.
pub fn fresh_steps_have_room_for_ticks(function: &Function)
    ensures { (domain ticks : ℕ) → ticks ≤ 128 → ticks * length (needed_units function.now.entities domain) < 2 ^ 64 }
{
    let _entities = function.entities();
}

/// A domain needs no more units than its function has entities, so a fresh count has room for them.
#[tactic(auto, using(crate::proofs::NeedsLemmas::needed_few))]
pub fn fresh_steps_have_room(function: &Function)
    ensures { (domain : ℕ) → length (needed_units function.now.entities domain) < 2 ^ 64 }
{
    let _entities = function.entities().len();
}
