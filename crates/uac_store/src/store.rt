// The store: a value for each control that keeps one.
ghost use Rattle.std.specs.Prelude.{◌≡◌, true, IfOk, IsSome, List, if◌then◌else◌};
ghost use Rattle.uac_entities.specs.declared.entity.Entity.{Entity};
ghost use Rattle.uac_store.specs.Keyed.{same_key, value_of, with_value};
ghost use Rattle.uac_store.specs.StoreControls.{IsStoreOf, initial_controls, takes};
ghost use Rattle.uac_store.specs.Rates.{rate_of};
ghost use Rattle.uac_store.specs.StoreValues.{is_legal};

use crate::keys::Key;
use crate::rates::rate_within;
use crate::start::start_values;
use crate::values::{Change, is_legal};
use indexmap::IndexMap;
use std::alloc::Global;
use std::marker::Model;
use uac_descriptor::NoMemory;
use uac_topology::Function;
use uac_topology::laws::{entities_have_pins, functions_are_sound};

/// A value for each control of an audio function that keeps one, present or absent: frequencies in Hz, selectors' pins
/// from 1, numerators and denominators, mixer nodes and volumes in 1/256 decibel, mutes and enables as 0 or 1.
#[derive(Drop)]
pub struct Store {
    values: IndexMap<Key, i32>,
}

impl Model for Store {
    ghost use Rattle.std.specs.Prelude.{List, ℤ};
    ghost use Rattle.uac_store.specs.declared.keys.Key.{Key};

    ghost Value = { List (Key × ℤ) };

    ghost view = { λ s. s.values.entries };
}

impl Store {
    /// The controls of a function with their start values.
    #[tactic(auto, using(crate::proofs::StoreControlsLemmas::initial_is_store, crate::proofs::StoreControlsSoundLemmas::keyed))]
    pub fn new(alloc: Global, function: &Function) -> Result<Store, NoMemory>
        ensures starts { IfOk result (λ store. store ≡ initial_controls function.now.entities) }
        ensures of_function { IfOk result (λ store. IsStoreOf function.now.entities store) }
    {
        functions_are_sound(function);
        entities_have_pins();
        let values = start_values(alloc, function)?;
        Ok(Store { values })
    }

    /// The value of a control, None exactly where there is no control with this key.
    #[tactic(auto, unfolding(crate::specs::Keyed::value_of))]
    pub fn cur(&self, key: Key) -> Option<i32>
        ensures { result ≡ value_of self.now key }
    {
        self.values.get(&key).copied()
    }

    /// Gives a control a new value. It takes no memory.
    #[tactic(auto, using(crate::proofs::KeyedLemmas::changed_alone, crate::proofs::KeyedLemmas::kept_by_set))]
    pub fn set(&mut self, key: Key, value: i32)
        requires { IsSome (value_of self.old key) }
        ensures value { self.new ≡ with_value self.old key value }
        ensures others { (k : Key) → value_of self.new k ≡ (if same_key key k then Some value else value_of self.old k) }
        ensures of_function { (entities : List Entity) → IsStoreOf entities self.old → takes entities key value ≡ true
            → IsStoreOf entities self.new }
    {
        self.write(key, value);
    }

    #[tactic(auto, unfolding(crate::specs::Keyed::value_of, crate::specs::Keyed::with_value))]
    fn write(&mut self, key: Key, value: i32)
        requires { IsSome (value_of self.old key) }
        ensures { self.new ≡ with_value self.old key value }
    {
        if let Some(held) = self.values.get_mut(&key) {
            *held = value;
        }
    }

    /// The rate in Hz of the clock entity with an id, None exactly where no clock entity has the id or it has no rate.
    #[tactic(auto, unfolding(crate::specs::Rates::rate_of))]
    pub fn rate(&self, function: &Function, clock: u8) -> Option<u32>
        ensures { result ≡ rate_of function.now.entities self.now clock }
    {
        rate_within(function.entities().len(), function, self, None, clock)
    }

    /// Whether a value is legal for a control: one that the control takes, and for a clock entity's control one after
    /// which every clock entity has a rate (profile; Audio Class 2.0, 5.2.5, has the controls). The value is in the
    /// control's own units: Hz, 1/256 decibel, pins from 1, or 0 and 1. It takes no memory and changes nothing.
    pub fn legal(&self, function: &Function, key: Key, value: i32) -> bool
        requires { IsSome (value_of self.now key) }
        ensures { result ≡ is_legal function.now.entities self.now key value }
    {
        is_legal(function, self, Change { key, value })
    }
}
