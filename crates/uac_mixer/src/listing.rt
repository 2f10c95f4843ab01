// The elements of a function.
ghost use Rattle.std.specs.Prelude.{◌≡◌, ◌≤◌, ◌++◌, [], IfOk, OnOk, sum};
ghost use Rattle.std.specs.List.{cons_option};
ghost use Rattle.uac_store.specs.ControlTable.{IsSmall};
ghost use Rattle.uac_store.specs.StoreControls as store;
ghost use Rattle.uac_mixer.specs.MixerElements as spec;

use crate::element::Element;
use crate::kinds::kind_at;
use std::alloc::Global;
use uac_descriptor::NoMemory;
use uac_request::declared::{is_declared_on, is_writable_on};
use uac_store::Key;
use uac_store::controls::{count_of, selectors_of};
use uac_store::laws::sound_functions_have_keys_and_rates;
use uac_topology::laws::functions_are_sound;
use uac_topology::{Entity, Function};

/// The elements of a function, none of them read yet.
#[tactic(auto, unfolding(crate::specs::MixerElements::element_list))]
pub(crate) fn element_list(alloc: Global, function: &Function) -> Result<Vec<Element>, NoMemory>
    ensures { IfOk result (λ elements. elements.items ≡ spec.element_list function.now.entities) }
{
    functions_are_sound(function);
    sound_functions_have_keys_and_rates();
    let mut elements = Vec::new(alloc);
    for entity in function.entities() {
        add_entity(function, entity, &mut elements)?;
    }
    Ok(elements)
}

// Adds the elements of one entity.
#[tactic(auto, unfolding(crate::specs::MixerElements::entity_elements))]
fn add_entity(
    function: &Function,
    entity: &Entity,
    elements: &mut Vec<Element>,
) -> Result<(), NoMemory>
    requires { IsSmall entity.now.kind (sum (store.pins_of function.now.entities entity.now)) entity.now.cluster.channels }
    ensures { OnOk result (elements.new.items ≡ elements.old.items ++ spec.entity_elements function.now.entities entity.now) }
{
    for below in 0..selectors_of(entity.kind) {
        add_control(function, entity, below + 1, elements)?;
    }
    Ok(())
}

// Adds the elements of one control, for each of its channels that is declared.
#[tactic(auto, unfolding(crate::specs::MixerElements::control_elements))]
fn add_control(
    function: &Function,
    entity: &Entity,
    selector: u8,
    elements: &mut Vec<Element>,
) -> Result<(), NoMemory>
    requires small { IsSmall entity.now.kind (sum (store.pins_of function.now.entities entity.now)) entity.now.cluster.channels }
    requires low { selector ≤ 2 }
    ensures { OnOk result (elements.new.items ≡ elements.old.items ++ spec.control_elements function.now.entities entity.now selector) }
{
    for channel in 0..count_of(function, entity) {
        add_channel(entity, selector, channel as u8, elements)?;
    }
    Ok(())
}

fn add_channel(
    entity: &Entity,
    selector: u8,
    channel: u8,
    elements: &mut Vec<Element>,
) -> Result<(), NoMemory>
    requires { selector ≤ 2 }
    ensures { OnOk result (elements.new.items ≡ elements.old.items ++ cons_option (spec.element_on entity.now selector channel) []) }
{
    let Some(element) = element_on(entity, selector, channel) else {
        return Ok(());
    };
    elements.push(element)?;
    Ok(())
}

// A control as an element that isn't read yet, where it is declared.
fn element_on(entity: &Entity, selector: u8, channel: u8) -> Option<Element>
    requires { selector ≤ 2 }
    ensures { result ≡ spec.element_on entity.now selector channel }
{
    let kind = kind_at(entity.kind, selector)?;
    if !is_declared_on(entity, selector, channel) {
        return None;
    }
    Some(Element {
        key: Key {
            entity: entity.id,
            selector,
            channel,
        },
        kind,
        writable: is_writable_on(entity, selector, channel),
        value: None,
    })
}
