// What the meters hear of a tick.
ghost use Rattle.std.specs.Prelude.{◌≡◌, IfOk, List};
ghost use Rattle.std.specs.Option.{option_map};
ghost use Rattle.uac_entities.specs.declared.entity.Entity.{Entity};
ghost use Rattle.uac_graph.specs.Wiring.{AreWiresOf};
ghost use Rattle.uac_units.specs.MeterReadings.{readings};
ghost use Rattle.uac_device.specs.DeviceWorld.{after_frames};
ghost use Rattle.uac_device.specs.DeviceTurns as spec;

use crate::terminals::is_output_jack;
use std::alloc::Global;
use uac_descriptor::NoMemory;
use uac_entities::Entity;
use uac_graph::Wires;
use uac_pcm::Frame;
use uac_units::{Meter, Meters};

/// An output jack: its terminal's id and its clock domain.
#[derive(Clone, Copy)]
pub struct OutputJack {
    pub terminal: u8,
    pub domain: u8,
}

/// The output jacks among these entities, in their order.
pub(crate) fn output_jacks(alloc: Global, entities: &[Entity]) -> Result<Vec<OutputJack>, NoMemory>
    ensures { IfOk result (λ jacks. jacks.items ≡ spec.jacks_of entities.now) }
{
    let mut jacks = Vec::new(alloc);
    for entity in entities {
        if !is_output_jack(entity) {
            continue;
        }
        jacks.push(jack_of(entity))?;
    }
    Ok(jacks)
}

fn jack_of(entity: &Entity) -> OutputJack
    ensures { result ≡ spec.jack_of entity.now }
{
    OutputJack {
        terminal: entity.id,
        domain: entity.clock,
    }
}

/// The meters hear the frames of a domain's jacks, in their order.
// The condition is for the checker, which else holds that a boxed meter may be made here, and covers no caller.
pub(crate) fn hear(jacks: &[OutputJack], wires: &Wires, domain: u8, meters: &mut Meters)
    requires { (entities : List Entity) × AreWiresOf entities wires.now }
    ensures { readings (λ v x. (⟦<dyn Meter as Meter>⟧ v).reading_of x) meters.new
        ≡ after_frames (spec.frames_heard wires.now domain jacks.now)
        (readings (λ v x. (⟦<dyn Meter as Meter>⟧ v).reading_of x) meters.old) }
{
    for jack in jacks {
        if let Some(frame) = heard_frame(jack, wires, domain) {
            meters.hear(frame);
        }
    }
}

// The frame of a jack of the domain.
fn heard_frame<'a>(jack: &OutputJack, wires: &'a Wires, domain: u8) -> Option<&'a Frame>
    ensures { option_map (λ frame. frame.now.items) result ≡ spec.heard_on wires.now domain jack.now }
{
    if jack.domain == domain {
        wires.get(jack.terminal)
    } else {
        None
    }
}
