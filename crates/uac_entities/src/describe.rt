// From a block to its entity.
ghost use Rattle.std.specs.Prelude.{◌≡◌, IfOk};
ghost use Rattle.uac_entities.specs.Entities as spec;

use crate::entity::{Cluster, Entity, EntityKind};
use crate::lists::{keep, no_bytes, word_list_of};
use std::alloc::Global;
use uac_descriptor::{
    Block, ByteList, ClockMultiplier, ClockSelector, ClockSource, Effect, Feature, InputTerminal,
    Mixer, NoMemory, OutputTerminal, Selector,
};

/// No channels.
const NO_CLUSTER: Cluster = Cluster {
    channels: 0,
    locations: 0,
    names: 0,
};

/// The entities that the blocks describe, in block order. An input terminal and a mixer have their own
/// cluster; the cluster of any other entity is that of no channels until it is found along its sources.
pub fn entities_of(alloc: Global, blocks: &[Block]) -> Result<Vec<Entity>, NoMemory>
    ensures { IfOk result (λ entities. entities.items ≡ spec.entities_of blocks.now) }
{
    let mut entities = Vec::new(alloc);
    for block in blocks {
        let entity = entity_of(alloc, block)?;
        keep(&mut entities, entity)?;
    }
    Ok(entities)
}

// The entity that a block describes, if it describes one.
#[tactic(auto, unfolding(crate::specs::Entities::entity_of))]
fn entity_of(alloc: Global, block: &Block) -> Result<Option<Entity>, NoMemory>
    ensures { IfOk result (λ entity. entity ≡ spec.entity_of block.now) }
{
    match block {
        Block::ClockSource(c) => Ok(Some(clock_source(alloc, c)?)),
        Block::ClockSelector(c) => Ok(Some(clock_selector(alloc, c)?)),
        Block::ClockMultiplier(c) => Ok(Some(clock_multiplier(alloc, c)?)),
        Block::InputTerminal(t) => Ok(Some(input_terminal(alloc, t)?)),
        Block::OutputTerminal(t) => Ok(Some(output_terminal(alloc, t)?)),
        Block::Mixer(m) => Ok(Some(mixer(alloc, m)?)),
        Block::Selector(s) => Ok(Some(selector(alloc, s)?)),
        Block::Feature(f) => Ok(Some(feature(alloc, f)?)),
        Block::Effect(e) => Ok(Some(effect(alloc, e)?)),
        Block::Configuration(_)
        | Block::Association(_)
        | Block::Interface(_)
        | Block::Endpoint(_)
        | Block::Header(_)
        | Block::General(_)
        | Block::TypeOne(_)
        | Block::Extra(_)
        | Block::ClassEndpoint(_)
        | Block::Foreign(_) => Ok(None),
    }
}

fn clock_source(alloc: Global, c: &ClockSource) -> Result<Entity, NoMemory>
    ensures { IfOk result (λ entity. entity ≡ spec.clock_source c.now) }
{
    let controls = word_list_of(alloc, &[u32::from(c.controls)])?;
    Ok(Entity {
        id: c.id,
        kind: EntityKind::ClockSource,
        terminal_type: 0,
        sources: no_bytes(alloc),
        clock: 0,
        cluster: NO_CLUSTER,
        controls,
        mix_bits: no_bytes(alloc),
        attributes: c.attributes,
    })
}

fn clock_selector(alloc: Global, c: &ClockSelector) -> Result<Entity, NoMemory>
    ensures { IfOk result (λ entity. entity ≡ spec.clock_selector c.now) }
{
    let sources = ByteList::from_slice(alloc, c.sources.as_slice())?;
    let controls = word_list_of(alloc, &[u32::from(c.controls)])?;
    Ok(Entity {
        id: c.id,
        kind: EntityKind::ClockSelector,
        terminal_type: 0,
        sources,
        clock: 0,
        cluster: NO_CLUSTER,
        controls,
        mix_bits: no_bytes(alloc),
        attributes: 0,
    })
}

fn clock_multiplier(alloc: Global, c: &ClockMultiplier) -> Result<Entity, NoMemory>
    ensures { IfOk result (λ entity. entity ≡ spec.clock_multiplier c.now) }
{
    let sources = ByteList::from_slice(alloc, &[c.source])?;
    let controls = word_list_of(alloc, &[u32::from(c.controls)])?;
    Ok(Entity {
        id: c.id,
        kind: EntityKind::ClockMultiplier,
        terminal_type: 0,
        sources,
        clock: 0,
        cluster: NO_CLUSTER,
        controls,
        mix_bits: no_bytes(alloc),
        attributes: 0,
    })
}

fn input_terminal(alloc: Global, t: &InputTerminal) -> Result<Entity, NoMemory>
    ensures { IfOk result (λ entity. entity ≡ spec.input_terminal t.now) }
{
    let controls = word_list_of(alloc, &[u32::from(t.controls)])?;
    Ok(Entity {
        id: t.id,
        kind: EntityKind::InputTerminal,
        terminal_type: t.terminal_type,
        sources: no_bytes(alloc),
        clock: t.clock,
        cluster: Cluster {
            channels: t.channels,
            locations: t.locations,
            names: t.names,
        },
        controls,
        mix_bits: no_bytes(alloc),
        attributes: 0,
    })
}

fn output_terminal(alloc: Global, t: &OutputTerminal) -> Result<Entity, NoMemory>
    ensures { IfOk result (λ entity. entity ≡ spec.output_terminal t.now) }
{
    let sources = ByteList::from_slice(alloc, &[t.source])?;
    let controls = word_list_of(alloc, &[u32::from(t.controls)])?;
    Ok(Entity {
        id: t.id,
        kind: EntityKind::OutputTerminal,
        terminal_type: t.terminal_type,
        sources,
        clock: t.clock,
        cluster: NO_CLUSTER,
        controls,
        mix_bits: no_bytes(alloc),
        attributes: 0,
    })
}

fn mixer(alloc: Global, m: &Mixer) -> Result<Entity, NoMemory>
    ensures { IfOk result (λ entity. entity ≡ spec.mixer m.now) }
{
    let sources = ByteList::from_slice(alloc, m.sources.as_slice())?;
    let controls = word_list_of(alloc, &[u32::from(m.controls)])?;
    let mix_bits = ByteList::from_slice(alloc, m.mix_bits.as_slice())?;
    Ok(Entity {
        id: m.id,
        kind: EntityKind::Mixer,
        terminal_type: 0,
        sources,
        clock: 0,
        cluster: Cluster {
            channels: m.channels,
            locations: m.locations,
            names: m.names,
        },
        controls,
        mix_bits,
        attributes: 0,
    })
}

fn selector(alloc: Global, s: &Selector) -> Result<Entity, NoMemory>
    ensures { IfOk result (λ entity. entity ≡ spec.selector s.now) }
{
    let sources = ByteList::from_slice(alloc, s.sources.as_slice())?;
    let controls = word_list_of(alloc, &[u32::from(s.controls)])?;
    Ok(Entity {
        id: s.id,
        kind: EntityKind::Selector,
        terminal_type: 0,
        sources,
        clock: 0,
        cluster: NO_CLUSTER,
        controls,
        mix_bits: no_bytes(alloc),
        attributes: 0,
    })
}

fn feature(alloc: Global, f: &Feature) -> Result<Entity, NoMemory>
    ensures { IfOk result (λ entity. entity ≡ spec.feature f.now) }
{
    let sources = ByteList::from_slice(alloc, &[f.source])?;
    let controls = word_list_of(alloc, f.words.as_slice())?;
    Ok(Entity {
        id: f.id,
        kind: EntityKind::Feature,
        terminal_type: 0,
        sources,
        clock: 0,
        cluster: NO_CLUSTER,
        controls,
        mix_bits: no_bytes(alloc),
        attributes: 0,
    })
}

fn effect(alloc: Global, e: &Effect) -> Result<Entity, NoMemory>
    ensures { IfOk result (λ entity. entity ≡ spec.effect e.now) }
{
    let sources = ByteList::from_slice(alloc, &[e.source])?;
    let controls = word_list_of(alloc, e.words.as_slice())?;
    Ok(Entity {
        id: e.id,
        kind: EntityKind::Effect,
        terminal_type: 0,
        sources,
        clock: 0,
        cluster: NO_CLUSTER,
        controls,
        mix_bits: no_bytes(alloc),
        attributes: 0,
    })
}
