// Entities, copied.
ghost use Rattle.std.specs.Prelude.{◌≡◌, IfOk};

use std::alloc::Global;
use uac_descriptor::{ByteList, NoMemory, WordList};
use uac_entities::Entity;

/// Copies of entities.
pub(crate) fn copies_of(alloc: Global, entities: &[Entity]) -> Result<Vec<Entity>, NoMemory>
    ensures { IfOk result (λ copies. copies.items ≡ entities.now) }
{
    let mut copies = Vec::new(alloc);
    for entity in entities {
        let copy = copy_of(alloc, entity)?;
        copies.push(copy)?;
    }
    Ok(copies)
}

fn copy_of(alloc: Global, entity: &Entity) -> Result<Entity, NoMemory>
    ensures { IfOk result (λ copy. copy ≡ entity.now) }
{
    let sources = items_of(alloc, entity.sources.as_slice())?;
    let controls = items_of(alloc, entity.controls.as_slice())?;
    let mix_bits = items_of(alloc, entity.mix_bits.as_slice())?;
    Ok(Entity {
        id: entity.id,
        kind: entity.kind,
        terminal_type: entity.terminal_type,
        sources: ByteList::from_vec(sources),
        clock: entity.clock,
        cluster: entity.cluster,
        controls: WordList::from_vec(controls),
        mix_bits: ByteList::from_vec(mix_bits),
        attributes: entity.attributes,
    })
}

// Copies of items.
fn items_of<T: Copy>(alloc: Global, items: &[T]) -> Result<Vec<T>, NoMemory>
    ensures { IfOk result (λ copy. copy.items ≡ items.now) }
{
    Ok(Vec::from_slice(alloc, items)?)
}
