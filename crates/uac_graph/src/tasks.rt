// What is done at the indices of an order at each tick, as it follows from the graph.
ghost use Rattle.std.specs.Prelude.{◌≡◌, ◌<◌, IfOk, length};
ghost use Rattle.std.specs.List.{All};
ghost use Rattle.uac_graph.specs.Tasks as spec;

use crate::jobs::unit_of;
use std::alloc::Global;
use uac_descriptor::NoMemory;
use uac_entities::Entity;
use uac_topology_rules::{EntityTable, is_input};
use uac_units::UnitKind;

/// What is done for an entity at each tick.
#[derive(Clone, Copy)]
pub(crate) enum Work {
    /// An output terminal, `to`, gets its source's frame.
    Pass { from: u8, to: u8 },
    /// A unit of one source is rendered.
    Render { kind: UnitKind, source: u8, id: u8 },
    /// What there is to do is asked of the entity at the tick: it has several sources.
    Ask,
}

/// What is done for the entity at an index.
#[derive(Drop)]
pub(crate) struct Task {
    pub index: usize,
    pub work: Work,
}

/// What is done for the entities at these indices: for an input terminal nothing, since it has its frame.
pub(crate) fn tasks_of(
    alloc: Global,
    table: &EntityTable,
    indices: &[usize],
) -> Result<Vec<Task>, NoMemory>
    requires { All (λ index. index < length table.now) indices.now }
    ensures { IfOk result (λ tasks. tasks.items ≡ spec.tasks_at table.now indices.now) }
{
    let mut tasks = Vec::new(alloc);
    for index in indices {
        let entity = table.at(*index);
        if is_input(entity.kind) {
            continue;
        }
        let task = Task {
            index: *index,
            work: work_of(entity),
        };
        tasks.push(task)?;
    }
    Ok(tasks)
}

// What is done for an entity that is no input terminal.
fn work_of(entity: &Entity) -> Work
    ensures { result ≡ spec.work_of entity.now }
{
    let sources = entity.sources.as_slice();
    if sources.len() != 1 {
        return Work::Ask;
    }
    match unit_of(entity.kind) {
        Some(kind) => Work::Render {
            kind,
            source: sources[0],
            id: entity.id,
        },
        None => Work::Pass {
            from: sources[0],
            to: entity.id,
        },
    }
}
