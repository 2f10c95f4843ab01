// The links between entities, as graphs of indices.
ghost use Rattle.std.specs.Prelude.{◌≡◌, IfOk, map};
ghost use Rattle.uac_topology_rules.specs.Table.{index_of};
ghost use Rattle.uac_topology_rules.specs.Links.{signal_links, clock_links};

use crate::links::Links;
use crate::names::{clock_sources, signal_sources};
use crate::table::EntityTable;
use std::alloc::Global;
use uac_descriptor::NoMemory;

/// For each entity the indices of its signal sources.
pub(crate) fn signal_graph(alloc: Global, table: &EntityTable) -> Result<Vec<Links>, NoMemory>
    ensures { IfOk result (λ graph. graph.items ≡ signal_links table.now) }
{
    let mut graph = Vec::new(alloc);
    for entity in table.as_slice() {
        let links = links_to(alloc, table, signal_sources(entity))?;
        graph.push(links)?;
    }
    Ok(graph)
}

/// For each entity the indices of its clock sources.
pub(crate) fn clock_graph(alloc: Global, table: &EntityTable) -> Result<Vec<Links>, NoMemory>
    ensures { IfOk result (λ graph. graph.items ≡ clock_links table.now) }
{
    let mut graph = Vec::new(alloc);
    for entity in table.as_slice() {
        let links = links_to(alloc, table, clock_sources(entity))?;
        graph.push(links)?;
    }
    Ok(graph)
}

// The indices of the entities with these ids.
fn links_to(alloc: Global, table: &EntityTable, ids: &[u8]) -> Result<Links, NoMemory>
    ensures { IfOk result (λ links. links ≡ map (index_of table.now) ids.now) }
{
    let mut links = Links::new(alloc);
    for id in ids {
        links.push(table.index_of(*id))?;
    }
    Ok(links)
}
