// The clock domains.
ghost use Rattle.std.specs.Prelude.{◌≡◌, ◌==◌, IfOk, OnOk};
ghost use Rattle.std.specs.List.{list_any};
ghost use Rattle.uac_topology_rules.specs.Domains as spec;
ghost use Rattle.uac_topology_rules.specs.Domains.{IsDomains};

use crate::kinds::is_terminal;
use std::alloc::Global;
use uac_descriptor::NoMemory;
use uac_entities::Entity;

/// The clocks that terminals name, each once, in the order in which they are first named.
#[derive(Drop)]
pub struct Domains {
    pub clocks: Vec<u8>,
    /// For each entity, how many clocks it and those before it name.
    pub(crate) counts: Vec<usize>,
}

impl Domains {
    /// The clocks alone.
    pub fn into_clocks(self) -> Vec<u8>
        ensures { result.items ≡ self.clocks.items }
    {
        let Domains { clocks, counts: _ } = self;
        clocks
    }
}

/// The clock domains of these entities.
pub fn domains_of(alloc: Global, entities: &[Entity]) -> Result<Domains, NoMemory>
    ensures { IfOk result (λ domains. IsDomains entities.now domains.clocks.items domains.counts.items) }
{
    let mut clocks = Vec::new(alloc);
    let mut counts = Vec::new(alloc);
    for entity in entities {
        note(entity, &mut clocks)?;
        counts.push(clocks.len())?;
    }
    Ok(Domains { clocks, counts })
}

// Puts the clock of a terminal after the others, if none before named it.
#[tactic(auto, unfolding(crate::specs::Domains::with_named_clock))]
fn note(entity: &Entity, clocks: &mut Vec<u8>) -> Result<(), NoMemory>
    ensures { OnOk result (clocks.new.items ≡ spec.with_named_clock clocks.old.items entity.now) }
{
    if !names_new(clocks.as_slice(), entity) {
        return Ok(());
    }
    clocks.push(entity.clock)?;
    Ok(())
}

// Whether the entity names a clock that is none of these.
#[tactic(auto, unfolding(crate::specs::Domains::names_new))]
fn names_new(clocks: &[u8], entity: &Entity) -> bool
    ensures { result ≡ spec.names_new clocks.now entity.now }
{
    is_terminal(entity.kind) && !has(clocks, entity.clock)
}

fn has(clocks: &[u8], clock: u8) -> bool
    ensures { result ≡ list_any (λ c. c == clock) clocks.now }
{
    clocks.contains(&clock)
}
