// The entities by their index and by their id.
ghost use Rattle.std.specs.Prelude.{◌≡◌, ◌<◌, ◌==◌, IfOk, OnOk, length, take, map};
ghost use Rattle.std.specs.Option.{option_map};
ghost use Rattle.uac_entities.specs.EntityInterfaces.{channels_of};
ghost use Rattle.uac_topology_rules.specs.Table as spec;
ghost use Rattle.uac_topology_rules.specs.Indices.{IsTable};

use indexmap::IndexMap;
use std::alloc::Global;
use std::marker::Model;
use uac_descriptor::NoMemory;
use uac_entities::{Cluster, Entity, EntityKind};

/// The entities in block order, found by their ids.
#[derive(Drop)]
pub struct EntityTable {
    entities: Vec<Entity>,
    indices: IndexMap<u8, usize>,
}

impl Model for EntityTable {
    ghost use Rattle.std.specs.Prelude.{List};
    ghost use Rattle.uac_entities.specs.declared.entity.Entity.{Entity};
    ghost use Rattle.uac_topology_rules.specs.Indices.{IsTable};

    ghost Value = { List Entity };

    ghost view = { λ t. t.entities.items };

    ghost invariant = { λ t. IsTable t.entities.items t.indices };
}

impl EntityTable {
    /// The table of these entities.
    pub fn new(alloc: Global, entities: Vec<Entity>) -> Result<EntityTable, NoMemory>
        ensures { IfOk result (λ table. table ≡ entities.items) }
    {
        let indices = indices_of(alloc, entities.as_slice())?;
        Ok(EntityTable { entities, indices })
    }

    /// The entities, lent, in block order.
    pub fn as_slice(&self) -> &[Entity]
        ensures { result.now ≡ self.now }
    {
        self.entities.as_slice()
    }

    /// The entity at an index.
    pub fn at(&self, index: usize) -> &Entity
        requires { index < length self.now }
        ensures { result.now ≡ spec.at self.now index }
    {
        &self.entities[index]
    }

    /// The index of the first entity with this id, None exactly where no entity has it.
    pub fn find(&self, id: u8) -> Option<usize>
        ensures { result ≡ spec.first_index_of self.now id }
    {
        self.indices.get(&id).copied()
    }

    /// The index of the first entity with this id, the number of entities where no entity has it.
    pub fn index_of(&self, id: u8) -> usize
        ensures { result ≡ spec.index_of self.now id }
    {
        match self.find(id) {
            Some(index) => index,
            None => self.entities.len(),
        }
    }

    /// The table with these clusters in place of the entities' own.
    pub(crate) fn with_clusters(self, clusters: &[Cluster]) -> EntityTable
        requires { length clusters.now ≡ length self }
        ensures { result ≡ spec.with_clusters self clusters.now }
    {
        let EntityTable {
            mut entities,
            indices,
        } = self;
        put_clusters(&mut entities, clusters);
        EntityTable { entities, indices }
    }

    /// The kind of the first entity with this id.
    pub fn kind_of(&self, id: u8) -> Option<EntityKind>
        ensures { result ≡ spec.kind_of self.now id }
    {
        match self.find(id) {
            Some(index) => Some(self.entities[index].kind),
            None => None,
        }
    }

    /// The channels that the first entity with this id puts out, 0 where no entity has it.
    pub fn channels_of(&self, id: u8) -> u8
        ensures value { result ≡ channels_of self.now id }
        ensures placed { result ≡ (spec.at self.now (spec.index_of self.now id)).cluster.channels }
    {
        match self.find(id) {
            Some(index) => self.entities[index].cluster.channels,
            None => 0,
        }
    }
}

// Gives each entity its cluster.
fn put_clusters(entities: &mut Vec<Entity>, clusters: &[Cluster])
    requires { length clusters.now ≡ length entities.old.items }
    ensures { entities.new.items ≡ spec.with_clusters entities.old.items clusters.now }
{
    for index in 0..clusters.len() {
        let entity = &mut entities[index];
        entity.cluster = clusters[index];
    }
}

// For each id the index of the first entity with it.
fn indices_of(alloc: Global, entities: &[Entity]) -> Result<IndexMap<u8, usize>, NoMemory>
    ensures { IfOk result (λ indices. IsTable entities.now indices) }
{
    let mut indices = IndexMap::new(alloc);
    for (index, entity) in entities.iter().enumerate() {
        if indices.contains_key(&entity.id) {
            continue;
        }
        indices.insert(entity.id, index)?;
    }
    Ok(indices)
}
