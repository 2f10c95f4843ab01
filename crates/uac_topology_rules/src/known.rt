// A function whose names and walks are in order, with what is found along its links.
ghost use Rattle.std.specs.Prelude.{◌≡◌, ◌<◌, ◌^◌, ◌==◌, ℕ, None, not, IfOk, length, map, sum, slice_index, slice_index_or};
ghost use Rattle.uac_entities.specs.Entities.{no_cluster};
ghost use Rattle.std.specs.List.{list_any};
ghost use Rattle.uac_topology_rules.specs.Table.{at};
ghost use Rattle.uac_topology_rules.specs.Clusters as spec;
ghost use Rattle.uac_topology_rules.specs.Rules as rules;
ghost use Rattle.uac_topology_rules.specs.RuleFaults.{broken_names};
ghost use Rattle.uac_topology_rules.specs.WalkRules.{IsWalked};

use crate::links::Links;
use crate::signals::{Behind, clocks_of, clusters_of, differs};
use crate::table::EntityTable;
use crate::walks::Walked;
use std::alloc::Global;
use std::marker::Model;
use uac_descriptor::NoMemory;
use uac_entities::{Cluster, Entity};

/// The entities of a function whose names and walks are in order, with the cluster that each puts out.
#[derive(Drop)]
pub struct Known {
    table: EntityTable,
    links: Vec<Links>,
    clusters: Vec<Cluster>,
    clocks: Vec<Behind>,
}

impl Model for Known {
    ghost use Rattle.std.specs.Prelude.{List};
    ghost use Rattle.uac_entities.specs.declared.entity.Entity.{Entity};
    ghost use Rattle.uac_topology_rules.specs.Signals.{IsKnown};

    ghost Value = { List Entity };

    ghost view = { λ k. k.table };

    ghost invariant = { λ k. IsKnown k.table k.links.items k.clusters.items k.clocks.items };
}

impl Known {
    /// What is found along the links of a function without a cycle.
    pub fn new(alloc: Global, table: EntityTable, walked: Walked) -> Result<Known, NoMemory>
        requires named { broken_names table ≡ None }
        requires walked { IsWalked table walked.links.items walked.order.items walked.fault }
        requires ends { walked.fault ≡ None }
        ensures { IfOk result (λ known. known ≡ table) }
    {
        let links = walked.links;
        let order = walked.order;
        let clusters = clusters_of(alloc, &table, &links, &order)?;
        let clocks = clocks_of(alloc, &table, &links, &order)?;
        Ok(Known {
            table,
            links,
            clusters,
            clocks,
        })
    }

    /// The entities, each with the cluster that it puts out.
    pub fn into_table(self) -> EntityTable
        ensures { result ≡ spec.with_own_clusters self }
    {
        let Known {
            table,
            links: _,
            clusters,
            clocks: _,
        } = self;
        table.with_clusters(clusters.as_slice())
    }

    /// The entities by their indices and ids.
    pub fn table(&self) -> &EntityTable
        ensures { result.now ≡ self.now }
    {
        &self.table
    }

    /// The cluster that the entity at an index puts out.
    pub fn cluster(&self, index: usize) -> Cluster
        requires { index < length self.now }
        ensures { result ≡ spec.cluster_of self.now index }
    {
        self.clusters[index]
    }

    /// The channels that the entity at an index puts out.
    pub(crate) fn channels(&self, index: usize) -> u8
        requires { index < length self.now }
        ensures { result ≡ (spec.cluster_of self.now index).channels }
    {
        self.cluster(index).channels
    }

    /// The entity at an index, as the blocks describe it.
    pub(crate) fn at(&self, index: usize) -> &Entity
        requires { index < length self.now }
        ensures { result.now ≡ at self.now index }
    {
        self.table.at(index)
    }

    /// The channels of all pins of the entity at an index.
    pub(crate) fn inputs(&self, index: usize) -> u128
        requires { index < length self.now }
        ensures value { result ≡ spec.inputs self.now index }
        ensures small { result < 2 ^ 72 }
    {
        inputs_of(self.links[index].as_slice(), self.clusters.as_slice())
    }

    /// Whether a pin of the entity at an index has another number of channels than this.
    pub(crate) fn pins_differ(&self, index: usize, channels: u8) -> bool
        requires { index < length self.now }
        ensures { result ≡ list_any (λ n. not (n == channels)) (spec.pins self.now index) }
    {
        channels_differ(
            self.links[index].as_slice(),
            self.clusters.as_slice(),
            channels,
        )
    }

    /// Whether an input terminal behind the entity at an index has another clock than this.
    pub(crate) fn clocks_differ(&self, index: usize, clock: u8) -> bool
        requires { index < length self.now }
        ensures { result ≡ list_any (λ c. not (c == clock)) (spec.clocks_of self.now index) }
    {
        differs(self.clocks[index], clock)
    }
}

// The channels of all sources together.
fn inputs_of(sources: &[usize], clusters: &[Cluster]) -> u128
    requires { (k : ℕ) → k < length sources.now → slice_index sources.now k < length clusters.now }
    ensures small { result < 2 ^ 72 }
    ensures value { result ≡ sum (map (λ p. (slice_index_or clusters.now p no_cluster).channels) sources.now) }
{
    let mut total: u128 = 0;
    for index in sources {
        total += u128::from(clusters[*index].channels);
    }
    total
}

// Whether a source has another number of channels.
fn channels_differ(sources: &[usize], clusters: &[Cluster], channels: u8) -> bool
    requires { (k : ℕ) → k < length sources.now → slice_index sources.now k < length clusters.now }
    ensures { result ≡ list_any (λ n. not (n == channels)) (map (λ p. (slice_index_or clusters.now p no_cluster).channels) sources.now) }
{
    for index in sources {
        if clusters[*index].channels != channels {
            return true;
        }
    }
    false
}
