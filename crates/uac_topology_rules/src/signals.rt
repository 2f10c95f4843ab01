// The entities with what is found along their signal links: clusters, and the clocks behind them.
ghost use Rattle.std.specs.Prelude.{◌≡◌, ◌<◌, ℕ, false, IfOk, List, length, slice_index, slice_index_or};
ghost use Rattle.std.specs.Option.{option_map_or};
ghost use Rattle.uac_entities.specs.Entities.{no_cluster};
ghost use Rattle.uac_topology_rules.specs.Table.{at};
ghost use Rattle.uac_topology_rules.specs.Clusters as spec;
ghost use Rattle.uac_topology_rules.specs.Behind as behind;
ghost use Rattle.uac_topology_rules.specs.Behind.{Summarizes};
ghost use Rattle.uac_topology_rules.specs.declared.signals.Behind.TheVariants as clocks;
ghost use Rattle.uac_topology_rules.specs.Signals.{AreClusters, AreClocks, IsWalkable};

use crate::kinds::{has_own_cluster, is_clock};
use crate::links::Links;
use crate::table::EntityTable;
use std::alloc::Global;
use uac_descriptor::NoMemory;
use uac_entities::{Cluster, Entity, EntityKind};

/// No channels.
const NO_CLUSTER: Cluster = Cluster {
    channels: 0,
    locations: 0,
    names: 0,
};

/// The clocks of the input terminals behind an entity, as far as the rules ask.
#[derive(Clone, Copy)]
pub enum Behind {
    Nothing,
    One(u8),
    Several,
}

/// The cluster of each entity.
pub(crate) fn clusters_of(
    alloc: Global,
    table: &EntityTable,
    links: &[Links],
    order: &[usize],
) -> Result<Vec<Cluster>, NoMemory>
    requires { IsWalkable table.now links.now order.now }
    ensures { IfOk result (λ clusters. AreClusters table.now clusters.items) }
{
    let mut clusters = no_clusters(alloc, links.len())?;
    for index in order {
        let cluster = cluster_by(
            table.at(*index),
            links[*index].as_slice(),
            clusters.as_slice(),
        );
        clusters[*index] = cluster;
    }
    Ok(clusters)
}

fn no_clusters(alloc: Global, count: usize) -> Result<Vec<Cluster>, NoMemory>
    ensures { IfOk result (λ clusters. length clusters.items ≡ count) }
{
    let mut clusters = Vec::new(alloc);
    for _each in 0..count {
        clusters.push(NO_CLUSTER)?;
    }
    Ok(clusters)
}

// The cluster of an entity, from those of its sources.
fn cluster_by(entity: &Entity, sources: &[usize], clusters: &[Cluster]) -> Cluster
    ensures { result ≡ spec.cluster_by entity.now sources.now (λ p. slice_index_or clusters.now p no_cluster) }
{
    if takes_over(entity.kind) {
        cluster_at(clusters, sources.first().copied())
    } else {
        entity.cluster
    }
}

// The cluster at an index, that of no channels where there is none.
fn cluster_at(clusters: &[Cluster], index: Option<usize>) -> Cluster
    ensures { result ≡ option_map_or (λ p. slice_index_or clusters.now p no_cluster) index no_cluster }
{
    let Some(index) = index else {
        return NO_CLUSTER;
    };
    if index < clusters.len() {
        clusters[index]
    } else {
        NO_CLUSTER
    }
}

// Whether its cluster is that of its first source.
fn takes_over(kind: EntityKind) -> bool
    ensures { result ≡ spec.takes_over kind }
{
    !(is_clock(kind) || has_own_cluster(kind))
}

/// What tells of the clocks behind each entity.
pub(crate) fn clocks_of(
    alloc: Global,
    table: &EntityTable,
    links: &[Links],
    order: &[usize],
) -> Result<Vec<Behind>, NoMemory>
    requires { IsWalkable table.now links.now order.now }
    ensures { IfOk result (λ list. AreClocks table.now list.items) }
{
    let mut list = no_clocks(alloc, links.len())?;
    for index in order {
        let behind = clocks_by(table.at(*index), links[*index].as_slice(), list.as_slice());
        list[*index] = behind;
    }
    Ok(list)
}

fn no_clocks(alloc: Global, count: usize) -> Result<Vec<Behind>, NoMemory>
    ensures { IfOk result (λ list. length list.items ≡ count) }
{
    let mut list = Vec::new(alloc);
    for _each in 0..count {
        list.push(Behind::Nothing)?;
    }
    Ok(list)
}

// What tells of the clocks behind an entity, from what tells of those behind its sources.
fn clocks_by(entity: &Entity, sources: &[usize], list: &[Behind]) -> Behind
    requires { (k : ℕ) → k < length sources.now → slice_index sources.now k < length list.now }
    ensures { (below : ℕ → List ℕ) → ((k : ℕ) → k < length sources.now
        → Summarizes (slice_index_or list.now (slice_index sources.now k) clocks.Nothing) (below (slice_index sources.now k)))
        → Summarizes result (spec.clocks_by entity.now sources.now below) }
{
    if entity.kind == EntityKind::InputTerminal {
        return Behind::One(entity.clock);
    }
    let mut behind = Behind::Nothing;
    for index in sources {
        behind = behind_both(behind, list[*index]);
    }
    behind
}

fn behind_both(left: Behind, right: Behind) -> Behind
    ensures { result ≡ behind.behind_both left right }
{
    match (left, right) {
        (Behind::Nothing, other) => other,
        (Behind::One(clock), Behind::Nothing) => Behind::One(clock),
        (Behind::One(clock), Behind::One(other)) => {
            if clock == other {
                Behind::One(clock)
            } else {
                Behind::Several
            }
        }
        (Behind::One(_), Behind::Several) => Behind::Several,
        (Behind::Several, _) => Behind::Several,
    }
}

/// Whether one of the clocks behind is another than the given one.
pub(crate) fn differs(list: Behind, clock: u8) -> bool
    ensures { result ≡ behind.differs list clock }
{
    match list {
        Behind::Nothing => false,
        Behind::One(one) => one != clock,
        Behind::Several => true,
    }
}
