// The order, found by counting for each node the links that still wait for what they name.
ghost use Rattle.std.specs.Prelude.{◌≡◌, ◌↔◌, true, ℕ, ◌+◌, ◌-◌, ◌<◌, ◌≤◌, ◌==◌, [], ◌∷◌, ◌++◌, IfOk, OnOk, length, map, slice_index};
ghost use Rattle.std.specs.Prelude.{slice_index_or, slice_set, if◌then◌else◌};
ghost use Rattle.uac_topology_rules.specs.Walk.{links, has_walk};
ghost use Rattle.uac_topology_rules.specs.Order.{IsClosed, IsOrder};
ghost use Rattle.uac_topology_rules.specs.Cycles.{ComesRound};
ghost use Rattle.uac_topology_rules.specs.Count.{times};
ghost use Rattle.uac_topology_rules.specs.Noting.{IsNoted, IsNamedBy};
ghost use Rattle.uac_topology_rules.specs.NodeReleasing.{Releases};

use crate::links::Links;
use std::alloc::{AllocError, Global};

/// The nodes from which no walk of as many links as there are nodes leads on, each once, after all
/// those that it names. The time is linear in the links.
pub(crate) fn sources_first(alloc: Global, graph: &[Links]) -> Result<Vec<usize>, AllocError>
    requires { IsClosed graph.now }
    ensures { IfOk result (λ order. IsOrder graph.now order.items) }
{
    let namers = namers_of(alloc, graph)?;
    let mut waiting = counts_of(alloc, graph)?;
    let mut order = ready_of(alloc, waiting.as_slice())?;
    for done in 0..graph.len() {
        if done >= order.len() {
            return Ok(order);
        }
        let node = order[done];
        release(namers[node].as_slice(), &mut waiting, &mut order)?;
    }
    Ok(order)
}

/// Whether links come round behind a node: it has no place in the order.
#[tactic(auto, using(crate::proofs::CyclesLemmas::absent_walks))]
pub(crate) fn comes_round(graph: &[Links], order: &[usize], node: usize) -> bool
    requires closed { IsClosed graph.now }
    requires ordered { IsOrder graph.now order.now }
    requires inside { node < length graph.now }
    ensures round { (result ≡ true) ↔ ComesRound graph.now node }
    ensures walk { result ≡ has_walk graph.now (length graph.now) node }
{
    !order.contains(&node)
}

// For each node the nodes that name it, each as often as it does.
fn namers_of(alloc: Global, graph: &[Links]) -> Result<Vec<Links>, AllocError>
    requires { IsClosed graph.now }
    ensures { IfOk result (λ namers. IsNamedBy graph.now (length graph.now) namers.items) }
{
    let mut namers = no_namers(alloc, graph)?;
    for (node, links) in graph.iter().enumerate() {
        note(node, links.as_slice(), &mut namers)?;
    }
    Ok(namers)
}

// For each node no node that names it yet.
fn no_namers(alloc: Global, graph: &[Links]) -> Result<Vec<Links>, AllocError>
    ensures { IfOk result (λ namers. namers.items ≡ map (λ named. []) graph.now) }
{
    graph.iter().map(|_links| Links::new(alloc)).collect(alloc)
}

// Notes at each of the named nodes that this one names it.
fn note(node: usize, named: &[usize], namers: &mut Vec<Links>) -> Result<(), AllocError>
    requires { (k : ℕ) → k < length named.now → slice_index named.now k < length namers.old.items }
    ensures { OnOk result (IsNoted node named.now namers.old.items namers.new.items) }
{
    for to in named {
        let links = &mut namers[*to];
        links.push(node)?;
    }
    Ok(())
}

// How many links each node has.
fn counts_of(alloc: Global, graph: &[Links]) -> Result<Vec<usize>, AllocError>
    ensures { IfOk result (λ counts. counts.items ≡ map (λ named. length named) graph.now) }
{
    graph
        .iter()
        .map(|links| links.as_slice().len())
        .collect(alloc)
}

// The nodes that wait for none, in the order of their indexes.
fn ready_of(alloc: Global, waiting: &[usize]) -> Result<Vec<usize>, AllocError>
    ensures nodes { IfOk result (λ order. (k : ℕ) → k < length order.items → slice_index order.items k < length waiting.now) }
    ensures once { IfOk result (λ order. (v : ℕ) → v < length waiting.now
        → times v order.items ≡ (if slice_index waiting.now v == 0 then 1 else 0)) }
    ensures none_wait { IfOk result (λ order. (k : ℕ) → k < length order.items → slice_index waiting.now (slice_index order.items k) ≡ 0) }
{
    let mut order = Vec::new(alloc);
    for (node, count) in waiting.iter().enumerate() {
        if *count == 0 {
            order.push(node)?;
        }
    }
    Ok(order)
}

// One node is done: each link that names it waits no more, and a node with none that wait is next.
fn release(
    namers: &[usize],
    waiting: &mut Vec<usize>,
    order: &mut Vec<usize>,
) -> Result<(), AllocError>
    requires { (v : ℕ) → times v namers.now ≤ slice_index waiting.old.items v }
    ensures { OnOk result (Releases namers.now waiting.old.items order.old.items waiting.new.items order.new.items) }
{
    for node in namers {
        let left = waiting[*node] - 1;
        waiting[*node] = left;
        if left == 0 {
            order.push(*node)?;
        }
    }
    Ok(())
}
