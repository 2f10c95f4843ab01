// The order in which a clock domain's entities are rendered: each after its sources.
ghost use Rattle.std.specs.Prelude.{◌≡◌, ◌==◌, ◌||◌, ℕ, List, [], false, IfOk, IfSome, IfNone, OnOk};
ghost use Rattle.std.specs.List.{list_any};
ghost use Rattle.uac_topology_rules.specs.Walk.{has_walk};
ghost use Rattle.uac_entities.specs.declared.entity.Entity.{Entity};
ghost use Rattle.uac_topology_rules.specs.Links.{is_clock, signal_links};
ghost use Rattle.uac_topology_rules.specs.Table.{index_of};
ghost use Rattle.uac_graph.specs.Fitness.{IsSignalGraph};
ghost use Rattle.uac_graph.specs.Meaning.{entity};
ghost use Rattle.uac_graph.specs.Needs.{reaches};
ghost use Rattle.uac_graph.specs.Orders.{AreOrders, IsKeptOrder, IsRenderOrder, IsOrderOf, has_id};

use crate::tasks::{Task, tasks_of};
use crate::terminals::is_end;
use std::alloc::Global;
use uac_descriptor::NoMemory;
use uac_topology_rules::{EntityTable, is_output};

/// The indices of the entities on which the output terminals of a clock domain depend, and of these terminals, and what is done there.
#[derive(Drop)]
pub(crate) struct Order {
    pub domain: u8,
    pub indices: Vec<usize>,
    pub tasks: Vec<Task>,
}

/// An order for each domain that has an output terminal.
pub(crate) fn orders_of(alloc: Global, table: &EntityTable) -> Result<Vec<Order>, NoMemory>
    requires { IsSignalGraph table.now }
    ensures { IfOk result (λ orders. AreOrders table.now orders.items) }
{
    let mut orders = Vec::new(alloc);
    for entity in table.as_slice() {
        if !is_output(entity.kind) || has_order(&orders, entity.clock) {
            continue;
        }
        let order = kept_order(alloc, table, entity.clock)?;
        orders.push(order)?;
    }
    Ok(orders)
}

// Whether there is an order for the domain.
fn has_order(orders: &[Order], domain: u8) -> bool
    ensures { result ≡ list_any (λ o. o.domain == domain) orders.now }
{
    orders.iter().any(|order| order.domain == domain)
}

// The order for a domain, and what is done at its indices.
fn kept_order(alloc: Global, table: &EntityTable, domain: u8) -> Result<Order, NoMemory>
    requires { IsSignalGraph table.now }
    ensures { IfOk result (λ order. (order.domain ≡ domain) × IsKeptOrder table.now order) }
{
    let indices = order_of(alloc, table, domain)?;
    let tasks = tasks_of(alloc, table, &indices)?;
    Ok(Order {
        domain,
        indices,
        tasks,
    })
}

// The order for a domain.
fn order_of(alloc: Global, table: &EntityTable, domain: u8) -> Result<Vec<usize>, NoMemory>
    requires { IsSignalGraph table.now }
    ensures { IfOk result (λ indices. IsOrderOf table.now domain indices.items) }
{
    let mut indices = Vec::new(alloc);
    let entities = table.as_slice();
    for entity in entities {
        if is_end(domain, entity) {
            visit(table, entity.id, entities.len(), &mut indices)?;
        }
    }
    Ok(indices)
}

// Puts an entity after all that it depends on, where it isn't there yet. No walk of so many links leads on from it.
fn visit(
    table: &EntityTable,
    id: u8,
    links: usize,
    indices: &mut Vec<usize>,
) -> Result<(), NoMemory>
    requires sound { IsSignalGraph table.now }
    requires signal { is_clock (entity table.now id).kind ≡ false }
    requires ends { has_walk (signal_links table.now) links (index_of table.now id) ≡ false }
    requires order { IsRenderOrder table.now indices.old.items }
    ensures order { OnOk result (IsRenderOrder table.now indices.new.items) }
    ensures all { OnOk result ((k : ℕ)
        → has_id table.now indices.new.items k ≡ (has_id table.now indices.old.items k || reaches table.now links id k)) }
{
    let index = table.index_of(id);
    if indices.as_slice().contains(&index) {
        return Ok(());
    }
    for source in table.at(index).sources.as_slice() {
        visit(table, *source, links - 1, indices)?;
    }
    indices.push(index)?;
    Ok(())
}

/// The indices of a domain's order, none where it has no output terminal.
pub(crate) fn indices_for(orders: &[Order], domain: u8) -> &[usize]
    ensures { (entities : List Entity) → AreOrders entities orders.now → IsOrderOf entities domain result.now }
{
    match order_for(orders, domain) {
        Some(order) => order.indices.as_slice(),
        None => &[],
    }
}

/// The order of a domain, None where it has no output terminal.
pub(crate) fn order_for(orders: &[Order], domain: u8) -> Option<&Order>
    ensures found { (entities : List Entity) → AreOrders entities orders.now
        → IfSome result (λ order. (order.now.domain ≡ domain) × IsKeptOrder entities order.now) }
    ensures none { (entities : List Entity) → AreOrders entities orders.now → IfNone result (IsOrderOf entities domain []) }
{
    for order in orders {
        if order.domain == domain {
            return Some(order);
        }
    }
    None
}
