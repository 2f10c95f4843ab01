// The rules on walks, U6 and U7.
ghost use Rattle.std.specs.Prelude.{◌≡◌, None, IfOk, length};
ghost use Rattle.uac_topology_rules.specs.Order.{IsClosed, IsOrder};
ghost use Rattle.uac_topology_rules.specs.RuleFaults.{broken_names, of_entity};
ghost use Rattle.uac_topology_rules.specs.RuleNumbers.{number};
ghost use Rattle.uac_topology_rules.specs.WalkRules.{IsWalked, goes_on};

use crate::fault::TopologyFault;
use crate::graph::{clock_graph, signal_graph};
use crate::links::Links;
use crate::order::{comes_round, sources_first};
use crate::rule::Rule;
use crate::table::EntityTable;
use std::alloc::Global;
use uac_descriptor::NoMemory;

/// The signal links, an order of the entities in which sources stand first, and the first fault by the
/// rules U6 and U7.
#[derive(Drop)]
pub struct Walked {
    pub(crate) links: Vec<Links>,
    pub(crate) order: Vec<usize>,
    pub fault: Option<TopologyFault>,
}

/// Follows the links of entities whose names are in order.
pub fn walk(alloc: Global, table: &EntityTable) -> Result<Walked, NoMemory>
    requires { broken_names table.now ≡ None }
    ensures { IfOk result (λ walked. IsWalked table.now walked.links.items walked.order.items walked.fault) }
{
    let links = signal_graph(alloc, table)?;
    let order = sources_first_order(alloc, &links)?;
    let clock_links = clock_graph(alloc, table)?;
    let clock_order = sources_first_order(alloc, &clock_links)?;
    let signal_fault = judge(Rule::SignalCycle, table, &links, &order);
    let clock_fault = judge(Rule::ClockCycle, table, &clock_links, &clock_order);
    let fault = signal_fault.or(clock_fault);
    Ok(Walked {
        links,
        order,
        fault,
    })
}

fn sources_first_order(alloc: Global, graph: &[Links]) -> Result<Vec<usize>, NoMemory>
    requires { IsClosed graph.now }
    ensures { IfOk result (λ order. IsOrder graph.now order.items) }
{
    Ok(sources_first(alloc, graph)?)
}

// The first entity from which links come round.
fn judge(rule: Rule, table: &EntityTable, graph: &[Links], order: &[usize]) -> Option<TopologyFault>
    requires sized { length graph.now ≡ length table.now }
    requires closed { IsClosed graph.now }
    requires ordered { IsOrder graph.now order.now }
    ensures { result ≡ of_entity (number rule) table.now (goes_on graph.now) }
{
    for (index, entity) in table.as_slice().iter().enumerate() {
        if comes_round(graph, order, index) {
            return Some(TopologyFault {
                rule: rule.number(),
                id: entity.id,
                interface: false,
            });
        }
    }
    None
}
