// The rules on what ids name, U1 to U5.
ghost use Rattle.std.specs.Prelude.{◌≡◌, ◌<◌, ◌&&◌, not, length};
ghost use Rattle.std.specs.List.{list_any};
ghost use Rattle.uac_topology_rules.specs.Table as spec;
ghost use Rattle.uac_topology_rules.specs.Links as links;
ghost use Rattle.uac_topology_rules.specs.Rules as rules;
ghost use Rattle.uac_topology_rules.specs.RuleFaults.{of_entity, broken_names};
ghost use Rattle.uac_topology_rules.specs.RuleNumbers.{number};
ghost use Rattle.uac_topology_rules.specs.NameRules as naming;

use crate::fault::TopologyFault;
use crate::kinds::{is_clock, is_terminal};
use crate::rule::Rule;
use crate::table::EntityTable;
use uac_entities::{Entity, EntityKind};

/// The first fault by the rules U1 to U5.
#[tactic(auto, unfolding(crate::specs::RuleFaults::broken_names))]
pub fn names_fault(table: &EntityTable) -> Option<TopologyFault>
    ensures { result ≡ broken_names table.now }
{
    if let Some(fault) = judge(Rule::ZeroId, table) {
        return Some(fault);
    }
    if let Some(fault) = judge(Rule::RepeatedId, table) {
        return Some(fault);
    }
    if let Some(fault) = judge(Rule::UnknownSource, table) {
        return Some(fault);
    }
    if let Some(fault) = judge(Rule::SilentSource, table) {
        return Some(fault);
    }
    judge(Rule::UnknownClock, table)
}

// The first entity that breaks the rule.
fn judge(rule: Rule, table: &EntityTable) -> Option<TopologyFault>
    ensures { result ≡ of_entity (number rule) table.now (naming.breaks rule) }
{
    for (index, entity) in table.as_slice().iter().enumerate() {
        if breaks(rule, table, index) {
            return Some(TopologyFault {
                rule: rule.number(),
                id: entity.id,
                interface: false,
            });
        }
    }
    None
}

fn breaks(rule: Rule, table: &EntityTable, index: usize) -> bool
    requires { index < length table.now }
    ensures { result ≡ naming.breaks rule table.now index }
{
    match rule {
        Rule::ZeroId => breaks_u1(table, index),
        Rule::RepeatedId => breaks_u2(table, index),
        Rule::UnknownSource => breaks_u3(table, index),
        Rule::SilentSource => breaks_u4(table, index),
        Rule::UnknownClock => breaks_u5(table, index),
        Rule::SignalCycle
        | Rule::ClockCycle
        | Rule::WrongCluster
        | Rule::WrongSize
        | Rule::UnequalPins
        | Rule::OtherClock
        | Rule::WrongLink
        | Rule::WrongEndpoints
        | Rule::TooMany => false,
    }
}

#[tactic(auto, unfolding(crate::specs::Rules::breaks_u1))]
fn breaks_u1(table: &EntityTable, index: usize) -> bool
    requires { index < length table.now }
    ensures { result ≡ rules.breaks_u1 table.now index }
{
    table.at(index).id == 0
}

fn breaks_u2(table: &EntityTable, index: usize) -> bool
    requires { index < length table.now }
    ensures { result ≡ rules.breaks_u2 table.now index }
{
    table.index_of(table.at(index).id) < index
}

#[tactic(auto, unfolding(crate::specs::Rules::breaks_u3))]
fn breaks_u3(table: &EntityTable, index: usize) -> bool
    requires { index < length table.now }
    ensures { result ≡ rules.breaks_u3 table.now index }
{
    signal_sources(table.at(index))
        .iter()
        .any(|id| table.kind_of(*id).is_none())
}

#[tactic(auto, unfolding(crate::specs::Rules::breaks_u4))]
fn breaks_u4(table: &EntityTable, index: usize) -> bool
    requires { index < length table.now }
    ensures { result ≡ rules.breaks_u4 table.now index }
{
    signal_sources(table.at(index))
        .iter()
        .any(|id| is_silent(table.kind_of(*id)))
}

#[tactic(auto, unfolding(crate::specs::Rules::breaks_u5))]
fn breaks_u5(table: &EntityTable, index: usize) -> bool
    requires { index < length table.now }
    ensures { result ≡ rules.breaks_u5 table.now index }
{
    let entity = table.at(index);
    lacks_clock(table, entity) || names_no_clock(table, clock_sources(entity))
}

// The entity is a terminal, and its clock isn't a clock entity.
fn lacks_clock(table: &EntityTable, entity: &Entity) -> bool
    ensures { result ≡ (links.is_terminal entity.now.kind && not (rules.is_some_clock (spec.kind_of table.now entity.now.clock))) }
{
    is_terminal(entity.kind) && !is_some_clock(table.kind_of(entity.clock))
}

// One of the ids names no clock entity.
fn names_no_clock(table: &EntityTable, ids: &[u8]) -> bool
    ensures { result ≡ list_any (λ id. not (rules.is_some_clock (spec.kind_of table.now id))) ids.now }
{
    ids.iter().any(|id| !is_some_clock(table.kind_of(*id)))
}

fn is_silent(kind: Option<EntityKind>) -> bool
    ensures { result ≡ rules.is_silent kind }
{
    match kind {
        Some(EntityKind::OutputTerminal) => true,
        Some(kind) => is_clock(kind),
        None => false,
    }
}

fn is_some_clock(kind: Option<EntityKind>) -> bool
    ensures { result ≡ rules.is_some_clock kind }
{
    match kind {
        Some(kind) => is_clock(kind),
        None => false,
    }
}

/// The signal sources of an entity.
#[tactic(auto, unfolding(crate::specs::Links::signal_sources))]
pub(crate) fn signal_sources(entity: &Entity) -> &[u8]
    ensures { result.now ≡ links.signal_sources entity.now }
{
    if is_clock(entity.kind) {
        &[]
    } else {
        entity.sources.as_slice()
    }
}

/// The clock sources of an entity.
#[tactic(auto, unfolding(crate::specs::Links::clock_sources))]
pub(crate) fn clock_sources(entity: &Entity) -> &[u8]
    ensures { result.now ≡ links.clock_sources entity.now }
{
    if is_clock(entity.kind) {
        entity.sources.as_slice()
    } else {
        &[]
    }
}
