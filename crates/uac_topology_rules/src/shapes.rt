// The rules on clusters, sizes and clocks, U8 to U11, and the limits of entities, U14.
ghost use Rattle.std.specs.Prelude.{◌≡◌, ◌<◌, ◌-◌, ◌==◌, ◌&&◌, nat_lt, length, slice_index};
ghost use Rattle.uac_topology_rules.specs.Rules as rules;
ghost use Rattle.uac_topology_rules.specs.RuleFaults.{of_entity, broken_shapes};
ghost use Rattle.uac_topology_rules.specs.RuleNumbers.{number};
ghost use Rattle.uac_topology_rules.specs.ShapeRules as shaping;
ghost use Rattle.uac_topology_rules.specs.Domains.{IsDomains};

use crate::domains::Domains;
use crate::fault::TopologyFault;
use crate::kinds::{has_own_cluster, is_output};
use crate::known::Known;
use crate::rule::Rule;
use uac_entities::EntityKind;

/// The most channels of a cluster, input channels and nodes of a unit, and clock domains of a function (profile).
const MOST_CHANNELS: u8 = 32;

const MOST_INPUTS: u128 = 256;

const MOST_NODES: u128 = 256;

const MOST_DOMAINS: usize = 8;

/// The first fault by the rules U8 to U11.
#[tactic(auto, unfolding(crate::specs::RuleFaults::broken_shapes))]
pub fn shapes_fault(known: &Known) -> Option<TopologyFault>
    ensures { result ≡ broken_shapes known.now }
{
    if let Some(fault) = judge(Rule::WrongCluster, known) {
        return Some(fault);
    }
    if let Some(fault) = judge(Rule::WrongSize, known) {
        return Some(fault);
    }
    if let Some(fault) = judge(Rule::UnequalPins, known) {
        return Some(fault);
    }
    judge(Rule::OtherClock, known)
}

// The first entity that breaks the rule.
fn judge(rule: Rule, known: &Known) -> Option<TopologyFault>
    ensures { result ≡ of_entity (number rule) known.now (shaping.breaks rule) }
{
    for (index, entity) in known.table().as_slice().iter().enumerate() {
        if breaks(rule, known, index) {
            return Some(TopologyFault {
                rule: rule.number(),
                id: entity.id,
                interface: false,
            });
        }
    }
    None
}

/// The first entity that is past a limit, U14.
pub fn entity_limit(known: &Known, domains: &Domains) -> Option<TopologyFault>
    requires { IsDomains known.now domains.now.clocks.items domains.now.counts.items }
    ensures { result ≡ of_entity 14 known.now rules.breaks_u14 }
{
    for (index, entity) in known.table().as_slice().iter().enumerate() {
        if breaks_u14(known, domains, index) {
            return Some(TopologyFault {
                rule: Rule::TooMany.number(),
                id: entity.id,
                interface: false,
            });
        }
    }
    None
}

fn breaks(rule: Rule, known: &Known, index: usize) -> bool
    requires { index < length known.now }
    ensures { result ≡ shaping.breaks rule known.now index }
{
    match rule {
        Rule::WrongCluster => breaks_u8(known, index),
        Rule::WrongSize => breaks_u9(known, index),
        Rule::UnequalPins => breaks_u10(known, index),
        Rule::OtherClock => breaks_u11(known, index),
        Rule::ZeroId
        | Rule::RepeatedId
        | Rule::UnknownSource
        | Rule::SilentSource
        | Rule::UnknownClock
        | Rule::SignalCycle
        | Rule::ClockCycle
        | Rule::WrongLink
        | Rule::WrongEndpoints
        | Rule::TooMany => false,
    }
}

#[tactic(auto, unfolding(crate::specs::Rules::breaks_u8))]
fn breaks_u8(known: &Known, index: usize) -> bool
    requires { index < length known.now }
    ensures { result ≡ rules.breaks_u8 known.now index }
{
    let entity = known.at(index);
    let cluster = entity.cluster;
    let locations = cluster.locations.count_ones();
    has_own_cluster(entity.kind)
        && (cluster.channels == 0
            || (cluster.channels > MOST_CHANNELS || u32::from(cluster.channels) < locations))
}

#[tactic(auto, unfolding(crate::specs::Rules::breaks_u9))]
fn breaks_u9(known: &Known, index: usize) -> bool
    requires { index < length known.now }
    ensures { result ≡ rules.breaks_u9 known.now index }
{
    let entity = known.at(index);
    let channels = known.channels(index);
    let inputs = known.inputs(index);
    let nodes = inputs * u128::from(channels);
    let words = entity.controls.as_slice().len() as u128;
    wrong_size(
        entity.kind,
        entity.mix_bits.as_slice().len() as u128 == (nodes + 7) / 8,
        words == u128::from(channels) + 1,
        words == u128::from(channels) + 2,
    )
}

fn wrong_size(kind: EntityKind, bitmap: bool, words: bool, more: bool) -> bool
    ensures { result ≡ rules.wrong_size kind bitmap words more }
{
    match kind {
        EntityKind::Mixer => !bitmap,
        EntityKind::Feature => !words,
        EntityKind::Effect => !(words || more),
        EntityKind::ClockSource
        | EntityKind::ClockSelector
        | EntityKind::ClockMultiplier
        | EntityKind::InputTerminal
        | EntityKind::OutputTerminal
        | EntityKind::Selector => false,
    }
}

#[tactic(auto, unfolding(crate::specs::Rules::breaks_u10))]
fn breaks_u10(known: &Known, index: usize) -> bool
    requires { index < length known.now }
    ensures { result ≡ rules.breaks_u10 known.now index }
{
    let channels = known.channels(index);
    is_selector(known.at(index).kind) && known.pins_differ(index, channels)
}

#[tactic(auto, unfolding(crate::specs::Rules::breaks_u11))]
fn breaks_u11(known: &Known, index: usize) -> bool
    requires { index < length known.now }
    ensures { result ≡ rules.breaks_u11 known.now index }
{
    let entity = known.at(index);
    is_output(entity.kind) && known.clocks_differ(index, entity.clock)
}

#[tactic(auto, unfolding(crate::specs::Rules::breaks_u14))]
fn breaks_u14(known: &Known, domains: &Domains, index: usize) -> bool
    requires inside { index < length known.now }
    requires counted { IsDomains known.now domains.now.clocks.items domains.now.counts.items }
    ensures { result ≡ rules.breaks_u14 known.now index }
{
    let entity = known.at(index);
    let inputs = known.inputs(index);
    let nodes = inputs * u128::from(known.channels(index));
    too_large(entity.kind, inputs > MOST_INPUTS, nodes > MOST_NODES)
        || passes_limit(&domains.counts, index)
}

// Whether the domains before the index are as many as there may be, and with it there is one more.
fn passes_limit(counts: &[usize], index: usize) -> bool
    requires { index < length counts.now }
    ensures { result ≡ (nat_lt 0 index && (slice_index counts.now (index - 1) == 8 && nat_lt 8 (slice_index counts.now index))) }
{
    index > 0 && (counts[index - 1] == MOST_DOMAINS && counts[index] > MOST_DOMAINS)
}

fn too_large(kind: EntityKind, channels: bool, nodes: bool) -> bool
    ensures { result ≡ rules.too_large kind channels nodes }
{
    match kind {
        EntityKind::Mixer => channels || nodes,
        EntityKind::Selector => channels,
        EntityKind::ClockSource
        | EntityKind::ClockSelector
        | EntityKind::ClockMultiplier
        | EntityKind::InputTerminal
        | EntityKind::OutputTerminal
        | EntityKind::Feature
        | EntityKind::Effect => false,
    }
}

fn is_selector(kind: EntityKind) -> bool
    ensures { result ≡ rules.is_selector kind }
{
    match kind {
        EntityKind::Selector => true,
        EntityKind::ClockSource
        | EntityKind::ClockSelector
        | EntityKind::ClockMultiplier
        | EntityKind::InputTerminal
        | EntityKind::OutputTerminal
        | EntityKind::Mixer
        | EntityKind::Feature
        | EntityKind::Effect => false,
    }
}
