// What kind an entity is of.
ghost use Rattle.std.specs.Prelude.{◌≡◌};
ghost use Rattle.uac_topology_rules.specs.Clusters as clusters;
ghost use Rattle.uac_topology_rules.specs.Links as links;
ghost use Rattle.uac_topology_rules.specs.Rules as rules;

use uac_entities::EntityKind;

/// Whether an entity of the kind is a clock entity (Audio Class 2.0, 3.13.10 to 3.13.12: clock source, clock selector, clock multiplier).
pub fn is_clock(kind: EntityKind) -> bool
    ensures { result ≡ links.is_clock kind }
{
    match kind {
        EntityKind::ClockSource | EntityKind::ClockSelector | EntityKind::ClockMultiplier => true,
        EntityKind::InputTerminal
        | EntityKind::OutputTerminal
        | EntityKind::Mixer
        | EntityKind::Selector
        | EntityKind::Feature
        | EntityKind::Effect => false,
    }
}

/// Whether an entity of the kind is an output terminal (Audio Class 2.0, 3.13.2).
pub fn is_output(kind: EntityKind) -> bool
    ensures { result ≡ rules.is_output kind }
{
    match kind {
        EntityKind::OutputTerminal => true,
        EntityKind::ClockSource
        | EntityKind::ClockSelector
        | EntityKind::ClockMultiplier
        | EntityKind::InputTerminal
        | EntityKind::Mixer
        | EntityKind::Selector
        | EntityKind::Feature
        | EntityKind::Effect => false,
    }
}

/// Whether an entity of the kind is a terminal (Audio Class 2.0, 3.13.1 and 3.13.2).
pub(crate) fn is_terminal(kind: EntityKind) -> bool
    ensures { result ≡ links.is_terminal kind }
{
    match kind {
        EntityKind::InputTerminal | EntityKind::OutputTerminal => true,
        EntityKind::ClockSource
        | EntityKind::ClockSelector
        | EntityKind::ClockMultiplier
        | EntityKind::Mixer
        | EntityKind::Selector
        | EntityKind::Feature
        | EntityKind::Effect => false,
    }
}

/// Whether an entity of the kind has a cluster of its own (Audio Class 2.0, 3.13.1 and 3.13.3).
pub(crate) fn has_own_cluster(kind: EntityKind) -> bool
    ensures { result ≡ clusters.has_own_cluster kind }
{
    match kind {
        EntityKind::InputTerminal | EntityKind::Mixer => true,
        EntityKind::ClockSource
        | EntityKind::ClockSelector
        | EntityKind::ClockMultiplier
        | EntityKind::OutputTerminal
        | EntityKind::Selector
        | EntityKind::Feature
        | EntityKind::Effect => false,
    }
}
