// The controls of entities in one table: which control a selector names, and what is so of it (Audio Class 2.0, A.17 and 5.2.5).
ghost use Rattle.std.specs.Prelude.{◌≡◌, ◌≤◌, IfSome, sum};
ghost use Rattle.uac_store.specs.StoreControls as spec;
ghost use Rattle.uac_store.specs.ControlTable as table;
ghost use Rattle.uac_store.specs.ControlTable.{IsSmall};

use crate::selectors::{
    CM_DENOMINATOR_CONTROL, CM_NUMERATOR_CONTROL, CS_CLOCK_VALID_CONTROL, CS_SAM_FREQ_CONTROL,
    CX_CLOCK_SELECTOR_CONTROL, EU_ENABLE_CONTROL, FU_MUTE_CONTROL, FU_VOLUME_CONTROL,
    MU_MIXER_CONTROL, SU_SELECTOR_CONTROL, TE_CONNECTOR_CONTROL,
};
use uac_topology::{Entity, EntityKind, Function};

/// A control of an entity (Audio Class 2.0, 5.2.5).
#[derive(Clone, Copy, PartialEq, Eq, Debug)]
pub enum Control {
    /// A clock source's frequency (5.2.5.1.1).
    SamplingFrequency,
    /// Whether a clock source is valid (5.2.5.1.2).
    ClockValid,
    /// The pin that a clock selector takes (5.2.5.2.1).
    ClockSelector,
    /// A clock multiplier's numerator (5.2.5.3.1).
    Numerator,
    /// A clock multiplier's denominator (5.2.5.3.2).
    Denominator,
    /// A terminal's connector (5.2.5.4.2).
    Connector,
    /// A mixer's node (5.2.5.5.1).
    MixerNode,
    /// The pin that a selector takes (5.2.5.6.1).
    Selector,
    /// A feature's mute (5.2.5.7.1).
    Mute,
    /// A feature's volume (5.2.5.7.2).
    Volume,
    /// An effect's enable (5.2.5.8).
    Enable,
}

/// What is so of a control.
#[derive(Clone, Copy, PartialEq, Eq, Debug)]
pub struct Facts {
    /// How many bytes a value of the control has.
    pub width: u8,
    /// Whether a value of the control is signed.
    pub signed: bool,
    /// Whether a value is kept; the other controls are only read.
    pub kept: bool,
    /// Whether the control answers RANGE (5.2.1).
    pub ranged: bool,
    /// Whether a host may ever set the control.
    pub settable: bool,
    /// What a kept value is at the start.
    pub start: Start,
    /// Which values the control takes, and the subranges that RANGE tells of them.
    pub values: ValueSet,
}

/// What a control has at the start (profile).
#[derive(Clone, Copy, PartialEq, Eq, Debug)]
pub enum Start {
    /// This value: a frequency in Hz, a volume in 1/256 decibel, a pin from 1, a factor, or 0 and 1.
    At(i32),
    /// On a mixer's node 0 decibels where its input and its output are the same channel, else silence.
    ByNode,
}

/// The values that a control takes.
#[derive(Clone, Copy, PartialEq, Eq, Debug)]
pub enum ValueSet {
    /// The rates of a clock source, in Hz, by its attributes.
    Rates,
    /// The numbers of the entity's pins, from 1.
    Pins,
    /// 1 to 8 (profile).
    Factors,
    /// The volumes that have a gain, in 1/256 decibel.
    Volumes,
    /// 0 and 1.
    Switch,
    /// None: the control is only read.
    ReadOnly,
}

/// The number of a pin.
const PIN: Facts = Facts {
    width: 1,
    signed: false,
    kept: true,
    ranged: true,
    settable: true,
    start: Start::At(1),
    values: ValueSet::Pins,
};

/// A numerator or a denominator.
const FACTOR: Facts = Facts {
    width: 2,
    signed: false,
    kept: true,
    ranged: true,
    settable: true,
    start: Start::At(1),
    values: ValueSet::Factors,
};

/// A volume.
const GAIN: Facts = Facts {
    width: 2,
    signed: true,
    kept: true,
    ranged: true,
    settable: true,
    start: Start::At(0),
    values: ValueSet::Volumes,
};

/// A switch.
const SWITCH: Facts = Facts {
    width: 1,
    signed: false,
    kept: true,
    ranged: false,
    settable: true,
    start: Start::At(0),
    values: ValueSet::Switch,
};

/// A control that is only read, of one byte.
const READ_ONLY: Facts = Facts {
    width: 1,
    signed: false,
    kept: false,
    ranged: false,
    settable: false,
    start: Start::At(0),
    values: ValueSet::ReadOnly,
};

/// What the controls of a kind are on.
#[derive(Clone, Copy, PartialEq, Eq, Debug)]
pub enum Spread {
    /// The entity as a whole.
    Whole,
    /// The master and each channel (4.7.2.8, 4.7.2.10).
    Channels,
    /// Each node of a mixer.
    Nodes,
}

/// What is so of a control.
pub fn facts_of(control: Control) -> Facts
    ensures value { result ≡ table.facts_of control }
    ensures few { result.width ≤ 6 }
{
    match control {
        Control::SamplingFrequency => Facts {
            width: 4,
            signed: false,
            kept: true,
            ranged: true,
            settable: true,
            start: Start::At(48000),
            values: ValueSet::Rates,
        },
        Control::ClockSelector | Control::Selector => PIN,
        Control::Numerator | Control::Denominator => FACTOR,
        Control::MixerNode => Facts {
            start: Start::ByNode,
            ..GAIN
        },
        Control::Volume => GAIN,
        Control::Mute | Control::Enable => SWITCH,
        Control::ClockValid => READ_ONLY,
        Control::Connector => Facts {
            width: 6,
            ..READ_ONLY
        },
    }
}

// The controls of a kind by their selectors (A.17.1 to A.17.8).
fn controls_by(kind: EntityKind) -> &'static [(u8, Control)]
    ensures { result.now ≡ table.controls_by kind }
{
    match kind {
        EntityKind::ClockSource => &[
            (CS_SAM_FREQ_CONTROL, Control::SamplingFrequency),
            (CS_CLOCK_VALID_CONTROL, Control::ClockValid),
        ],
        EntityKind::ClockSelector => &[(CX_CLOCK_SELECTOR_CONTROL, Control::ClockSelector)],
        EntityKind::ClockMultiplier => &[
            (CM_NUMERATOR_CONTROL, Control::Numerator),
            (CM_DENOMINATOR_CONTROL, Control::Denominator),
        ],
        EntityKind::InputTerminal | EntityKind::OutputTerminal => &[(
            TE_CONNECTOR_CONTROL,
            Control::Connector,
        )],
        EntityKind::Mixer => &[(MU_MIXER_CONTROL, Control::MixerNode)],
        EntityKind::Selector => &[(SU_SELECTOR_CONTROL, Control::Selector)],
        EntityKind::Feature => &[
            (FU_MUTE_CONTROL, Control::Mute),
            (FU_VOLUME_CONTROL, Control::Volume),
        ],
        EntityKind::Effect => &[(EU_ENABLE_CONTROL, Control::Enable)],
    }
}

/// The control that a selector names, None where there is none.
#[tactic(auto, using(crate::proofs::ControlTableLemmas::one_or_two))]
pub fn control_of(kind: EntityKind, selector: u8) -> Option<Control>
    ensures value { result ≡ table.control_of kind selector }
    ensures some { IfSome result (λ control. 1 ≤ selector) }
    ensures low { IfSome result (λ control. selector ≤ 2) }
{
    for row in controls_by(kind) {
        if row.0 == selector {
            return Some(row.1);
        }
    }
    None
}

/// What is so of the control that a selector names, None where there is none.
pub fn facts_at(kind: EntityKind, selector: u8) -> Option<Facts>
    ensures value { result ≡ table.facts_at kind selector }
    ensures few { IfSome result (λ facts. facts.width ≤ 6) }
    ensures some { IfSome result (λ facts. 1 ≤ selector) }
    ensures low { IfSome result (λ facts. selector ≤ 2) }
{
    let control = control_of(kind, selector)?;
    Some(facts_of(control))
}

/// Whether a selector names a control that keeps a value.
pub fn stores_value(kind: EntityKind, selector: u8) -> bool
    ensures { result ≡ table.stores_value kind selector }
{
    match facts_at(kind, selector) {
        Some(facts) => facts.kept,
        None => false,
    }
}

/// Whether a selector names a control that a host may ever set.
pub fn is_settable(kind: EntityKind, selector: u8) -> bool
    ensures { result ≡ table.is_settable kind selector }
{
    match facts_at(kind, selector) {
        Some(facts) => facts.settable,
        None => false,
    }
}

/// How many controls of an entity keep a value: their selectors are 1 to this.
pub fn selectors_of(kind: EntityKind) -> u8
    ensures value { result ≡ table.selectors_of kind }
    ensures few { result ≤ 2 }
{
    if stores_value(kind, 2) {
        2
    } else if stores_value(kind, 1) {
        1
    } else {
        0
    }
}

/// What the controls of a kind are on.
pub fn spread_of(kind: EntityKind) -> Spread
    ensures { result ≡ table.spread_of kind }
{
    match kind {
        EntityKind::Mixer => Spread::Nodes,
        EntityKind::Feature | EntityKind::Effect => Spread::Channels,
        EntityKind::ClockSource
        | EntityKind::ClockSelector
        | EntityKind::ClockMultiplier
        | EntityKind::InputTerminal
        | EntityKind::OutputTerminal
        | EntityKind::Selector => Spread::Whole,
    }
}

/// How many of each control an entity has: a mixer's nodes, the master and the channels of a feature or an effect, else one.
#[tactic(auto, unfolding(crate::specs::StoreControls::count_of))]
pub fn count_of(function: &Function, entity: &Entity) -> usize
    requires { IsSmall entity.now.kind (sum (spec.pins_of function.now.entities entity.now)) entity.now.cluster.channels }
    ensures few { result ≤ 256 }
    ensures value { result ≡ spec.count_of function.now.entities entity.now }
{
    let channels = usize::from(entity.cluster.channels);
    match spread_of(entity.kind) {
        Spread::Nodes => inputs_of(function, entity) * channels,
        Spread::Channels => channels + 1,
        Spread::Whole => 1,
    }
}

// The channels of all its pins. It takes no memory.
#[tactic(auto, unfolding(crate::specs::StoreControls::pins_of))]
fn inputs_of(function: &Function, entity: &Entity) -> usize
    requires { sum (spec.pins_of function.now.entities entity.now) ≤ 256 }
    ensures { result ≡ sum (spec.pins_of function.now.entities entity.now) }
{
    let mut inputs = 0;
    for id in entity.sources.as_slice() {
        inputs += usize::from(function.channels_of(*id));
    }
    inputs
}
