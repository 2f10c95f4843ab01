// The rules by name.
ghost use Rattle.std.specs.Prelude.{◌≡◌};
ghost use Rattle.uac_topology_rules.specs.RuleNumbers as spec;

/// A rule of the topology, named for what breaks it.
#[derive(Clone, Copy)]
pub(crate) enum Rule {
    /// U1: an id is 0.
    ZeroId,
    /// U2: an id is that of an earlier entity.
    RepeatedId,
    /// U3: a signal source is no entity.
    UnknownSource,
    /// U4: a signal source puts out no signal.
    SilentSource,
    /// U5: a clock is no clock entity.
    UnknownClock,
    /// U6: signal links come round.
    SignalCycle,
    /// U7: clock links come round.
    ClockCycle,
    /// U8: a cluster has no channels, too many, or more locations than channels.
    WrongCluster,
    /// U9: a bitmap or a list of controls has another size than its unit needs.
    WrongSize,
    /// U10: the pins of a selector differ.
    UnequalPins,
    /// U11: an input terminal behind an output terminal has another clock.
    OtherClock,
    /// U12: a streaming interface has no USB terminal of its own.
    WrongLink,
    /// U13: a setting has other endpoints than it may have.
    WrongEndpoints,
    /// U14: a limit is passed.
    TooMany,
}

impl Rule {
    /// 1 to 14.
    pub(crate) fn number(self) -> u8
        ensures { result ≡ spec.number self }
    {
        match self {
            Rule::ZeroId => 1,
            Rule::RepeatedId => 2,
            Rule::UnknownSource => 3,
            Rule::SilentSource => 4,
            Rule::UnknownClock => 5,
            Rule::SignalCycle => 6,
            Rule::ClockCycle => 7,
            Rule::WrongCluster => 8,
            Rule::WrongSize => 9,
            Rule::UnequalPins => 10,
            Rule::OtherClock => 11,
            Rule::WrongLink => 12,
            Rule::WrongEndpoints => 13,
            Rule::TooMany => 14,
        }
    }
}
