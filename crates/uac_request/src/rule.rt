// The rules by which a request is stalled, by name (profile).
ghost use Rattle.std.specs.Prelude.{◌≡◌};
ghost use Rattle.uac_request.specs.RuleNumbers.{rule_number};

/// A rule by which a request is stalled, named for what breaks it.
#[derive(Clone, Copy)]
pub(crate) enum RequestRule {
    /// Q1: the request is none of the six.
    UnknownRequest,
    /// Q2: the audio function has no such interface.
    UnknownInterface,
    /// Q3: nothing keeps the control that the request names.
    UnknownOwner,
    /// Q4: what keeps the control has no such selector, or no ranges there; a descriptor isn't the configuration.
    UnknownSelector,
    /// Q5: the descriptor doesn't declare the control.
    UndeclaredControl,
    /// Q6: the channel, or the node, is out of range.
    UnknownChannel,
    /// Q7: a host may only read the control.
    ReadOnlyControl,
    /// Q8: other bytes are announced, or come, than the request has.
    WrongLength,
    /// Q9: the value isn't legal.
    IllegalValue,
    /// Q10: a clock would change while some interface runs.
    RunningClock,
    /// Q11: the interface has no such setting.
    UnknownSetting,
    /// Q12: the setting can't run at the rate that its clock has.
    InvalidSetting,
}

impl RequestRule {
    /// 1 to 12.
    pub(crate) fn number(self) -> u8
        ensures { result ≡ rule_number self }
    {
        match self {
            RequestRule::UnknownRequest => 1,
            RequestRule::UnknownInterface => 2,
            RequestRule::UnknownOwner => 3,
            RequestRule::UnknownSelector => 4,
            RequestRule::UndeclaredControl => 5,
            RequestRule::UnknownChannel => 6,
            RequestRule::ReadOnlyControl => 7,
            RequestRule::WrongLength => 8,
            RequestRule::IllegalValue => 9,
            RequestRule::RunningClock => 10,
            RequestRule::UnknownSetting => 11,
            RequestRule::InvalidSetting => 12,
        }
    }
}
