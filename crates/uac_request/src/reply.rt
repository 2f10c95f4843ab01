// What a request is told.
ghost use Rattle.std.specs.Prelude.{◌≡◌};
ghost use Rattle.uac_request.specs.Requests.{answer_fields, is_stalled};
ghost use Rattle.uac_request.specs.RuleNumbers.{rule_number};

use crate::rule::RequestRule;
use arrayvec::ArrayVec;

/// The bytes of an answer: at most two, and twelve subranges of three values of four bytes (Audio Class 2.0, 5.2.3.3).
pub type Reply = ArrayVec<u8, 146>;

/// What a request is told.
#[derive(Drop)]
pub enum Answer {
    /// The bytes of the answer, cut at wLength.
    Bytes(Reply),
    /// A piece of the configuration, from one of its bytes up to another.
    Descriptor { from: u32, to: u32 },
    /// The request is done.
    Done,
    /// The request is stalled, by the rule with this number.
    Stall(u8),
}

/// A stall by a rule.
pub(crate) fn stalled(rule: RequestRule) -> Answer
    ensures { answer_fields result ≡ is_stalled (rule_number rule) }
{
    Answer::Stall(rule.number())
}
