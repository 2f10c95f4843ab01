// Answers that are kept.
ghost use Rattle.std.specs.Prelude.{◌≡◌};
ghost use Rattle.uac_request.specs.Requests.{answer_fields};

use arrayvec::ArrayVec;
use uac_request::{Answer, Reply};

/// A copy of an answer.
pub(crate) fn copy_of(answer: &Answer) -> Answer
    ensures { answer_fields result ≡ answer_fields answer.now }
{
    match answer {
        Answer::Bytes(reply) => Answer::Bytes(same_reply(reply)),
        Answer::Descriptor { from, to } => Answer::Descriptor {
            from: *from,
            to: *to,
        },
        Answer::Done => Answer::Done,
        Answer::Stall(rule) => Answer::Stall(*rule),
    }
}

fn same_reply(reply: &Reply) -> Reply
    ensures { result.items ≡ reply.now.items }
{
    let mut copy = ArrayVec::new();
    match copy.try_extend_from_slice(reply.as_slice()) {
        Ok(()) => copy,
        Err(_) => unreachable!(),
    }
}
