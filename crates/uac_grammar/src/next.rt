// The next bytes of a block: as many as it lacks, or all that are there. A fault can show only at a block's second byte, for a
// wrong length, or at its last, so nothing is judged in between.
ghost use Rattle.std.specs.Prelude.{◌≡◌, ◌≤◌, ◌<◌, ◌+◌, ◌++◌, [], length, take};
ghost use Rattle.uac_grammar_rules.specs.declared.states.TheConstants.{FURTHEST};
ghost use Rattle.uac_grammar.specs.ReaderKept.{IsPartial};
ghost use Rattle.uac_grammar.specs.Verdict.{IsVerdict, bytes_wanted, pending_after};

use crate::judge::{Verdict, judge};
use arrayvec::ArrayVec;
use std::alloc::Global;
use uac_descriptor::Block;
use uac_grammar_rules::State;

/// What the next bytes come to.
#[derive(Clone, Copy)]
pub(crate) struct Next {
    /// How many bytes were taken.
    pub count: usize,
    /// How many bytes of their block there are with them.
    pub size: usize,
    /// What these bytes come to.
    pub verdict: Verdict,
}

/// Judges the pending bytes of a block and the next ones, which are pending after it unless they end the block.
pub(crate) fn judge_next(
    alloc: Global,
    blocks: &mut Vec<Block>,
    state: &mut State,
    place: u32,
    pending: &mut ArrayVec<u8, 255>,
    bytes: &[u8],
) -> Next
    requires fits { place ≤ FURTHEST }
    requires partial { IsPartial pending.old.items }
    requires some { 0 < length bytes.now }
    ensures some { 0 < result.count }
    ensures within { result.count ≤ length bytes.now }
    ensures size { result.size ≡ length pending.old.items + result.count }
    ensures short { result.size ≤ 255 }
    ensures verdict { IsVerdict blocks.old.items blocks.new.items state.old state.new place
        (pending.old.items ++ take result.count bytes.now) result.verdict }
    ensures left { pending.new.items ≡ pending_after result.verdict (pending.old.items ++ take result.count bytes.now) }
{
    if pending.is_empty() {
        // the block is judged where it lies
        let count = bytes_wanted(bytes[0]).min(bytes.len());
        let front = &bytes[..count];
        let verdict = judge(alloc, blocks, state, place, front);
        if !verdict.is_kept() {
            let _fits = pending.try_extend_from_slice(front);
        }
        return Next {
            count,
            size: count,
            verdict,
        };
    }
    let count = (bytes_wanted(pending[0]) - pending.len()).min(bytes.len());
    let _fits = pending.try_extend_from_slice(&bytes[..count]);
    let size = pending.len();
    let verdict = judge(alloc, blocks, state, place, pending.as_slice());
    if verdict.is_kept() {
        pending.clear();
    }
    Next {
        count,
        size,
        verdict,
    }
}

/// How many bytes a block has of this length byte; but two show that a length below 2 is wrong.
fn bytes_wanted(length: u8) -> usize
    ensures { result ≡ bytes_wanted length }
{
    (length as usize).max(2)
}
