// What the bytes of a block come to, and the end of the input.
ghost use Rattle.std.specs.Prelude.{◌≡◌, ◌<◌, ◌≤◌, length, slice_index, MatchResult};
ghost use Rattle.uac_grammar_rules.specs.Cutting.{IsPiece};
ghost use Rattle.uac_grammar_rules.specs.Fault.{faults_from};
ghost use Rattle.uac_grammar_rules.specs.Grammar.{grammar};
ghost use Rattle.uac_grammar_rules.specs.declared.states.TheConstants.{FURTHEST};
ghost use Rattle.uac_grammar.specs.ReaderKept.{IsPartial};
ghost use Rattle.uac_grammar.specs.Verdict.{IsVerdict, AddsBlock, Refuses, is_kept};

use crate::blocks::read_block;
use crate::fault::ReadStop;
use std::alloc::Global;
use uac_descriptor::Block;
use uac_grammar_rules::{GrammarFault, State};

/// What the bytes of a block so far come to.
#[derive(Clone, Copy)]
pub(crate) enum Verdict {
    /// The block isn't whole.
    Partial,
    /// The block is whole and breaks no rule: it is kept.
    Kept,
    /// The bytes break a rule, whatever follows, or there was no memory for the block.
    Stopped(ReadStop),
}

impl Verdict {
    /// The block is kept.
    pub(crate) fn is_kept(self) -> bool
        ensures { result ≡ is_kept self }
    {
        matches!(self, Verdict::Kept)
    }
}

/// Judges the bytes so far of the block that begins at this place, after the blocks that left this state, and keeps the block.
pub(crate) fn judge(
    alloc: Global,
    blocks: &mut Vec<Block>,
    state: &mut State,
    place: u32,
    bytes: &[u8],
) -> Verdict
    requires fits { place ≤ FURTHEST }
    requires no_more { 2 < length bytes.now → length bytes.now ≤ slice_index bytes.now 0 }
    ensures { IsVerdict blocks.old.items blocks.new.items state.old state.new place bytes.now result }
{
    if bytes.len() < 2 {
        return Verdict::Partial;
    }
    let length = bytes[0];
    if length < 2 {
        return Verdict::Stopped(ReadStop::Fault(GrammarFault { rule: 2, at: place }));
    }
    if bytes.len() < length as usize {
        return Verdict::Partial;
    }
    match keep(alloc, blocks, state, place, bytes) {
        Ok(()) => Verdict::Kept,
        Err(stop) => Verdict::Stopped(stop),
    }
}

/// Reads a whole block at this place, and keeps it unless it breaks a rule.
fn keep(
    alloc: Global,
    blocks: &mut Vec<Block>,
    state: &mut State,
    place: u32,
    bytes: &[u8],
) -> Result<(), ReadStop>
    requires fits { place ≤ FURTHEST }
    requires piece { IsPiece bytes.now }
    ensures { MatchResult result (λ _. AddsBlock blocks.old.items blocks.new.items state.old state.new place bytes.now)
        (λ stop. Refuses blocks.old.items blocks.new.items state.old state.new place bytes.now stop) }
{
    let Some(block) = read_block(alloc, state.context, bytes)? else {
        return Err(ReadStop::Fault(GrammarFault { rule: 3, at: place }));
    };
    if let Err(rule) = state.judge(place, bytes[0], &block) {
        return Err(ReadStop::Fault(GrammarFault { rule, at: place }));
    }
    blocks.push(block)?;
    Ok(())
}

/// Judges the end of the input at this place, with the bytes of a block that isn't whole.
pub(crate) fn judge_end(state: &State, place: u32, pending: &[u8]) -> Option<GrammarFault>
    requires { IsPartial pending.now }
    ensures { result ≡ faults_from grammar state.now place pending.now }
{
    if pending.len() > 0 {
        return Some(GrammarFault { rule: 1, at: place });
    }
    match state.rule_at_end(place) {
        Some(rule) => Some(GrammarFault { rule, at: place }),
        None => None,
    }
}
