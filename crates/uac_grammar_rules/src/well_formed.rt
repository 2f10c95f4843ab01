// Whether blocks are well-formed.
ghost use Rattle.std.specs.Prelude.{◌≡◌, ◌↔◌, ◌<◌, ℕ, List, [], not, true, IfSome};
ghost use Rattle.std.specs.Bool.{OnTrue};
ghost use Rattle.uac_descriptor.specs.Contexts.{EachIn};
ghost use Rattle.uac_descriptor.specs.BlockTurns.{BeginsWithControl, InTurn, interface_of, interfaces_in};
ghost use Rattle.uac_descriptor.specs.WellFormed.{AreWellFormed, IsWellFormed};
ghost use Rattle.uac_descriptor.specs.declared.context.Context.TheVariants as context;
ghost use Rattle.uac_grammar_rules.specs.Sentence.{IsSentence};
ghost use Rattle.uac_grammar_rules.specs.Values.{HasValues, has_wrong_value};

use crate::roles::BlockRole;
use crate::rules::{is_audio_interface, is_control};
use crate::turns::{is_in_turn, latest_after, use_number};
use crate::values::has_wrong_value;
use uac_descriptor::laws::has_spelling;
use uac_descriptor::{Block, Context};

/// A test for blocks that no reader gave, as those of tests: it is true only of well-formed blocks. Of a sentence's blocks it
/// is true: it asks exactly for a sentence's values, its control interface and its numbers in turn. It takes no memory.
#[tactic(auto, using(crate::proofs::SentenceWellFormedLemmas::well_formed_by, crate::proofs::SentenceWellFormedLemmas::sentence_passes))]
pub fn are_well_formed(blocks: &[Block]) -> bool
    ensures well_formed { OnTrue result (AreWellFormed blocks.now) }
    ensures sentence { (bytes : List ℕ) → IsSentence bytes blocks.now → result ≡ true }
    ensures exact { (result ≡ true) ↔ EachIn HasValues context.DeviceFront blocks.now
        × BeginsWithControl (interfaces_in blocks.now) × InTurn [] (interfaces_in blocks.now) }
{
    have_right_values(blocks) && begin_with_control(blocks) && are_in_turn(blocks)
}

fn have_right_values(blocks: &[Block]) -> bool
    ensures well_formed { OnTrue result (EachIn IsWellFormed context.DeviceFront blocks.now) }
    ensures exact { (result ≡ true) ↔ EachIn HasValues context.DeviceFront blocks.now }
{
    let mut context = Context::DeviceFront;
    for block in blocks {
        if !is_well_formed(context, block) {
            return false;
        }
        context = context.after(block);
    }
    true
}

// Whether a block's values are allowed. That its length and the number of an interface are bytes, its type keeps.
fn is_well_formed(context: Context, block: &Block) -> bool
    ensures well_formed { OnTrue result (IsWellFormed context block.now) }
    ensures exact { result ≡ not (has_wrong_value context block.now) }
{
    has_spelling(block);
    keep_number(block);
    !has_wrong_value(context, block)
}

fn begin_with_control(blocks: &[Block]) -> bool
    ensures { (result ≡ true) ↔ BeginsWithControl (interfaces_in blocks.now) }
{
    for block in blocks {
        let role = BlockRole::of(block);
        if is_control(role) {
            return true;
        }
        if is_audio_interface(role) {
            return false;
        }
    }
    false
}

fn are_in_turn(blocks: &[Block]) -> bool
    ensures { (result ≡ true) ↔ InTurn [] (interfaces_in blocks.now) }
{
    let mut used = [false; 256];
    let mut latest = None;
    for block in blocks {
        keep_number(block);
        if !is_in_turn(&used, latest, block) {
            return false;
        }
        use_number(&mut used, block);
        latest = latest_after(latest, block);
    }
    true
}

// The type `Block` keeps that the number of an interface is a byte.
fn keep_number(block: &Block)
    ensures { IfSome (interface_of block.now) (λ i. i.number < 256) }
{
    if let Block::Interface(interface) = block {
        keep_byte(interface.number);
    }
}

// A number of this type is a byte.
fn keep_byte(number: u8)
    ensures { number < 256 }
{}
