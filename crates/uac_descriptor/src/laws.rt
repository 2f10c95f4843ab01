// Laws of the spellings, each the contract of a function that does nothing.
ghost use Rattle.uac_descriptor.specs.Laws.{OneSpelling, SpeltIsRead, ReadIsSpelt, IsKeptBlock, HasSpelling};

use crate::block::Block;

/// In one context no bytes are spelt by two blocks.
pub fn one_spelling()
    ensures { OneSpelling }
{}

/// Bytes are read as a block exactly where they spell it.
pub fn blocks_are_read_as_spelt()
    ensures spelt_is_read { SpeltIsRead }
    ensures read_is_spelt { ReadIsSpelt }
{}

/// The type `Block` keeps that its block has a spelling, of at most 255 bytes.
#[tactic(auto, using(crate::proofs::LawsLemmas::kept_is_spelt))]
pub fn has_spelling(block: &Block)
    ensures { HasSpelling block.now }
{
    keep_block(block);
}

/// What the type keeps.
fn keep_block(block: &Block)
    ensures { IsKeptBlock block.now }
{
    match block {
        Block::Mixer(block) => {
            let _ = &block.id;
        },
        Block::Selector(block) => {
            let _ = &block.id;
        },
        Block::Feature(block) => {
            let _ = &block.id;
        },
        Block::Effect(block) => {
            let _ = &block.id;
        },
        Block::ClockSelector(block) => {
            let _ = &block.id;
        },
        Block::Extra(block) => {
            let _ = &block.subtype;
        },
        Block::Foreign(block) => {
            let _ = &block.bytes;
        },
        Block::Configuration(_)
        | Block::Association(_)
        | Block::Interface(_)
        | Block::Endpoint(_)
        | Block::Header(_)
        | Block::InputTerminal(_)
        | Block::OutputTerminal(_)
        | Block::ClockSource(_)
        | Block::ClockMultiplier(_)
        | Block::General(_)
        | Block::TypeOne(_)
        | Block::ClassEndpoint(_) => {},
    }
}
