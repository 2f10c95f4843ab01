// The blocks of the functions that are tried, each by the numbers in which they differ, and the function that blocks describe.
ghost use Rattle.std.specs.Prelude.{◌≡◌, IfOk};
ghost use Rattle.uac_descriptor.specs.Layout.{IsEffect, IsFeature, IsMixer, IsSelector};

use std::alloc::{AllocError, Global};
use uac_descriptor::{
    Block, ByteList, ClockSource, Effect, Endpoint, Feature, General, InputTerminal, Interface,
    Mixer, OutputTerminal, Selector, TypeOne, WordList,
};
use uac_grammar_rules::are_well_formed;
use uac_topology::{Function, check};

pub(crate) fn push(blocks: &mut Vec<Block>, block: Block) -> Result<(), AllocError> {
    match blocks.push(block) {
        Ok(()) => Ok(()),
        Err(_) => Err(AllocError),
    }
}

pub(crate) fn bytes(alloc: Global, items: &[u8]) -> Result<ByteList, AllocError>
    ensures { IfOk result (λ list. list ≡ items.now) }
{
    let items = Vec::from_slice(alloc, items)?;
    Ok(ByteList::from_vec(items))
}

pub(crate) fn words(alloc: Global, items: &[u32]) -> Result<WordList, AllocError>
    ensures { IfOk result (λ list. list ≡ items.now) }
{
    let items = Vec::from_slice(alloc, items)?;
    Ok(WordList::from_vec(items))
}

fn interface(number: u8, subclass: u8, setting: u8, endpoints: u8) -> Block {
    Block::Interface(Interface {
        number,
        setting,
        endpoints,
        class: 1,
        subclass,
        protocol: 0x20,
        name: 0,
    })
}

/// The control interface, with which the blocks of an audio function begin.
pub(crate) fn control(number: u8) -> Block {
    interface(number, 1, 0, 0)
}

/// A setting of a streaming interface: setting 0 has no endpoints.
pub(crate) fn streaming(number: u8, setting: u8, endpoints: u8) -> Block {
    interface(number, 2, setting, endpoints)
}

/// A clock source: its attributes are 1 where its frequency is fixed, and 3 where it is programmable.
pub(crate) fn clock(id: u8, attributes: u8) -> Block {
    Block::ClockSource(ClockSource {
        id,
        attributes,
        controls: 7,
        assoc: 0,
        name: 0,
    })
}

/// An input terminal under clock 1.
pub(crate) fn input(id: u8, terminal_type: u16, channels: u8, locations: u32) -> Block {
    Block::InputTerminal(InputTerminal {
        id,
        terminal_type,
        assoc: 0,
        clock: 1,
        channels,
        locations,
        names: 0,
        controls: 0,
        name: 0,
    })
}

/// An output terminal under clock 1.
pub(crate) fn output(id: u8, terminal_type: u16, source: u8) -> Block {
    Block::OutputTerminal(OutputTerminal {
        id,
        terminal_type,
        assoc: 0,
        source,
        clock: 1,
        controls: 0,
        name: 0,
    })
}

/// A feature unit, by the words of its controls: the master's first, then each channel's.
pub(crate) fn feature(
    alloc: Global,
    id: u8,
    source: u8,
    controls: &[u32],
) -> Result<Block, AllocError>
    requires { IsFeature controls.now }
{
    Ok(Block::Feature(Feature {
        id,
        source,
        words: words(alloc, controls)?,
        name: 0,
    }))
}

/// An effect unit, by the words of its controls.
pub(crate) fn effect(
    alloc: Global,
    id: u8,
    effect_type: u16,
    source: u8,
    controls: &[u32],
) -> Result<Block, AllocError>
    requires { IsEffect controls.now }
{
    Ok(Block::Effect(Effect {
        id,
        effect_type,
        source,
        words: words(alloc, controls)?,
        name: 0,
    }))
}

/// A selector unit, whose pin can be chosen.
pub(crate) fn selector(alloc: Global, id: u8, sources: &[u8]) -> Result<Block, AllocError>
    requires { IsSelector sources.now }
{
    Ok(Block::Selector(Selector {
        id,
        sources: bytes(alloc, sources)?,
        controls: 3,
        name: 0,
    }))
}

/// A mixer unit, by the bits of the nodes that can be set.
pub(crate) fn mixer(
    alloc: Global,
    id: u8,
    sources: &[u8],
    channels: u8,
    locations: u32,
    mix_bits: &[u8],
) -> Result<Block, AllocError>
    requires { IsMixer sources.now mix_bits.now }
{
    Ok(Block::Mixer(Mixer {
        id,
        sources: bytes(alloc, sources)?,
        channels,
        locations,
        names: 0,
        mix_bits: bytes(alloc, mix_bits)?,
        controls: 0,
        name: 0,
    }))
}

/// The control interface of this number, and under clock 1 a terminal 2 of the bus of so many channels that feeds a jack 3, and a jack 4
/// of one channel that feeds a terminal 5 of the bus.
pub(crate) fn push_two_ways(
    blocks: &mut Vec<Block>,
    number: u8,
    channels: u8,
) -> Result<(), AllocError> {
    push(blocks, control(number))?;
    push(blocks, clock(1, 3))?;
    push(blocks, input(2, 0x0101, channels, 0))?;
    push(blocks, output(3, 0x0301, 2))?;
    push(blocks, input(4, 0x0201, 1, 0))?;
    push(blocks, output(5, 0x0101, 4))
}

/// The general block of a setting that carries PCM of so many channels to or from this terminal.
pub(crate) fn pcm(link: u8, channels: u8) -> General {
    General {
        link,
        controls: 0,
        format_type: 1,
        formats: 1,
        channels,
        locations: 0,
        names: 0,
    }
}

/// A setting's format, whose samples use all bits of subslots of so many bytes.
pub(crate) fn push_format(
    blocks: &mut Vec<Block>,
    general: General,
    subslot: u8,
) -> Result<(), AllocError> {
    let bits = 8 * subslot.min(4);
    push(blocks, Block::General(general))?;
    push(blocks, Block::TypeOne(TypeOne { subslot, bits }))
}

pub(crate) fn endpoint(address: u8, attributes: u8, max_packet: u16, interval: u8) -> Block {
    Block::Endpoint(Endpoint {
        address,
        attributes,
        max_packet,
        interval,
    })
}

/// The function that blocks describe.
pub(crate) fn function_of(alloc: Global, blocks: &[Block]) -> Result<Function, AllocError> {
    if !are_well_formed(blocks) {
        return Err(AllocError);
    }
    match check(alloc, blocks) {
        Ok(function) => Ok(function),
        Err(_) => Err(AllocError),
    }
}
