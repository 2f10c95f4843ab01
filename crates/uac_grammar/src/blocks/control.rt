// The class blocks of the audio control interface (Audio Class 2.0, 4.7.2).
ghost use Rattle.std.specs.Prelude.{◌≡◌, ◌+◌, ◌==◌, IfOk, length, slice_index};
ghost use Rattle.uac_descriptor.specs.Layout.{IsWhole};
ghost use Rattle.uac_descriptor.specs.LayoutRows as rows;
ghost use Rattle.uac_grammar.specs.Row.{read_row};

use super::parts::{control_words_of, four_at, two_at};
use std::alloc::Global;
use uac_descriptor::{
    Block, ByteList, ClockMultiplier, ClockSelector, ClockSource, Effect, Feature, Header,
    InputTerminal, Mixer, NoMemory, OutputTerminal, Selector,
};

/// The header (Audio Class 2.0, 4.7.2).
#[tactic(auto, unfolding(uac_descriptor::specs::BlockParsing::has_length, uac_descriptor::specs::BlockParsing::fields))]
pub(super) fn header(bytes: &[u8]) -> Option<Block>
    ensures { result ≡ read_row rows.header bytes.now }
{
    if bytes.len() != 9 {
        return None;
    }
    Some(Block::Header(Header {
        version: two_at(bytes, 3),
        category: bytes[5],
        total: two_at(bytes, 6),
        controls: bytes[8],
    }))
}

/// A clock source (Audio Class 2.0, 4.7.2.1).
#[tactic(auto, unfolding(uac_descriptor::specs::BlockParsing::has_length, uac_descriptor::specs::BlockParsing::fields))]
pub(super) fn clock_source(bytes: &[u8]) -> Option<Block>
    ensures { result ≡ read_row rows.clock_source bytes.now }
{
    if bytes.len() != 8 {
        return None;
    }
    Some(Block::ClockSource(ClockSource {
        id: bytes[3],
        attributes: bytes[4],
        controls: bytes[5],
        assoc: bytes[6],
        name: bytes[7],
    }))
}

/// A clock selector (Audio Class 2.0, 4.7.2.2).
#[tactic(auto, unfolding(uac_descriptor::specs::BlockParsing::has_length, uac_descriptor::specs::BlockParsing::fields))]
pub(super) fn clock_selector(alloc: Global, bytes: &[u8]) -> Result<Option<Block>, NoMemory>
    requires { IsWhole bytes.now }
    ensures { IfOk result (λ found. found ≡ read_row rows.clock_selector bytes.now) }
{
    if !has_pins(bytes) {
        return Ok(None);
    }
    let (sources, following) = bytes[5..].split_at(bytes[4] as usize);
    Ok(Some(Block::ClockSelector(ClockSelector {
        id: bytes[3],
        sources: ByteList::from_slice(alloc, sources)?,
        controls: following[0],
        name: following[1],
    })))
}

/// A clock multiplier (Audio Class 2.0, 4.7.2.3).
#[tactic(auto, unfolding(uac_descriptor::specs::BlockParsing::has_length, uac_descriptor::specs::BlockParsing::fields))]
pub(super) fn clock_multiplier(bytes: &[u8]) -> Option<Block>
    ensures { result ≡ read_row rows.clock_multiplier bytes.now }
{
    if bytes.len() != 7 {
        return None;
    }
    Some(Block::ClockMultiplier(ClockMultiplier {
        id: bytes[3],
        source: bytes[4],
        controls: bytes[5],
        name: bytes[6],
    }))
}

/// An input terminal (Audio Class 2.0, 4.7.2.4).
#[tactic(auto, unfolding(uac_descriptor::specs::BlockParsing::has_length, uac_descriptor::specs::BlockParsing::fields))]
pub(super) fn input_terminal(bytes: &[u8]) -> Option<Block>
    ensures { result ≡ read_row rows.input_terminal bytes.now }
{
    if bytes.len() != 17 {
        return None;
    }
    Some(Block::InputTerminal(InputTerminal {
        id: bytes[3],
        terminal_type: two_at(bytes, 4),
        assoc: bytes[6],
        clock: bytes[7],
        channels: bytes[8],
        locations: four_at(bytes, 9),
        names: bytes[13],
        controls: two_at(bytes, 14),
        name: bytes[16],
    }))
}

/// An output terminal (Audio Class 2.0, 4.7.2.5).
#[tactic(auto, unfolding(uac_descriptor::specs::BlockParsing::has_length, uac_descriptor::specs::BlockParsing::fields))]
pub(super) fn output_terminal(bytes: &[u8]) -> Option<Block>
    ensures { result ≡ read_row rows.output_terminal bytes.now }
{
    if bytes.len() != 12 {
        return None;
    }
    Some(Block::OutputTerminal(OutputTerminal {
        id: bytes[3],
        terminal_type: two_at(bytes, 4),
        assoc: bytes[6],
        source: bytes[7],
        clock: bytes[8],
        controls: two_at(bytes, 9),
        name: bytes[11],
    }))
}

/// A mixer unit (Audio Class 2.0, 4.7.2.6).
#[tactic(auto, unfolding(uac_descriptor::specs::BlockParsing::has_length, uac_descriptor::specs::BlockParsing::fields))]
pub(super) fn mixer(alloc: Global, bytes: &[u8]) -> Result<Option<Block>, NoMemory>
    requires { IsWhole bytes.now }
    ensures { IfOk result (λ found. found ≡ read_row rows.mixer bytes.now) }
{
    if bytes.len() < 13 || bytes.len() - 13 < bytes[4] as usize {
        return Ok(None);
    }
    let bit_bytes = bytes.len() - 13 - bytes[4] as usize;
    let (sources, following) = bytes[5..].split_at(bytes[4] as usize);
    let (mix_bits, tail) = following[6..].split_at(bit_bytes);
    Ok(Some(Block::Mixer(Mixer {
        id: bytes[3],
        sources: ByteList::from_slice(alloc, sources)?,
        channels: following[0],
        locations: four_at(following, 1),
        names: following[5],
        mix_bits: ByteList::from_slice(alloc, mix_bits)?,
        controls: tail[0],
        name: tail[1],
    })))
}

/// A selector unit (Audio Class 2.0, 4.7.2.7).
#[tactic(auto, unfolding(uac_descriptor::specs::BlockParsing::has_length, uac_descriptor::specs::BlockParsing::fields))]
pub(super) fn selector(alloc: Global, bytes: &[u8]) -> Result<Option<Block>, NoMemory>
    requires { IsWhole bytes.now }
    ensures { IfOk result (λ found. found ≡ read_row rows.selector bytes.now) }
{
    if !has_pins(bytes) {
        return Ok(None);
    }
    let (sources, following) = bytes[5..].split_at(bytes[4] as usize);
    Ok(Some(Block::Selector(Selector {
        id: bytes[3],
        sources: ByteList::from_slice(alloc, sources)?,
        controls: following[0],
        name: following[1],
    })))
}

/// A feature unit (Audio Class 2.0, 4.7.2.8).
#[tactic(auto, using(uac_descriptor::proofs::BlockParsingLemmas::words_length), unfolding(uac_descriptor::specs::BlockParsing::has_length, uac_descriptor::specs::BlockParsing::fields))]
pub(super) fn feature(alloc: Global, bytes: &[u8]) -> Result<Option<Block>, NoMemory>
    requires { IsWhole bytes.now }
    ensures { IfOk result (λ found. found ≡ read_row rows.feature bytes.now) }
{
    if bytes.len() < 10 || bytes.len() % 4 != 2 {
        return Ok(None);
    }
    Ok(Some(Block::Feature(Feature {
        id: bytes[3],
        source: bytes[4],
        words: control_words_of(alloc, &bytes[5..], (bytes.len() - 6) / 4)?,
        name: bytes[bytes.len() - 1],
    })))
}

/// An effect unit (Audio Class 2.0, 4.7.2.10; profile: its control words and its length).
#[tactic(auto, using(uac_descriptor::proofs::BlockParsingLemmas::words_length), unfolding(uac_descriptor::specs::BlockParsing::has_length, uac_descriptor::specs::BlockParsing::fields))]
pub(super) fn effect(alloc: Global, bytes: &[u8]) -> Result<Option<Block>, NoMemory>
    requires { IsWhole bytes.now }
    ensures { IfOk result (λ found. found ≡ read_row rows.effect bytes.now) }
{
    if bytes.len() < 12 || bytes.len() % 4 != 0 {
        return Ok(None);
    }
    Ok(Some(Block::Effect(Effect {
        id: bytes[3],
        effect_type: two_at(bytes, 4),
        source: bytes[6],
        words: control_words_of(alloc, &bytes[7..], (bytes.len() - 8) / 4)?,
        name: bytes[bytes.len() - 1],
    })))
}

/// Whether a selector's block has as many pins as it says, at place 4.
fn has_pins(bytes: &[u8]) -> bool
    ensures { result ≡ (length bytes.now == 7 + slice_index bytes.now 4) }
{
    bytes.len() > 4 && bytes.len() == 7 + bytes[4] as usize
}
