// The blocks of USB 2.0, chapter 9, and those that are kept whole.
ghost use Rattle.std.specs.Prelude.{◌≡◌, IfOk, IsTrue, not, slice_index, Some};
ghost use Rattle.uac_descriptor.specs.Layout.{IsWhole, is_parting};
ghost use Rattle.uac_descriptor.specs.LayoutRows as rows;
ghost use Rattle.uac_descriptor.specs.declared.block.Block.TheVariants as variant;
ghost use Rattle.uac_grammar.specs.Row.{read_row};

use super::parts::two_at;
use std::alloc::Global;
use uac_descriptor::{
    Association, Block, ByteList, Configuration, Endpoint, Foreign, Interface, NoMemory,
};

/// The configuration (USB 2.0, 9.6.3).
#[tactic(auto, unfolding(uac_descriptor::specs::BlockParsing::has_length, uac_descriptor::specs::BlockParsing::fields))]
pub(super) fn configuration(bytes: &[u8]) -> Option<Block>
    ensures { result ≡ read_row rows.configuration bytes.now }
{
    if bytes.len() != 9 {
        return None;
    }
    Some(Block::Configuration(Configuration {
        total: two_at(bytes, 2),
        interfaces: bytes[4],
        value: bytes[5],
        name: bytes[6],
        attributes: bytes[7],
        power: bytes[8],
    }))
}

/// An association of interfaces (USB 2.0, its supplement on interface associations).
#[tactic(auto, unfolding(uac_descriptor::specs::BlockParsing::has_length, uac_descriptor::specs::BlockParsing::fields))]
pub(super) fn association(bytes: &[u8]) -> Option<Block>
    ensures { result ≡ read_row rows.association bytes.now }
{
    if bytes.len() != 8 {
        return None;
    }
    Some(Block::Association(Association {
        first: bytes[2],
        count: bytes[3],
        class: bytes[4],
        subclass: bytes[5],
        protocol: bytes[6],
        name: bytes[7],
    }))
}

/// An interface (USB 2.0, 9.6.5).
#[tactic(auto, unfolding(uac_descriptor::specs::BlockParsing::has_length, uac_descriptor::specs::BlockParsing::fields))]
pub(super) fn interface(bytes: &[u8]) -> Option<Block>
    ensures { result ≡ read_row rows.interface bytes.now }
{
    if bytes.len() != 9 {
        return None;
    }
    Some(Block::Interface(Interface {
        number: bytes[2],
        setting: bytes[3],
        endpoints: bytes[4],
        class: bytes[5],
        subclass: bytes[6],
        protocol: bytes[7],
        name: bytes[8],
    }))
}

/// An endpoint (USB 2.0, 9.6.6).
#[tactic(auto, unfolding(uac_descriptor::specs::BlockParsing::has_length, uac_descriptor::specs::BlockParsing::fields))]
pub(super) fn endpoint(bytes: &[u8]) -> Option<Block>
    ensures { result ≡ read_row rows.endpoint bytes.now }
{
    if bytes.len() != 7 {
        return None;
    }
    Some(Block::Endpoint(Endpoint {
        address: bytes[2],
        attributes: bytes[3],
        max_packet: two_at(bytes, 4),
        interval: bytes[6],
    }))
}

/// A block that no other row reads.
#[tactic(auto, unfolding(uac_descriptor::specs::BlockParsing::has_length, uac_descriptor::specs::BlockParsing::fields))]
#[inline(always)]
pub(super) fn foreign(alloc: Global, bytes: &[u8]) -> Result<Option<Block>, NoMemory>
    requires whole { IsWhole bytes.now }
    requires not_parting { IsTrue (not (is_parting (slice_index bytes.now 1))) }
    ensures { IfOk result (λ found. found ≡ read_row rows.foreign bytes.now) }
{
    Ok(Some(Block::Foreign(Foreign {
        bytes: ByteList::from_slice(alloc, bytes)?,
    })))
}
