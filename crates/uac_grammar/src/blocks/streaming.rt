// The class blocks of a streaming interface (Audio Class 2.0, 4.9 and 4.10; Audio Data Formats 2.0, 2.3.1).
ghost use Rattle.std.specs.Prelude.{◌≡◌, IfOk, IsTrue, slice_index, drop};
ghost use Rattle.uac_descriptor.specs.Layout.{IsWhole, is_extra};
ghost use Rattle.uac_descriptor.specs.LayoutRows as rows;
ghost use Rattle.uac_grammar.specs.Row.{read_row};

use super::parts::{four_at, two_at};
use std::alloc::Global;
use uac_descriptor::{Block, ByteList, ClassEndpoint, Extra, General, NoMemory, TypeOne};

/// The general block (Audio Class 2.0, 4.9.2).
#[tactic(auto, unfolding(uac_descriptor::specs::BlockParsing::has_length, uac_descriptor::specs::BlockParsing::fields))]
pub(super) fn general(bytes: &[u8]) -> Option<Block>
    ensures { result ≡ read_row rows.general bytes.now }
{
    if bytes.len() != 16 {
        return None;
    }
    Some(Block::General(General {
        link: bytes[3],
        controls: bytes[4],
        format_type: bytes[5],
        formats: four_at(bytes, 6),
        channels: bytes[10],
        locations: four_at(bytes, 11),
        names: bytes[15],
    }))
}

/// The Type I format (Audio Data Formats 2.0, 2.3.1.6).
#[tactic(auto, unfolding(uac_descriptor::specs::BlockParsing::has_length, uac_descriptor::specs::BlockParsing::fields))]
pub(super) fn type_one(bytes: &[u8]) -> Option<Block>
    ensures { result ≡ read_row rows.type_one bytes.now }
{
    if bytes.len() != 6 {
        return None;
    }
    Some(Block::TypeOne(TypeOne {
        subslot: bytes[4],
        bits: bytes[5],
    }))
}

/// The class block after an endpoint (Audio Class 2.0, 4.10.1.2).
#[tactic(auto, unfolding(uac_descriptor::specs::BlockParsing::has_length, uac_descriptor::specs::BlockParsing::fields))]
pub(super) fn class_endpoint(bytes: &[u8]) -> Option<Block>
    ensures { result ≡ read_row rows.class_endpoint bytes.now }
{
    if bytes.len() != 8 {
        return None;
    }
    Some(Block::ClassEndpoint(ClassEndpoint {
        attributes: bytes[3],
        controls: bytes[4],
        lock_units: bytes[5],
        lock_delay: two_at(bytes, 6),
    }))
}

/// Another class block: of another format type, or another subtype.
#[tactic(auto, unfolding(uac_descriptor::specs::BlockParsing::has_length, uac_descriptor::specs::BlockParsing::fields))]
pub(super) fn extra(alloc: Global, bytes: &[u8]) -> Result<Option<Block>, NoMemory>
    requires whole { IsWhole bytes.now }
    requires another { IsTrue (is_extra (slice_index bytes.now 2) (drop 3 bytes.now)) }
    ensures { IfOk result (λ found. found ≡ read_row rows.extra bytes.now) }
{
    if bytes.len() < 3 {
        return Ok(None);
    }
    Ok(Some(Block::Extra(Extra {
        subtype: bytes[2],
        rest: ByteList::from_slice(alloc, &bytes[3..])?,
    })))
}
