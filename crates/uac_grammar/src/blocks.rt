// One block from its bytes: the row by context, type and subtype, then the row's length and fields.
ghost use Rattle.std.specs.Prelude.{◌≡◌, IfOk, slice_index, drop};
ghost use Rattle.uac_descriptor.specs.Layout.{IsWhole};
ghost use Rattle.uac_descriptor.specs.BlockParsing.{block_of};
ghost use Rattle.uac_descriptor.specs.LayoutRows as rows;
ghost use Rattle.uac_descriptor.specs.declared.context.Context.TheVariants as contexts;
ghost use Rattle.uac_descriptor.specs.LayoutRows.{control_row, streaming_row, class_endpoint_row, row_in};
ghost use Rattle.uac_grammar.specs.Row.{read_row, has_row};

/// The class blocks of the audio control interface.
mod control;
/// Fields of more than one byte, and lists.
mod parts;
/// The blocks that every device has, and those that are kept whole.
mod standard;
/// The class blocks of a streaming interface.
mod streaming;

use control::{
    clock_multiplier, clock_selector, clock_source, effect, feature, header, input_terminal, mixer,
    output_terminal, selector,
};
use standard::{association, configuration, endpoint, foreign, interface};
use std::alloc::Global;
use streaming::{class_endpoint, extra, general, type_one};
use uac_descriptor::codes::{
    AS_GENERAL, CLOCK_MULTIPLIER, CLOCK_SELECTOR, CLOCK_SOURCE, CONFIGURATION, CS_ENDPOINT,
    CS_INTERFACE, EFFECT_UNIT, ENDPOINT, EP_GENERAL, FEATURE_UNIT, FORMAT_TYPE, FORMAT_TYPE_I,
    HEADER, INPUT_TERMINAL, INTERFACE, INTERFACE_ASSOCIATION, MIXER_UNIT, OUTPUT_TERMINAL,
    SELECTOR_UNIT,
};
use uac_descriptor::{Block, Context, NoMemory};

/// The block that a whole block's bytes are read as in this context, or none where they aren't of their row's length.
#[tactic(auto, using(crate::proofs::RowLemmas::other_block, crate::proofs::RowLemmas::no_row_parts))]
#[inline(always)]
pub(crate) fn read_block(
    alloc: Global,
    context: Context,
    bytes: &[u8],
) -> Result<Option<Block>, NoMemory>
    requires { IsWhole bytes.now }
    ensures { IfOk result (λ found. found ≡ block_of context bytes.now) }
{
    if has_row(bytes[1]) {
        read_by_row(alloc, context, bytes)
    } else {
        foreign(alloc, bytes)
    }
}

/// A context may have a row of its own for a block of this type.
fn has_row(kind: u8) -> bool
    ensures { result ≡ has_row kind }
{
    kind == CONFIGURATION
        || kind == INTERFACE
        || kind == ENDPOINT
        || kind == INTERFACE_ASSOCIATION
        || kind == CS_INTERFACE
        || kind == CS_ENDPOINT
}

/// Reads, as `read_block`, a block that a row of the layouts may read. This stands in a function of its own, so that the room that the
/// rows take on the stack is prepared for such blocks alone.
#[tactic(auto, using(crate::proofs::RowLemmas::block_row))]
#[inline(never)]
fn read_by_row(alloc: Global, context: Context, bytes: &[u8]) -> Result<Option<Block>, NoMemory>
    requires { IsWhole bytes.now }
    ensures { IfOk result (λ found. found ≡ block_of context bytes.now) }
{
    match context {
        Context::DeviceFront => in_front(alloc, bytes),
        Context::ControlInterface => in_control(alloc, bytes),
        Context::StreamingInterface => in_streaming(alloc, bytes),
        Context::ForeignInterface => parting_block(alloc, bytes),
    }
}

/// In front of every interface.
#[tactic(auto, using(crate::proofs::RowLemmas::row_of_whole, crate::proofs::RowLemmas::no_subtype, crate::proofs::RowLemmas::subtype_and_rest, std::proofs::lemmas::Bool::Decides::nat_tests))]
fn in_front(alloc: Global, bytes: &[u8]) -> Result<Option<Block>, NoMemory>
    requires { IsWhole bytes.now }
    ensures { IfOk result (λ found. found ≡ read_row (row_in contexts.DeviceFront bytes.now) bytes.now) }
{
    if bytes[1] == ENDPOINT {
        Ok(endpoint(bytes))
    } else if bytes[1] == CS_ENDPOINT {
        if bytes.len() < 3 {
            return foreign(alloc, bytes);
        }
        class_endpoint_block(alloc, bytes)
    } else {
        parting_block(alloc, bytes)
    }
}

/// In the control interface.
#[tactic(auto, using(crate::proofs::RowLemmas::row_of_whole, std::proofs::lemmas::Bool::Decides::nat_tests))]
fn in_control(alloc: Global, bytes: &[u8]) -> Result<Option<Block>, NoMemory>
    requires { IsWhole bytes.now }
    ensures { IfOk result (λ found. found ≡ read_row (row_in contexts.ControlInterface bytes.now) bytes.now) }
{
    if bytes[1] == CS_INTERFACE {
        control_block(alloc, bytes)
    } else if bytes[1] == ENDPOINT {
        Ok(endpoint(bytes))
    } else if bytes[1] == CS_ENDPOINT {
        class_endpoint_block(alloc, bytes)
    } else {
        parting_block(alloc, bytes)
    }
}

/// In a streaming interface.
#[tactic(auto, using(crate::proofs::RowLemmas::row_of_whole, std::proofs::lemmas::Bool::Decides::nat_tests))]
fn in_streaming(alloc: Global, bytes: &[u8]) -> Result<Option<Block>, NoMemory>
    requires { IsWhole bytes.now }
    ensures { IfOk result (λ found. found ≡ read_row (row_in contexts.StreamingInterface bytes.now) bytes.now) }
{
    if bytes[1] == CS_INTERFACE {
        streaming_block(alloc, bytes)
    } else if bytes[1] == ENDPOINT {
        Ok(endpoint(bytes))
    } else if bytes[1] == CS_ENDPOINT {
        class_endpoint_block(alloc, bytes)
    } else {
        parting_block(alloc, bytes)
    }
}

/// A block that parts the descriptor in every context, or one that is kept whole.
#[tactic(auto, using(crate::proofs::RowLemmas::row_of_whole, std::proofs::lemmas::Bool::Decides::nat_tests))]
fn parting_block(alloc: Global, bytes: &[u8]) -> Result<Option<Block>, NoMemory>
    requires { IsWhole bytes.now }
    ensures { IfOk result (λ found. found ≡ read_row (row_in contexts.ForeignInterface bytes.now) bytes.now) }
{
    if bytes[1] == CONFIGURATION {
        Ok(configuration(bytes))
    } else if bytes[1] == INTERFACE_ASSOCIATION {
        Ok(association(bytes))
    } else if bytes[1] == INTERFACE {
        Ok(interface(bytes))
    } else {
        foreign(alloc, bytes)
    }
}

/// A class block of the control interface.
#[tactic(auto, using(crate::proofs::RowLemmas::control_too_short, crate::proofs::RowLemmas::subtype_and_rest, std::proofs::lemmas::Bool::Decides::nat_tests))]
fn control_block(alloc: Global, bytes: &[u8]) -> Result<Option<Block>, NoMemory>
    requires whole { IsWhole bytes.now }
    requires kind { slice_index bytes.now 1 ≡ CS_INTERFACE }
    ensures { IfOk result (λ found. found ≡ read_row (control_row (drop 2 bytes.now)) bytes.now) }
{
    if bytes.len() < 3 {
        return Ok(None);
    }
    match bytes[2] {
        HEADER => Ok(header(bytes)),
        INPUT_TERMINAL => Ok(input_terminal(bytes)),
        OUTPUT_TERMINAL => Ok(output_terminal(bytes)),
        MIXER_UNIT => mixer(alloc, bytes),
        SELECTOR_UNIT => selector(alloc, bytes),
        FEATURE_UNIT => feature(alloc, bytes),
        EFFECT_UNIT => effect(alloc, bytes),
        CLOCK_SOURCE => Ok(clock_source(bytes)),
        CLOCK_SELECTOR => clock_selector(alloc, bytes),
        CLOCK_MULTIPLIER => Ok(clock_multiplier(bytes)),
        _ => foreign(alloc, bytes),
    }
}

/// A class block of a streaming interface.
#[tactic(auto, using(crate::proofs::RowLemmas::streaming_too_short, crate::proofs::RowLemmas::subtype_and_rest, std::proofs::lemmas::Bool::Decides::nat_tests))]
fn streaming_block(alloc: Global, bytes: &[u8]) -> Result<Option<Block>, NoMemory>
    requires { IsWhole bytes.now }
    ensures { IfOk result (λ found. found ≡ read_row (streaming_row (drop 2 bytes.now)) bytes.now) }
{
    if bytes.len() < 3 {
        return Ok(None);
    }
    if bytes[2] == AS_GENERAL {
        Ok(general(bytes))
    } else if bytes[2] == FORMAT_TYPE && bytes.len() > 3 && bytes[3] == FORMAT_TYPE_I {
        Ok(type_one(bytes))
    } else {
        extra(alloc, bytes)
    }
}

/// A class block after an endpoint.
#[tactic(auto, using(crate::proofs::RowLemmas::endpoint_too_short, crate::proofs::RowLemmas::subtype_and_rest, std::proofs::lemmas::Bool::Decides::nat_tests))]
fn class_endpoint_block(alloc: Global, bytes: &[u8]) -> Result<Option<Block>, NoMemory>
    requires whole { IsWhole bytes.now }
    requires kind { slice_index bytes.now 1 ≡ CS_ENDPOINT }
    ensures { IfOk result (λ found. found ≡ read_row (class_endpoint_row rows.too_short (drop 2 bytes.now)) bytes.now) }
{
    if bytes.len() < 3 {
        return Ok(None);
    }
    if bytes[2] == EP_GENERAL {
        Ok(class_endpoint(bytes))
    } else {
        foreign(alloc, bytes)
    }
}
