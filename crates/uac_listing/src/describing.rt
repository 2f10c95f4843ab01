// From the bytes of a source to what is said of the descriptor that they spell.
ghost use Rattle.std.specs.Prelude.{◌≡◌, ◌⊎◌, List, flat_map};
ghost use Rattle.std.specs.Io.KnownBytes.{IsAtEnd};
ghost use Rattle.uac_descriptor.specs.Spelling.{spelling};
ghost use Rattle.uac_descriptor.specs.WellFormed.{AreWellFormed};
ghost use Rattle.uac_edges.specs.Faults.{Rose, HasCause};
ghost use Rattle.uac_edges.specs.Writing.{Writes};
ghost use Rattle.uac_store.specs.StoreControls.{initial_controls};
ghost use Rattle.uac_listing.specs.Answered.{IsDescribed, Judges, PrintsRefusal, RefusesFunction};
ghost use Rattle.uac_ends.specs.Closing.{Closes, IsFaultless};
ghost use Rattle.uac_ends.specs.Outside.{outside};
ghost use Rattle.uac_ends.specs.Outcome.{no_memory};
ghost use Rattle.uac_listing.specs.Outcome.{listing_of, sound};

use crate::blocks::write_blocks;
use crate::description::Description;
use crate::elements::write_elements;
use crate::entities::write_entities;
use crate::lines::sound_line;
use crate::parsing::{SourceEnd, read_descriptor};
use crate::settings::write_settings;
use std::alloc::Global;
use uac_descriptor::{Block, NoMemory};
use uac_edges::{Failed, Sink, Source};
use uac_ends::{NO_MEMORY, READ_FAULT, Status, close, refusal_line, unsound_line};
use uac_grammar::ReadStop;
use uac_grammar_rules::laws::sentences_are_well_formed;
use uac_mixer::fresh_view;
use uac_store::Store;
use uac_topology::{CheckStop, Function, bytes_of, check};

/// Reads a descriptor and prints what is said of it.
pub fn describe<S: Source, K: Sink>(
    alloc: Global,
    description: Description,
    source: &mut S,
    sink: &mut K,
) -> Status
    ensures answered { IsDescribed description
        (outside (S.left source.old) (S.faults source.old) (K.written sink.old) (K.faults sink.old))
        (outside (S.left source.new) (S.faults source.new) (K.written sink.new) (K.faults sink.new)) result }
    ensures read_fault { result ≡ Status.ReadFault → Rose (S.faults source.old) (S.faults source.new) }
    ensures write_fault { result ≡ Status.WriteFault → Rose (K.faults sink.old) (K.faults sink.new) }
    ensures faultless { IsFaultless
        (outside (S.left source.old) (S.faults source.old) (K.written sink.old) (K.faults sink.old))
        (outside (S.left source.new) (S.faults source.new) (K.written sink.new) (K.faults sink.new)) result }
    ensures ok { result ≡ Status.Ok → IsAtEnd (S.left source.new) }
{
    match read_descriptor(alloc, source) {
        SourceEnd::Whole(blocks) => {
            sentences_are_well_formed();
            judge(alloc, description, &blocks, sink)
        }
        SourceEnd::Stopped(stop) => refuse(stop, sink),
        SourceEnd::Failed => close(sink, READ_FAULT, Status::ReadFault),
    }
}

/// Judges the function of the blocks, and prints what is said of it.
fn judge<K: Sink>(alloc: Global, description: Description, blocks: &[Block], sink: &mut K) -> Status
    requires { AreWellFormed blocks.now }
    ensures { Judges description blocks.now (K.written sink.old) (K.written sink.new) (K.faults sink.old) (K.faults sink.new) result }
{
    match check(alloc, blocks) {
        Ok(function) => print(alloc, description, blocks, function, sink),
        Err(stop) => refuse_function(stop, sink),
    }
}

/// Prints why a function is refused.
fn refuse_function<K: Sink>(stop: CheckStop, sink: &mut K) -> Status
    ensures { RefusesFunction stop (K.written sink.old) (K.written sink.new) (K.faults sink.old) (K.faults sink.new) result }
{
    match stop {
        CheckStop::Fault(fault) => close(sink, unsound_line(&fault).as_bytes(), Status::Descriptor),
        CheckStop::NoMemory => close(sink, NO_MEMORY, Status::NoMemory),
    }
}

/// Prints what is said of a sound descriptor.
fn print<K: Sink>(
    alloc: Global,
    description: Description,
    blocks: &[Block],
    function: Function,
    sink: &mut K,
) -> Status
    ensures { Closes (sound description blocks.now function) (K.written sink.old) (K.written sink.new) (K.faults sink.old)
        (K.faults sink.new) result
        ⊎ Closes no_memory (K.written sink.old) (K.written sink.new) (K.faults sink.old) (K.faults sink.new) result }
{
    match description {
        Description::Check => close(sink, sound_line(blocks, &function).as_bytes(), Status::Ok),
        Description::Show => show(alloc, blocks, &function, sink),
        Description::Elements => list(alloc, function, sink),
    }
}

/// Prints why a descriptor is refused.
fn refuse<K: Sink>(stop: ReadStop, sink: &mut K) -> Status
    ensures { PrintsRefusal stop (K.written sink.old) (K.written sink.new) (K.faults sink.old) (K.faults sink.new) result }
{
    match stop {
        ReadStop::Fault(fault) => close(sink, refusal_line(&fault).as_bytes(), Status::Descriptor),
        ReadStop::NoMemory => close(sink, NO_MEMORY, Status::NoMemory),
    }
}

/// Prints the elements of a fresh device, once all the memory for it is there.
#[tactic(auto, unfolding(uac_transcript::specs::Transcript::spelling_of))]
fn list<K: Sink>(alloc: Global, function: Function, sink: &mut K) -> Status
    ensures { (blocks : List Block) → Closes (sound Description.Elements blocks function) (K.written sink.old) (K.written sink.new)
        (K.faults sink.old) (K.faults sink.new) result
        ⊎ Closes no_memory (K.written sink.old) (K.written sink.new) (K.faults sink.old) (K.faults sink.new) result }
{
    match fresh_view(alloc, function) {
        Ok(view) => match write_elements(sink, view.elements()) {
            Ok(()) => Status::Ok,
            Err(Failed) => Status::WriteFault,
        },
        Err(NoMemory) => close(sink, NO_MEMORY, Status::NoMemory),
    }
}

/// Prints the blocks, the entities and the settings, once all the memory for it is there.
#[tactic(auto, unfolding(uac_transcript::specs::Transcript::spelling_of))]
fn show<K: Sink>(alloc: Global, blocks: &[Block], function: &Function, sink: &mut K) -> Status
    ensures { Closes (sound Description.Show blocks.now function.now) (K.written sink.old) (K.written sink.new) (K.faults sink.old)
        (K.faults sink.new) result
        ⊎ Closes no_memory (K.written sink.old) (K.written sink.new) (K.faults sink.old) (K.faults sink.new) result }
{
    let store = match Store::new(alloc, function) {
        Ok(store) => store,
        Err(NoMemory) => return close(sink, NO_MEMORY, Status::NoMemory),
    };
    match bytes_of(alloc, blocks) {
        Ok(bytes) => match write_all(sink, blocks, bytes.as_slice(), function, &store) {
            Ok(()) => Status::Ok,
            Err(Failed) => Status::WriteFault,
        },
        Err(NoMemory) => close(sink, NO_MEMORY, Status::NoMemory),
    }
}

/// Writes a line for each block, whose bytes are `bytes`, then for each entity, and then for each setting.
#[tactic(auto, using(uac_edges::proofs::WritingLemmas::writings))]
fn write_all<K: Sink>(
    sink: &mut K,
    blocks: &[Block],
    bytes: &[u8],
    function: &Function,
    store: &Store,
) -> Result<(), Failed>
    requires bytes { bytes.now ≡ flat_map spelling blocks.now }
    requires start { store.now ≡ initial_controls function.now.entities }
    ensures written { Writes (K.written sink.old) (K.written sink.new) result (listing_of Description.Show blocks.now function.now) }
    ensures cause { HasCause (K.faults sink.old) (K.faults sink.new) result }
{
    write_blocks(sink, blocks, bytes)?;
    write_entities(sink, function.entities())?;
    write_settings(sink, function, store)
}
