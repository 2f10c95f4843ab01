// Printing the entities of a function.
ghost use Rattle.std.specs.Prelude.{◌≡◌, ◌≤◌, ◌++◌, length, flat_map, codes, decimal};
ghost use Rattle.uac_edges.specs.Faults.{HasCause};
ghost use Rattle.uac_edges.specs.Writing.{Writes};
ghost use Rattle.uac_listing.specs.EntityLines.{entity_kind_name, ids_text, more_ids, entity_head, entity_tail, entity_line, channels_text};
ghost use Rattle.uac_listing.specs.EntityLines.{clock_text};

use uac_edges::{Failed, Sink, TextLine, give_all};
use uac_entities::{Entity, EntityKind};

/// Writes a line for each entity.
pub fn write_entities<K: Sink>(sink: &mut K, entities: &[Entity]) -> Result<(), Failed>
    ensures written { Writes (K.written sink.old) (K.written sink.new) result (flat_map entity_line entities.now) }
    ensures cause { HasCause (K.faults sink.old) (K.faults sink.new) result }
{
    for entity in entities {
        write_entity(sink, entity)?;
    }
    Ok(())
}

/// Writes an entity's line.
#[tactic(auto, using(uac_edges::proofs::WritingLemmas::writings), unfolding(crate::specs::EntityLines::entity_line))]
fn write_entity<K: Sink>(sink: &mut K, entity: &Entity) -> Result<(), Failed>
    ensures written { Writes (K.written sink.old) (K.written sink.new) result (entity_line entity.now) }
    ensures cause { HasCause (K.faults sink.old) (K.faults sink.new) result }
{
    give_all(sink, head(entity).as_bytes())?;
    write_rest(sink, entity)
}

/// Writes an entity's line from its sources on.
#[tactic(auto, using(uac_edges::proofs::WritingLemmas::writings))]
fn write_rest<K: Sink>(sink: &mut K, entity: &Entity) -> Result<(), Failed>
    ensures written { Writes (K.written sink.old) (K.written sink.new) result (ids_text entity.now.sources ++ entity_tail entity.now) }
    ensures cause { HasCause (K.faults sink.old) (K.faults sink.new) result }
{
    write_ids(sink, entity.sources.as_slice())?;
    give_all(sink, tail(entity).as_bytes())
}

/// Writes ids parted by commas, or a dash where there are none.
#[tactic(auto, using(uac_edges::proofs::WritingLemmas::writings))]
fn write_ids<K: Sink>(sink: &mut K, ids: &[u8]) -> Result<(), Failed>
    ensures written { Writes (K.written sink.old) (K.written sink.new) result (ids_text ids.now) }
    ensures cause { HasCause (K.faults sink.old) (K.faults sink.new) result }
{
    if ids.is_empty() {
        return give_all(sink, b"-");
    }
    give_all(sink, number(ids[0]).as_bytes())?;
    write_more_ids(sink, &ids[1..])
}

/// Writes a comma and the id, for each.
fn write_more_ids<K: Sink>(sink: &mut K, ids: &[u8]) -> Result<(), Failed>
    ensures written { Writes (K.written sink.old) (K.written sink.new) result (more_ids ids.now) }
    ensures cause { HasCause (K.faults sink.old) (K.faults sink.new) result }
{
    for id in ids {
        give_all(sink, next_number(*id).as_bytes())?;
    }
    Ok(())
}

/// An id.
fn number(id: u8) -> TextLine<32>
    ensures { result ≡ decimal id }
{
    let mut text = TextLine::new();
    text.push_number(u64::from(id));
    text
}

/// A comma and an id.
fn next_number(id: u8) -> TextLine<32>
    ensures { result ≡ codes "," ++ decimal id }
{
    let mut text = TextLine::new();
    text.push(b",");
    text.push_number(u64::from(id));
    text
}

/// The line up to the sources.
#[tactic(auto, unfolding(crate::specs::EntityLines::entity_head))]
fn head(entity: &Entity) -> TextLine<128>
    ensures { result ≡ entity_head entity.now }
{
    let mut text = TextLine::new();
    text.push(b"entity ");
    text.push_number(u64::from(entity.id));
    text.push(b" ");
    text.push(entity_kind_name(entity.kind));
    text.push(b" channels ");
    text.push(channels(entity.kind, entity.cluster.channels).as_bytes());
    text.push(b" sources ");
    text
}

/// The line after the sources.
#[tactic(auto, unfolding(crate::specs::EntityLines::entity_tail))]
fn tail(entity: &Entity) -> TextLine<64>
    ensures { result ≡ entity_tail entity.now }
{
    let mut text = TextLine::new();
    text.push(b" clock ");
    text.push(clock(entity.kind, entity.clock).as_bytes());
    text.push(b"\n");
    text
}

/// The number of channels, or a dash for a clock entity.
fn channels(kind: EntityKind, channels: u8) -> TextLine<32>
    ensures { result ≡ channels_text kind channels }
{
    match kind {
        EntityKind::ClockSource => dash(),
        EntityKind::ClockSelector => dash(),
        EntityKind::ClockMultiplier => dash(),
        EntityKind::InputTerminal => number(channels),
        EntityKind::OutputTerminal => number(channels),
        EntityKind::Mixer => number(channels),
        EntityKind::Selector => number(channels),
        EntityKind::Feature => number(channels),
        EntityKind::Effect => number(channels),
    }
}

/// A terminal's clock, or a dash for another entity.
fn clock(kind: EntityKind, clock: u8) -> TextLine<32>
    ensures { result ≡ clock_text kind clock }
{
    match kind {
        EntityKind::ClockSource => dash(),
        EntityKind::ClockSelector => dash(),
        EntityKind::ClockMultiplier => dash(),
        EntityKind::InputTerminal => number(clock),
        EntityKind::OutputTerminal => number(clock),
        EntityKind::Mixer => dash(),
        EntityKind::Selector => dash(),
        EntityKind::Feature => dash(),
        EntityKind::Effect => dash(),
    }
}

/// What isn't there.
fn dash() -> TextLine<32>
    ensures { result ≡ codes "-" }
{
    let mut text = TextLine::new();
    text.push(b"-");
    text
}

/// A kind's name.
fn entity_kind_name(kind: EntityKind) -> &'static [u8]
    ensures name { result.now ≡ entity_kind_name kind }
    ensures short { length result.now ≤ 16 }
{
    match kind {
        EntityKind::ClockSource => b"clock_source",
        EntityKind::ClockSelector => b"clock_selector",
        EntityKind::ClockMultiplier => b"clock_multiplier",
        EntityKind::InputTerminal => b"input_terminal",
        EntityKind::OutputTerminal => b"output_terminal",
        EntityKind::Mixer => b"mixer",
        EntityKind::Selector => b"selector",
        EntityKind::Feature => b"feature",
        EntityKind::Effect => b"effect",
    }
}
