// The rows of an entity's channels, in the slot of its id.
ghost use Rattle.std.specs.Prelude.{◌≡◌, ◌≢◌, ◌==◌, ◌≤◌, ◌<◌, ◌+◌, ◌^◌, ◌++◌, ℕ, if◌then◌else◌, Some, None, [], IfOk, IfSome};
ghost use Rattle.std.specs.Prelude.{length, get_or, map, pos, replicate, take, unwrap_or};
ghost use Rattle.std.specs.Option.{option_map};
ghost use Rattle.uac_pcm.specs.Tones.{tone_frame};
ghost use Rattle.uac_units.specs.Hearing.{at_most_u64};
ghost use Rattle.uac_units.specs.Rendering.{FitsKind, in_a_row, job_samples};
ghost use Rattle.uac_units.specs.SampleRows.{HaveTicks, frame_at, row_lengths};
ghost use Rattle.uac_graph.specs.Fitness.{IsSignalGraph};
ghost use Rattle.uac_graph.specs.TickRows.{SlotsHaveTicks, slot_frames, slot_lengths};
ghost use Rattle.uac_graph.specs.Wiring.{AreSilent, frame_on, samples_on};

use arrayvec::ArrayVec;
use std::alloc::Global;
use uac_descriptor::NoMemory;
use uac_entities::Entity;
use uac_pcm::{Frame, Tone, silence};
use uac_topology_rules::is_clock;
use uac_units::{
    Job, Row, Steps, Unit, copy_rows, hold_frame, hush_rows, silent_rows, write_frame,
};

/// The rows in a slot, none where it has none.
pub(crate) fn rows_of(slot: &Option<Vec<Row>>) -> &[Row]
    ensures { result.now ≡ unwrap_or (option_map (λ rows. rows.items) slot.now) [] }
{
    match slot {
        Some(rows) => rows.as_slice(),
        None => &[],
    }
}

/// Renders a job over these inputs into the rows of a slot, at each of so many ticks, with this unit.
pub(crate) fn render_into(
    slot: &mut Option<Vec<Row>>,
    unit: &dyn Unit,
    job: &Job,
    ticks: usize,
    inputs: &[Row],
    steps: &mut Steps,
)
    requires fits { FitsKind (kind_of unit.now) job.now (frame_at 0 inputs.now) }
    requires few { length inputs.now ≤ 256 }
    requires given { HaveTicks ticks inputs.now }
    requires there { option_map (λ rows. length rows.items) slot.old ≡ Some job.now.outputs }
    requires taken { IfSome slot.old (λ rows. HaveTicks ticks rows.items) }
    requires room { steps.old + ticks < 2 ^ 64 }
    ensures frames { (tick : ℕ) → tick < ticks → option_map (λ rows. frame_at tick rows.items) slot.new
        ≡ Some (job_samples (kind_of unit.now) job.now (frame_at tick inputs.now)) }
    ensures lengths { option_map (λ rows. row_lengths rows.items) slot.new ≡ option_map (λ rows. row_lengths rows.items) slot.old }
    ensures counted { steps.new ≡ steps.old + ticks }
{
    match slot {
        Some(rows) => unit.render_rows(job, ticks, inputs, rows.as_mut_slice(), steps),
        None => unreachable!(),
    }
}

/// Puts the samples of so many ticks into the rows of a slot.
pub(crate) fn copy_into(slot: &mut Option<Vec<Row>>, ticks: usize, rows: &[Row])
    requires given { HaveTicks ticks rows.now }
    requires there { option_map (λ held. length held.items) slot.old ≡ Some (length rows.now) }
    requires taken { IfSome slot.old (λ held. HaveTicks ticks held.items) }
    ensures frames { (tick : ℕ) → tick < ticks → option_map (λ held. frame_at tick held.items) slot.new ≡ Some (frame_at tick rows.now) }
    ensures lengths { option_map (λ held. row_lengths held.items) slot.new ≡ option_map (λ held. row_lengths held.items) slot.old }
{
    match slot {
        Some(held) => copy_rows(rows, ticks, held.as_mut_slice()),
        None => unreachable!(),
    }
}

/// Makes the first of these rows those of several slots, one after the other, at each of so many ticks, and answers how many they are.
pub(crate) fn gather_rows(
    pins: &mut [Row],
    ticks: usize,
    slots: &[Option<Vec<Row>>],
    sources: &[u8],
) -> usize
    requires ids { length slots.now ≡ 256 }
    requires small { length (in_a_row (map (samples_on (slot_frames 0 (map (option_map (λ rows. rows.items)) slots.now))) sources.now))
        ≤ length pins.old }
    requires given { SlotsHaveTicks ticks (map (option_map (λ rows. rows.items)) slots.now) }
    requires taken { HaveTicks ticks pins.old }
    ensures count { result ≡ length (in_a_row (map (samples_on (slot_frames 0 (map (option_map (λ rows. rows.items)) slots.now))) sources.now)) }
    ensures frames { (tick : ℕ) → tick < ticks → frame_at tick (take result pins.new)
        ≡ in_a_row (map (samples_on (slot_frames tick (map (option_map (λ rows. rows.items)) slots.now))) sources.now) }
    ensures lengths { row_lengths pins.new ≡ row_lengths pins.old }
{
    let mut end = 0;
    for source in sources {
        end = put_rows(pins, end, ticks, rows_of(&slots[*source as usize]));
    }
    end
}

// Makes rows from a place on others, at each of so many ticks, and answers where they end.
fn put_rows(pins: &mut [Row], from: usize, ticks: usize, rows: &[Row]) -> usize
    requires inside { from + length rows.now ≤ length pins.old }
    requires given { HaveTicks ticks rows.now }
    requires taken { HaveTicks ticks pins.old }
    ensures end { result ≡ from + length rows.now }
    ensures frames { (tick : ℕ) → tick < ticks
        → frame_at tick (take result pins.new) ≡ frame_at tick (take from pins.old) ++ frame_at tick rows.now }
    ensures lengths { row_lengths pins.new ≡ row_lengths pins.old }
{
    let end = from + rows.len();
    copy_rows(rows, ticks, &mut pins[from..end]);
    end
}

/// Silence at so many ticks for each of these entities that isn't a clock.
pub(crate) fn silent_slots(
    alloc: Global,
    entities: &[Entity],
    ticks: usize,
) -> Result<Vec<Option<Vec<Row>>>, NoMemory>
    requires { IsSignalGraph entities.now }
    ensures silent { IfOk result (λ slots. (tick : ℕ)
        → AreSilent entities.now (slot_frames tick (map (option_map (λ rows. rows.items)) slots.items))) }
    ensures sized { IfOk result (λ slots. length slots.items ≡ 256) }
    ensures given { IfOk result (λ slots. SlotsHaveTicks ticks (map (option_map (λ rows. rows.items)) slots.items)) }
{
    let mut slots = empty_slots(alloc)?;
    for entity in entities {
        if is_clock(entity.kind) {
            continue;
        }
        let rows = silent_rows(alloc, entity.cluster.channels as usize, ticks)?;
        slots[entity.id as usize] = Some(rows);
    }
    Ok(slots)
}

// A slot for each id, with no rows.
fn empty_slots(alloc: Global) -> Result<Vec<Option<Vec<Row>>>, NoMemory>
    ensures { IfOk result (λ slots. slots.items ≡ replicate 256 None) }
{
    let mut slots = Vec::new(alloc);
    for _each in 0..256usize {
        slots.push(None)?;
    }
    Ok(slots)
}

/// Puts a frame at a tick into the rows of a slot, where there are as many.
pub(crate) fn set_into(slot: &mut Option<Vec<Row>>, tick: usize, frame: &Frame)
    requires there { option_map (λ rows. length rows.items) slot.old ≡ Some (length frame.now.items) }
    requires inside { IfSome slot.old (λ rows. HaveTicks (tick + 1) rows.items) }
    ensures here { option_map (λ rows. frame_at tick rows.items) slot.new ≡ Some frame.now.items }
    ensures others { (other : ℕ) → other ≢ tick
        → option_map (λ rows. frame_at other rows.items) slot.new ≡ option_map (λ rows. frame_at other rows.items) slot.old }
    ensures lengths { option_map (λ rows. row_lengths rows.items) slot.new ≡ option_map (λ rows. row_lengths rows.items) slot.old }
{
    match slot {
        Some(rows) => write_frame(rows.as_mut_slice(), tick, frame.as_slice()),
        None => unreachable!(),
    }
}

/// Puts a frame at each of so many ticks into the rows of a slot, where there are as many.
pub(crate) fn hold_into(slot: &mut Option<Vec<Row>>, ticks: usize, frame: &Frame)
    requires there { option_map (λ rows. length rows.items) slot.old ≡ Some (length frame.now.items) }
    requires inside { IfSome slot.old (λ rows. HaveTicks ticks rows.items) }
    ensures frames { (tick : ℕ) → tick < ticks → option_map (λ rows. frame_at tick rows.items) slot.new ≡ Some frame.now.items }
    ensures lengths { option_map (λ rows. row_lengths rows.items) slot.new ≡ option_map (λ rows. row_lengths rows.items) slot.old }
{
    match slot {
        Some(rows) => hold_frame(rows.as_mut_slice(), ticks, frame.as_slice()),
        None => unreachable!(),
    }
}

/// Silence in the rows of a slot at so many ticks.
pub(crate) fn hush_slot(slot: &mut Option<Vec<Row>>, ticks: usize)
    requires { IfSome slot.old (λ rows. HaveTicks ticks rows.items) }
    ensures frames { (tick : ℕ) → tick < ticks → option_map (λ rows. frame_at tick rows.items) slot.new
        ≡ option_map (λ rows. replicate (length rows.items) (pos 0)) slot.old }
    ensures lengths { option_map (λ rows. row_lengths rows.items) slot.new ≡ option_map (λ rows. row_lengths rows.items) slot.old }
{
    match slot {
        Some(rows) => hush_rows(rows.as_mut_slice(), ticks),
        None => {}
    }
}

/// Puts the frames of a tone, from a place on, into the rows of a slot at so many ticks.
pub(crate) fn tone_into(slot: &mut Option<Vec<Row>>, ticks: usize, tone: Tone, place: u64)
    requires few { IfSome slot.old (λ rows. length rows.items ≤ 32) }
    requires inside { IfSome slot.old (λ rows. HaveTicks ticks rows.items) }
    ensures frames { (tick : ℕ) → tick < ticks → option_map (λ rows. frame_at tick rows.items) slot.new
        ≡ option_map (λ rows. tone_frame (length rows.items) tone (at_most_u64 (place + tick))) slot.old }
    ensures lengths { option_map (λ rows. row_lengths rows.items) slot.new ≡ option_map (λ rows. row_lengths rows.items) slot.old }
{
    match slot {
        Some(rows) => write_tones(rows.as_mut_slice(), ticks, tone, place),
        None => {}
    }
}

// Puts the frames of a tone, from a place on, at so many ticks.
fn write_tones(rows: &mut [Row], ticks: usize, tone: Tone, place: u64)
    requires few { length rows.old ≤ 32 }
    requires inside { HaveTicks ticks rows.old }
    ensures frames { (tick : ℕ) → tick < ticks → frame_at tick rows.new ≡ tone_frame (length rows.old) tone (at_most_u64 (place + tick)) }
    ensures lengths { row_lengths rows.new ≡ row_lengths rows.old }
{
    if let Tone::Silent = tone {
        hush_rows(rows, ticks);
        return;
    }
    let mut frame: Frame = ArrayVec::new();
    silence(&mut frame, rows.len() as u8);
    for tick in 0..ticks {
        tone.write(place.saturating_add(tick as u64), frame.as_mut_slice());
        write_frame(rows, tick, frame.as_slice());
    }
}
