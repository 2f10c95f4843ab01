// Frames by the ids of their entities.
ghost use Rattle.std.specs.Prelude.{◌≡◌, ◌==◌, ◌≤◌, ◌<◌, ◌+◌, ◌^◌, ℕ, if◌then◌else◌, Some, None, IfOk};
ghost use Rattle.std.specs.Prelude.{List, [], ◌∷◌, length, get_or, unwrap_or, map, replicate, set, slice_index_or, pos};
ghost use Rattle.uac_entities.specs.declared.entity.Entity.{Entity};
ghost use Rattle.std.specs.Option.{option_map};
ghost use Rattle.uac_units.specs.Rendering.{FitsKind, job_samples};
ghost use Rattle.uac_graph.specs.Fitness.{IsSignalGraph};
ghost use Rattle.uac_graph.specs.FrameRows.{numbered_frames, slot_after_passing};
ghost use Rattle.uac_pcm.specs.Tones.{tone_frame};
ghost use Rattle.uac_graph.specs.Wiring.{AreSilent, AreWiresOf, frame_on, samples_on};

use crate::frames::silent;
use crate::jobs::gather_one;
use crate::samples::{hush, refill, write_tone};
use std::alloc::Global;
use std::marker::Model;
use uac_descriptor::NoMemory;
use uac_entities::Entity;
use uac_pcm::{Frame, Tone};
use uac_topology_rules::is_clock;
use uac_units::{Job, Pins, Steps, Unit};

/// A frame for each terminal and each unit, in the slot that is the entity's id. There is a slot for each id.
#[derive(Drop)]
pub struct FrameTable {
    row: Vec<Option<Frame>>,
}

impl Model for FrameTable {
    ghost use Rattle.std.specs.Prelude.{◌≡◌, length, map};
    ghost use Rattle.std.specs.Option.{option_map};
    ghost use Rattle.uac_graph.specs.FrameRows.{numbered_frames};
    ghost use Rattle.uac_graph.specs.Wiring.{Frames};

    ghost Value = { Frames };

    ghost view = { λ t. numbered_frames (map (option_map (λ f. f.items)) t.row.items) };

    ghost invariant = { λ t. length t.row.items ≡ 256 };
}

impl FrameTable {
    /// Silence for each of these entities that isn't a clock.
    pub(crate) fn silent(alloc: Global, entities: &[Entity]) -> Result<FrameTable, NoMemory>
        requires { IsSignalGraph entities.now }
        ensures { IfOk result (λ table. AreSilent entities.now table) }
    {
        let row = silent_row(alloc, entities)?;
        Ok(FrameTable { row })
    }

    /// Puts a copy of a frame into the slot of the one that is there.
    pub(crate) fn set(&mut self, id: u8, frame: &Frame)
        requires { option_map length (frame_on self.old id) ≡ Some (length frame.now.items) }
        ensures wires { (k : ℕ) → frame_on self.new k ≡ (if id == k then Some frame.now.items else frame_on self.old k) }
        ensures fitting { (entities : List Entity) → AreWiresOf entities self.old → AreWiresOf entities self.new }
    {
        if let Some(held) = &mut self.row[id as usize] {
            refill(held, frame.as_slice());
        }
    }

    /// Puts silence into the slot of the frame that is there, on as many channels.
    pub(crate) fn silence(&mut self, id: u8)
        ensures wires { (k : ℕ) → frame_on self.new k
            ≡ (if id == k then option_map (λ samples. replicate (length samples) (pos 0)) (frame_on self.old id) else frame_on self.old k) }
        ensures fitting { (entities : List Entity) → AreWiresOf entities self.old → AreWiresOf entities self.new }
    {
        if let Some(frame) = &mut self.row[id as usize] {
            hush(frame);
        }
    }

    /// Puts the frame of a tone at a place, which counts frames from 0, into the slot of the one that is there, on as many channels.
    pub(crate) fn give_tone(&mut self, id: u8, tone: Tone, place: u64)
        ensures wires { (k : ℕ) → frame_on self.new k
            ≡ (if id == k then option_map (λ samples. tone_frame (length samples) tone place) (frame_on self.old id)
            else frame_on self.old k) }
        ensures fitting { (entities : List Entity) → AreWiresOf entities self.old → AreWiresOf entities self.new }
    {
        if let Some(frame) = &mut self.row[id as usize] {
            write_tone(frame, tone, place);
        }
    }

    /// The frame of an entity, None exactly where it has none.
    pub(crate) fn get(&self, id: u8) -> Option<&Frame>
        ensures { option_map (λ frame. frame.now.items) result ≡ frame_on self.now id }
    {
        match &self.row[id as usize] {
            Some(frame) => Some(frame),
            None => None,
        }
    }

    /// Renders a job over these inputs onto the frame of an entity, once, with this unit.
    pub(crate) fn render(
        &mut self,
        id: u8,
        unit: &dyn Unit,
        job: &Job,
        pins: &Pins,
        steps: &mut Steps,
    )
        requires fits { FitsKind (kind_of unit.now) job.now pins.now.items }
        requires there { option_map length (frame_on self.old id) ≡ Some job.now.outputs }
        requires room { steps.old + 1 < 2 ^ 64 }
        ensures frames { (k : ℕ) → frame_on self.new k
            ≡ (if id == k then Some (job_samples (kind_of unit.now) job.now pins.now.items) else frame_on self.old k) }
        ensures counted { steps.new ≡ steps.old + 1 }
    {
        match &mut self.row[id as usize] {
            Some(frame) => unit.render(job, pins, frame, steps),
            None => unreachable!(),
        }
    }

    /// Renders a job over the frame of a source onto that of an entity, once, with this unit. In `pins` lie its inputs.
    pub(crate) fn render_over(
        &mut self,
        id: u8,
        source: u8,
        unit: &dyn Unit,
        job: &Job,
        pins: &mut Pins,
        steps: &mut Steps,
    )
        requires few { length (samples_on self.old source) ≤ 256 }
        requires fits { FitsKind (kind_of unit.now) job.now (samples_on self.old source) }
        requires there { option_map length (frame_on self.old id) ≡ Some job.now.outputs }
        requires room { steps.old + 1 < 2 ^ 64 }
        ensures frames { (k : ℕ) → frame_on self.new k ≡ (if id == k
            then Some (job_samples (kind_of unit.now) job.now (samples_on self.old source))
            else frame_on self.old k) }
        ensures counted { steps.new ≡ steps.old + 1 }
    {
        gather_one(pins, self, source);
        self.render(id, unit, job, pins, steps);
    }

    /// Puts a copy of a source's frame into the slot of another.
    pub(crate) fn pass(&mut self, from: u8, to: u8)
        requires { option_map length (frame_on self.old to) ≡ Some (length (samples_on self.old from)) }
        ensures { (k : ℕ) → frame_on self.new k ≡ (if to == k then Some (samples_on self.old from) else frame_on self.old k) }
    {
        pass_in(self.row.as_mut_slice(), from as usize, to as usize);
    }

    /// Puts these samples onto the frame of an entity.
    pub(crate) fn pass_on(&mut self, id: u8, samples: &Pins)
        requires few { length samples.now.items ≤ 32 }
        requires there { option_map length (frame_on self.old id) ≡ Some (length samples.now.items) }
        ensures { (k : ℕ) → frame_on self.new k ≡ (if id == k then Some samples.now.items else frame_on self.old k) }
    {
        if let Some(frame) = &mut self.row[id as usize] {
            refill(frame, samples.as_slice());
        }
    }
}

// Makes the frame in one slot of a row that in another, which has as many channels. Most have one channel or two.
fn pass_in(row: &mut [Option<Frame>], from: usize, to: usize)
    requires from { from < length row.old }
    requires to { to < length row.old }
    requires alike { option_map (λ f. length f.items) (get_or row.old to None)
        ≡ Some (length (unwrap_or (option_map (λ f. f.items) (get_or row.old from None)) [])) }
    ensures { row.new ≡ set row.old to (slot_after_passing (get_or row.old from None) (get_or row.old to None)) }
{
    let channels = channels_at(&row[from]);
    if channels == 1 {
        let only = sample_of(&row[from], 0);
        write_one(&mut row[to], only);
    } else if channels == 2 {
        let left = sample_of(&row[from], 0);
        let right = sample_of(&row[from], 1);
        write_two(&mut row[to], left, right);
    } else {
        pass_wide(row, from, to);
    }
}

// How many channels the frame in a slot has, none where there is no frame.
fn channels_at(slot: &Option<Frame>) -> usize
    ensures { result ≡ length (unwrap_or (option_map (λ f. f.items) slot.now) []) }
{
    match slot {
        Some(frame) => frame.len(),
        None => 0,
    }
}

// A channel's sample of the frame in a slot.
fn sample_of(slot: &Option<Frame>, channel: usize) -> i32
    requires { channel < length (unwrap_or (option_map (λ f. f.items) slot.now) []) }
    ensures { result ≡ slice_index_or (unwrap_or (option_map (λ f. f.items) slot.now) []) channel (pos 0) }
{
    match slot {
        Some(frame) => frame.as_slice()[channel],
        None => unreachable!(),
    }
}

// Makes the frame in a slot, of one channel, this sample.
fn write_one(slot: &mut Option<Frame>, only: i32)
    requires { option_map (λ f. length f.items) slot.old ≡ Some 1 }
    ensures { option_map (λ f. f.items) slot.new ≡ Some (only ∷ []) }
{
    match slot {
        Some(frame) => frame.as_mut_slice()[0] = only,
        None => unreachable!(),
    }
}

// Makes the frame in a slot, of two channels, these samples.
fn write_two(slot: &mut Option<Frame>, left: i32, right: i32)
    requires { option_map (λ f. length f.items) slot.old ≡ Some 2 }
    ensures { option_map (λ f. f.items) slot.new ≡ Some (left ∷ right ∷ []) }
{
    match slot {
        Some(frame) => {
            let samples = frame.as_mut_slice();
            samples[0] = left;
            samples[1] = right;
        }
        None => unreachable!(),
    }
}

// Makes the frame in one slot of a row that in another, where there is one in both.
fn pass_wide(row: &mut [Option<Frame>], from: usize, to: usize)
    requires from { from < length row.old }
    requires to { to < length row.old }
    ensures { row.new ≡ set row.old to (slot_after_passing (get_or row.old from None) (get_or row.old to None)) }
{
    if from < to {
        let (front, back) = row.split_at_mut(to);
        pass_frame(&front[from], &mut back[0]);
    } else if to < from {
        let (front, back) = row.split_at_mut(from);
        pass_frame(&back[0], &mut front[to]);
    }
}

// Makes a frame another, where both are there.
fn pass_frame(source: &Option<Frame>, slot: &mut Option<Frame>)
    ensures { slot.new ≡ slot_after_passing source.now slot.old }
{
    if let Some(frame) = source {
        if let Some(held) = slot {
            refill(held, frame.as_slice());
        }
    }
}

// Silence for each of these entities that isn't a clock.
fn silent_row(alloc: Global, entities: &[Entity]) -> Result<Vec<Option<Frame>>, NoMemory>
    requires { IsSignalGraph entities.now }
    ensures silent { IfOk result (λ row. AreSilent entities.now (numbered_frames (map (option_map (λ f. f.items)) row.items))) }
    ensures sized { IfOk result (λ row. length row.items ≡ 256) }
{
    let mut row = empty_row(alloc)?;
    for entity in entities {
        if is_clock(entity.kind) {
            continue;
        }
        row[entity.id as usize] = Some(silent(entity.cluster.channels));
    }
    Ok(row)
}

// A slot for each id, with no frame.
fn empty_row(alloc: Global) -> Result<Vec<Option<Frame>>, NoMemory>
    ensures { IfOk result (λ row. row.items ≡ replicate 256 None) }
{
    let mut row = Vec::new(alloc);
    for _each in 0..256usize {
        row.push(None)?;
    }
    Ok(row)
}
