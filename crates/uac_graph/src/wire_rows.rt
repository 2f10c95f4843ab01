// The frames of several ticks on the wires of a signal graph.
ghost use Rattle.std.specs.Prelude.{◌≡◌, ◌≢◌, ◌==◌, ◌+◌, ◌*◌, ◌<◌, ◌≤◌, ◌^◌, ℕ, if◌then◌else◌, Some, IfOk, IfSome, length, map, unwrap_or, get_or, None, [], pos, replicate, set};
ghost use Rattle.uac_pcm.specs.Tones.{tone_frame};
ghost use Rattle.std.specs.Option.{option_map};
ghost use Rattle.uac_units.specs.Fitting.{IsFitted};
ghost use Rattle.uac_units.specs.Rendering.{FitsKind, in_a_row, job_samples};
ghost use Rattle.uac_units.specs.Hearing.{at_most_u64};
ghost use Rattle.uac_units.specs.SampleRows.{HaveTicks, frame_at};
ghost use Rattle.uac_graph.specs.GraphControls.{Controls};
ghost use Rattle.uac_graph.specs.Jobs.{FitsFrames, HasJob};
ghost use Rattle.uac_graph.specs.Meaning as spec;
ghost use Rattle.uac_graph.specs.Needs.{unit_count};
ghost use Rattle.uac_graph.specs.TickRows.{AreRowsOf, frames_at, slot_lengths};
ghost use Rattle.uac_graph.specs.Wiring.{AreSilent, frame_on, samples_on};

use crate::jobs::unit_for;
use crate::row_slots::{
    copy_into, gather_rows, hold_into, hush_slot, render_into, rows_of, set_into, silent_slots,
    tone_into,
};
use std::alloc::Global;
use std::marker::Model;
use uac_descriptor::NoMemory;
use uac_entities::Entity;
use uac_pcm::{Frame, Tone};
use uac_topology::Function;
use uac_topology::laws::functions_are_sound;
use uac_units::{Job, Rack, Row, Steps, Unit, silent_rows};

/// The frames of several ticks for each terminal and each unit of an audio function, by the entity's id. Beside them lie the inputs of
/// the entity that was rendered last.
#[derive(Drop)]
pub struct WireRows {
    slots: Vec<Option<Vec<Row>>>,
    pins: Vec<Row>,
    room: usize,
}

impl Model for WireRows {
    ghost use Rattle.std.specs.Prelude.{map};
    ghost use Rattle.std.specs.Option.{option_map};
    ghost use Rattle.uac_graph.specs.TickRows.{HaveRoom, RowsById};

    ghost Value = { RowsById };

    ghost view = { λ w. record { room = w.room; slots = map (option_map (λ rows. rows.items)) w.slots.items } };

    ghost invariant = { λ w. HaveRoom w.room (map (option_map (λ rows. rows.items)) w.slots.items) w.pins.items };
}

impl WireRows {
    /// Silence at so many ticks on the wire of each terminal and each unit of a function.
    pub fn new(alloc: Global, function: &Function, ticks: usize) -> Result<WireRows, NoMemory>
        ensures silent { IfOk result (λ wires. (tick : ℕ) → AreSilent function.now.entities (frames_at tick wires)) }
        ensures fitting { IfOk result (AreRowsOf function.now.entities) }
        ensures room { IfOk result (λ wires. wires.room ≡ ticks) }
    {
        functions_are_sound(function);
        let slots = silent_slots(alloc, function.entities(), ticks)?;
        let pins = silent_rows(alloc, 256, ticks)?;
        Ok(WireRows {
            slots,
            pins,
            room: ticks,
        })
    }

    /// Puts a frame on the wire of an input terminal at a tick.
    pub fn set(&mut self, terminal: u8, tick: usize, frame: &Frame)
        requires there { option_map length (frame_on (frames_at tick self.old) terminal) ≡ Some (length frame.now.items) }
        requires tick { tick < self.old.room }
        ensures here { (id : ℕ) → frame_on (frames_at tick self.new) id
            ≡ (if terminal == id then Some frame.now.items else frame_on (frames_at tick self.old) id) }
        ensures others { (other : ℕ) → other ≢ tick → (id : ℕ) → frame_on (frames_at other self.new) id ≡ frame_on (frames_at other self.old) id }
        ensures lengths { slot_lengths self.new.slots ≡ slot_lengths self.old.slots }
        ensures room { self.new.room ≡ self.old.room }
    {
        set_into(&mut self.slots[terminal as usize], tick, frame);
    }

    /// Puts one frame on the wire of a terminal at each of so many ticks.
    pub fn hold(&mut self, terminal: u8, ticks: usize, frame: &Frame)
        requires there { option_map length (frame_on (frames_at 0 self.old) terminal) ≡ Some (length frame.now.items) }
        requires ticks { ticks ≤ self.old.room }
        ensures frames { (tick : ℕ) → tick < ticks → (id : ℕ) → frame_on (frames_at tick self.new) id
            ≡ (if terminal == id then Some frame.now.items else frame_on (frames_at tick self.old) id) }
        ensures lengths { slot_lengths self.new.slots ≡ slot_lengths self.old.slots }
        ensures room { self.new.room ≡ self.old.room }
    {
        hold_into(&mut self.slots[terminal as usize], ticks, frame);
    }

    /// Puts the frames of a tone, from a place on, on the wire of a terminal at so many ticks. A place counts frames from 0, and stands
    /// still at 18446744073709551615.
    pub fn give_tone(&mut self, terminal: u8, ticks: usize, tone: Tone, place: u64)
        requires there { IfSome (frame_on (frames_at 0 self.old) terminal) (λ samples. length samples ≤ 32) }
        requires ticks { ticks ≤ self.old.room }
        ensures frames { (tick : ℕ) → tick < ticks → (id : ℕ) → frame_on (frames_at tick self.new) id ≡ (if terminal == id
            then option_map (λ samples. tone_frame (length samples) tone (at_most_u64 (place + tick))) (frame_on (frames_at tick self.old) terminal)
            else frame_on (frames_at tick self.old) id) }
        ensures lengths { slot_lengths self.new.slots ≡ slot_lengths self.old.slots }
        ensures room { self.new.room ≡ self.old.room }
    {
        tone_into(&mut self.slots[terminal as usize], ticks, tone, place);
    }

    /// Silence on the wire of a terminal at so many ticks.
    pub fn silence(&mut self, terminal: u8, ticks: usize)
        requires ticks { ticks ≤ self.old.room }
        ensures frames { (tick : ℕ) → tick < ticks → (id : ℕ) → frame_on (frames_at tick self.new) id ≡ (if terminal == id
            then option_map (λ samples. replicate (length samples) (pos 0)) (frame_on (frames_at tick self.old) terminal)
            else frame_on (frames_at tick self.old) id) }
        ensures lengths { slot_lengths self.new.slots ≡ slot_lengths self.old.slots }
        ensures room { self.new.room ≡ self.old.room }
    {
        hush_slot(&mut self.slots[terminal as usize], ticks);
    }

    /// Takes the rows of an entity out, until they are put back.
    pub fn take(&mut self, entity: u8) -> Option<Vec<Row>>
        ensures rows { option_map (λ rows. rows.items) result ≡ get_or self.old.slots entity None }
        ensures ticks { IfSome result (λ rows. HaveTicks self.old.room rows.items) }
        ensures gone { self.new ≡ record self.old { slots = set self.old.slots entity None } }
    {
        self.slots[entity as usize].take()
    }

    /// Puts the rows of an entity back.
    pub fn put_back(&mut self, entity: u8, rows: Option<Vec<Row>>)
        requires ticks { IfSome rows (λ rows. HaveTicks self.old.room rows.items) }
        ensures { self.new ≡ record self.old { slots = set self.old.slots entity (option_map (λ rows. rows.items) rows) } }
    {
        self.slots[entity as usize] = rows;
    }

    /// The rows of an entity, one for each channel: none where it has no wire.
    pub fn get(&self, entity: u8) -> &[Row]
        ensures frames { (tick : ℕ) → frame_at tick result.now ≡ samples_on (frames_at tick self.now) entity }
        ensures ticks { HaveTicks self.now.room result.now }
    {
        rows_of(&self.slots[entity as usize])
    }

    /// Puts the samples of a source on the wire of an output terminal, at each of so many ticks.
    pub(crate) fn pass(&mut self, from: u8, to: u8, ticks: usize)
        requires apart { from ≢ to }
        requires ticks { ticks ≤ self.old.room }
        requires alike { option_map length (frame_on (frames_at 0 self.old) to) ≡ Some (length (samples_on (frames_at 0 self.old) from)) }
        ensures frames { (tick : ℕ) → tick < ticks → (id : ℕ) → frame_on (frames_at tick self.new) id
            ≡ (if to == id then Some (samples_on (frames_at tick self.old) from) else frame_on (frames_at tick self.old) id) }
        ensures lengths { slot_lengths self.new.slots ≡ slot_lengths self.old.slots }
        ensures room { self.new.room ≡ self.old.room }
    {
        let mut slot = self.slots[to as usize].take();
        copy_into(&mut slot, ticks, rows_of(&self.slots[from as usize]));
        self.slots[to as usize] = slot;
    }

    /// Renders a unit of one source at each of so many ticks: the wire of its id gets what the unit makes of the source's frame.
    pub(crate) fn render_one(
        &mut self,
        id: u8,
        source: u8,
        unit: &dyn Unit,
        job: &Job,
        ticks: usize,
        steps: &mut Steps,
    )
        requires apart { source ≢ id }
        requires ticks { ticks ≤ self.old.room }
        requires few { length (samples_on (frames_at 0 self.old) source) ≤ 256 }
        requires fits { FitsKind (kind_of unit.now) job.now (samples_on (frames_at 0 self.old) source) }
        requires there { option_map length (frame_on (frames_at 0 self.old) id) ≡ Some job.now.outputs }
        requires room { steps.old + ticks < 2 ^ 64 }
        ensures frames { (tick : ℕ) → tick < ticks → (k : ℕ) → frame_on (frames_at tick self.new) k ≡ (if id == k
            then Some (job_samples (kind_of unit.now) job.now (samples_on (frames_at tick self.old) source))
            else frame_on (frames_at tick self.old) k) }
        ensures lengths { slot_lengths self.new.slots ≡ slot_lengths self.old.slots }
        ensures room { self.new.room ≡ self.old.room }
        ensures counted { steps.new ≡ steps.old + ticks }
    {
        let mut slot = self.slots[id as usize].take();
        render_into(
            &mut slot,
            unit,
            job,
            ticks,
            rows_of(&self.slots[source as usize]),
            steps,
        );
        self.slots[id as usize] = slot;
    }

    /// Renders a unit of several sources at each of so many ticks: the wire of its id gets what the unit makes of the sources' frames.
    pub(crate) fn render_several(
        &mut self,
        id: u8,
        sources: &[u8],
        unit: &dyn Unit,
        job: &Job,
        ticks: usize,
        steps: &mut Steps,
    )
        requires ticks { ticks ≤ self.old.room }
        requires few { length (in_a_row (map (samples_on (frames_at 0 self.old)) sources.now)) ≤ 256 }
        requires fits { FitsKind (kind_of unit.now) job.now (in_a_row (map (samples_on (frames_at 0 self.old)) sources.now)) }
        requires there { option_map length (frame_on (frames_at 0 self.old) id) ≡ Some job.now.outputs }
        requires room { steps.old + ticks < 2 ^ 64 }
        ensures frames { (tick : ℕ) → tick < ticks → (k : ℕ) → frame_on (frames_at tick self.new) k ≡ (if id == k
            then Some (job_samples (kind_of unit.now) job.now (in_a_row (map (samples_on (frames_at tick self.old)) sources.now)))
            else frame_on (frames_at tick self.old) k) }
        ensures lengths { slot_lengths self.new.slots ≡ slot_lengths self.old.slots }
        ensures room { self.new.room ≡ self.old.room }
        ensures counted { steps.new ≡ steps.old + ticks }
    {
        let count = gather_rows(
            self.pins.as_mut_slice(),
            ticks,
            self.slots.as_slice(),
            sources,
        );
        let inputs = &self.pins.as_slice()[..count];
        render_into(
            &mut self.slots[id as usize],
            unit,
            job,
            ticks,
            inputs,
            steps,
        );
    }

    /// Puts the samples of several sources, one after the other, on the wire of an entity, at each of so many ticks.
    pub(crate) fn pass_several(&mut self, id: u8, sources: &[u8], ticks: usize)
        requires ticks { ticks ≤ self.old.room }
        requires few { length (in_a_row (map (samples_on (frames_at 0 self.old)) sources.now)) ≤ 256 }
        requires there { option_map length (frame_on (frames_at 0 self.old) id)
            ≡ Some (length (in_a_row (map (samples_on (frames_at 0 self.old)) sources.now))) }
        ensures frames { (tick : ℕ) → tick < ticks → (k : ℕ) → frame_on (frames_at tick self.new) k ≡ (if id == k
            then Some (in_a_row (map (samples_on (frames_at tick self.old)) sources.now))
            else frame_on (frames_at tick self.old) k) }
        ensures lengths { slot_lengths self.new.slots ≡ slot_lengths self.old.slots }
        ensures room { self.new.room ≡ self.old.room }
    {
        let count = gather_rows(
            self.pins.as_mut_slice(),
            ticks,
            self.slots.as_slice(),
            sources,
        );
        let inputs = &self.pins.as_slice()[..count];
        copy_into(&mut self.slots[id as usize], ticks, inputs);
    }

    /// Renders an entity at each of so many ticks: its wire gets the frames that it makes of those on the wires of its sources, under the
    /// controls of which this is its job. A unit is rendered once a tick.
    pub(crate) fn render(
        &mut self,
        entity: &Entity,
        job: &Job,
        ticks: usize,
        rack: &Rack,
        steps: &mut Steps,
    )
        requires rack { IsFitted (λ v x. (⟦<dyn Unit as Unit>⟧ v).kind_of x) rack.now }
        requires ticks { ticks ≤ self.old.room }
        requires fits { FitsFrames entity.now.kind entity.now.cluster.channels (map (samples_on (frames_at 0 self.old)) entity.now.sources) }
        requires there { option_map length (frame_on (frames_at 0 self.old) entity.now.id) ≡ Some entity.now.cluster.channels }
        requires job { (controls : Controls)
            × HasJob controls entity.now (length (in_a_row (map (samples_on (frames_at 0 self.old)) entity.now.sources))) job.now }
        requires room { steps.old + ticks * unit_count entity.now.kind < 2 ^ 64 }
        ensures frames { (controls : Controls)
            → HasJob controls entity.now (length (in_a_row (map (samples_on (frames_at 0 self.old)) entity.now.sources))) job.now
            → (tick : ℕ) → tick < ticks → (id : ℕ) → frame_on (frames_at tick self.new) id ≡ (if entity.now.id == id
            then Some (spec.frame_of controls entity.now.id entity.now.kind entity.now.cluster.channels
            (map (samples_on (frames_at tick self.old)) entity.now.sources))
            else frame_on (frames_at tick self.old) id) }
        ensures lengths { slot_lengths self.new.slots ≡ slot_lengths self.old.slots }
        ensures room { self.new.room ≡ self.old.room }
        ensures counted { steps.new ≡ steps.old + ticks * unit_count entity.now.kind }
    {
        let sources = entity.sources.as_slice();
        match unit_for(rack, entity.kind) {
            Some(unit) => self.render_several(entity.id, sources, unit, job, ticks, steps),
            None => self.pass_several(entity.id, sources, ticks),
        }
    }
}
