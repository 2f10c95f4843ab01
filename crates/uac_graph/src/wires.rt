// The frames on the wires of a signal graph.
ghost use Rattle.std.specs.Prelude.{◌≡◌, ◌==◌, ◌+◌, ◌<◌, ◌≤◌, ◌^◌, ℕ, if◌then◌else◌, Some, IfOk, List, length, map, replicate, pos};
ghost use Rattle.uac_entities.specs.declared.entity.Entity.{Entity};
ghost use Rattle.std.specs.Option.{option_map};
ghost use Rattle.uac_units.specs.Fitting.{IsFitted};
ghost use Rattle.uac_units.specs.Rendering.{FitsKind, in_a_row, job_samples};
ghost use Rattle.uac_graph.specs.GraphControls.{Controls};
ghost use Rattle.uac_graph.specs.Jobs.{FitsFrames, HasJob};
ghost use Rattle.uac_graph.specs.Meaning as spec;
ghost use Rattle.uac_graph.specs.Needs.{unit_count};
ghost use Rattle.uac_pcm.specs.Tones.{tone_frame};
ghost use Rattle.uac_graph.specs.Wiring.{AreSilent, AreWiresOf, frame_on, samples_on};

use crate::frame_table::FrameTable;
use crate::jobs::{gather, unit_for};
use arrayvec::ArrayVec;
use std::alloc::Global;
use std::marker::Model;
use uac_descriptor::NoMemory;
use uac_entities::Entity;
use uac_pcm::{Frame, Tone};
use uac_topology::Function;
use uac_topology::laws::functions_are_sound;
use uac_units::{Job, Pins, Rack, Steps, Unit};

/// A frame for each terminal and each unit of an audio function, by the entity's id. Beside them lie the inputs of the entity that was
/// rendered last, so that no room is made for them anew. Those of a unit of one source and of one channel or two lie apart, so that each
/// list keeps its length.
#[derive(Drop)]
pub struct Wires {
    frames: FrameTable,
    pins: Pins,
    only_pin: Pins,
    two_pins: Pins,
}

impl Model for Wires {
    ghost use Rattle.uac_graph.specs.Wiring.{Frames};

    ghost Value = { Frames };

    ghost view = { λ w. w.frames };
}

impl Wires {
    /// Silence on the wire of each terminal and each unit of a function.
    #[tactic(auto, using(crate::proofs::WiringLemmas::silent_fits))]
    pub fn new(alloc: Global, function: &Function) -> Result<Wires, NoMemory>
        ensures silent { IfOk result (λ wires. AreSilent function.now.entities wires) }
        ensures fitting { IfOk result (λ wires. AreWiresOf function.now.entities wires) }
    {
        functions_are_sound(function);
        let frames = FrameTable::silent(alloc, function.entities())?;
        Ok(Wires {
            frames,
            pins: ArrayVec::new(),
            only_pin: ArrayVec::new(),
            two_pins: ArrayVec::new(),
        })
    }

    /// Puts a frame on the wire of an input terminal.
    pub fn set(&mut self, terminal: u8, frame: &Frame)
        requires { option_map length (frame_on self.old terminal) ≡ Some (length frame.now.items) }
        ensures wires { (id : ℕ) → frame_on self.new id ≡ (if terminal == id then Some frame.now.items else frame_on self.old id) }
        ensures fitting { (entities : List Entity) → AreWiresOf entities self.old → AreWiresOf entities self.new }
    {
        self.frames.set(terminal, frame);
    }

    /// Silence on the wire of an input terminal.
    pub fn silence(&mut self, terminal: u8)
        ensures wires { (id : ℕ) → frame_on self.new id ≡ (if terminal == id
            then option_map (λ samples. replicate (length samples) (pos 0)) (frame_on self.old terminal)
            else frame_on self.old id) }
        ensures fitting { (entities : List Entity) → AreWiresOf entities self.old → AreWiresOf entities self.new }
    {
        self.frames.silence(terminal);
    }

    /// The frame of a tone at a place, which counts frames from 0, on the wire of an input terminal.
    pub fn give_tone(&mut self, terminal: u8, tone: Tone, place: u64)
        ensures wires { (id : ℕ) → frame_on self.new id ≡ (if terminal == id
            then option_map (λ samples. tone_frame (length samples) tone place) (frame_on self.old terminal)
            else frame_on self.old id) }
        ensures fitting { (entities : List Entity) → AreWiresOf entities self.old → AreWiresOf entities self.new }
    {
        self.frames.give_tone(terminal, tone, place);
    }

    /// The frame on an entity's wire, None exactly where it has none.
    pub fn get(&self, entity: u8) -> Option<&Frame>
        ensures { option_map (λ frame. frame.now.items) result ≡ frame_on self.now entity }
    {
        self.frames.get(entity)
    }

    /// Puts the frame of a source on the wire of an output terminal.
    pub(crate) fn pass(&mut self, from: u8, to: u8)
        requires { option_map length (frame_on self.old to) ≡ Some (length (samples_on self.old from)) }
        ensures { (id : ℕ) → frame_on self.new id ≡ (if to == id then Some (samples_on self.old from) else frame_on self.old id) }
    {
        self.frames.pass(from, to);
    }

    /// Renders a unit of one source: the wire of its id gets what the unit makes of the source's frame.
    pub(crate) fn render_one(
        &mut self,
        id: u8,
        source: u8,
        unit: &dyn Unit,
        job: &Job,
        steps: &mut Steps,
    )
        requires few { length (samples_on self.old source) ≤ 256 }
        requires fits { FitsKind (kind_of unit.now) job.now (samples_on self.old source) }
        requires there { option_map length (frame_on self.old id) ≡ Some job.now.outputs }
        requires room { steps.old + 1 < 2 ^ 64 }
        ensures frames { (k : ℕ) → frame_on self.new k ≡ (if id == k
            then Some (job_samples (kind_of unit.now) job.now (samples_on self.old source))
            else frame_on self.old k) }
        ensures counted { steps.new ≡ steps.old + 1 }
    {
        match job.outputs {
            1 => self
                .frames
                .render_over(id, source, unit, job, &mut self.only_pin, steps),
            2 => self
                .frames
                .render_over(id, source, unit, job, &mut self.two_pins, steps),
            _ => self
                .frames
                .render_over(id, source, unit, job, &mut self.pins, steps),
        }
    }

    /// Renders an entity: its wire gets the frame that it makes of those on the wires of its sources, under the controls of which this
    /// is its job. A unit is rendered once.
    pub(crate) fn render(&mut self, entity: &Entity, job: &Job, rack: &Rack, steps: &mut Steps)
        requires rack { IsFitted (λ v x. (⟦<dyn Unit as Unit>⟧ v).kind_of x) rack.now }
        requires fits { FitsFrames entity.now.kind entity.now.cluster.channels (map (samples_on self.old) entity.now.sources) }
        requires there { option_map length (frame_on self.old entity.now.id) ≡ Some entity.now.cluster.channels }
        requires job { (controls : Controls)
            × HasJob controls entity.now (length (in_a_row (map (samples_on self.old) entity.now.sources))) job.now }
        requires room { steps.old + unit_count entity.now.kind < 2 ^ 64 }
        ensures frames { (controls : Controls)
            → HasJob controls entity.now (length (in_a_row (map (samples_on self.old) entity.now.sources))) job.now
            → (id : ℕ) → frame_on self.new id ≡ (if entity.now.id == id
            then Some (spec.frame_of controls entity.now.id entity.now.kind entity.now.cluster.channels
            (map (samples_on self.old) entity.now.sources))
            else frame_on self.old id) }
        ensures counted { steps.new ≡ steps.old + unit_count entity.now.kind }
    {
        gather(&mut self.pins, &self.frames, entity.sources.as_slice());
        match unit_for(rack, entity.kind) {
            Some(unit) => self.frames.render(entity.id, unit, job, &self.pins, steps),
            None => self.frames.pass_on(entity.id, &self.pins),
        }
    }
}
