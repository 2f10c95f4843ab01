// What several ticks of a clock domain at once need beside the streams: the frames that terminals hold, the tones of jacks, what the
// meters hear, and the frames of the last tick.
ghost use Rattle.std.specs.Prelude.{◌≡◌, ◌<◌, ◌≤◌, ◌==◌, ◌&&◌, ◌||◌, if◌then◌else◌, true, false, ℕ, Some, List, length};
ghost use Rattle.std.specs.List.{All};
ghost use Rattle.std.specs.Option.{option_map, option_map_or};
ghost use Rattle.uac_entities.specs.declared.entity.Entity.{Entity};
ghost use Rattle.uac_topology_rules.specs.Clusters as clusters;
ghost use Rattle.uac_graph.specs.Meaning.{entity};
ghost use Rattle.uac_graph.specs.Needs as needs;
ghost use Rattle.uac_graph.specs.TickRows.{AreRowsOf, frames_at, slot_lengths};
ghost use Rattle.uac_graph.specs.Wiring.{AreWiresOf, frame_on, samples_on};
ghost use Rattle.uac_units.specs.MeterReadings.{readings};
ghost use Rattle.uac_device.specs.DeviceTurns as spec;
ghost use Rattle.uac_device.specs.DeviceTicks.{heard_by_ticks};
ghost use Rattle.uac_device.specs.Jacks.{jack_after, next_frame, tones_of};

use crate::hearing::OutputJack;
use crate::jacks::Jack;
use arrayvec::ArrayVec;
use uac_entities::Entity;
use uac_graph::{WireRows, Wires, is_end};
use uac_pcm::Frame;
use uac_topology::Function;
use uac_topology::laws::functions_are_sound;
use uac_topology_rules::is_input;
use uac_units::{Meter, Meters, read_frame};

/// At each of so many ticks each input terminal holds the frame that it gave last.
pub(crate) fn hold_inputs(function: &Function, wires: &Wires, ticks: usize, rows: &mut WireRows)
    requires wires { AreWiresOf function.now.entities wires.now }
    requires rows { AreRowsOf function.now.entities rows.old }
    requires room { ticks ≤ rows.old.room }
    ensures held { (t : ℕ) → t < ticks → (id : ℕ) → clusters.is_input (entity function.now.entities id).kind ≡ true
        → frame_on (frames_at t rows.new) id ≡ frame_on wires.now id }
    ensures lengths { slot_lengths rows.new.slots ≡ slot_lengths rows.old.slots }
    ensures room { rows.new.room ≡ rows.old.room }
{
    for entity in function.entities() {
        if is_input(entity.kind) {
            hold_input(entity.id, wires, ticks, rows);
        }
    }
}

// At each of so many ticks a terminal holds the frame that it gave last.
fn hold_input(terminal: u8, wires: &Wires, ticks: usize, rows: &mut WireRows)
    requires alike { option_map length (frame_on (frames_at 0 rows.old) terminal) ≡ option_map length (frame_on wires.now terminal) }
    requires room { ticks ≤ rows.old.room }
    ensures held { (t : ℕ) → t < ticks → (id : ℕ) → frame_on (frames_at t rows.new) id
        ≡ (if terminal == id then frame_on wires.now id else frame_on (frames_at t rows.old) id) }
    ensures lengths { slot_lengths rows.new.slots ≡ slot_lengths rows.old.slots }
    ensures room { rows.new.room ≡ rows.old.room }
{
    if let Some(frame) = wires.get(terminal) {
        rows.hold(terminal, ticks, frame);
    }
}

/// At so many ticks the jacks of a domain give the next frames of their tones.
pub(crate) fn give_tones(jacks: &[Jack], domain: u8, ticks: usize, rows: &mut WireRows)
    requires wired { All (λ j. option_map length (frame_on (frames_at 0 rows.old) j.terminal) ≡ Some j.channels) jacks.now }
    requires few { All (λ j. j.channels ≤ 32) jacks.now }
    requires room { ticks ≤ rows.old.room }
    ensures frames { (t : ℕ) → t < ticks → (id : ℕ) → frame_on (frames_at t rows.new) id
        ≡ option_map_or (λ frames. Some (frames t)) (tones_of domain jacks.now id) (frame_on (frames_at t rows.old) id) }
    ensures lengths { slot_lengths rows.new.slots ≡ slot_lengths rows.old.slots }
    ensures room { rows.new.room ≡ rows.old.room }
{
    for jack in jacks {
        give_tone(jack, jack.place, domain, ticks, rows);
    }
}

// At so many ticks a jack gives the next frames of its tone, from its place on, where it is of the domain.
fn give_tone(jack: &Jack, place: u64, domain: u8, ticks: usize, rows: &mut WireRows)
    requires place { place ≡ jack.now.place }
    requires wired { option_map length (frame_on (frames_at 0 rows.old) jack.now.terminal) ≡ Some jack.now.channels }
    requires few { jack.now.channels ≤ 32 }
    requires room { ticks ≤ rows.old.room }
    ensures frames { (t : ℕ) → t < ticks → (id : ℕ) → frame_on (frames_at t rows.new) id
        ≡ (if jack.now.domain == domain && id == jack.now.terminal then Some (next_frame (jack_after domain t jack.now))
        else frame_on (frames_at t rows.old) id) }
    ensures lengths { slot_lengths rows.new.slots ≡ slot_lengths rows.old.slots }
    ensures room { rows.new.room ≡ rows.old.room }
{
    if jack.domain == domain {
        rows.give_tone(jack.terminal, ticks, jack.tone, place);
    }
}

/// The meters hear what a domain's jacks played at so many ticks.
// The condition is for the checker, which else holds that a boxed meter may be made here, and covers no caller.
pub(crate) fn hear_rows(
    jacks: &[OutputJack],
    rows: &WireRows,
    domain: u8,
    ticks: usize,
    meters: &mut Meters,
)
    requires rows { (entities : List Entity) × AreRowsOf entities rows.now }
    requires room { ticks ≤ rows.now.room }
    requires few { (id : ℕ) → length (samples_on (frames_at 0 rows.now) id) ≤ 32 }
    requires wired { All (λ j. frame_on (frames_at 0 rows.now) j.terminal ≡ Some (samples_on (frames_at 0 rows.now) j.terminal)) jacks.now }
    ensures { readings (λ v x. (⟦<dyn Meter as Meter>⟧ v).reading_of x) meters.new
        ≡ heard_by_ticks (λ t. spec.frames_heard (frames_at t rows.now) domain jacks.now) ticks
        (readings (λ v x. (⟦<dyn Meter as Meter>⟧ v).reading_of x) meters.old) }
{
    for jack in jacks {
        if jack.domain == domain {
            meters.hear_rows(ticks, rows.get(jack.terminal));
        }
    }
}

/// The frames of a tick become the last ones of the input terminals and of a domain's output terminals.
pub(crate) fn keep_frames(
    function: &Function,
    domain: u8,
    tick: usize,
    rows: &WireRows,
    wires: &mut Wires,
)
    requires wires { AreWiresOf function.now.entities wires.old }
    requires rows { AreRowsOf function.now.entities rows.now }
    requires tick { tick < rows.now.room }
    ensures inputs { (id : ℕ) → clusters.is_input (entity function.now.entities id).kind ≡ true
        → frame_on wires.new id ≡ frame_on (frames_at tick rows.now) id }
    ensures ends { (id : ℕ) → needs.is_end domain (entity function.now.entities id) ≡ true
        → frame_on wires.new id ≡ frame_on (frames_at tick rows.now) id }
    ensures others { (id : ℕ) → clusters.is_input (entity function.now.entities id).kind ≡ false
        → needs.is_end domain (entity function.now.entities id) ≡ false → frame_on wires.new id ≡ frame_on wires.old id }
    ensures fitting { AreWiresOf function.now.entities wires.new }
{
    functions_are_sound(function);
    for entity in function.entities() {
        if is_kept(domain, entity) {
            keep_frame(entity.id, tick, rows, wires);
        }
    }
}

// An input terminal, or an output terminal of the domain.
fn is_kept(domain: u8, entity: &Entity) -> bool
    ensures { result ≡ (clusters.is_input entity.now.kind || needs.is_end domain entity.now) }
{
    is_input(entity.kind) || is_end(domain, entity)
}

// The frame of a tick becomes the last one of an entity.
fn keep_frame(id: u8, tick: usize, rows: &WireRows, wires: &mut Wires)
    requires alike { option_map length (frame_on wires.old id) ≡ Some (length (samples_on (frames_at tick rows.now) id)) }
    requires there { frame_on (frames_at tick rows.now) id ≡ Some (samples_on (frames_at tick rows.now) id) }
    requires few { length (samples_on (frames_at tick rows.now) id) ≤ 32 }
    requires tick { tick < rows.now.room }
    ensures frames { (k : ℕ) → frame_on wires.new k
        ≡ (if id == k then frame_on (frames_at tick rows.now) k else frame_on wires.old k) }
    ensures fitting { (entities : List Entity) → AreWiresOf entities wires.old → AreWiresOf entities wires.new }
{
    let held = rows.get(id);
    let mut frame: Frame = ArrayVec::new();
    read_frame(held, tick, &mut frame);
    wires.set(id, &frame);
}
