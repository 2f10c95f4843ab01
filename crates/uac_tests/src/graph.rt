// A small function, tick by tick: a jack through a feature, and a stereo jack through a mixer, a selector and an effect. And forty
// mixers in a row, rendered by a unit that counts how often it is asked.

ghost use Rattle.std.specs.Prelude.{◌≡◌, IfOk, IsTrue, List, Some, length};
ghost use Rattle.std.specs.Option.{option_map};
ghost use Rattle.uac_entities.specs.declared.entity.Entity.{Entity};
ghost use Rattle.uac_units.specs.Fitting.{IsFitted};
ghost use Rattle.uac_units.specs.declared.jobs.UnitKind.TheVariants.{Mixer};
ghost use Rattle.uac_graph.specs.Wiring.{AreWiresOf, frame_on};

use crate::blocks::{
    clock, control, effect, feature, function_of, input, mixer, output, push, selector,
};
use crate::racks::plain_rack;
use crate::store::{hold, key};
use arrayvec::ArrayVec;
use std::alloc::{AllocError, Global};
use std::cell::Cell;
use std::process::Abort;
use std::rc::Rc;
use std::test::Fail;
use uac_descriptor::Block;
use uac_graph::laws::fresh_steps_have_room;
use uac_graph::{Graph, Wires};
use uac_pcm::Frame;
use uac_store::Store;
use uac_topology::Function;
use uac_units::{
    Job, LaneEffect, LaneFeature, LaneMixer, LaneSelector, Pins, PlainEffect, PlainFeature,
    PlainMixer, PlainSelector, Rack, Steps, Unit, UnitKind,
};

/// A mixer that hands its job to the plain one or to the one on lanes, and counts how often it is asked.
#[derive(Drop)]
struct CountingMixer {
    lanes: bool,
    renders: Rc<Cell<u64>>,
}

impl Unit for CountingMixer {
    ghost kind_of = { λ _. Mixer };

    fn kind(&self) -> UnitKind {
        UnitKind::Mixer
    }

    fn render(&self, job: &Job, pins: &Pins, out: &mut Frame, steps: &mut Steps) {
        if self.lanes {
            LaneMixer.render(job, pins, out, steps);
        } else {
            PlainMixer.render(job, pins, out, steps);
        }
        self.renders.set(self.renders.get().saturating_add(1));
    }
}

/// Jack 2 is stereo, and jack 5 mono. Feature 3 hears jack 2, and feature 6 jack 5. Terminal 4 plays feature 6.
fn ends(alloc: Global, blocks: &mut Vec<Block>) -> Result<(), AllocError> {
    push(blocks, clock(1, 3))?;
    push(blocks, input(2, 0x0201, 2, 3))?;
    push(blocks, input(5, 0x0201, 1, 0))?;
    let stereo = feature(alloc, 3, 2, &[15, 15, 15])?;
    push(blocks, stereo)?;
    let mono = feature(alloc, 6, 5, &[15, 15])?;
    push(blocks, mono)?;
    push(blocks, output(4, 0x0301, 6))
}

/// A stereo mixer with two pins on one source.
fn push_doubler(
    alloc: Global,
    blocks: &mut Vec<Block>,
    id: u8,
    source: u8,
) -> Result<(), AllocError> {
    let doubler = mixer(alloc, id, &[source, source], 2, 3, &[255])?;
    push(blocks, doubler)
}

/// Mixer 8 hears jack 2 twice, selector 9 feature 3 and the mixer, effect 10 the selector, and terminal 7 the effect.
fn chain(alloc: Global, blocks: &mut Vec<Block>) -> Result<(), AllocError> {
    push_doubler(alloc, blocks, 8, 2)?;
    let chosen = selector(alloc, 9, &[3, 8])?;
    push(blocks, chosen)?;
    let bypassed = effect(alloc, 10, 1, 9, &[3, 3, 3])?;
    push(blocks, bypassed)?;
    push(blocks, output(7, 0x0301, 10))
}

/// Whether the wire has as many channels as the frame.
fn takes(wires: &Wires, terminal: u8, frame: &Frame) -> bool
    ensures { IsTrue result → option_map length (frame_on wires.now terminal) ≡ Some (length frame.now.items) }
{
    match wires.get(terminal) {
        Some(held) => held.len() == frame.len(),
        None => false,
    }
}

fn give(wires: &mut Wires, terminal: u8, samples: &[i32])
    ensures { (entities : List Entity) → AreWiresOf entities wires.old → AreWiresOf entities wires.new }
{
    let mut frame: Frame = ArrayVec::new();
    let _ = frame.try_extend_from_slice(samples);
    if takes(wires, terminal, &frame) {
        wires.set(terminal, &frame);
    }
}

/// A function with one tick or more to be tried on it.
#[derive(Clone, Copy)]
enum Trial {
    Small,
    Row,
}

fn push_for(trial: Trial, alloc: Global, blocks: &mut Vec<Block>) -> Result<(), AllocError> {
    push(blocks, control(0))?;
    match trial {
        Trial::Small => {
            ends(alloc, blocks)?;
            chain(alloc, blocks)
        }
        Trial::Row => push_row(alloc, blocks),
    }
}

/// Mixer 3 has two pins on jack 2, which is stereo, and each mixer up to 42 two pins on the one before. Terminal 43 plays the last.
fn push_row(alloc: Global, blocks: &mut Vec<Block>) -> Result<(), AllocError> {
    push(blocks, clock(1, 3))?;
    push(blocks, input(2, 0x0201, 2, 3))?;
    for before in 2..42u8 {
        push_doubler(alloc, blocks, before + 1, before)?;
    }
    push(blocks, output(43, 0x0301, 42))
}

fn function(alloc: Global, trial: Trial) -> Result<Function, AllocError> {
    let mut blocks = Vec::new(alloc);
    push_for(trial, alloc, &mut blocks)?;
    function_of(alloc, &blocks)
}

/// The controls of a function after these changes.
fn with_change(
    alloc: Global,
    function: &Function,
    changes: &[(u8, u8, u8, i32)],
) -> Result<Store, AllocError> {
    let mut store = match Store::new(alloc, function) {
        Ok(store) => store,
        Err(_) => return Err(AllocError),
    };
    for (entity, selector, channel, value) in changes {
        hold(&mut store, key(*entity, *selector, *channel), *value);
    }
    Ok(store)
}

/// The wires of a function with (1, -1) at jack 2 and 65536 at jack 5.
fn fed_wires(alloc: Global, function: &Function) -> Result<Wires, AllocError>
    ensures { IfOk result (λ wires. AreWiresOf function.now.entities wires) }
{
    let mut wires = match Wires::new(alloc, function) {
        Ok(wires) => wires,
        Err(_) => return Err(AllocError),
    };
    give(&mut wires, 2, &[1, -1]);
    give(&mut wires, 5, &[65536]);
    Ok(wires)
}

/// One tick, by jobs at hand or not, and how often units were rendered.
fn tick_once(
    alloc: Global,
    function: &Function,
    store: &Store,
    rack: &Rack,
    by_jobs: bool,
    wires: &mut Wires,
) -> Result<u64, AllocError>
    requires rack { IsFitted (λ v x. (⟦<dyn Unit as Unit>⟧ v).kind_of x) rack.now }
    requires wires { AreWiresOf function.now.entities wires.old }
{
    let graph = match Graph::build(alloc, function) {
        Ok(graph) => graph,
        Err(_) => return Err(AllocError),
    };
    let mut steps = Steps::new();
    fresh_steps_have_room(function);
    if by_jobs {
        let jobs = match graph.jobs(alloc, store) {
            Ok(jobs) => jobs,
            Err(_) => return Err(AllocError),
        };
        graph.tick_by(1, &jobs, rack, wires, &mut steps);
    } else {
        graph.tick(1, store, rack, wires, &mut steps);
    }
    Ok(steps.count())
}

/// Whether the wire of an entity has these samples.
fn has(wires: &Wires, entity: u8, samples: &[i32]) -> bool {
    match wires.get(entity) {
        Some(frame) => frame.as_slice() == samples,
        None => false,
    }
}

/// What is wanted of a tick.
#[derive(Clone, Copy)]
struct Wanted<'a> {
    /// Samples, by the entity on whose wire they are.
    samples: &'a [(u8, &'a [i32])],
    /// How often units are rendered.
    renders: u64,
}

/// What a tick gave is what is wanted. The clock has no wire.
fn look(
    rt: &impl Abort,
    wires: &Wires,
    ticked: Result<u64, AllocError>,
    wanted: &Wanted<'_>,
) -> Result<(), AllocError> {
    assert_eq!(rt; ticked?, wanted.renders);
    for (entity, samples) in wanted.samples {
        assert!(rt; has(wires, *entity, samples), "{entity}");
    }
    assert!(rt; wires.get(1).is_none());
    Ok(())
}

// The wires, the store and the function are each let go of at one place, since a proof has every step of that at each.
fn tick_wires(
    rt: &impl Abort,
    alloc: Global,
    function: &Function,
    store: &Store,
    rack: &Rack,
    by_jobs: bool,
    wanted: &Wanted<'_>,
) -> Result<(), AllocError>
    requires { IsFitted (λ v x. (⟦<dyn Unit as Unit>⟧ v).kind_of x) rack.now }
{
    let mut wires = fed_wires(alloc, function)?;
    let ticked = tick_once(alloc, function, store, rack, by_jobs, &mut wires);
    look(rt, &wires, ticked, wanted)
}

/// One tick of a function after these changes of controls, by jobs at hand or not, gives what is wanted.
fn expect_tick(
    rt: &impl Abort,
    alloc: Global,
    function: &Function,
    rack: &Rack,
    changes: &[(u8, u8, u8, i32)],
    by_jobs: bool,
    wanted: &Wanted<'_>,
) -> Result<(), AllocError>
    requires { IsFitted (λ v x. (⟦<dyn Unit as Unit>⟧ v).kind_of x) rack.now }
{
    let store = with_change(alloc, function, changes)?;
    tick_wires(rt, alloc, function, &store, rack, by_jobs, wanted)
}

/// Ticks of the small function: as it is, by the selector's other pin, and muted beside a volume of one decibel less.
fn tick_small(
    rt: &impl Abort,
    alloc: Global,
    function: &Function,
    rack: &Rack,
    by_jobs: bool,
) -> Result<(), AllocError>
    requires { IsFitted (λ v x. (⟦<dyn Unit as Unit>⟧ v).kind_of x) rack.now }
{
    let rows: [(&[(u8, u8, u8, i32)], &[(u8, &[i32])]); 3] = [
        (&[], &[(4, &[65536]), (8, &[2, -2]), (7, &[1, -1])]),
        (&[(9, 1, 0, 2)], &[(7, &[2, -2])]),
        (
            &[(3, 1, 0, 1), (6, 2, 1, -256)],
            &[(7, &[0, 0]), (4, &[58409])],
        ),
    ];
    for (changes, samples) in rows {
        let wanted = Wanted {
            samples,
            renders: 5,
        };
        expect_tick(rt, alloc, function, rack, changes, by_jobs, &wanted)?;
    }
    Ok(())
}

fn try_function(rt: &impl Abort, alloc: Global, trial: Trial, rack: &Rack) -> Result<(), AllocError>
    requires { IsFitted (λ v x. (⟦<dyn Unit as Unit>⟧ v).kind_of x) rack.now }
{
    let function = function(alloc, trial)?;
    act(rt, alloc, trial, &function, rack)
}

fn act(
    rt: &impl Abort,
    alloc: Global,
    trial: Trial,
    function: &Function,
    rack: &Rack,
) -> Result<(), AllocError>
    requires { IsFitted (λ v x. (⟦<dyn Unit as Unit>⟧ v).kind_of x) rack.now }
{
    match trial {
        Trial::Small => {
            tick_small(rt, alloc, function, rack, false)?;
            tick_small(rt, alloc, function, rack, true)
        }
        Trial::Row => {
            let full: [i32; 2] = [2147483647, -2147483648];
            let wanted = Wanted {
                samples: &[(42, &full), (43, &full)],
                renders: 40,
            };
            expect_tick(rt, alloc, function, rack, &[], true, &wanted)
        }
    }
}

fn try_small(rt: &impl Abort, alloc: Global) -> Result<(), AllocError> {
    let rack = plain_rack(alloc)?;
    try_function(rt, alloc, Trial::Small, &rack)
}

#[test]
fn ticks_of_a_small_function(rt: HostRuntime) -> Result<(), Fail> {
    try_small(&rt, rt.alloc())?;
    Ok(())
}

/// A rack of plain units, or of units on lanes, and a mixer that counts.
fn counting_rack(alloc: Global, lanes: bool, renders: &Rc<Cell<u64>>) -> Result<Rack, AllocError>
    ensures { IfOk result (λ rack. IsFitted (λ v x. (⟦<dyn Unit as Unit>⟧ v).kind_of x) rack) }
{
    let counting = CountingMixer {
        lanes,
        renders: renders.clone()?,
    };
    if lanes {
        return Ok(Rack::new(
            Box::new(alloc, counting)?,
            Box::new(alloc, LaneSelector)?,
            Box::new(alloc, LaneFeature)?,
            Box::new(alloc, LaneEffect)?,
        ));
    }
    Ok(Rack::new(
        Box::new(alloc, counting)?,
        Box::new(alloc, PlainSelector)?,
        Box::new(alloc, PlainFeature)?,
        Box::new(alloc, PlainEffect)?,
    ))
}

fn try_row(
    rt: &impl Abort,
    alloc: Global,
    lanes: bool,
    renders: &Rc<Cell<u64>>,
) -> Result<(), AllocError> {
    let rack = counting_rack(alloc, lanes, renders)?;
    try_function(rt, alloc, Trial::Row, &rack)
}

/// Each mixer doubles what the one before gives, so the samples reach full scale on the way. Rendered once for each pin, the first
/// mixer alone would be asked 2^39 times.
#[test]
fn each_of_forty_mixers_is_rendered_once(rt: HostRuntime) -> Result<(), Fail> {
    let renders = Rc::new(rt.alloc(), Cell::new(0u64))?;
    try_row(&rt, rt.alloc(), false, &renders)?;
    assert_eq!(rt; renders.get(), 40);
    Ok(())
}

/// The same with units on lanes.
#[test]
fn each_of_forty_lane_mixers_is_rendered_once(rt: HostRuntime) -> Result<(), Fail> {
    let renders = Rc::new(rt.alloc(), Cell::new(0u64))?;
    try_row(&rt, rt.alloc(), true, &renders)?;
    assert_eq!(rt; renders.get(), 40);
    Ok(())
}
