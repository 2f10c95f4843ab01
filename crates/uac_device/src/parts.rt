// What a device keeps beside its function and its settings, at the start.
ghost use Rattle.std.specs.Prelude.{◌≡◌, IfOk, map};
ghost use Rattle.uac_graph.specs.TickRows.{AreRowsOf};
ghost use Rattle.uac_graph.specs.Wiring.{AreSilent, AreWiresOf};
ghost use Rattle.uac_store.specs.StoreControls.{IsStoreOf, initial_controls};
ghost use Rattle.uac_device.specs.DeviceStreams.{idle_stream, port_of};
ghost use Rattle.uac_device.specs.DeviceTurns.{resting_clock};
ghost use Rattle.uac_device.specs.Following.{IsDerived};

use crate::clocks::{DomainClock, resting_clocks};
use crate::derived::Derived;
use crate::device_streams::DeviceStreams;
use std::alloc::Global;
use uac_descriptor::NoMemory;
use uac_graph::{Graph, WireRows, Wires};
use uac_store::Store;
use uac_topology::Function;

/// All that a device keeps beside its function and its settings.
#[derive(Drop)]
pub struct DeviceParts {
    pub store: Store,
    pub followed: Followed,
    pub moving: Moving,
}

/// A device's graph, and what follows from it and from the values of the controls.
#[derive(Drop)]
pub struct Followed {
    pub graph: Graph,
    pub derived: Derived,
}

/// How many ticks of a domain are done at once, at most.
pub const ROW_TICKS: usize = 128;

/// The frames on a device's wires, the clocks of its domains, the streams of its interfaces, and the room for the frames of several ticks.
#[derive(Drop)]
pub struct Moving {
    pub wires: Wires,
    pub clocks: Vec<DomainClock>,
    pub device_streams: DeviceStreams,
    pub rows: WireRows,
}

impl DeviceParts {
    /// Each control at its first value, and what ticks change at rest.
    pub(crate) fn new(alloc: Global, function: &Function) -> Result<DeviceParts, NoMemory>
        ensures store { IfOk result (λ parts. parts.store ≡ initial_controls function.now.entities) }
        ensures of_function { IfOk result (λ parts. IsStoreOf function.now.entities parts.store) }
        ensures graph { IfOk result (λ parts. parts.followed.graph ≡ function.now.entities) }
        ensures derived { IfOk result (λ parts. IsDerived function.now parts.store parts.followed.derived) }
        ensures silent { IfOk result (λ parts. AreSilent function.now.entities parts.moving.wires) }
        ensures fitting { IfOk result (λ parts. AreWiresOf function.now.entities parts.moving.wires) }
        ensures clocks { IfOk result (λ parts. parts.moving.clocks.items ≡ map resting_clock function.now.domains) }
        ensures device_streams { IfOk result
            (λ parts. parts.moving.device_streams ≡ map (λ s. idle_stream (port_of function.now.entities s)) function.now.streams) }
        ensures rows { IfOk result (λ parts. AreRowsOf function.now.entities parts.moving.rows) }
        ensures room { IfOk result (λ parts. parts.moving.rows.room ≡ 128) }
    {
        let moving = at_rest(alloc, function)?;
        let store = Store::new(alloc, function)?;
        let followed = Followed::new(alloc, function, &store)?;
        Ok(DeviceParts {
            store,
            followed,
            moving,
        })
    }
}

impl Followed {
    /// A function's graph, and what follows from these values.
    fn new(alloc: Global, function: &Function, store: &Store) -> Result<Followed, NoMemory>
        ensures graph { IfOk result (λ followed. followed.graph ≡ function.now.entities) }
        ensures derived { IfOk result (λ followed. IsDerived function.now store.now followed.derived) }
    {
        let graph = Graph::build(alloc, function)?;
        let derived = Derived::new(alloc, &graph, function, store)?;
        Ok(Followed { graph, derived })
    }
}

/// Silence on each wire, no clock off, and no stream.
fn at_rest(alloc: Global, function: &Function) -> Result<Moving, NoMemory>
    ensures silent { IfOk result (λ moving. AreSilent function.now.entities moving.wires) }
    ensures fitting { IfOk result (λ moving. AreWiresOf function.now.entities moving.wires) }
    ensures clocks { IfOk result (λ moving. moving.clocks.items ≡ map resting_clock function.now.domains) }
    ensures device_streams { IfOk result
        (λ moving. moving.device_streams ≡ map (λ s. idle_stream (port_of function.now.entities s)) function.now.streams) }
    ensures rows { IfOk result (λ moving. AreRowsOf function.now.entities moving.rows) }
    ensures room { IfOk result (λ moving. moving.rows.room ≡ 128) }
{
    let wires = Wires::new(alloc, function)?;
    let clocks = resting_clocks(alloc, function.domains())?;
    let device_streams = DeviceStreams::new(alloc, function)?;
    let rows = WireRows::new(alloc, function, ROW_TICKS)?;
    Ok(Moving {
        wires,
        clocks,
        device_streams,
        rows,
    })
}
