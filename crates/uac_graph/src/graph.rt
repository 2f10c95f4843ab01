// The signal graph: which unit takes which signals, rendered tick by tick.
ghost use Rattle.std.specs.Prelude.{◌≡◌, ◌<◌, ◌≤◌, ◌+◌, ◌*◌, ◌^◌, ℕ, List, false, IfOk, length, sum};
ghost use Rattle.uac_topology_rules.specs.Clusters.{is_input};
ghost use Rattle.uac_topology_rules.specs.Links.{is_clock};
ghost use Rattle.uac_topology_rules.specs.Table.{at};
ghost use Rattle.uac_units.specs.Fitting.{IsFitted};
ghost use Rattle.uac_store.specs.StoreControls.{pins_of};
ghost use Rattle.uac_graph.specs.GraphControls.{Controls, controls_in};
ghost use Rattle.uac_graph.specs.Fitness.{IsSignalGraph};
ghost use Rattle.uac_graph.specs.Jobs.{AreJobs, AreSameBut, HasJob};
ghost use Rattle.uac_graph.specs.Needs.{depends_on, needed_units, unit_count};
ghost use Rattle.uac_graph.specs.Orders.{IsKeptOrder, frame_after};
ghost use Rattle.uac_graph.specs.Tasks.{work_of};
ghost use Rattle.uac_graph.specs.TickRows.{AreRowsOf, frames_at, slot_lengths};
ghost use Rattle.uac_graph.specs.Wiring.{AreRendered, AreWiresOf, frame_on, samples_on};

use crate::copies::copies_of;
use crate::job_table::Jobs;
use crate::jobs::{ask, no_job};
use crate::orders::{Order, indices_for, order_for, orders_of};
use crate::tasks::{Task, Work};
use crate::wire_rows::WireRows;
use crate::wires::Wires;
use std::alloc::Global;
use std::marker::Model;
use uac_descriptor::NoMemory;
use uac_store::Store;
use uac_topology::Function;
use uac_topology::laws::functions_are_sound;
use uac_topology_rules::{EntityTable, is_input};
use uac_units::{Job, Rack, Steps, Unit};

/// The signal graph of an audio function (Audio Class 2.0, 3.13), with an order for each clock domain in which its entities are
/// rendered.
#[derive(Drop)]
pub struct Graph {
    table: EntityTable,
    orders: Vec<Order>,
}

impl Model for Graph {
    ghost use Rattle.std.specs.Prelude.{List};
    ghost use Rattle.uac_entities.specs.declared.entity.Entity.{Entity};
    ghost use Rattle.uac_graph.specs.Fitness.{IsSignalGraph};
    ghost use Rattle.uac_graph.specs.Orders.{AreOrders};

    ghost Value = { List Entity };

    ghost view = { λ g. g.table };

    ghost invariant = { λ g. IsSignalGraph g.table × AreOrders g.table g.orders.items };
}

impl Graph {
    /// The graph of a function.
    pub fn build(alloc: Global, function: &Function) -> Result<Graph, NoMemory>
        ensures { IfOk result (λ graph. graph ≡ function.now.entities) }
    {
        functions_are_sound(function);
        let copies = copies_of(alloc, function.entities())?;
        let table = EntityTable::new(alloc, copies)?;
        let orders = orders_of(alloc, &table)?;
        Ok(Graph { table, orders })
    }

    /// One tick of a clock domain: every output terminal of the domain, and every unit on which one depends, gets the samples
    /// of its meaning under the controls held. All other wires stay. Each of these units is rendered once, however many take its
    /// signal: `steps` rises by their number. It takes no memory.
    /// Tests alone call it: the device ticks by `tick_by`.
    pub fn tick(&self, domain: u8, store: &Store, rack: &Rack, wires: &mut Wires, steps: &mut Steps)
        requires rack { IsFitted (λ v x. (⟦<dyn Unit as Unit>⟧ v).kind_of x) rack.now }
        requires wires { AreWiresOf self.now wires.old }
        requires room { steps.old + length (needed_units self.now domain) < 2 ^ 64 }
        ensures rendered { AreRendered self.now (controls_in store.now) (samples_on wires.old) (depends_on self.now domain) wires.old
            wires.new }
        ensures fitting { AreWiresOf self.now wires.new }
        ensures once { steps.new ≡ steps.old + length (needed_units self.now domain) }
    {
        let mut job = no_job();
        for index in indices_for(&self.orders, domain) {
            self.render(*index, store, &mut job, rack, wires, steps);
        }
    }

    // Renders the entity at an index, where its sources are rendered, under the controls held. An input terminal has its frame.
    fn render(
        &self,
        index: usize,
        store: &Store,
        job: &mut Job,
        rack: &Rack,
        wires: &mut Wires,
        steps: &mut Steps,
    )
        requires rack { IsFitted (λ v x. (⟦<dyn Unit as Unit>⟧ v).kind_of x) rack.now }
        requires inside { index < length self.now }
        requires signal { is_clock (at self.now index).kind ≡ false }
        requires wires { AreWiresOf self.now wires.old }
        requires room { steps.old + unit_count (at self.now index).kind < 2 ^ 64 }
        ensures rendered { (id : ℕ) → frame_on wires.new id ≡ frame_after self.now (controls_in store.now) index wires.old id }
        ensures fitting { AreWiresOf self.now wires.new }
        ensures counted { steps.new ≡ steps.old + unit_count (at self.now index).kind }
    {
        ask(job, &self.table, store, self.table.at(index));
        self.render_by(index, job, rack, wires, steps);
    }

    /// The jobs of its units under the controls held, with all the memory that they will use.
    pub fn jobs(&self, alloc: Global, store: &Store) -> Result<Jobs, NoMemory>
        ensures { IfOk result (λ jobs. AreJobs self.now (controls_in store.now) jobs) }
    {
        Jobs::new(alloc, &self.table, store)
    }

    /// Renews the job of the entity with an id, once controls of it have changed and no others. It takes no memory.
    pub fn renew(&self, jobs: &mut Jobs, store: &Store, id: u8)
        requires { length jobs.old ≡ length self.now }
        ensures { (before : Controls) → AreJobs self.now before jobs.old → AreSameBut id before (controls_in store.now)
            → AreJobs self.now (controls_in store.now) jobs.new }
    {
        jobs.renew(&self.table, store, id);
    }

    /// One tick of a domain, as `tick`, by jobs at hand: the samples are those of the meaning under the controls that the jobs are of.
    pub fn tick_by(
        &self,
        domain: u8,
        jobs: &Jobs,
        rack: &Rack,
        wires: &mut Wires,
        steps: &mut Steps,
    )
        requires rack { IsFitted (λ v x. (⟦<dyn Unit as Unit>⟧ v).kind_of x) rack.now }
        requires jobs { (controls : Controls) × AreJobs self.now controls jobs.now }
        requires wires { AreWiresOf self.now wires.old }
        requires room { steps.old + length (needed_units self.now domain) < 2 ^ 64 }
        ensures rendered { (controls : Controls) → AreJobs self.now controls jobs.now
            → AreRendered self.now controls (samples_on wires.old) (depends_on self.now domain) wires.old wires.new }
        ensures fitting { AreWiresOf self.now wires.new }
        ensures once { steps.new ≡ steps.old + length (needed_units self.now domain) }
    {
        match order_for(&self.orders, domain) {
            Some(order) => self.follow(order, jobs, rack, wires, steps),
            None => {}
        }
    }

    // Does what is done at the indices of an order, one after the other.
    fn follow(&self, order: &Order, jobs: &Jobs, rack: &Rack, wires: &mut Wires, steps: &mut Steps)
        requires rack { IsFitted (λ v x. (⟦<dyn Unit as Unit>⟧ v).kind_of x) rack.now }
        requires sound { IsSignalGraph self.now }
        requires order { IsKeptOrder self.now order.now }
        requires jobs { (controls : Controls) × AreJobs self.now controls jobs.now }
        requires wires { AreWiresOf self.now wires.old }
        requires room { steps.old + length (needed_units self.now order.now.domain) < 2 ^ 64 }
        ensures rendered { (controls : Controls) → AreJobs self.now controls jobs.now
            → AreRendered self.now controls (samples_on wires.old) (depends_on self.now order.now.domain) wires.old wires.new }
        ensures fitting { AreWiresOf self.now wires.new }
        ensures once { steps.new ≡ steps.old + length (needed_units self.now order.now.domain) }
    {
        for task in order.tasks.as_slice() {
            self.carry_out(task, jobs, rack, wires, steps);
        }
    }

    // Does what is done at one index, where the sources of its entity are rendered.
    fn carry_out(&self, task: &Task, jobs: &Jobs, rack: &Rack, wires: &mut Wires, steps: &mut Steps)
        requires rack { IsFitted (λ v x. (⟦<dyn Unit as Unit>⟧ v).kind_of x) rack.now }
        requires sound { IsSignalGraph self.now }
        requires task { task.now.work ≡ work_of (at self.now task.now.index) }
        requires inside { task.now.index < length self.now }
        requires signal { is_clock (at self.now task.now.index).kind ≡ false }
        requires worked { is_input (at self.now task.now.index).kind ≡ false }
        requires jobs { (controls : Controls) × AreJobs self.now controls jobs.now }
        requires wires { AreWiresOf self.now wires.old }
        requires room { steps.old + unit_count (at self.now task.now.index).kind < 2 ^ 64 }
        ensures rendered { (controls : Controls) → AreJobs self.now controls jobs.now
            → (id : ℕ) → frame_on wires.new id ≡ frame_after self.now controls task.now.index wires.old id }
        ensures fitting { AreWiresOf self.now wires.new }
        ensures counted { steps.new ≡ steps.old + unit_count (at self.now task.now.index).kind }
    {
        match task.work {
            Work::Pass { from, to } => wires.pass(from, to),
            Work::Render { kind, source, id } => {
                wires.render_one(id, source, rack.unit(kind), jobs.at(task.index), steps);
            }
            Work::Ask => self.render_by(task.index, jobs.at(task.index), rack, wires, steps),
        }
    }

    // Renders the entity at an index by its job, where its sources are rendered. An input terminal has its frame.
    fn render_by(&self, index: usize, job: &Job, rack: &Rack, wires: &mut Wires, steps: &mut Steps)
        requires rack { IsFitted (λ v x. (⟦<dyn Unit as Unit>⟧ v).kind_of x) rack.now }
        requires inside { index < length self.now }
        requires signal { is_clock (at self.now index).kind ≡ false }
        requires job { (controls : Controls) × HasJob controls (at self.now index) (sum (pins_of self.now (at self.now index))) job.now }
        requires wires { AreWiresOf self.now wires.old }
        requires room { steps.old + unit_count (at self.now index).kind < 2 ^ 64 }
        ensures rendered { (controls : Controls) → HasJob controls (at self.now index) (sum (pins_of self.now (at self.now index))) job.now
            → (id : ℕ) → frame_on wires.new id ≡ frame_after self.now controls index wires.old id }
        ensures fitting { AreWiresOf self.now wires.new }
        ensures counted { steps.new ≡ steps.old + unit_count (at self.now index).kind }
    {
        let entity = self.table.at(index);
        if !is_input(entity.kind) {
            wires.render(entity, job, rack, steps);
        }
    }

    /// So many ticks of a domain, each as `tick_by`, one after the other: at each, the samples are those of the meaning for what the input
    /// terminals are given at that tick. Each of the units is rendered once a tick.
    pub fn ticks_by(
        &self,
        domain: u8,
        ticks: usize,
        jobs: &Jobs,
        rack: &Rack,
        wires: &mut WireRows,
        steps: &mut Steps,
    )
        requires rack { IsFitted (λ v x. (⟦<dyn Unit as Unit>⟧ v).kind_of x) rack.now }
        requires jobs { (controls : Controls) × AreJobs self.now controls jobs.now }
        requires wires { AreRowsOf self.now wires.old }
        requires ticks { ticks ≤ wires.old.room }
        requires room { steps.old + ticks * length (needed_units self.now domain) < 2 ^ 64 }
        ensures rendered { (controls : Controls) → AreJobs self.now controls jobs.now → (tick : ℕ) → tick < ticks
            → AreRendered self.now controls (samples_on (frames_at tick wires.old)) (depends_on self.now domain) (frames_at tick wires.old)
            (frames_at tick wires.new) }
        ensures fitting { AreRowsOf self.now wires.new }
        ensures room { wires.new.room ≡ wires.old.room }
        ensures once { steps.new ≡ steps.old + ticks * length (needed_units self.now domain) }
    {
        match order_for(&self.orders, domain) {
            Some(order) => self.follow_ticks(order, ticks, jobs, rack, wires, steps),
            None => {}
        }
    }

    // Does what is done at the indices of an order, at each of so many ticks, one after the other.
    fn follow_ticks(
        &self,
        order: &Order,
        ticks: usize,
        jobs: &Jobs,
        rack: &Rack,
        wires: &mut WireRows,
        steps: &mut Steps,
    )
        requires rack { IsFitted (λ v x. (⟦<dyn Unit as Unit>⟧ v).kind_of x) rack.now }
        requires sound { IsSignalGraph self.now }
        requires order { IsKeptOrder self.now order.now }
        requires jobs { (controls : Controls) × AreJobs self.now controls jobs.now }
        requires wires { AreRowsOf self.now wires.old }
        requires ticks { ticks ≤ wires.old.room }
        requires room { steps.old + ticks * length (needed_units self.now order.now.domain) < 2 ^ 64 }
        ensures rendered { (controls : Controls) → AreJobs self.now controls jobs.now → (tick : ℕ) → tick < ticks
            → AreRendered self.now controls (samples_on (frames_at tick wires.old)) (depends_on self.now order.now.domain)
            (frames_at tick wires.old) (frames_at tick wires.new) }
        ensures lengths { slot_lengths wires.new.slots ≡ slot_lengths wires.old.slots }
        ensures room { wires.new.room ≡ wires.old.room }
        ensures once { steps.new ≡ steps.old + ticks * length (needed_units self.now order.now.domain) }
    {
        for task in order.tasks.as_slice() {
            self.carry_out_ticks(task, ticks, jobs, rack, wires, steps);
        }
    }

    // Does what is done at one index at each of so many ticks, where the sources of its entity are rendered.
    fn carry_out_ticks(
        &self,
        task: &Task,
        ticks: usize,
        jobs: &Jobs,
        rack: &Rack,
        wires: &mut WireRows,
        steps: &mut Steps,
    )
        requires rack { IsFitted (λ v x. (⟦<dyn Unit as Unit>⟧ v).kind_of x) rack.now }
        requires sound { IsSignalGraph self.now }
        requires task { task.now.work ≡ work_of (at self.now task.now.index) }
        requires inside { task.now.index < length self.now }
        requires signal { is_clock (at self.now task.now.index).kind ≡ false }
        requires worked { is_input (at self.now task.now.index).kind ≡ false }
        requires jobs { (controls : Controls) × AreJobs self.now controls jobs.now }
        requires wires { AreRowsOf self.now wires.old }
        requires ticks { ticks ≤ wires.old.room }
        requires room { steps.old + ticks * unit_count (at self.now task.now.index).kind < 2 ^ 64 }
        ensures rendered { (controls : Controls) → AreJobs self.now controls jobs.now → (tick : ℕ) → tick < ticks
            → (id : ℕ) → frame_on (frames_at tick wires.new) id ≡ frame_after self.now controls task.now.index (frames_at tick wires.old) id }
        ensures lengths { slot_lengths wires.new.slots ≡ slot_lengths wires.old.slots }
        ensures room { wires.new.room ≡ wires.old.room }
        ensures counted { steps.new ≡ steps.old + ticks * unit_count (at self.now task.now.index).kind }
    {
        match task.work {
            Work::Pass { from, to } => wires.pass(from, to, ticks),
            Work::Render { kind, source, id } => {
                let job = jobs.at(task.index);
                wires.render_one(id, source, rack.unit(kind), job, ticks, steps);
            }
            Work::Ask => {
                let job = jobs.at(task.index);
                self.render_ticks(task.index, job, ticks, rack, wires, steps);
            }
        }
    }

    // Renders the entity at an index by its job at each of so many ticks, where its sources are rendered.
    fn render_ticks(
        &self,
        index: usize,
        job: &Job,
        ticks: usize,
        rack: &Rack,
        wires: &mut WireRows,
        steps: &mut Steps,
    )
        requires rack { IsFitted (λ v x. (⟦<dyn Unit as Unit>⟧ v).kind_of x) rack.now }
        requires inside { index < length self.now }
        requires signal { is_clock (at self.now index).kind ≡ false }
        requires worked { is_input (at self.now index).kind ≡ false }
        requires job { (controls : Controls) × HasJob controls (at self.now index) (sum (pins_of self.now (at self.now index))) job.now }
        requires wires { AreRowsOf self.now wires.old }
        requires ticks { ticks ≤ wires.old.room }
        requires room { steps.old + ticks * unit_count (at self.now index).kind < 2 ^ 64 }
        ensures rendered { (controls : Controls) → HasJob controls (at self.now index) (sum (pins_of self.now (at self.now index))) job.now
            → (tick : ℕ) → tick < ticks
            → (id : ℕ) → frame_on (frames_at tick wires.new) id ≡ frame_after self.now controls index (frames_at tick wires.old) id }
        ensures lengths { slot_lengths wires.new.slots ≡ slot_lengths wires.old.slots }
        ensures room { wires.new.room ≡ wires.old.room }
        ensures counted { steps.new ≡ steps.old + ticks * unit_count (at self.now index).kind }
    {
        wires.render(self.table.at(index), job, ticks, rack, steps);
    }
}
