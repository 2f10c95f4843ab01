// What all units are asked to render, kept from tick to tick.
ghost use Rattle.std.specs.Prelude.{◌≡◌, ◌<◌, IfOk, length, get_or};
ghost use Rattle.uac_units.specs.declared.jobs.Job as asked;
ghost use Rattle.uac_graph.specs.GraphControls.{Controls, controls_in};
ghost use Rattle.uac_graph.specs.Fitness.{IsSignalGraph};
ghost use Rattle.uac_graph.specs.Jobs.{AreJobs, AreSameBut};

use crate::jobs::{ask, no_job};
use std::alloc::Global;
use std::marker::Model;
use uac_descriptor::NoMemory;
use uac_store::Store;
use uac_topology_rules::EntityTable;
use uac_units::Job;

/// The job of each entity of a graph, by its index: of a unit what it is asked under some controls, and of any other one for which
/// nobody asks.
#[derive(Drop)]
pub struct Jobs {
    list: Vec<Job>,
}

impl Model for Jobs {
    ghost use Rattle.std.specs.Prelude.{List};
    ghost use Rattle.uac_units.specs.declared.jobs.Job.{Job};

    ghost Value = { List Job };

    ghost view = { λ j. j.list.items };
}

impl Jobs {
    /// The jobs of these entities under the controls held.
    pub(crate) fn new(alloc: Global, table: &EntityTable, store: &Store) -> Result<Jobs, NoMemory>
        requires { IsSignalGraph table.now }
        ensures { IfOk result (λ jobs. AreJobs table.now (controls_in store.now) jobs) }
    {
        let mut list = Vec::new(alloc);
        for entity in table.as_slice() {
            let mut job = no_job();
            ask(&mut job, table, store, entity);
            list.push(job)?;
        }
        Ok(Jobs { list })
    }

    /// The job at an index.
    pub(crate) fn at(&self, index: usize) -> &Job
        requires { index < length self.now }
        ensures { (d : asked.Job) → result.now ≡ get_or self.now index d }
    {
        &self.list[index]
    }

    /// Makes the job of the entity with an id that under the controls held. It takes no memory.
    pub(crate) fn renew(&mut self, table: &EntityTable, store: &Store, id: u8)
        requires graph { IsSignalGraph table.now }
        requires sized { length self.old ≡ length table.now }
        ensures { (before : Controls) → AreJobs table.now before self.old → AreSameBut id before (controls_in store.now)
            → AreJobs table.now (controls_in store.now) self.new }
    {
        let index = table.index_of(id);
        if index < self.list.len() {
            ask(&mut self.list[index], table, store, table.at(index));
        }
    }
}
