// What follows from a device's function and its controls, kept so that a tick looks up nothing.
ghost use Rattle.std.specs.Prelude.{◌≡◌, ℤ, List, false, IfOk, length, map};
ghost use Rattle.std.specs.List.{All};
ghost use Rattle.std.specs.Option.{option_map_or};
ghost use Rattle.uac_entities.specs.EntityInterfaces.{entity_by_id};
ghost use Rattle.uac_topology_rules.specs.Links as links;
ghost use Rattle.uac_clock.specs.declared.values.Nominal as values;
ghost use Rattle.uac_store.specs.declared.keys.Key as keys;
ghost use Rattle.uac_request.specs.Requests as requests;
ghost use Rattle.uac_device.specs.Following.{IsDerived, IsLeftBy, IsDomainRate, nominal_at, renewed_rate};

use crate::hearing::{OutputJack, output_jacks};
use std::alloc::Global;
use uac_clock::{Nominal, nominal};
use uac_descriptor::NoMemory;
use uac_graph::{Graph, Jobs};
use uac_request::Setup;
use uac_store::Store;
use uac_topology::Function;
use uac_topology_rules::is_clock;

/// The nominal values of the rate of a clock domain; None where its clock has no rate.
#[derive(Clone, Copy)]
pub struct DomainRate {
    pub domain: u8,
    pub values: Option<Nominal>,
}

/// What follows from the controls of a device, so that a tick looks up none: the jobs of its units, and the rates of its domains.
/// Beside them stand its output jacks, so that a tick looks for none.
#[derive(Drop)]
pub struct Derived {
    pub(crate) jobs: Jobs,
    pub(crate) rates: Vec<DomainRate>,
    pub(crate) jacks: Vec<OutputJack>,
}

impl Derived {
    /// What follows from the values that controls have, and the output jacks, with all the memory that it will use.
    pub(crate) fn new(
        alloc: Global,
        graph: &Graph,
        function: &Function,
        store: &Store,
    ) -> Result<Derived, NoMemory>
        requires { graph.now ≡ function.now.entities }
        ensures { IfOk result (λ derived. IsDerived function.now store.now derived) }
    {
        let jobs = graph.jobs(alloc, store)?;
        let rates = domain_rates_of(alloc, function, store)?;
        let jacks = output_jacks(alloc, function.entities())?;
        Ok(Derived { jobs, rates, jacks })
    }

    /// Follows what a request that was answered changed.
    pub(crate) fn follow(
        &mut self,
        graph: &Graph,
        function: &Function,
        store: &Store,
        setup: &Setup,
    )
        requires graph { graph.now ≡ function.now.entities }
        requires sized { length self.old.jobs ≡ length graph.now }
        ensures { (before : List (keys.Key × ℤ)) → IsDerived function.now before self.old → IsLeftBy setup.now before store.now
            → IsDerived function.now store.now self.new }
    {
        if !sets_control(setup) {
            return;
        }
        let id = (setup.index / 256) as u8;
        graph.renew(&mut self.jobs, store, id);
        if names_clock(function, id) {
            renew(&mut self.rates, function, store);
        }
    }

    /// The output jacks, in block order.
    pub(crate) fn jacks(&self) -> &[OutputJack]
        ensures { result.now ≡ self.now.jacks.items }
    {
        self.jacks.as_slice()
    }

    /// The nominal values of a domain's rate.
    pub(crate) fn values(&self, function: &Function, store: &Store, domain: u8) -> Option<Nominal>
        requires { IsDerived function.now store.now self.now }
        ensures { result ≡ nominal_at function.now.entities store.now domain }
    {
        for rate in &self.rates {
            if rate.domain == domain {
                return rate.values;
            }
        }
        values_at(function, store, domain)
    }
}

// Whether a request sets a control (Audio Class 2.0, A.14).
fn sets_control(setup: &Setup) -> bool
    ensures { result ≡ requests.sets_cur setup.now }
{
    setup.request_type == 33 && setup.request == 1
}

// Whether the entity with an id is a clock.
fn names_clock(function: &Function, id: u8) -> bool
    ensures { result ≡ option_map_or (λ e. links.is_clock e.kind) (entity_by_id function.now.entities id) false }
{
    match function.entity(id) {
        Some(entity) => is_clock(entity.kind),
        None => false,
    }
}

// The nominal values of the rate that a clock has.
fn values_at(function: &Function, store: &Store, clock: u8) -> Option<Nominal>
    ensures { result ≡ nominal_at function.now.entities store.now clock }
{
    match store.rate(function, clock) {
        Some(rate) => nominal(rate),
        None => None,
    }
}

// The rates of a function's domains.
fn domain_rates_of(
    alloc: Global,
    function: &Function,
    store: &Store,
) -> Result<Vec<DomainRate>, NoMemory>
    ensures { IfOk result (λ rates. All (IsDomainRate function.now.entities store.now) rates.items) }
{
    let mut rates = Vec::new(alloc);
    for domain in function.domains() {
        let rate = DomainRate {
            domain: *domain,
            values: values_at(function, store, *domain),
        };
        rates.push(rate)?;
    }
    Ok(rates)
}

// Renews each of these rates.
fn renew(rates: &mut [DomainRate], function: &Function, store: &Store)
    ensures { rates.new ≡ map (renewed_rate function.now.entities store.now) rates.old }
{
    for rate in rates.iter_mut() {
        renew_one(rate, function, store);
    }
}

fn renew_one(rate: &mut DomainRate, function: &Function, store: &Store)
    ensures { rate.new ≡ renewed_rate function.now.entities store.now rate.old }
{
    rate.values = values_at(function, store, rate.domain);
}
