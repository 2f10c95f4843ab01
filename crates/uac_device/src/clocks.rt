// The clocks of the domains.
ghost use Rattle.std.specs.Prelude.{◌≡◌, ◌≤◌, ◌<◌, ◌≤ℤ◌, ◌+◌, ◌*◌, ◌/◌, ◌==◌, ℕ, negsuc, pos, map, Some, IfOk};
ghost use Rattle.std.specs.List.{All, find};
ghost use Rattle.std.specs.Option.{option_map};
ghost use Rattle.uac_clock.specs.declared.values.Nominal.{Nominal};
ghost use Rattle.uac_clock.specs.Nominal.{IsNominal};
ghost use Rattle.uac_device.specs.DeviceKept.{IsDeviationInRange};
ghost use Rattle.uac_device.specs.DeviceTurns as spec;

use std::alloc::Global;
use uac_clock::{Nominal, Phase, step};
use uac_descriptor::NoMemory;

/// A clock domain's clock: its id, what it is off by in ppm, and how far it is past its last tick.
#[derive(Clone, Copy, Debug, PartialEq, Eq)]
pub struct DomainClock {
    pub domain: u8,
    pub deviation: i32,
    pub phase: Phase,
}

/// A clock for each domain, none of them off, each at a tick.
pub(crate) fn resting_clocks(alloc: Global, domains: &[u8]) -> Result<Vec<DomainClock>, NoMemory>
    ensures { IfOk result (λ clocks. clocks.items ≡ map spec.resting_clock domains.now) }
{
    let mut clocks = Vec::new(alloc);
    for domain in domains {
        clocks.push(resting_clock(*domain))?;
    }
    Ok(clocks)
}

fn resting_clock(domain: u8) -> DomainClock
    ensures { result ≡ spec.resting_clock domain }
{
    DomainClock {
        domain,
        deviation: 0,
        phase: Phase::new(),
    }
}

/// The clocks of a domain are off by so many ppm from now on.
pub(crate) fn deviate(clocks: &mut [DomainClock], domain: u8, ppm: i32)
    ensures { clocks.new ≡ map (spec.clock_after_deviation domain ppm) clocks.old }
{
    for clock in clocks.iter_mut() {
        deviate_one(clock, domain, ppm);
    }
}

fn deviate_one(clock: &mut DomainClock, domain: u8, ppm: i32)
    ensures { clock.new ≡ spec.clock_after_deviation domain ppm clock.old }
{
    if clock.domain == domain {
        clock.deviation = ppm;
    }
}

/// The clocks of a domain go on by so many microframes, by the nominal values of its rate; without a rate they stand still.
/// Answers the ticks of the first of them.
pub(crate) fn advance_over(
    clocks: &mut [DomainClock],
    domain: u8,
    values: Option<Nominal>,
    microframes: u32,
) -> u32
    requires few { microframes ≤ 64 }
    requires range { All (λ c. IsDeviationInRange c.deviation) clocks.old }
    requires of_a_rate { (nominal : Nominal) → values ≡ Some nominal → IsNominal nominal }
    ensures clocks { clocks.new ≡ map (spec.clock_after_advances domain values microframes) clocks.old }
    ensures ticks { result ≡ spec.first_ticks domain values microframes clocks.old }
{
    let mut first = None;
    for clock in clocks.iter_mut() {
        first = first.or(advance_one(clock, domain, values, microframes));
    }
    first.unwrap_or(0)
}

// The ticks of a clock that goes on, None where it is another domain's.
fn advance_one(
    clock: &mut DomainClock,
    domain: u8,
    values: Option<Nominal>,
    microframes: u32,
) -> Option<u32>
    requires few { microframes ≤ 64 }
    requires range { IsDeviationInRange clock.old.deviation }
    requires of_a_rate { (nominal : Nominal) → values ≡ Some nominal → IsNominal nominal }
    ensures clock { clock.new ≡ spec.clock_after_advances domain values microframes clock.old }
    ensures ticks { result ≡ spec.ticks_where domain values microframes clock.old }
{
    if clock.domain != domain {
        return None;
    }
    let gives = step_by(values, clock.deviation);
    Some(clock.phase.advance(gives * microframes))
}

/// How many microframes a domain's clock may go on by, at most 64, so that it surely ticks no more than so often, by the nominal values of
/// its rate.
pub(crate) fn microframes_within(
    clocks: &[DomainClock],
    domain: u8,
    values: Option<Nominal>,
    ticks: u32,
) -> u32
    requires few { ticks ≤ 128 }
    requires range { All (λ c. IsDeviationInRange c.deviation) clocks.now }
    requires of_a_rate { (nominal : Nominal) → values ≡ Some nominal → IsNominal nominal }
    ensures some { 27 ≤ ticks → 1 ≤ result }
    ensures few { result ≤ 64 }
    ensures within { (n : ℕ) → All (λ c. c.phase < 65536) clocks.now → n ≤ result → spec.first_ticks domain values n clocks.now ≤ ticks }
{
    match clock_of(clocks, domain) {
        Some(clock) => steps_within(step_by(values, clock.deviation), ticks),
        None => 64,
    }
}

// The first clock of a domain.
fn clock_of(clocks: &[DomainClock], domain: u8) -> Option<&DomainClock>
    ensures { option_map (λ c. c.now) result ≡ find (λ c. c.domain == domain) clocks.now }
{
    clocks.iter().find(|clock| clock.domain == domain)
}

// How many steps of a clock, at most 64, surely make no more ticks than so many, wherever it starts.
fn steps_within(step: u32, ticks: u32) -> u32
    requires few { ticks ≤ 128 }
    ensures some { step ≤ 1730150 → 27 ≤ ticks → 1 ≤ result }
    ensures few { result ≤ 64 }
    ensures within { (phase n : ℕ) → phase < 65536 → n ≤ result → (phase + step * n) / 65536 ≤ ticks }
{
    if step == 0 {
        return 64;
    }
    (ticks * 65536 / step).min(64)
}

// What a clock that is off by so many ppm gives in a microframe, in 65,536ths of a frame.
fn step_by(values: Option<Nominal>, ppm: i32) -> u32
    requires low { negsuc 99999 ≤ℤ ppm }
    requires high { ppm ≤ℤ pos 100000 }
    requires of_a_rate { (nominal : Nominal) → values ≡ Some nominal → IsNominal nominal }
    ensures { result ≡ spec.step_by values ppm }
{
    match values {
        Some(values) => step(&values, ppm),
        None => 0,
    }
}
