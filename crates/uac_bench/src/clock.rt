// The clock of a bench.
use std::marker::Model;
use uac_clock::Phase;

/// A clock, and how often it ticked since the start; the count stands still at 18446744073709551615.
#[derive(Drop)]
pub struct BenchClock {
    phase: Phase,
    ticks: u64,
}

impl Model for BenchClock {
    ghost use Rattle.uac_bench.specs.BenchKept.{BenchClockFields};

    ghost Value = { BenchClockFields };

    ghost view = { λ c. record { phase = c.phase; ticks = c.ticks } };
}

impl BenchClock {
    ghost use Rattle.std.specs.Prelude.{◌≡◌, ◌/◌, ◌++◌, ◌∷◌, [], List, ℕ, sum};
    ghost use Rattle.uac_clock.specs.Ticks.{ticks_in};
    ghost use Rattle.uac_units.specs.Hearing.{at_most_u64};
    ghost use Rattle.uac_bench.specs.BenchKept.{BenchClockStands};

    /// A clock at a tick.
    pub fn new() -> BenchClock
        ensures { BenchClockStands result [] }
    {
        BenchClock {
            phase: Phase::new(),
            ticks: 0,
        }
    }

    /// Goes on by a step, in 65,536ths of a frame, and answers how many ticks come.
    pub fn advance(&mut self, step: u32) -> u32
        ensures stands { (steps : List ℕ) → BenchClockStands self.old steps → BenchClockStands self.new (steps ++ step ∷ []) }
        ensures ticks { (steps : List ℕ) → BenchClockStands self.old steps → result ≡ ticks_in (steps ++ step ∷ []) }
    {
        let ticks = self.phase.advance(step);
        self.ticks = self.ticks.saturating_add(u64::from(ticks));
        ticks
    }

    /// How often it ticked.
    pub fn ticks(&self) -> u64
        ensures { (steps : List ℕ) → BenchClockStands self.now steps → result ≡ at_most_u64 (sum steps / 65536) }
    {
        self.ticks
    }
}
