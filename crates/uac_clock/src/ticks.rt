// From the steps of a clock to whole ticks.
use std::marker::Model;

/// How far a clock is past its last tick, in 65,536ths of a frame. A contract sees that number.
#[derive(Clone, Copy, Debug, PartialEq, Eq)]
pub struct Phase {
    remainder: u16,
}

impl Model for Phase {
    ghost use Rattle.std.specs.Prelude.{ℕ};

    ghost Value = { ℕ };

    ghost view = { λ phase. phase.remainder };

    ghost inverse = { λ n. record { remainder = n } };
}

impl Phase {
    ghost use Rattle.std.specs.Prelude.{◌≡◌, ◌+◌, ◌/◌, ◌%◌, ◌++◌, ◌∷◌, [], List, ℕ};
    ghost use Rattle.uac_clock.specs.Ticks.{IsPhaseAfter, ticks_in};

    /// A clock at a tick.
    pub fn new() -> Phase
        ensures zero { result ≡ 0 }
        ensures stands { IsPhaseAfter result [] }
    {
        Phase { remainder: 0 }
    }

    /// Goes on by a step, in 65,536ths of a frame, and answers how many ticks come.
    ///
    /// For the steps since the start, whatever they were, this is the number of ticks of this one.
    pub fn advance(&mut self, a: u32) -> u32
        ensures ticks { result ≡ (self.old + a) / 65536 }
        ensures kept { self.new ≡ (self.old + a) % 65536 }
        ensures stands { (steps : List ℕ) → IsPhaseAfter self.old steps → IsPhaseAfter self.new (steps ++ a ∷ []) }
        ensures ticks_in { (steps : List ℕ) → IsPhaseAfter self.old steps → result ≡ ticks_in (steps ++ a ∷ []) }
    {
        let sum = u64::from(self.remainder) + u64::from(a);
        self.remainder = (sum % 65536) as u16;
        (sum / 65536) as u32
    }
}
