// From rate values to whole frames.
use std::marker::Model;
use uac_clock::Phase;

/// How far the host's pace is past its last whole frame, in 65,536ths of a frame. A contract sees that number.
#[derive(Clone, Copy, Debug, PartialEq, Eq)]
pub struct Pacer {
    phase: Phase,
}

impl Model for Pacer {
    ghost use Rattle.std.specs.Prelude.{ℕ};

    ghost Value = { ℕ };

    ghost view = { λ pacer. pacer.phase };

    ghost inverse = { λ n. record { phase = n } };
}

impl Pacer {
    ghost use Rattle.std.specs.Prelude.{◌≡◌, ◌+◌, ◌/◌, ◌%◌, ◌++◌, ◌∷◌, [], List, ℕ};
    ghost use Rattle.uac_clock.specs.Ticks.{IsPhaseAfter};
    ghost use Rattle.uac_rate.specs.PacketSizes.{frames_in_packet};

    /// A pace at a whole frame.
    pub fn new() -> Pacer
        ensures zero { result ≡ 0 }
        ensures stands { IsPhaseAfter result [] }
    {
        Pacer {
            phase: Phase::new(),
        }
    }

    /// Goes on by a rate value, in 65,536ths of a frame, and answers how many frames the packet has.
    ///
    /// For the rate values since the start, whatever they were, this is the size of the packet of this one. A packet
    /// that is sent every s microframes has the frames of s calls.
    pub fn next(&mut self, value: u32) -> u32
        ensures frames { result ≡ (self.old + value) / 65536 }
        ensures kept { self.new ≡ (self.old + value) % 65536 }
        ensures stands { (values : List ℕ) → IsPhaseAfter self.old values → IsPhaseAfter self.new (values ++ value ∷ []) }
        ensures in_packet { (values : List ℕ) → IsPhaseAfter self.old values → result ≡ frames_in_packet 1 (values ++ value ∷ []) }
    {
        self.phase.advance(value)
    }
}
