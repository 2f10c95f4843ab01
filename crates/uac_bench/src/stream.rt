// The stream of a bench.
ghost use Rattle.std.specs.Prelude.{◌≡◌, ◌≤◌, ◌+◌, nat_le, List, ℤ, IfOk, IfSome};
ghost use Rattle.uac_ring.specs.Rings.{ring_frames};
ghost use Rattle.uac_bench.specs.BenchStreams.{StreamWorld, after_packet, after_priming, after_tick, arrival_of, level_of, one_missed};
ghost use Rattle.uac_bench.specs.BenchStreams.{played_in, stream_start, with_zeros};
ghost use Rattle.uac_bench.specs.BenchStreams as spec;
ghost use Rattle.uac_bench.specs.BenchKept.{BenchStreamStands};

use crate::frames::{mono, put_numbered, put_zeros};
use std::alloc::Global;
use std::marker::Model;
use uac_descriptor::NoMemory;
use uac_pcm::Frame;
use uac_ring::{Arrival, Ring, StreamCounts};

/// A mono stream to the device of a bench: its ring, the level at which it was primed, how many frames were formed, and what it met.
#[derive(Drop)]
pub struct BenchStream {
    ring: Ring,
    target: Option<u32>,
    /// As far as 32 bits hold it: a frame's number wraps there, too.
    formed: u32,
    met: StreamCounts,
}

impl Model for BenchStream {
    ghost use Rattle.std.specs.Prelude.{◌≤◌, IfSome};
    ghost use Rattle.uac_ring.specs.Rings.{ring_frames};
    ghost use Rattle.uac_bench.specs.BenchKept.{BenchStreamFields};

    ghost Value = { BenchStreamFields };

    ghost view = { λ s. record { ring = s.ring; target = s.target; formed = s.formed; met = s.met } };

    ghost invariant = { λ s. IfSome s.target (λ t. t ≤ ring_frames) };
}

/// What a tick of a bench brings: the frame that is played, and whether a primed stream's ring was empty.
#[derive(Debug, Drop)]
pub struct BenchTick {
    pub frame: Frame,
    pub under: bool,
}

impl BenchStream {
    /// A stream at its start, priming, with all the memory that it will use.
    pub fn new(alloc: Global) -> Result<BenchStream, NoMemory>
        ensures { IfOk result (λ s. BenchStreamStands s stream_start) }
    {
        let ring = Ring::new(alloc)?;
        Ok(BenchStream {
            ring,
            target: None,
            formed: 0,
            met: StreamCounts {
                under: 0,
                over: 0,
                lost: 0,
                missed: 0,
            },
        })
    }

    /// A packet of so many frames is formed, and lost or delivered. One that would bring the level above `most` is over; then the ring
    /// takes none of its frames.
    #[tactic(auto, unfolding(crate::specs::BenchStreams::after_packet))]
    pub fn receive(&mut self, frames: u32, lost: bool, most: u32) -> Arrival
        requires { most ≤ ring_frames }
        ensures stands { (s : StreamWorld) → BenchStreamStands self.old s
            → BenchStreamStands self.new (after_packet most lost frames s) }
        ensures arrival { (s : StreamWorld) → BenchStreamStands self.old s → result ≡ arrival_of most lost frames s }
    {
        let formed = self.formed;
        self.formed = formed.wrapping_add(frames);
        if lost {
            self.met.lost = self.met.lost.saturating_add(1);
            return Arrival::Lost;
        }
        if u64::from(self.ring.level()) + u64::from(frames) > u64::from(most) {
            self.met.over = self.met.over.saturating_add(1);
            return Arrival::Over;
        }
        put_numbered(&mut self.ring, formed, frames);
        Arrival::Taken
    }

    /// A tick. A primed stream plays its next frame, and a priming one silence. Where a primed stream's ring is empty, silence is played,
    /// and the stream primes again.
    #[tactic(auto, unfolding(crate::specs::BenchStreams::after_tick, crate::specs::BenchStreams::played_in, crate::specs::BenchStreams::is_dry))]
    pub fn tick(&mut self) -> BenchTick
        ensures stands { (s : StreamWorld) → BenchStreamStands self.old s → BenchStreamStands self.new (after_tick s) }
        ensures frame { (s : StreamWorld) → BenchStreamStands self.old s → result.frame.items ≡ played_in s }
        ensures under { (s : StreamWorld) → BenchStreamStands self.old s → result.under ≡ spec.is_dry s }
    {
        if self.target.is_none() {
            return BenchTick {
                frame: mono(0),
                under: false,
            };
        }
        match self.ring.take() {
            Some(frame) => BenchTick {
                frame,
                under: false,
            },
            None => {
                self.target = None;
                self.met.under = self.met.under.saturating_add(1);
                BenchTick {
                    frame: mono(0),
                    under: true,
                }
            }
        }
    }

    /// Silent frames in place of a lost packet, for which there is room.
    #[tactic(auto, unfolding(crate::specs::BenchStreams::with_zeros))]
    pub fn replace(&mut self, zeros: u32)
        ensures { (s : StreamWorld) → BenchStreamStands self.old s → level_of s + zeros ≤ ring_frames
            → BenchStreamStands self.new (with_zeros zeros s) }
    {
        put_zeros(&mut self.ring, zeros);
    }

    /// A priming stream with at least 256 frames becomes primed.
    #[tactic(auto, unfolding(crate::specs::BenchStreams::after_priming))]
    pub fn prime(&mut self)
        ensures { (s : StreamWorld) → BenchStreamStands self.old s → BenchStreamStands self.new (after_priming s) }
    {
        let level = self.ring.level();
        if self.target.is_none() && level >= 256 {
            self.target = Some(level);
        }
    }

    /// A report was missed.
    pub fn miss(&mut self)
        ensures { (s : StreamWorld) → BenchStreamStands self.old s
            → BenchStreamStands self.new (record s { met = one_missed s.met }) }
    {
        self.met.missed = self.met.missed.saturating_add(1);
    }

    /// The frames in its ring.
    pub fn level(&self) -> u32
        ensures level { (s : StreamWorld) → BenchStreamStands self.now s → result ≡ level_of s }
        ensures bounded { result ≤ ring_frames }
    {
        self.ring.level()
    }

    /// The level at which it was primed; None while it is priming.
    pub fn target(&self) -> Option<u32>
        ensures target { (s : StreamWorld) → BenchStreamStands self.now s → result ≡ s.target }
        ensures bounded { IfSome result (λ target. target ≤ ring_frames) }
    {
        self.target
    }

    /// What it met.
    pub fn met(&self) -> StreamCounts
        ensures { (s : StreamWorld) → BenchStreamStands self.now s → result ≡ s.met }
    {
        self.met
    }
}
