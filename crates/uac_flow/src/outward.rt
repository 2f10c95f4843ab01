// A running stream to the device.
ghost use Rattle.std.specs.Prelude.{◌≡◌, ℕ, ◌+◌, ◌-◌, ◌<◌, ◌≤◌, nat_le, ℤ, List, length, Some, None, IfSome, true};
ghost use Rattle.std.specs.Option.{option_map};
ghost use Rattle.uac_alt.specs.AltStreams.{stream_fields};
ghost use Rattle.uac_pcm.specs.Packets.{whole_frames};
ghost use Rattle.uac_ring.specs.Rings.{ring_frames};
ghost use Rattle.uac_flow.specs.Flows.{CanRun, IsOutFlow, OutStands, ZerosFit};
ghost use Rattle.uac_units.specs.SampleRows.{HaveTicks, frame_at, row_lengths};
ghost use Rattle.uac_flow.specs.FlowTicks as ticks;
ghost use Rattle.uac_flow.specs.FlowTicks.{given_at, out_after_ticks, ready_of};
ghost use Rattle.uac_flow.specs.FlowWaits.{feedback_at, may_wait};
ghost use Rattle.uac_flow.specs.FlowStreams as spec;
ghost use Rattle.uac_flow.specs.FlowStreams.{OutStream, after_packet, after_taking, arrival_of, feedback_of, next_taken, out_level};
ghost use Rattle.uac_flow.specs.FlowStreams.{out_after_end, after_due_end, started_out, zeros_due};

use crate::counting::{is_due, next_count, reports_now};
use crate::frames::{put_frames, put_zeros};
use crate::rows::{lay_frames, lay_silence};
use uac_alt::Stream;
use uac_pcm::laws::unpacked_frames_are_whole;
use uac_pcm::{Frame, Packet};
use uac_rate::report;
use uac_ring::{Arrival, RING_FRAMES, Ring};
use uac_units::{Row, hush_rows};

/// What the device keeps of a stream to it, beside its ring.
#[derive(Clone, Copy, Debug, PartialEq, Eq)]
pub struct OutFlow {
    pub stream: Stream,
    /// The microframes since its start: 8 is followed by 1, since every interval divides 8.
    pub microframes: u32,
    /// The level at which it was primed; None while it is priming.
    pub target: Option<u32>,
    /// Whether the stream's packet was lost, since the end of the last microframe in which it was due.
    pub lost: bool,
    /// The ticks of the stream's domain since then.
    pub ticks: u32,
}

impl OutFlow {
    /// A stream at its start; its ring is emptied.
    pub fn start(stream: Stream, ring: &mut Ring) -> OutFlow
        requires runs { CanRun (stream_fields stream) }
        requires out { stream.out ≡ true }
        ensures stands { OutStands ring.new result (started_out (stream_fields stream)) }
        ensures sound { IsOutFlow ring.new result }
    {
        ring.clear();
        OutFlow {
            stream,
            microframes: 0,
            target: None,
            lost: false,
            ticks: 0,
        }
    }

    /// Takes a packet's frames, where the ring has room for all; None is a lost packet.
    #[tactic(auto, unfolding(crate::specs::FlowStreams::after_packet, crate::specs::FlowStreams::arrival_of))]
    pub fn receive(&mut self, ring: &mut Ring, packet: Option<&Packet>) -> Arrival
        requires sound { IsOutFlow ring.old self.old }
        ensures stands { (o : OutStream) → OutStands ring.old self.old o
            → OutStands ring.new self.new (after_packet (option_map (λ p. p.now.items) packet.entry) o) }
        ensures arrival { (o : OutStream) → OutStands ring.old self.old o
            → result ≡ arrival_of (option_map (λ p. p.now.items) packet.entry) o }
        ensures sound { IsOutFlow ring.new self.new }
        ensures stream { self.new.stream ≡ self.old.stream }
    {
        let Some(packet) = packet else {
            self.lost = true;
            return Arrival::Lost;
        };
        self.receive_bytes(ring, packet)
    }

    // The packet came. A ring that has no room for all its frames takes none.
    #[tactic(auto, unfolding(crate::specs::FlowStreams::after_packet, crate::specs::FlowStreams::arrival_of))]
    fn receive_bytes(&mut self, ring: &mut Ring, packet: &Packet) -> Arrival
        requires sound { IsOutFlow ring.old self.old }
        ensures stands { (o : OutStream) → OutStands ring.old self.old o
            → OutStands ring.new self.new (after_packet (Some packet.now.items) o) }
        ensures arrival { (o : OutStream) → OutStands ring.old self.old o → result ≡ arrival_of (Some packet.now.items) o }
        ensures sound { IsOutFlow ring.new self.new }
        ensures stream { self.new.stream ≡ self.old.stream }
    {
        let takes_all = self.takes_all(ring, packet);
        self.lost = false;
        if !takes_all {
            return Arrival::Over;
        }
        put_frames(ring, &self.stream.format, packet);
        Arrival::Taken
    }

    // Whether the ring has room for all frames of a packet.
    fn takes_all(&self, ring: &Ring, packet: &Packet) -> bool
        ensures room { let format = self.now.stream.format in
            result ≡ nat_le (length ring.now + whole_frames format.channels format.subslot packet.now.items) ring_frames }
        ensures of_stream { (o : OutStream) → OutStands ring.now self.now o → result ≡ spec.takes_all o packet.now.items }
    {
        unpacked_frames_are_whole();
        ring.level() + self.stream.format.frames_in(packet) <= RING_FRAMES
    }

    /// Counts the ticks of the stream's domain that came.
    pub fn count(&mut self, ticks: u32)
        ensures stands { (ring : List (List ℤ)) (o : OutStream) → OutStands ring self.old o
            → OutStands ring self.new (spec.after_ticks ticks o) }
        ensures sound { (ring : List (List ℤ)) → IsOutFlow ring self.old → IsOutFlow ring self.new }
        ensures stream { self.new.stream ≡ self.old.stream }
    {
        self.ticks = self.ticks.saturating_add(ticks);
    }

    /// The frame that its terminal takes at the next tick, lent; None while it is priming, and where its ring is empty.
    pub fn next<'a>(&self, ring: &'a Ring) -> Option<&'a Frame>
        requires sound { IsOutFlow ring.now self.now }
        ensures frame { (o : OutStream) → OutStands ring.now self.now o → option_map (λ frame. frame.now.items) result ≡ next_taken o }
        ensures channels { IfSome result (λ frame. length frame.now.items ≡ self.now.stream.format.channels) }
    {
        if self.target.is_none() {
            return None;
        }
        ring.front()
    }

    /// Drops the front frame, which the stream's terminal took. Where the ring was empty, the stream primes again.
    #[tactic(auto, unfolding(crate::specs::FlowStreams::after_taking))]
    pub fn go_on(&mut self, ring: &mut Ring)
        requires sound { IsOutFlow ring.old self.old }
        ensures stands { (o : OutStream) → OutStands ring.old self.old o → OutStands ring.new self.new (after_taking o) }
        ensures sound { IsOutFlow ring.new self.new }
        ensures stream { self.new.stream ≡ self.old.stream }
    {
        if self.is_dry(ring) {
            self.target = None;
        } else if self.target.is_some() {
            ring.drop_front();
        }
    }

    /// At each of so many ticks the stream's terminal takes the next frame, or silence where there is none: these go into rows. The stream
    /// goes on by as many ticks.
    pub fn take_rows(&mut self, ring: &mut Ring, ticks: u32, rows: &mut [Row])
        requires sound { IsOutFlow ring.old self.old }
        requires channels { length rows.old ≡ self.old.stream.format.channels }
        requires inside { HaveTicks ticks rows.old }
        ensures stands { (o : OutStream) → OutStands ring.old self.old o → OutStands ring.new self.new (out_after_ticks ticks o) }
        ensures frames { (o : OutStream) → OutStands ring.old self.old o → (tick : ℕ) → tick < ticks
            → frame_at tick rows.new ≡ given_at tick o }
        ensures lengths { row_lengths rows.new ≡ row_lengths rows.old }
        ensures sound { IsOutFlow ring.new self.new }
        ensures stream { self.new.stream ≡ self.old.stream }
    {
        if ring.is_silent() {
            hush_rows(rows, ticks as usize);
        } else {
            self.lay_rows(ring, ticks, rows);
        }
        self.go_on_by(ring, ticks);
    }

    // Puts the frames of so many ticks into rows, and silence behind them where the ring has fewer.
    fn lay_rows(&self, ring: &Ring, ticks: u32, rows: &mut [Row])
        requires sound { IsOutFlow ring.now self.now }
        requires channels { length rows.old ≡ self.now.stream.format.channels }
        requires inside { HaveTicks ticks rows.old }
        ensures frames { (o : OutStream) → OutStands ring.now self.now o → (tick : ℕ) → tick < ticks
            → frame_at tick rows.new ≡ given_at tick o }
        ensures lengths { row_lengths rows.new ≡ row_lengths rows.old }
    {
        let taken = self.ready(ring).min(ticks);
        lay_frames(ring, taken, rows);
        lay_silence(taken, ticks, rows);
    }

    // How many frames the stream can give at the next ticks: none while it is priming.
    fn ready(&self, ring: &Ring) -> u32
        ensures there { result ≤ length ring.now }
        ensures ready { (o : OutStream) → OutStands ring.now self.now o → result ≡ ready_of o }
    {
        if self.target.is_some() {
            ring.level()
        } else {
            0
        }
    }

    /// The stream goes on by so many ticks: its terminal took as many frames, or all, and then it primes again.
    #[tactic(auto, unfolding(crate::specs::FlowTicks::out_after_ticks))]
    pub fn go_on_by(&mut self, ring: &mut Ring, ticks: u32)
        requires sound { IsOutFlow ring.old self.old }
        ensures stands { (o : OutStream) → OutStands ring.old self.old o → OutStands ring.new self.new (out_after_ticks ticks o) }
        ensures sound { IsOutFlow ring.new self.new }
        ensures stream { self.new.stream ≡ self.old.stream }
    {
        if self.target.is_none() {
            return;
        }
        if ticks <= ring.level() {
            ring.drop_oldest(ticks);
        } else {
            ring.clear();
            *self = OutFlow {
                target: None,
                ..*self
            };
        }
    }

    /// Whether so many ticks find the stream never dry.
    pub fn lasts(&self, ring: &Ring, count: u32) -> bool
        ensures { (o : OutStream) → OutStands ring.now self.now o → result ≡ ticks.lasts count o }
    {
        self.target.is_none() || count <= ring.level()
    }

    /// Whether so many ticks may wait: the stream is primed, none of its packets is lost, and each of the ticks finds a frame.
    pub fn may_wait(&self, ring: &Ring, count: u32) -> bool
        ensures { (o : OutStream) → OutStands ring.now self.now o → result ≡ may_wait count o }
    {
        self.target.is_some() && !self.lost && count <= ring.level()
    }

    /// Whether the ring has room for all frames of a packet of so many bytes.
    pub fn takes(&self, ring: &Ring, bytes: u32) -> bool
        requires sound { IsOutFlow ring.now self.now }
        ensures { (o : OutStream) (packet : List ℕ) → OutStands ring.now self.now o → length packet ≡ bytes
            → result ≡ spec.takes_all o packet }
    {
        unpacked_frames_are_whole();
        bytes / (self.stream.format.frame_bytes() as u32) <= RING_FRAMES - ring.level()
    }

    /// Whether the stream is primed and its ring is empty.
    pub fn is_dry(&self, ring: &Ring) -> bool
        ensures { (o : OutStream) → OutStands ring.now self.now o → result ≡ spec.is_dry o }
    {
        self.target.is_some() && ring.level() == 0
    }

    /// Whether the stream has a packet in the next microframe.
    pub fn is_due(&self) -> bool
        requires runs { CanRun (stream_fields self.now.stream) }
        requires counted { self.now.microframes ≤ 8 }
        ensures { (ring : List (List ℤ)) (o : OutStream) → OutStands ring self.now o → result ≡ spec.is_due o.stream o.microframes }
    {
        is_due(self.stream.service, self.microframes)
    }

    /// The end of a microframe. Where it was due, zeros replace a lost packet, and a stream whose ring has enough frames is primed.
    pub fn end_microframe(&mut self, ring: &mut Ring)
        requires sound { IsOutFlow ring.old self.old }
        ensures stands { (o : OutStream) → OutStands ring.old self.old o → ZerosFit o → OutStands ring.new self.new (out_after_end o) }
        ensures sound { IsOutFlow ring.new self.new }
        ensures stream { self.new.stream ≡ self.old.stream }
    {
        let is_due = self.is_due();
        self.microframes = next_count(self.microframes);
        if is_due {
            self.end_interval(ring);
        }
    }

    // The end of a microframe in which it was due.
    fn end_interval(&mut self, ring: &mut Ring)
        requires sound { IsOutFlow ring.old self.old }
        ensures stands { (o : OutStream) → OutStands ring.old self.old o → out_level o + length (zeros_due o) ≤ ring_frames
            → OutStands ring.new self.new (after_due_end o) }
        ensures sound { IsOutFlow ring.new self.new }
        ensures stream { self.new.stream ≡ self.old.stream }
    {
        if self.lost {
            put_zeros(ring, self.stream.format.channels, self.ticks);
        }
        self.prime(ring.level());
        self.lost = false;
        self.ticks = 0;
    }

    // A priming stream whose ring has enough frames is primed.
    fn prime(&mut self, level: u32)
        ensures primed { self.new ≡ record self.old { target = spec.target_after self.old.target level (stream_fields self.old.stream) } }
    {
        if self.target.is_none() && level >= priming_level(&self.stream) {
            self.target = Some(level);
        }
    }

    /// The report that is due at the end of a microframe (USB 2.0, 5.12.4.2): the nominal value while the stream is priming.
    #[tactic(auto, unfolding(crate::specs::FlowStreams::feedback_of))]
    pub fn feedback(&self, ring: &Ring) -> Option<u32>
        requires sound { IsOutFlow ring.now self.now }
        ensures { (o : OutStream) → OutStands ring.now self.now o → result ≡ feedback_of o }
    {
        self.feedback_later(ring, 0)
    }

    /// The report that is due, as `feedback`, when so many ticks wait, which take as many frames.
    pub fn feedback_later(&self, ring: &Ring, ticks: u32) -> Option<u32>
        requires sound { IsOutFlow ring.now self.now }
        ensures { (o : OutStream) → OutStands ring.now self.now o → result ≡ feedback_at (out_level o - ticks) o }
    {
        if !reports_now(self.stream.period, self.microframes) {
            return None;
        }
        let level = ring.level().saturating_sub(ticks);
        match self.target {
            Some(target) => Some(report(&self.stream.nominal, target, level)),
            None => Some(self.stream.nominal.f),
        }
    }
}

// The level from which on a stream is primed.
fn priming_level(stream: &Stream) -> u32
    ensures { result ≡ spec.priming_level (stream_fields stream.now) }
{
    if stream.service > 1 { 512 } else { 256 }
}
