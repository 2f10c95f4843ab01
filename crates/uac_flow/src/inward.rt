// A running stream from the device.
ghost use Rattle.std.specs.Prelude.{◌≡◌, ◌+◌, ◌-◌, ◌≤◌, ◌∷◌, [], ℕ, ℤ, List, length, min};
ghost use Rattle.uac_alt.specs.AltStreams.{stream_fields};
ghost use Rattle.uac_ring.specs.Rings.{ring_frames};
ghost use Rattle.uac_flow.specs.Flows.{CanRun, IsInFlow, InStands};
ghost use Rattle.uac_units.specs.SampleRows.{HaveTicks, frame_at, sample_at};
ghost use Rattle.uac_flow.specs.FlowTicks as ticks;
ghost use Rattle.uac_flow.specs.FlowTicks.{IsHeld, in_after_ticks};
ghost use Rattle.uac_flow.specs.FlowStreams as spec;
ghost use Rattle.uac_flow.specs.FlowWaits.{sent_more};
ghost use Rattle.uac_flow.specs.FlowStreams.{InStream, after_putting, after_sending_in, sent_in_frames, sent_in_packet, in_after_end, in_level, started_in};

use crate::counting::{is_due, next_count};
use crate::frames::take_frames;
use arrayvec::ArrayVec;
use uac_alt::Stream;
use uac_pcm::{Frame, Packet};
use uac_ring::{RING_FRAMES, Ring};
use uac_units::{Row, are_silent, read_frame};

/// What the device keeps of a stream from it, beside its ring.
#[derive(Clone, Copy, Debug, PartialEq, Eq)]
pub struct InFlow {
    pub stream: Stream,
    /// The microframes since its start: 8 is followed by 1, since every interval divides 8.
    pub microframes: u32,
}

impl InFlow {
    /// A stream at its start; its ring is emptied.
    pub fn start(stream: Stream, ring: &mut Ring) -> InFlow
        requires { CanRun (stream_fields stream) }
        ensures stands { InStands ring.new result (started_in (stream_fields stream)) }
        ensures sound { IsInFlow ring.new result }
    {
        ring.clear();
        InFlow {
            stream,
            microframes: 0,
        }
    }

    /// Moves the oldest frames of the ring, as many as fit, into a packet in place of its bytes, and answers their number.
    #[tactic(auto, unfolding(crate::specs::FlowStreams::after_sending_in, crate::specs::FlowStreams::sent_in_packet))]
    pub fn send_in(&self, ring: &mut Ring, packet: &mut Packet) -> u32
        requires sound { IsInFlow ring.old self.now }
        ensures stands { (i : InStream) → InStands ring.old self.now i → InStands ring.new self.now (after_sending_in i) }
        ensures packet { (i : InStream) → InStands ring.old self.now i → packet.new.items ≡ sent_in_packet i }
        ensures frames { (i : InStream) → InStands ring.old self.now i → result ≡ sent_in_frames i }
        ensures sound { IsInFlow ring.new self.now }
    {
        let count = ring.level().min(self.stream.most);
        take_frames(ring, &self.stream.format, count, packet);
        count
    }

    /// Puts the frame that its terminal played into the ring, where there is room.
    #[tactic(auto, unfolding(crate::specs::FlowStreams::after_putting))]
    pub fn put(&self, ring: &mut Ring, frame: &Frame)
        requires sound { IsInFlow ring.old self.now }
        requires channels { length frame.now.items ≡ self.now.stream.format.channels }
        ensures stands { (i : InStream) → InStands ring.old self.now i → InStands ring.new self.now (after_putting frame.now.items i) }
        ensures sound { IsInFlow ring.new self.now }
    {
        let _ = ring.put(frame);
    }

    // Puts the frame of one sample that its terminal played into the ring, where there is room.
    #[tactic(auto, unfolding(crate::specs::FlowStreams::after_putting))]
    fn put_mono(&self, ring: &mut Ring, only: i32)
        requires sound { IsInFlow ring.old self.now }
        requires channels { self.now.stream.format.channels ≡ 1 }
        ensures stands { (i : InStream) → InStands ring.old self.now i → InStands ring.new self.now (after_putting (only ∷ []) i) }
        ensures sound { IsInFlow ring.new self.now }
    {
        let _ = ring.put_mono(only);
    }

    /// Puts the frames that its terminal played at so many ticks into the ring, while there is room.
    pub fn put_rows(&self, ring: &mut Ring, ticks: u32, rows: &[Row])
        requires sound { IsInFlow ring.old self.now }
        requires channels { length rows.now ≡ self.now.stream.format.channels }
        requires inside { HaveTicks ticks rows.now }
        ensures stands { (i : InStream) → InStands ring.old self.now i
            → InStands ring.new self.now (in_after_ticks (λ tick. frame_at tick rows.now) ticks i) }
        ensures sound { IsInFlow ring.new self.now }
    {
        if are_silent(rows, ticks as usize) {
            let room = RING_FRAMES - ring.level();
            ring.put_silent(self.stream.format.channels, ticks.min(room));
        } else if rows.len() == 1 {
            self.put_only(ring, ticks, &rows[0]);
        } else {
            self.put_each(ring, ticks, rows);
        }
    }

    // Puts the frames of so many ticks into the ring, while there is room, where they have one sample.
    fn put_only(&self, ring: &mut Ring, ticks: u32, row: &Row)
        requires sound { IsInFlow ring.old self.now }
        requires channels { self.now.stream.format.channels ≡ 1 }
        requires inside { ticks ≤ length row.now }
        ensures stands { (i : InStream) → InStands ring.old self.now i
            → InStands ring.new self.now (in_after_ticks (λ tick. sample_at tick row.now ∷ []) ticks i) }
        ensures sound { IsInFlow ring.new self.now }
    {
        for tick in 0..ticks {
            self.put_mono(ring, row.sample(tick as usize));
        }
    }

    // Puts the frames of so many ticks into the ring, while there is room, whatever samples they have.
    fn put_each(&self, ring: &mut Ring, ticks: u32, rows: &[Row])
        requires sound { IsInFlow ring.old self.now }
        requires channels { length rows.now ≡ self.now.stream.format.channels }
        requires inside { HaveTicks ticks rows.now }
        ensures stands { (i : InStream) → InStands ring.old self.now i
            → InStands ring.new self.now (in_after_ticks (λ tick. frame_at tick rows.now) ticks i) }
        ensures sound { IsInFlow ring.new self.now }
    {
        let mut frame: Frame = ArrayVec::new();
        for tick in 0..ticks {
            read_frame(rows, tick as usize, &mut frame);
            self.put(ring, &frame);
        }
    }

    /// Whether so many ticks find the stream's ring never full.
    pub fn has_room(&self, ring: &Ring, count: u32) -> bool
        ensures held { (i : InStream) → InStands ring.now self.now i → IsHeld i }
        ensures room { (i : InStream) → InStands ring.now self.now i → result ≡ ticks.has_room count i }
    {
        RING_FRAMES - ring.level() >= count
    }

    /// How many frames the next packet has, when so many ticks wait, which give as many frames, and so many frames were sent.
    pub fn frames_later(&self, ring: &Ring, ticks: u32, sent: u32) -> u32
        requires ticks { ticks ≤ 128 }
        requires sent { sent ≤ 2176 }
        ensures frames { (i : InStream) → InStands ring.now self.now i → result ≡ min ((in_level i + ticks) - sent) i.stream.most }
        ensures few { sent + result ≤ 2176 }
    {
        (ring.level() + ticks)
            .saturating_sub(sent)
            .min(self.stream.most)
    }

    /// So many of the oldest frames are gone: they were sent.
    pub fn drop_sent(&self, ring: &mut Ring, count: u32)
        requires sound { IsInFlow ring.old self.now }
        ensures stands { (i : InStream) → InStands ring.old self.now i → count ≤ in_level i → InStands ring.new self.now (sent_more count i) }
        ensures sound { IsInFlow ring.new self.now }
    {
        ring.drop_oldest(count);
    }

    /// Whether the stream's ring is full.
    pub fn is_full(&self, ring: &Ring) -> bool
        ensures { (i : InStream) → InStands ring.now self.now i → result ≡ spec.is_full i }
    {
        ring.level() == RING_FRAMES
    }

    /// Whether the stream has a packet in the next microframe.
    pub fn is_due(&self) -> bool
        requires runs { CanRun (stream_fields self.now.stream) }
        requires counted { self.now.microframes ≤ 8 }
        ensures { (ring : List (List ℤ)) (i : InStream) → InStands ring self.now i → result ≡ spec.is_due i.stream i.microframes }
    {
        is_due(self.stream.service, self.microframes)
    }

    /// The end of a microframe.
    #[tactic(auto, unfolding(crate::specs::FlowStreams::in_after_end))]
    pub fn end_microframe(&mut self)
        requires { self.old.microframes ≤ 8 }
        ensures stands { (ring : List (List ℤ)) (i : InStream) → InStands ring self.old i → InStands ring self.new (in_after_end i) }
        ensures sound { (ring : List (List ℤ)) → IsInFlow ring self.old → IsInFlow ring self.new }
        ensures stream { self.new.stream ≡ self.old.stream }
    {
        self.microframes = next_count(self.microframes);
    }
}
