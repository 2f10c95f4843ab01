// What waits to be sent on an interface.
ghost use Rattle.std.specs.Prelude.{◌≡◌, ◌↔◌, IsTrue, ◌≤◌, ◌<◌, ◌+◌, ◌*◌, ◌%◌, ◌++◌, ◌∷◌, [], ℕ, ℤ, List, length, take, drop, OnOk, OnErr};
ghost use Rattle.std.specs.List.{All};
ghost use Rattle.arrayvec.specs.ArrayVec.{array_vec_len};
ghost use Rattle.uac_pcm.specs.Packets.{bytes_of_frames};
ghost use Rattle.uac_pcm.specs.declared.tones.Tone.TheVariants as tones;
ghost use Rattle.std.specs.VecDeque.{deque_capacity};
ghost use Rattle.uac_host.specs.HostFields.{GivesSilence};
ghost use Rattle.uac_host.specs.HostWorld as world;
ghost use Rattle.uac_host.specs.HostCalls.{track_after_frames, next_frames};
ghost use Rattle.uac_host.specs.HostKept.{kept_track};

use arrayvec::ArrayVec;
use std::alloc::Global;
use std::collections::VecDeque;
use std::marker::Model;
use uac_descriptor::NoMemory;
use uac_pcm::{Format, Frame, Packet, Tone, fill_zeros, resize, silence};

/// The samples of the frames that wait, channel after channel, and the tone after them. A tone's samples come again after 2^32
/// places, so its place wraps there.
#[derive(Drop)]
pub(crate) struct Track {
    samples: VecDeque<i32>,
    tone: Tone,
    place: u32,
}

impl Model for Track {
    ghost use Rattle.uac_host.specs.HostFields.{TrackFields};

    ghost Value = { TrackFields };

    ghost view = { λ t. record { samples = t.samples.items; tone = t.tone; place = t.place } };
}

impl Track {
    /// A silent track. It takes no memory.
    pub(crate) fn silent(alloc: Global) -> Track
        ensures { result ≡ kept_track world.silent_track }
    {
        Track {
            samples: VecDeque::new(alloc),
            tone: Tone::Silent,
            place: 0,
        }
    }

    /// More samples wait, after those that do.
    pub(crate) fn append(&mut self, samples: &[i32]) -> Result<(), NoMemory>
        ensures appended { OnOk result (self.new ≡ record self.old { samples = self.old.samples ++ samples.now }) }
        ensures unchanged { OnErr result (self.new ≡ self.old) }
    {
        self.samples.reserve(samples.len())?;
        push_all(&mut self.samples, samples);
        Ok(())
    }

    /// Another tone follows what waits, from its first frame.
    pub(crate) fn play(&mut self, tone: Tone)
        ensures { self.new ≡ record self.old { tone = tone; place = 0 } }
    {
        self.tone = tone;
        self.place = 0;
    }

    /// Makes `frame` the next frame, of as many channels: of those that wait, or where none does the tone's.
    pub(crate) fn next(&mut self, frame: &mut Frame)
        requires { 1 ≤ array_vec_len frame.old }
        ensures channels { array_vec_len frame.new ≡ array_vec_len frame.old }
        ensures stands { (t : world.Track) → All (λ f. length f ≡ array_vec_len frame.old) t.waiting → self.old ≡ kept_track t
            → (next_frames (array_vec_len frame.old) 1 t ≡ frame.new.items ∷ []) × (self.new ≡ kept_track (track_after_frames 1 t)) }
    {
        if self.samples.len() < frame.len() {
            self.tone.write(u64::from(self.place), frame.as_mut_slice());
            self.place = self.place.wrapping_add(1);
            return;
        }
        take_first(&mut self.samples, frame.as_mut_slice());
    }

    /// Makes the packet so many of the next frames, packed in place of what is there.
    pub(crate) fn fill(&mut self, frames: u32, format: &Format, packet: &mut Packet)
        requires { frames * (format.now.channels * format.now.subslot) ≤ 3072 }
        ensures stands { (t : world.Track) → All (λ frame. length frame ≡ format.now.channels) t.waiting → self.old ≡ kept_track t
            → (packet.new.items ≡ bytes_of_frames format.now.subslot format.now.bits (next_frames format.now.channels frames t))
            × (self.new ≡ kept_track (track_after_frames frames t)) }
    {
        if self.is_silent() {
            self.place = self.place.wrapping_add(frames);
            fill_zeros(packet, frames as usize * format.frame_bytes());
        } else {
            self.fill_each(frames, format, packet);
        }
    }

    /// Whether all the next frames are silent: none waits, and the tone is silence.
    pub(crate) fn is_silent(&self) -> bool
        ensures { IsTrue result ↔ GivesSilence self.now }
    {
        self.samples.is_empty() && matches!(self.tone, Tone::Silent)
    }

    // Makes the packet so many of the next frames, each by itself.
    fn fill_each(&mut self, frames: u32, format: &Format, packet: &mut Packet)
        requires { frames * (format.now.channels * format.now.subslot) ≤ 3072 }
        ensures stands { (t : world.Track) → All (λ frame. length frame ≡ format.now.channels) t.waiting → self.old ≡ kept_track t
            → (packet.new.items ≡ bytes_of_frames format.now.subslot format.now.bits (next_frames format.now.channels frames t))
            × (self.new ≡ kept_track (track_after_frames frames t)) }
    {
        let size = format.frame_bytes();
        resize(packet, frames as usize * size);
        let mut frame: Frame = ArrayVec::new();
        silence(&mut frame, format.channels);
        for number in 0..frames as usize {
            self.next(&mut frame);
            format.write_at(&frame, packet, number * size);
        }
    }
}

// Puts samples after those that wait, in room that was made for them.
fn push_all(waiting: &mut VecDeque<i32>, samples: &[i32])
    requires { length waiting.old.items + length samples.now ≤ deque_capacity waiting.old }
    ensures { waiting.new.items ≡ waiting.old.items ++ samples.now }
{
    for sample in samples {
        waiting.push_back_reserved(*sample);
    }
}

// Takes the first samples out, and writes them over so many others.
fn take_first(waiting: &mut VecDeque<i32>, samples: &mut [i32])
    requires { length samples.old ≤ length waiting.old.items }
    ensures front { samples.new ≡ take (length samples.old) waiting.old.items }
    ensures rest { waiting.new.items ≡ drop (length samples.old) waiting.old.items }
{
    for index in 0..samples.len() {
        if let Some(sample) = waiting.pop_front() {
            samples[index] = sample;
        }
    }
}
