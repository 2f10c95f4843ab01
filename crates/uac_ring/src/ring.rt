// A bounded queue of frames over a circular buffer.
ghost use Rattle.std.specs.Prelude.{◌≡◌, ◌↔◌, ◌≤◌, ◌<◌, ◌+◌, ◌-◌, ℕ, ℤ, pos, List, [], ◌∷◌, ◌++◌, length, drop, map, min, replicate, slice_get, true};
ghost use Rattle.std.specs.Prelude.{IsNone, IsErr, IfOk, OnSome, OnOk, OnErr};
ghost use Rattle.std.specs.List.{All};
ghost use Rattle.std.specs.Option.{option_map};
ghost use Rattle.uac_ring.specs.Rings.{Holds, ring_frames};

use arrayvec::ArrayVec;
use circular_buffer::HeapCircularBuffer;
use std::alloc::Global;
use std::marker::Model;
use uac_descriptor::NoMemory;
use uac_pcm::{Frame, silence};

/// The most frames that a ring holds.
pub const RING_FRAMES: u32 = 2048;

/// A ring has no room for one more frame.
#[derive(Clone, Copy, PartialEq, Eq, Debug)]
pub struct Full;

/// The frames of a stream that have come and have not gone yet, in the order in which they came.
///
/// A frame takes 136 bytes, so a ring takes 278,528 bytes of memory, and eight rings take 2,228,224.
#[derive(Drop)]
pub struct Ring {
    /// The oldest of them.
    frames: HeapCircularBuffer<Frame>,
    /// So many silent ones came after these: they are counted, and lie nowhere.
    silent: u32,
    /// Each of the silent ones.
    silence: Frame,
}

impl Model for Ring {
    ghost use Rattle.std.specs.Prelude.{◌≡◌, ◌+◌, ◌≤◌, ◌++◌, ℤ, pos, List, length, map, replicate};
    ghost use Rattle.uac_ring.specs.Rings.{ring_frames};

    ghost Value = { List (List ℤ) };

    ghost view = { λ r. map (λ frame. frame.items) r.frames.items ++ replicate r.silent r.silence.items };

    ghost invariant = { λ r. (r.frames.capacity ≡ ring_frames) × ((length r.frames.items + r.silent ≤ ring_frames)
        × (r.silence.items ≡ replicate (length r.silence.items) (pos 0))) };
}

impl Ring {
    /// An empty ring. The room for all its frames is taken here, and none later.
    pub fn new(alloc: Global) -> Result<Ring, NoMemory>
        ensures { IfOk result (λ ring. ring ≡ []) }
    {
        let frames = HeapCircularBuffer::with_capacity(alloc, RING_FRAMES as usize)?;
        Ok(Ring {
            frames,
            silent: 0,
            silence: ArrayVec::new(),
        })
    }

    /// Appends a copy of a frame; `Full` exactly where the ring holds all that it can, and then it stays as it was.
    pub fn put(&mut self, frame: &Frame) -> Result<(), Full>
        ensures full { IsErr result ↔ (length self.old ≡ ring_frames) }
        ensures appended { OnOk result (self.new ≡ self.old ++ frame.now.items ∷ []) }
        ensures unchanged { OnErr result (self.new ≡ self.old) }
        ensures holds { (came : List (List ℤ)) (gone : ℕ) → Holds came gone self.old
            → OnOk result (Holds (came ++ frame.now.items ∷ []) gone self.new) }
    {
        let samples = frame.as_slice();
        // Most frames have one channel or two. These are made where they are to lie.
        if samples.len() == 1 {
            return self.put_mono(samples[0]);
        }
        if samples.len() == 2 {
            return self.put_stereo(samples[0], samples[1]);
        }
        self.put_wide(frame)
    }

    /// Appends a frame of one sample; `Full` exactly where the ring holds all that it can, and then it stays as it was.
    #[inline]
    pub fn put_mono(&mut self, only: i32) -> Result<(), Full>
        ensures full { IsErr result ↔ (length self.old ≡ ring_frames) }
        ensures appended { OnOk result (self.new ≡ self.old ++ (only ∷ []) ∷ []) }
        ensures unchanged { OnErr result (self.new ≡ self.old) }
        ensures holds { (came : List (List ℤ)) (gone : ℕ) → Holds came gone self.old
            → OnOk result (Holds (came ++ (only ∷ []) ∷ []) gone self.new) }
    {
        if self.silent > 0 {
            lay_silent(&mut self.frames, &self.silence, &mut self.silent);
        }
        push(&mut self.frames, mono(only))
    }

    // Appends a frame of two samples; `Full` exactly where the ring holds all that it can, and then it stays as it was.
    #[inline]
    fn put_stereo(&mut self, left: i32, right: i32) -> Result<(), Full>
        ensures full { IsErr result ↔ (length self.old ≡ ring_frames) }
        ensures appended { OnOk result (self.new ≡ self.old ++ (left ∷ right ∷ []) ∷ []) }
        ensures unchanged { OnErr result (self.new ≡ self.old) }
    {
        if self.silent > 0 {
            lay_silent(&mut self.frames, &self.silence, &mut self.silent);
        }
        push(&mut self.frames, stereo(left, right))
    }

    /// Appends so many silent frames, while there is room. None is written: they are counted.
    pub fn put_silent(&mut self, channels: u8, count: u32)
        requires { channels ≤ 32 }
        ensures { self.new ≡ self.old ++ replicate (min count (ring_frames - length self.old)) (replicate channels (pos 0)) }
    {
        if self.silence.len() != usize::from(channels) {
            lay_silent(&mut self.frames, &self.silence, &mut self.silent);
            silence(&mut self.silence, channels);
        }
        let room = RING_FRAMES - self.level();
        self.silent += count.min(room);
    }

    /// Whether all its frames are known to be silent.
    pub fn is_silent(&self) -> bool
        ensures { (channels : ℕ) → result ≡ true → All (λ frame. length frame ≡ channels) self.now
            → self.now ≡ replicate (length self.now) (replicate channels (pos 0)) }
    {
        self.frames.is_empty()
    }

    // Appends one silent frame; `Full` exactly where the ring holds all that it can, and then it stays as it was.
    fn put_one_silent(&mut self, channels: u8) -> Result<(), Full>
        requires { channels ≤ 32 }
        ensures full { IsErr result ↔ (length self.old ≡ ring_frames) }
        ensures appended { OnOk result (self.new ≡ self.old ++ replicate channels (pos 0) ∷ []) }
        ensures unchanged { OnErr result (self.new ≡ self.old) }
    {
        if self.level() == RING_FRAMES {
            return Err(Full);
        }
        self.put_silent(channels, 1);
        Ok(())
    }

    // Appends a copy of a frame of more channels than two; `Full` exactly where the ring holds all that it can, and then it stays as it was.
    #[inline(never)]
    fn put_wide(&mut self, frame: &Frame) -> Result<(), Full>
        ensures full { IsErr result ↔ (length self.old ≡ ring_frames) }
        ensures appended { OnOk result (self.new ≡ self.old ++ frame.now.items ∷ []) }
        ensures unchanged { OnErr result (self.new ≡ self.old) }
    {
        if is_silence(frame.as_slice()) {
            return self.put_one_silent(frame.len() as u8);
        }
        // The samples of the widest frame are an array, which is copied at once.
        if let Ok(samples) = <[i32; 32]>::try_from(frame.as_slice()) {
            return self.put_widest(samples);
        }
        self.put_piecewise(frame)
    }

    // Appends a frame of these samples; `Full` exactly where the ring holds all that it can, and then it stays as it was.
    #[inline]
    fn put_widest(&mut self, samples: [i32; 32]) -> Result<(), Full>
        ensures full { IsErr result ↔ (length self.old ≡ ring_frames) }
        ensures appended { OnOk result (self.new ≡ self.old ++ samples ∷ []) }
        ensures unchanged { OnErr result (self.new ≡ self.old) }
    {
        lay_silent(&mut self.frames, &self.silence, &mut self.silent);
        push(&mut self.frames, ArrayVec::from(samples))
    }

    // Appends a copy of a frame, whose samples are written into an empty frame first; `Full` exactly where the ring holds all that it can,
    // and then it stays as it was.
    #[inline(never)]
    fn put_piecewise(&mut self, frame: &Frame) -> Result<(), Full>
        ensures full { IsErr result ↔ (length self.old ≡ ring_frames) }
        ensures appended { OnOk result (self.new ≡ self.old ++ frame.now.items ∷ []) }
        ensures unchanged { OnErr result (self.new ≡ self.old) }
    {
        lay_silent(&mut self.frames, &self.silence, &mut self.silent);
        push(&mut self.frames, copy_of(frame))
    }

    /// Takes the oldest frame out; None exactly where there is none.
    pub fn take(&mut self) -> Option<Frame>
        ensures none { IsNone result ↔ (length self.old ≡ 0) }
        ensures oldest { option_map (λ frame. frame.items) result ≡ slice_get self.old 0 }
        ensures others { self.new ≡ drop 1 self.old }
        ensures holds { (came : List (List ℤ)) (gone : ℕ) → Holds came gone self.old
            → (option_map (λ frame. frame.items) result ≡ slice_get came gone) × OnSome result (Holds came (gone + 1) self.new) }
    {
        let oldest = copy_of(self.at(0)?);
        self.drop_oldest(1);
        Some(oldest)
    }

    /// The oldest frame, lent; None exactly where there is none.
    pub fn front(&self) -> Option<&Frame>
        ensures none { IsNone result ↔ (length self.now ≡ 0) }
        ensures oldest { option_map (λ frame. frame.now.items) result ≡ slice_get self.now 0 }
        ensures holds { (came : List (List ℤ)) (gone : ℕ) → Holds came gone self.now
            → option_map (λ frame. frame.now.items) result ≡ slice_get came gone }
    {
        self.at(0)
    }

    /// The frame at a place, where the oldest has place 0, lent; None exactly where the ring holds no more frames than that.
    pub fn at(&self, place: u32) -> Option<&Frame>
        ensures none { IsNone result ↔ (length self.now ≤ place) }
        ensures frame { option_map (λ frame. frame.now.items) result ≡ slice_get self.now place }
    {
        let laid = self.frames.len() as u32;
        if place < laid {
            return self.frames.get(place as usize);
        }
        if place - laid < self.silent {
            Some(&self.silence)
        } else {
            None
        }
    }

    /// Lets the oldest frames go, so many; all, where there are no more.
    pub fn drop_oldest(&mut self, count: u32)
        ensures { self.new ≡ drop count self.old }
    {
        let laid = self.frames.len() as u32;
        if count < laid {
            self.frames.truncate_front((laid - count) as usize);
        } else {
            // The next frames lie where these lay, in memory that is near.
            self.frames.clear();
            self.silent = self.silent.saturating_sub(count - laid);
        }
    }

    /// Lets the oldest frame go; where there is none, the ring stays empty.
    pub fn drop_front(&mut self)
        ensures others { self.new ≡ drop 1 self.old }
        ensures holds { (came : List (List ℤ)) (gone : ℕ) → Holds came gone self.old → gone < length came
            → Holds came (gone + 1) self.new }
    {
        self.drop_oldest(1);
    }

    /// The number of frames that the ring holds.
    pub fn level(&self) -> u32
        ensures frames { result ≡ length self.now }
        ensures bounded { result ≤ ring_frames }
        ensures holds { (came : List (List ℤ)) (gone : ℕ) → Holds came gone self.now → gone + result ≡ length came }
    {
        self.frames.len() as u32 + self.silent
    }

    /// Lets all frames go.
    pub fn clear(&mut self)
        ensures { self.new ≡ [] }
    {
        self.frames.clear();
        self.silent = 0;
    }
}

// A frame of one channel.
#[inline]
fn mono(only: i32) -> Frame
    ensures { result.items ≡ only ∷ [] }
{
    let mut frame: Frame = ArrayVec::new();
    frame.push(only);
    frame
}

// A frame of two channels.
#[inline]
fn stereo(left: i32, right: i32) -> Frame
    ensures { result.items ≡ left ∷ right ∷ [] }
{
    let mut frame: Frame = ArrayVec::new();
    frame.push(left);
    frame.push(right);
    frame
}

// A frame with the samples of another.
fn copy_of(frame: &Frame) -> Frame
    ensures { result.items ≡ frame.now.items }
{
    let mut copy: Frame = ArrayVec::new();
    // A frame has room for the samples of a frame.
    let _ = copy.try_extend_from_slice(frame.as_slice());
    copy
}

// Whether all samples are 0.
fn is_silence(samples: &[i32]) -> bool
    ensures { result ≡ true → samples.now ≡ replicate (length samples.now) (pos 0) }
{
    for sample in samples {
        if *sample != 0 {
            return false;
        }
    }
    true
}

// Appends a frame; `Full` exactly where there is no room for one.
#[inline]
fn push(frames: &mut HeapCircularBuffer<Frame>, frame: Frame) -> Result<(), Full>
    requires { length frames.old.items ≤ frames.old.capacity }
    ensures full { IsErr result ↔ (length frames.old.items ≡ frames.old.capacity) }
    ensures appended { OnOk result (map (λ f. f.items) frames.new.items ≡ map (λ f. f.items) frames.old.items ++ frame.items ∷ []) }
    ensures unchanged { OnErr result (frames.new ≡ frames.old) }
    ensures capacity { frames.new.capacity ≡ frames.old.capacity }
{
    match frames.try_push_back(frame) {
        Ok(()) => Ok(()),
        Err(_) => Err(Full),
    }
}

// The silent frames that are counted get their places, for which there is room.
#[inline(never)]
fn lay_silent(frames: &mut HeapCircularBuffer<Frame>, silence: &Frame, silent: &mut u32)
    requires { length frames.old.items + silent.old ≤ frames.old.capacity }
    ensures laid { map (λ f. f.items) frames.new.items ≡ map (λ f. f.items) frames.old.items ++ replicate silent.old silence.now.items }
    ensures level { length frames.new.items ≡ length frames.old.items + silent.old }
    ensures capacity { frames.new.capacity ≡ frames.old.capacity }
    ensures none { silent.new ≡ 0 }
{
    lay_down(frames, silence, *silent);
    *silent = 0;
}

// Appends so many copies of a frame, for which there is room.
fn lay_down(frames: &mut HeapCircularBuffer<Frame>, frame: &Frame, count: u32)
    requires { length frames.old.items + count ≤ frames.old.capacity }
    ensures laid { map (λ f. f.items) frames.new.items ≡ map (λ f. f.items) frames.old.items ++ replicate count frame.now.items }
    ensures level { length frames.new.items ≡ length frames.old.items + count }
    ensures capacity { frames.new.capacity ≡ frames.old.capacity }
{
    for _each in 0..count {
        let _ = frames.try_push_back(copy_of(frame));
    }
}
