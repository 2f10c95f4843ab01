// Test tones: samples that are a function of their place.
ghost use Rattle.std.specs.Prelude.{◌≡◌, ◌≤◌, length, map};
ghost use Rattle.std.specs.List.{range_with_len};
ghost use Rattle.uac_pcm.specs.Tones.{tone_sample};

/// What a track or a jack plays where nothing else is given (profile).
#[derive(Clone, Copy, Debug, PartialEq, Eq)]
pub enum Tone {
    /// Zeros.
    Silent,
    /// A straight line that wraps at 32 bits.
    Ramp { start: i32, step: i32 },
    /// Numbers without a pattern to the ear, the same for each seed.
    Noise { seed: u32 },
}

impl Tone {
    /// The sample at a place, which counts frames from 0, of a channel, which counts from 0.
    pub fn sample(&self, place: u64, channel: u32) -> i32
        ensures { result ≡ tone_sample self.now place channel }
    {
        let low_place = (place % (1 << 32)) as u32;
        match *self {
            Tone::Silent => 0,
            Tone::Ramp { start, step } => {
                let rises = low_place.wrapping_add(channel).cast_signed();
                start.wrapping_add(step.wrapping_mul(rises))
            }
            Tone::Noise { seed } => {
                let number = seed
                    .wrapping_add(low_place.wrapping_mul(32))
                    .wrapping_add(channel);
                number.wrapping_mul(2654435761).cast_signed()
            }
        }
    }

    /// Writes the frame at a place, which counts frames from 0, over so many samples: a channel each.
    pub fn write(&self, place: u64, samples: &mut [i32])
        requires { length samples.old ≤ 32 }
        ensures { samples.new ≡ map (tone_sample self.now place) (range_with_len 0 (length samples.old)) }
    {
        // Most frames have one channel or two. Of a copy, which no write can change, the kind is asked once.
        let tone = *self;
        if samples.len() == 1 {
            samples[0] = tone.sample(place, 0);
        } else if samples.len() == 2 {
            samples[0] = tone.sample(place, 0);
            samples[1] = tone.sample(place, 1);
        } else {
            self.write_each(place, samples);
        }
    }

    // Writes the frame at a place over any number of samples.
    fn write_each(&self, place: u64, samples: &mut [i32])
        requires { length samples.old ≤ 32 }
        ensures { samples.new ≡ map (tone_sample self.now place) (range_with_len 0 (length samples.old)) }
    {
        // With a copy that no write can change, the compiler makes a loop for each kind of tone.
        let tone = *self;
        for channel in 0..samples.len() {
            samples[channel] = tone.sample(place, channel as u32);
        }
    }
}
