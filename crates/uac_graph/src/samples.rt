// Samples written over others. Most frames have one channel or two, whose samples are written without a call.
ghost use Rattle.std.specs.Prelude.{◌≡◌, ◌≤◌, ◌<◌, length, replicate, slice_index_or, pos};
ghost use Rattle.uac_pcm.specs.Tones.{tone_frame};

use arrayvec::ArrayVec;
use uac_pcm::{Frame, Tone};

/// Makes a list of samples these. Where it has as many they are written over them.
pub(crate) fn refill<const MOST: usize>(list: &mut ArrayVec<i32, MOST>, samples: &[i32])
    requires { length samples.now ≤ MOST }
    ensures { list.new.items ≡ samples.now }
{
    if list.len() == samples.len() {
        write_over(list.as_mut_slice(), samples);
    } else {
        fill_anew(list, samples);
    }
}

// Makes a list of samples these, where it hasn't as many.
#[cold]
#[inline(never)]
fn fill_anew<const MOST: usize>(list: &mut ArrayVec<i32, MOST>, samples: &[i32])
    requires { length samples.now ≤ MOST }
    ensures { list.new.items ≡ samples.now }
{
    list.clear();
    let _ = list.try_extend_from_slice(samples);
}

/// Writes samples over as many others.
pub(crate) fn write_over(list: &mut [i32], samples: &[i32])
    requires { length list.old ≡ length samples.now }
    ensures { list.new ≡ samples.now }
{
    if samples.len() == 1 {
        let only = sample_at(samples, 0);
        list[0] = only;
    } else if samples.len() == 2 {
        let left = sample_at(samples, 0);
        let right = sample_at(samples, 1);
        list[0] = left;
        list[1] = right;
    } else {
        list.copy_from_slice(samples);
    }
}

// The sample at an index.
fn sample_at(samples: &[i32], at: usize) -> i32
    requires { at < length samples.now }
    ensures { result ≡ slice_index_or samples.now at (pos 0) }
{
    samples[at]
}

/// Makes all samples of a list zero.
pub(crate) fn hush<const MOST: usize>(list: &mut ArrayVec<i32, MOST>)
    ensures { list.new.items ≡ replicate (length list.old.items) (pos 0) }
{
    write_zeros(list.as_mut_slice());
}

// Writes zeros over samples.
fn write_zeros(samples: &mut [i32])
    ensures { samples.new ≡ replicate (length samples.old) (pos 0) }
{
    if samples.len() == 1 {
        samples[0] = 0;
    } else if samples.len() == 2 {
        samples[0] = 0;
        samples[1] = 0;
    } else {
        samples.fill(0);
    }
}

/// Makes a frame that of a tone at a place, which counts frames from 0, on as many channels.
pub(crate) fn write_tone(frame: &mut Frame, tone: Tone, place: u64)
    ensures { frame.new.items ≡ tone_frame (length frame.old.items) tone place }
{
    tone.write(place, frame.as_mut_slice());
}
