// The subslot of one sample, and the sample of one subslot.
ghost use Rattle.std.specs.Prelude.{◌≡◌, ◌≤◌, ◌<◌, ◌*◌, length, slice_index_or, pos};
ghost use Rattle.byteorder.specs.Endian.{little_number};
ghost use Rattle.uac_pcm.specs.Frames.{bytes_of_frame, frame_of_bytes};
ghost use Rattle.uac_pcm.specs.Subslots.{cut_to, subslot_of, sample_of_subslot};

use byteorder::{ByteOrder, LittleEndian};

/// The sample with 0 in its bits below the uppermost `resolution`.
pub fn cut_to(sample: i32, resolution: u8) -> i32
    requires low { 1 ≤ resolution }
    requires high { resolution ≤ 32 }
    ensures { result ≡ cut_to resolution sample }
{
    let unused = 32 - resolution;
    (sample >> unused) << unused
}

/// Writes the subslots of the samples, of `SIZE` bytes each, over so many bytes.
pub fn write_subslots<const SIZE: usize>(samples: &[i32], resolution: u8, subslots: &mut [u8])
    requires some { 1 ≤ SIZE }
    requires four { SIZE ≤ 4 }
    requires low { 1 ≤ resolution }
    requires high { resolution ≤ 8 * SIZE }
    requires sized { length subslots.old ≡ length samples.now * SIZE }
    ensures { subslots.new ≡ bytes_of_frame SIZE resolution samples.now }
{
    match samples.len() {
        1 => write_only::<SIZE>(samples, resolution, subslots),
        2 => write_pair::<SIZE>(samples, resolution, subslots),
        _ => write_each::<SIZE>(samples, resolution, subslots),
    }
}

// A frame of one sample as the bytes of its subslot.
#[tactic(auto, using(crate::proofs::FramesLemmas::only_written))]
fn write_only<const SIZE: usize>(samples: &[i32], resolution: u8, subslots: &mut [u8])
    requires one { length samples.now ≡ 1 }
    requires some { 1 ≤ SIZE }
    requires four { SIZE ≤ 4 }
    requires low { 1 ≤ resolution }
    requires high { resolution ≤ 8 * SIZE }
    requires sized { length subslots.old ≡ SIZE }
    ensures { subslots.new ≡ bytes_of_frame SIZE resolution samples.now }
{
    write_subslot(sample_at(samples, 0), SIZE, resolution, subslots);
}

// A frame of two samples as the bytes of its subslots.
#[tactic(auto, using(crate::proofs::FramesLemmas::pair_written))]
fn write_pair<const SIZE: usize>(samples: &[i32], resolution: u8, subslots: &mut [u8])
    requires two { length samples.now ≡ 2 }
    requires some { 1 ≤ SIZE }
    requires four { SIZE ≤ 4 }
    requires low { 1 ≤ resolution }
    requires high { resolution ≤ 8 * SIZE }
    requires sized { length subslots.old ≡ 2 * SIZE }
    ensures { subslots.new ≡ bytes_of_frame SIZE resolution samples.now }
{
    let (left, right) = subslots.split_at_mut(SIZE);
    write_subslot(sample_at(samples, 0), SIZE, resolution, left);
    write_subslot(sample_at(samples, 1), SIZE, resolution, right);
}

// A frame of any number of samples as the bytes of its subslots.
#[inline(never)]
fn write_each<const SIZE: usize>(samples: &[i32], resolution: u8, subslots: &mut [u8])
    requires some { 1 ≤ SIZE }
    requires four { SIZE ≤ 4 }
    requires low { 1 ≤ resolution }
    requires high { resolution ≤ 8 * SIZE }
    requires sized { length subslots.old ≡ length samples.now * SIZE }
    ensures { subslots.new ≡ bytes_of_frame SIZE resolution samples.now }
{
    for place in 0..samples.len() {
        let start = place * SIZE;
        write_subslot(
            samples[place],
            SIZE,
            resolution,
            &mut subslots[start..start + SIZE],
        );
    }
}

// The sample at a place.
fn sample_at(samples: &[i32], at: usize) -> i32
    requires { at < length samples.now }
    ensures { result ≡ slice_index_or samples.now at (pos 0) }
{
    samples[at]
}

// Writes the bytes of the sample in a subslot of `size` bytes over so many bytes.
fn write_subslot(sample: i32, size: usize, resolution: u8, subslot: &mut [u8])
    requires some { 1 ≤ size }
    requires four { size ≤ 4 }
    requires low { 1 ≤ resolution }
    requires high { resolution ≤ 8 * size }
    requires sized { length subslot.old ≡ size }
    ensures { subslot.new ≡ subslot_of size resolution sample }
{
    let number = cut_to(sample, resolution).cast_unsigned() >> (32 - 8 * size);
    let mut bytes = [0; 4];
    LittleEndian::write_u32(&mut bytes, number);
    subslot.copy_from_slice(&bytes[..size]);
}

/// Writes the samples of the subslots, of `SIZE` bytes each, over so many samples.
pub fn read_subslots<const SIZE: usize>(subslots: &[u8], resolution: u8, samples: &mut [i32])
    requires some { 1 ≤ SIZE }
    requires four { SIZE ≤ 4 }
    requires low { 1 ≤ resolution }
    requires high { resolution ≤ 8 * SIZE }
    requires sized { length subslots.now ≡ length samples.old * SIZE }
    ensures { samples.new ≡ frame_of_bytes (length samples.old) SIZE resolution subslots.now }
{
    match samples.len() {
        1 => read_only::<SIZE>(subslots, resolution, samples),
        2 => read_pair::<SIZE>(subslots, resolution, samples),
        _ => read_each::<SIZE>(subslots, resolution, samples),
    }
}

// The sample of a frame of one subslot.
fn read_only<const SIZE: usize>(subslots: &[u8], resolution: u8, samples: &mut [i32])
    requires one { length samples.old ≡ 1 }
    requires some { 1 ≤ SIZE }
    requires four { SIZE ≤ 4 }
    requires low { 1 ≤ resolution }
    requires high { resolution ≤ 8 * SIZE }
    requires sized { length subslots.now ≡ SIZE }
    ensures { samples.new ≡ frame_of_bytes (length samples.old) SIZE resolution subslots.now }
{
    samples[0] = sample_of(subslots, SIZE, resolution);
}

// The samples of a frame of two subslots.
fn read_pair<const SIZE: usize>(subslots: &[u8], resolution: u8, samples: &mut [i32])
    requires two { length samples.old ≡ 2 }
    requires some { 1 ≤ SIZE }
    requires four { SIZE ≤ 4 }
    requires low { 1 ≤ resolution }
    requires high { resolution ≤ 8 * SIZE }
    requires sized { length subslots.now ≡ 2 * SIZE }
    ensures { samples.new ≡ frame_of_bytes (length samples.old) SIZE resolution subslots.now }
{
    let (left, right) = subslots.split_at(SIZE);
    samples[0] = sample_of(left, SIZE, resolution);
    samples[1] = sample_of(right, SIZE, resolution);
}

// The samples of a frame of any number of subslots.
#[inline(never)]
fn read_each<const SIZE: usize>(subslots: &[u8], resolution: u8, samples: &mut [i32])
    requires some { 1 ≤ SIZE }
    requires four { SIZE ≤ 4 }
    requires low { 1 ≤ resolution }
    requires high { resolution ≤ 8 * SIZE }
    requires sized { length subslots.now ≡ length samples.old * SIZE }
    ensures { samples.new ≡ frame_of_bytes (length samples.old) SIZE resolution subslots.now }
{
    for place in 0..samples.len() {
        let start = place * SIZE;
        samples[place] = sample_of(&subslots[start..start + SIZE], SIZE, resolution);
    }
}

// The sample that the bytes of one subslot of `size` bytes hold.
fn sample_of(subslot: &[u8], size: usize, resolution: u8) -> i32
    requires some { 1 ≤ size }
    requires room { size ≤ 4 }
    requires low { 1 ≤ resolution }
    requires high { resolution ≤ 8 * size }
    requires whole { length subslot.now ≡ size }
    ensures { result ≡ sample_of_subslot size resolution subslot.now }
{
    let number = number_in(subslot, size);
    cut_to((number << (32 - 8 * size)).cast_signed(), resolution)
}

// The number in so many bytes. Each size has its own reading, which is one load of the machine.
fn number_in(subslot: &[u8], size: usize) -> u32
    requires some { 1 ≤ size }
    requires room { size ≤ 4 }
    requires whole { length subslot.now ≡ size }
    ensures { result ≡ little_number size subslot.now }
{
    match size {
        1 => u32::from(subslot[0]),
        2 => u32::from(LittleEndian::read_u16(subslot)),
        3 => LittleEndian::read_u24(subslot),
        _ => LittleEndian::read_u32(subslot),
    }
}
