// What meters make of samples in a row: those of a frame, or those of one channel tick by tick.

ghost use Rattle.std.specs.Prelude.{◌≡◌, ◌≤◌, count_by, length, unsigned_abs, IsTrue};
ghost use Rattle.std.specs.List.{sum_by};
ghost use Rattle.uac_units.specs.Hearing.{is_clipped, peak_of, value_after_hearing};
ghost use Rattle.uac_units.specs.declared.meter.MeterKind.TheVariants.{Clipped, Sum};

/// How many samples are counted or added up without a look at the greatest u64.
const PIECE: usize = 65536;

/// The greatest absolute sample.
#[inline(never)]
pub(crate) fn peak_among(samples: &[i32]) -> u32
    ensures { result ≡ peak_of samples.now }
{
    let mut peak = 0;
    for sample in samples {
        peak = peak.max(sample.unsigned_abs());
    }
    peak
}

// Whether samples, of which there are some, are known to be 0. Where the first isn't, the others aren't looked at.
fn are_silent(samples: &[i32]) -> bool
    ensures { IsTrue result → peak_of samples.now ≡ 0 }
{
    samples.len() > 0 && samples[0] == 0 && peak_among(samples) == 0
}

/// How many samples stand at full scale.
pub(crate) fn clipped_among(samples: &[i32]) -> u32
    requires { length samples.now ≤ 65536 }
    ensures { result ≡ count_by is_clipped samples.now }
{
    if are_silent(samples) {
        return 0;
    }
    count_clipped(samples)
}

// How many samples stand at full scale, one by one.
#[inline(never)]
fn count_clipped(samples: &[i32]) -> u32
    requires { length samples.now ≤ 65536 }
    ensures { result ≡ count_by is_clipped samples.now }
{
    let mut clipped = 0;
    for sample in samples {
        if *sample == i32::MAX || *sample == i32::MIN {
            clipped += 1;
        }
    }
    clipped
}

/// The absolute samples together.
pub(crate) fn sum_among(samples: &[i32]) -> u64
    requires { length samples.now ≤ 65536 }
    ensures { result ≡ sum_by unsigned_abs samples.now }
{
    if are_silent(samples) {
        return 0;
    }
    add_up(samples)
}

// The absolute samples together, one by one.
#[inline(never)]
fn add_up(samples: &[i32]) -> u64
    requires { length samples.now ≤ 65536 }
    ensures { result ≡ sum_by unsigned_abs samples.now }
{
    let mut sum = 0;
    for sample in samples {
        sum += sample.unsigned_abs() as u64;
    }
    sum
}

/// How many samples stand at full scale, added to a value. One that would pass the greatest u64 stays there.
pub(crate) fn add_clipped(samples: &[i32], value: u64) -> u64
    ensures { result ≡ value_after_hearing Clipped value samples.now }
{
    let mut sum = value;
    for piece in samples.chunks(PIECE) {
        sum = sum.saturating_add(clipped_among(piece) as u64);
    }
    sum
}

/// The absolute samples added to a value. One that would pass the greatest u64 stays there.
pub(crate) fn add_sizes(samples: &[i32], value: u64) -> u64
    ensures { result ≡ value_after_hearing Sum value samples.now }
{
    let mut sum = value;
    for piece in samples.chunks(PIECE) {
        sum = sum.saturating_add(sum_among(piece));
    }
    sum
}
