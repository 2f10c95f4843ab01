// The ten rates, their nominal values, and what a clock that is off gives.
ghost use Rattle.std.specs.Prelude.{◌≡◌, ◌≤ℤ◌, ℕ, pos, negsuc, Some};
ghost use Rattle.uac_fullspeed.specs.FullSpeedNominal.{fs_nominal_of, fs_step_of, IsFsNominal};

use crate::laws::fs_rates_have_bands;
use crate::values::FsNominal;

/// The sampling rates that a full-speed stream may have, in Hz, in rising order (profile).
pub const FS_RATES: [u32; 10] = [
    8000, 11025, 16000, 22050, 32000, 44100, 48000, 64000, 88200, 96000,
];

/// The nominal values of a rate in Hz; None exactly where it is not one of the ten.
pub fn fs_nominal(rate: u32) -> Option<FsNominal>
    ensures { result ≡ fs_nominal_of rate }
{
    if !FS_RATES.contains(&rate) {
        return None;
    }
    let f = (u64::from(rate) * 16384 / 1000) as u32;
    let e = f / 1000;
    Some(FsNominal {
        f,
        e,
        lo: (f - e) / 16384,
        hi: (f + e) / 16384 + 1,
    })
}

/// The rate, in Hz, whose nominal values these are.
pub(crate) fn rate_of(nominal: &FsNominal) -> u32
    requires { IsFsNominal nominal.now }
    ensures { (hertz : ℕ) → fs_nominal_of hertz ≡ Some nominal.now → result ≡ hertz }
{
    fs_rates_have_bands();
    ((u64::from(nominal.f) * 1000 + 16383) / 16384) as u32
}

/// What a clock gives in a bus frame, in 16,384ths of a frame, where it is off by so many ppm.
pub(crate) fn fs_step(nominal: &FsNominal, ppm: i32) -> u32
    requires low { negsuc 99999 ≤ℤ ppm }
    requires high { ppm ≤ℤ pos 100000 }
    requires of_a_rate { IsFsNominal nominal.now }
    ensures { result ≡ fs_step_of nominal.now ppm }
{
    fs_rates_have_bands();
    let off = (u64::from(nominal.f) * u64::from(ppm.unsigned_abs()) / 1000000) as u32;
    if ppm < 0 {
        nominal.f - off
    } else {
        nominal.f + off
    }
}
