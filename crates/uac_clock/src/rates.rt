// The twelve rates, their nominal values, and what a clock that is off gives.
ghost use Rattle.std.specs.Prelude.{◌≡◌, ◌≤ℤ◌, pos, negsuc};
ghost use Rattle.uac_clock.specs.Nominal.{nominal_of, step_of, IsNominal};

use crate::values::Nominal;

/// The sampling rates that a clock may run at, in Hz, in rising order (profile).
pub const RATES: [u32; 12] = [
    8000, 11025, 16000, 22050, 32000, 44100, 48000, 64000, 88200, 96000, 176400, 192000,
];

/// The nominal values of a rate in Hz; None exactly where it is not one of the twelve.
pub fn nominal(rate: u32) -> Option<Nominal>
    ensures { result ≡ nominal_of rate }
{
    if !RATES.contains(&rate) {
        return None;
    }
    let f = (u64::from(rate) * 65536 / 8000) as u32;
    let e = f / 1000;
    Some(Nominal {
        f,
        e,
        lo: (f - e) / 65536,
        hi: (f + e) / 65536 + 1,
    })
}

/// What a clock gives in a microframe, in 65,536ths of a frame, where it is off by so many ppm.
pub fn step(nominal: &Nominal, ppm: i32) -> u32
    requires low { negsuc 99999 ≤ℤ ppm }
    requires high { ppm ≤ℤ pos 100000 }
    requires of_a_rate { IsNominal nominal.now }
    ensures { result ≡ step_of nominal.now ppm }
{
    let off = (u64::from(nominal.f) * u64::from(ppm.unsigned_abs()) / 1000000) as u32;
    if ppm < 0 {
        nominal.f - off
    } else {
        nominal.f + off
    }
}
