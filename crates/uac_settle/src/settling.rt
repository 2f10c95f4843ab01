// The time that a stream has to come home.
ghost use Rattle.std.specs.Prelude.{◌≡◌, ◌<◌, ◌≤◌, IfSome, Some};
ghost use Rattle.std.specs.Int.{div_ceil};
ghost use Rattle.uac_clock.specs.declared.values.Nominal.{Nominal as NominalValues};
ghost use Rattle.uac_clock.specs.Nominal.{nominal_of, IsNominal};
ghost use Rattle.uac_settle.specs.Settling.{pull_of, settle_of, bound_of, SettlesWithin};

use crate::laws::stretches_settle;
use uac_clock::laws::nominal_values_leave_room;
use uac_clock::{Nominal, nominal};
use uac_rate::laws::rates_have_bands;

/// In how many microframes a stream of this rate comes home, for high speed; None exactly where the rate is not one of the twelve.
///
/// From so many microframes after a lost packet until the next one, the level is within four frames of its target at the end of each
/// service interval, whatever the clock and the reports do within what is steady.
pub fn settle_bound(rate: u32) -> Option<u32>
    ensures bound { result ≡ bound_of rate }
    ensures settles { (values : NominalValues) → nominal_of rate ≡ Some values → IfSome result (SettlesWithin values) }
{
    stretches_settle();
    rates_have_bands();
    let nominal = nominal(rate)?;
    Some(settle(&nominal))
}

/// The bound by nominal values: the farthest error by the pull, and 64 for the reports that may be lost at the start and at the end.
fn settle(nominal: &Nominal) -> u32
    requires of_a_rate { IsNominal nominal.now }
    ensures { result ≡ settle_of nominal.now }
{
    nominal_values_leave_room();
    let farthest = 130 * 65536 + 65535;
    let four_frames = 4 * 65536;
    64 + rounded_up(farthest - four_frames, pull(nominal))
}

/// A quotient, rounded up.
fn rounded_up(dividend: u32, divisor: u32) -> u32
    requires { 0 < divisor }
    ensures value { result ≡ div_ceil dividend divisor }
    ensures no_more { result ≤ dividend }
{
    dividend / divisor + (dividend % divisor).min(1)
}

/// What a microframe takes off an error above four frames.
fn pull(nominal: &Nominal) -> u32
    requires of_a_rate { IsNominal nominal.now }
    ensures value { result ≡ pull_of nominal.now }
    ensures some { 0 < result }
{
    nominal_values_leave_room();
    let at_least_packets = nominal.f - nominal.e - 65536 * nominal.lo;
    let at_greatest_packets = 65536 * nominal.hi - nominal.f - nominal.e;
    at_least_packets
        .min(at_greatest_packets)
        .min(4096 - nominal.e)
}
