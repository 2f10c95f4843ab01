// What holds of rates and their nominal values.
ghost use Rattle.std.specs.Prelude.{◌≡◌};
ghost use Rattle.uac_clock.specs.declared.values.Nominal.{Nominal};
ghost use Rattle.uac_clock.specs.Nominal.{twelve_rates, IsNominal, StaysBetweenWholes};

use crate::rates::RATES;

/// The rates are the twelve; and at each a clock that is off by a thousandth stays between the least and the greatest
/// whole number of frames in a packet.
pub fn nominal_values_leave_room()
    ensures rates { RATES ≡ twelve_rates }
    ensures room { (nominal : Nominal) → IsNominal nominal → StaysBetweenWholes nominal }
{}
