// What holds of views and of the devices that they are of.
ghost use Rattle.uac_mixer.specs.Agreement.{ControlsStart, ControlsStay, KnownValuesStay, OnlySetsChangeTheDevice};

use uac_store::laws::sound_functions_have_keys_and_rates;
use uac_topology::laws::entities_have_pins;

/// At the start each control of a sound function has a value that it takes.
#[tactic(auto, using(crate::proofs::AgreementStartLemmas::starts))]
pub fn controls_start_with_values()
    ensures { ControlsStart }
{
    entities_have_pins();
    sound_functions_have_keys_and_rates();
}

/// No request changes that each control has such a value.
#[tactic(auto, using(crate::proofs::AgreementStartLemmas::stays))]
pub fn controls_keep_values()
    ensures { ControlsStay }
{}

/// What a view knows of a device stays so, whatever came back of a transfer.
pub fn known_values_stay()
    ensures { KnownValuesStay }
{}

/// What isn't a SET that is done leaves all of a device as it was: its controls and settings, its streams, their rings, and its clocks.
pub fn only_sets_change_the_device()
    ensures { OnlySetsChangeTheDevice }
{}
