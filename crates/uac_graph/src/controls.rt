// What the held controls make of a signal.
ghost use Rattle.std.specs.Prelude.{◌≡◌, ◌≤◌, ◌<◌, ◌%◌, ◌+◌, ◌/◌};
ghost use Rattle.uac_graph.specs.GraphControls as spec;
ghost use Rattle.uac_graph.specs.GraphControls.{controls_in};

use uac_gain::gain;
use uac_store::selectors::{
    FU_MUTE_CONTROL, FU_VOLUME_CONTROL, MU_MIXER_CONTROL, SU_SELECTOR_CONTROL,
};
use uac_store::{Key, Store};

/// A gain of 0 decibels.
const UNITY: u32 = 1073741824;

/// The gain of a feature unit's channel, 0 being the master; none where it is muted.
pub(crate) fn feature_gain(store: &Store, id: u8, channel: u8) -> u32
    ensures { result ≡ spec.feature_gain (controls_in store.now) id channel }
{
    if control_value(store, id, FU_MUTE_CONTROL, channel) != 0 {
        0
    } else {
        volume_gain(store, id, FU_VOLUME_CONTROL, channel)
    }
}

/// The gain of a mixer's node.
pub(crate) fn node_gain(store: &Store, id: u8, node: u8) -> u32
    ensures { result ≡ spec.node_gain (controls_in store.now) id node }
{
    volume_gain(store, id, MU_MIXER_CONTROL, node)
}

/// The pin, from 0, that a selector of so many pins has chosen.
pub(crate) fn chosen_pin(store: &Store, id: u8, pins: usize) -> u16
    requires { pins ≤ 256 }
    ensures { result ≡ spec.chosen_pin (controls_in store.now) id pins }
{
    let value = control_value(store, id, SU_SELECTOR_CONTROL, 0);
    if value >= 1 && value as usize <= pins {
        (value - 1) as u16
    } else {
        0
    }
}

fn volume_gain(store: &Store, id: u8, selector: u8, channel: u8) -> u32
    ensures { result ≡ spec.volume_gain (controls_in store.now) id selector channel }
{
    let volume = control_value(store, id, selector, channel);
    match i16::try_from(volume) {
        Ok(volume) => gain(volume).unwrap_or(UNITY),
        Err(_) => UNITY,
    }
}

fn control_value(store: &Store, id: u8, selector: u8, channel: u8) -> i32
    ensures { result ≡ spec.control_value (controls_in store.now) id selector channel }
{
    let key = Key {
        entity: id,
        selector,
        channel,
    };
    store.cur(key).unwrap_or(0)
}
