// The controls that an entity's descriptor declares (Audio Class 2.0, 4.7.2).
ghost use Rattle.std.specs.Prelude.{◌≡◌, ◌≤◌, ◌-◌, ◌/◌, ◌^◌, ◌%◌};
ghost use Rattle.uac_store.specs.ControlTable.{spread_of};
ghost use Rattle.uac_request.specs.Requests as spec;

use uac_store::controls::{Spread, is_settable, spread_of};
use uac_topology::Entity;

/// Whether a control is declared: its bits aren't 00, and every node of a mixer is.
pub fn is_declared_on(entity: &Entity, selector: u8, channel: u8) -> bool
    requires { selector ≤ 2 }
    ensures { result ≡ spec.is_declared_on entity.now.kind entity.now selector channel }
{
    match spread_of(entity.kind) {
        Spread::Whole | Spread::Channels => entity_bits(entity, selector, channel) != 0,
        Spread::Nodes => true,
    }
}

/// Whether a host may set a control: it is one that a host may ever set, and its bits are 11, or a node's bit is 1.
pub fn is_writable_on(entity: &Entity, selector: u8, channel: u8) -> bool
    requires { selector ≤ 2 }
    ensures { result ≡ spec.is_writable_on entity.now.kind entity.now selector channel }
{
    is_settable(entity.kind, selector) && is_opened(entity, selector, channel)
}

// Whether the descriptor lets a host set a control.
fn is_opened(entity: &Entity, selector: u8, channel: u8) -> bool
    requires { selector ≤ 2 }
    ensures { result ≡ spec.is_opened_by (spread_of entity.now.kind) entity.now selector channel }
{
    match spread_of(entity.kind) {
        Spread::Whole | Spread::Channels => entity_bits(entity, selector, channel) == 3,
        Spread::Nodes => node_bit(entity.mix_bits.as_slice(), channel) == 1,
    }
}

// The two bits of an entity's control: a feature and an effect have a word for each channel, the master's first (Audio
// Class 2.0, 4.7.2.8 and 4.7.2.10).
fn entity_bits(entity: &Entity, selector: u8, channel: u8) -> u32
    requires { selector ≤ 2 }
    ensures { result ≡ spec.entity_bits entity.now selector channel }
{
    let place = controls_word_of(spread_of(entity.kind), channel);
    match entity.controls.as_slice().get(usize::from(place)) {
        Some(word) => two_bits(*word, selector),
        None => two_bits(0, selector),
    }
}

fn controls_word_of(spread: Spread, channel: u8) -> u8
    ensures { result ≡ spec.controls_word_of spread channel }
{
    match spread {
        Spread::Channels => channel,
        Spread::Whole | Spread::Nodes => 0,
    }
}

// The bits of a control in a word of two bits for each selector.
fn two_bits(word: u32, selector: u8) -> u32
    requires { selector ≤ 2 }
    ensures { result ≡ word / 4 ^ (selector - 1) % 4 }
{
    if selector == 2 {
        word / 4 % 4
    } else {
        word % 4
    }
}

// A node's bit among those of its mixer, the most significant bit of the first byte being the first (profile).
fn node_bit(bytes: &[u8], node: u8) -> u8
    ensures { result ≡ spec.node_bit bytes.now node }
{
    match bytes.get(usize::from(node / 8)) {
        Some(byte) => (*byte >> (7 - node % 8)) % 2,
        None => 0,
    }
}
