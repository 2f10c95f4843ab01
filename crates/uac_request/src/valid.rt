// The settings of a streaming interface that are valid.
ghost use Rattle.std.specs.Prelude.{◌≡◌, ◌==◌, ◌<◌, ◌≤◌, ◌^◌, Some, is_some, false};
ghost use Rattle.std.specs.Option.{option_map_or};
ghost use Rattle.uac_alt.specs.AltStreams.{stream_of};
ghost use Rattle.uac_topology.specs.Function.{interface_in};
ghost use Rattle.uac_request.specs.Requests as spec;

use uac_store::Store;
use uac_topology::laws::functions_are_sound;
use uac_topology::{Function, StreamInterface};

/// Whether a setting of a streaming interface is valid: it is 0, or can run at the rate of its terminal's clock now
/// (profile).
#[tactic(auto, unfolding(crate::specs::Requests::is_valid))]
pub fn is_valid(function: &Function, store: &Store, stream: &StreamInterface, number: u8) -> bool
    ensures { result ≡ spec.is_valid function.now store.now stream.now number }
{
    number == 0 || can_run(function, store, stream, number)
}

fn can_run(function: &Function, store: &Store, stream: &StreamInterface, number: u8) -> bool
    ensures { result ≡ option_map_or (λ rate. is_some (stream_of function.now rate stream.now.number number))
        (spec.rate_at function.now store.now stream.now) false }
{
    match rate_at(function, store, stream) {
        Some(rate) => uac_alt::stream(function, rate, stream.number, number).is_some(),
        None => false,
    }
}

// The rate at which an interface's streams run: that of its terminal's clock, if it has one.
fn rate_at(function: &Function, store: &Store, stream: &StreamInterface) -> Option<u32>
    ensures { result ≡ spec.rate_at function.now store.now stream.now }
{
    let terminal = function.entity(stream.terminal)?;
    store.rate(function, terminal.clock)
}

/// A bit for each valid setting of an interface of the function, by its number.
pub(crate) fn valid_map(function: &Function, store: &Store, stream: &StreamInterface) -> u64
    requires { interface_in function.now stream.now.number ≡ Some stream.now }
    ensures { result ≡ spec.valid_sum function.now store.now stream.now stream.now.settings }
{
    functions_are_sound(function);
    let mut bits = 0;
    for setting in stream.settings.as_slice() {
        bits += bit_of(function, store, stream, setting.number);
    }
    bits
}

// The bit of a setting, where it is valid.
fn bit_of(function: &Function, store: &Store, stream: &StreamInterface, number: u8) -> u64
    requires { number < 16 }
    ensures value { result ≡ spec.valid_bit function.now store.now stream.now number }
    ensures few { result ≤ 2 ^ number }
{
    if is_valid(function, store, stream, number) {
        1 << number
    } else {
        0
    }
}
