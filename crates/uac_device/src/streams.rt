// The stream that a request starts.
ghost use Rattle.std.specs.Prelude.{◌≡◌, ◌&&◌, Some};
ghost use Rattle.std.specs.Option.{option_and_then, option_map};
ghost use Rattle.uac_topology.specs.Function.{interface_in};
ghost use Rattle.uac_alt.specs.AltStreams.{stream_fields, stream_of};
ghost use Rattle.uac_request.specs.Requests as requests;
ghost use Rattle.uac_device.specs.DeviceWorld as spec;
ghost use Rattle.uac_device.specs.DeviceWorld.{stream_in_setting};

use uac_alt::{Stream, stream};
use uac_entities::number_among;
use uac_request::{Answer, Setup};
use uac_store::Store;
use uac_topology::{Function, StreamInterface};

/// What a request began: an interface, by the number in its wIndex, whose stream starts anew, or stops where the new setting has none.
#[derive(Clone, Copy, Debug, PartialEq, Eq)]
pub struct Begun {
    pub interface: u16,
    pub stream: Option<Stream>,
}

/// What a device answered to a request, and what the request began, if anything.
#[derive(Drop)]
pub struct Acted {
    pub answer: Answer,
    pub began: Option<Begun>,
}

/// Whether a request has set an interface's setting: it was to, and is done.
pub(crate) fn holds_setting(setup: &Setup, answer: &Answer) -> bool
    ensures { result ≡ (requests.sets_interface setup.now && requests.is_done_answer (requests.answer_fields answer.now)) }
{
    sets_interface(setup) && is_done(answer)
}

// Whether a request sets an interface's setting (USB 2.0, 9.4.10).
fn sets_interface(setup: &Setup) -> bool
    ensures { result ≡ requests.sets_interface setup.now }
{
    setup.request_type == 1 && setup.request == 11
}

// Whether an answer is that the request is done.
fn is_done(answer: &Answer) -> bool
    ensures { result ≡ requests.is_done_answer (requests.answer_fields answer.now) }
{
    match answer {
        Answer::Done => true,
        Answer::Bytes(_) | Answer::Descriptor { .. } | Answer::Stall(_) => false,
    }
}

/// The stream of an interface in a setting, at the rate of its terminal's clock now; None where there is none.
pub(crate) fn stream_asked(
    function: &Function,
    store: &Store,
    interface: u16,
    setting: u16,
) -> Option<Stream>
    ensures { option_map stream_fields result ≡ stream_in_setting function.now store.now interface setting }
{
    match function.interface_numbered(interface) {
        Some(streaming) => stream_now(function, store, streaming, setting),
        None => None,
    }
}

// The stream of an interface in a setting, at the rate of its terminal's clock now.
fn stream_now(
    function: &Function,
    store: &Store,
    streaming: &StreamInterface,
    setting: u16,
) -> Option<Stream>
    ensures { interface_in function.now streaming.now.number ≡ Some streaming.now
        → option_map stream_fields result ≡ option_and_then (λ rate. stream_of function.now rate streaming.now.number setting)
        (requests.rate_at function.now store.now streaming.now) }
{
    match rate_of(function, store, streaming) {
        Some(rate) => stream_in(function, rate, streaming, setting),
        None => None,
    }
}

// The stream of an interface in a setting, at a rate.
fn stream_in(
    function: &Function,
    rate: u32,
    streaming: &StreamInterface,
    setting: u16,
) -> Option<Stream>
    ensures { interface_in function.now streaming.now.number ≡ Some streaming.now
        → option_map stream_fields result ≡ stream_of function.now rate streaming.now.number setting }
{
    match number_among(streaming.settings.as_slice(), setting) {
        Some(number) => stream(function, rate, streaming.number, number),
        None => None,
    }
}

// The rate of the clock of an interface's terminal.
fn rate_of(function: &Function, store: &Store, streaming: &StreamInterface) -> Option<u32>
    ensures { result ≡ requests.rate_at function.now store.now streaming.now }
{
    let terminal = function.entity(streaming.terminal)?;
    store.rate(function, terminal.clock)
}
