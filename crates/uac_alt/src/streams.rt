// The stream of a setting, where it can run.
ghost use Rattle.std.specs.Prelude.{◌≡◌, ◌==◌, ◌≤◌, ◌*◌, ◌/◌, true, IfSome};
ghost use Rattle.std.specs.Bool.{OnTrue};
ghost use Rattle.std.specs.List.{find};
ghost use Rattle.std.specs.Option.{option_map};
ghost use Rattle.uac_clock.specs.Nominal.{IsNominal};
ghost use Rattle.uac_topology.specs.FunctionKept.{IsSettingInRange};
ghost use Rattle.uac_alt.specs.Formed.{HasFormat};
ghost use Rattle.uac_alt.specs.AltStreams as spec;
ghost use Rattle.uac_alt.specs.AltStreams.{stream_fields, stream_of};

use crate::values::Stream;
use uac_clock::{Nominal, nominal};
use uac_descriptor::{Endpoint, EndpointBits, General, TypeOne};
use uac_pcm::Format;
use uac_topology::laws::functions_are_sound;
use uac_topology::{Function, Setting, StreamInterface};

/// The stream of an interface in a setting, at a rate in Hz (USB 2.0, 9.6.6; Audio Class 2.0, 4.9; Audio Data Formats
/// 2.0, 2.3.1). It takes no memory.
///
/// None comes for setting 0, where there is no such interface or setting, where the rate is none of the twelve, and
/// where the setting can't run at that rate: it is not Type I PCM, has not its terminal's channels, has other endpoints
/// than such a stream needs, or the most frames of a packet, those of a service interval, are too large for its endpoint.
#[tactic(auto, unfolding(crate::specs::AltStreams::stream_of))]
pub fn stream(function: &Function, rate: u32, interface: u8, setting: u8) -> Option<Stream>
    ensures value { option_map stream_fields result ≡ stream_of function.now rate interface setting }
    ensures of_a_rate { IfSome result (λ s. IsNominal s.nominal) }
{
    if setting == 0 {
        return None;
    }
    let streaming = function.interface(interface)?;
    let chosen = setting_at(streaming.settings.as_slice(), setting)?;
    let nominal = nominal(rate)?;
    functions_are_sound(function);
    stream_at(function, streaming, chosen, nominal)
}

/// The setting with a number.
fn setting_at(settings: &[Setting], number: u8) -> Option<&Setting>
    ensures { option_map (λ s. s.now) result ≡ find (λ s. s.number == number) settings.now }
{
    settings.iter().find(|setting| setting.number == number)
}

/// The stream of a setting at these nominal values; None where a part is missing or it can't run. The setting is one of the function's, so
/// its numbers are in range.
#[tactic(auto, unfolding(crate::specs::AltStreams::stream_at))]
fn stream_at(
    function: &Function,
    streaming: &StreamInterface,
    setting: &Setting,
    nominal: Nominal,
) -> Option<Stream>
    requires format { HasFormat function.now streaming.now setting.now }
    requires range { IsSettingInRange setting.now }
    ensures value { option_map stream_fields result ≡ spec.stream_at function.now streaming.now setting.now nominal }
    ensures nominal { IfSome result (λ s. s.nominal ≡ nominal) }
{
    let general = setting.general.as_ref()?;
    let type_one = setting.format.as_ref()?;
    let first = setting.first.as_ref()?;
    if !can_run(
        function, streaming, setting, &nominal, general, type_one, first,
    ) {
        return None;
    }
    let format = Format {
        channels: general.channels,
        subslot: type_one.subslot,
        bits: type_one.bits,
    };
    Some(Stream {
        format,
        nominal,
        out: streaming.out,
        most: most_frames(&format, first),
        period: report_period(streaming.out, first, &setting.second),
        service: period_of(first),
    })
}

/// Whether a setting with these parts can run at these nominal values.
#[tactic(auto, unfolding(crate::specs::AltStreams::can_run, crate::specs::AltStreams::linked_channels))]
fn can_run(
    function: &Function,
    streaming: &StreamInterface,
    setting: &Setting,
    nominal: &Nominal,
    general: &General,
    type_one: &TypeOne,
    first: &Endpoint,
) -> bool
    requires { 1 ≤ first.now.interval }
    ensures value { result ≡ spec.can_run function.now streaming.now setting.now nominal.now general.now type_one.now first.now }
    ensures channels { OnTrue result (general.now.channels ≡ spec.linked_channels function.now streaming.now) }
    ensures data { OnTrue result (spec.can_carry_data streaming.now.out first.now ≡ true) }
    ensures feedback { OnTrue result (spec.has_its_feedback streaming.now.out first.now setting.now.second ≡ true) }
{
    is_pcm(general)
        && (general.channels == function.channels_of(streaming.terminal)
            && (can_carry_data(streaming.out, first)
                && (has_its_feedback(streaming.out, first, &setting.second)
                    && fits(nominal, general, type_one, first))))
}

/// Whether the format is Type I PCM: format type 1, and bit 0 of bmFormats (Audio Class 2.0, 4.9.2; Audio Data Formats
/// 2.0, A.1 and A.2.1).
fn is_pcm(general: &General) -> bool
    ensures { result ≡ spec.is_pcm general.now }
{
    general.format_type == 1 && general.formats % 2 == 1
}

/// Whether the first endpoint carries the stream: it is asynchronous, has a packet every 1, 2, 4 or 8 microframes, which is
/// an interval of 1 to 4, and its usage is data, or from the device also data that is feedback (USB 2.0, 9.6.6). No sound
/// function has an interval of 0 there.
fn can_carry_data(out: bool, endpoint: &Endpoint) -> bool
    ensures { result ≡ spec.can_carry_data out endpoint.now }
{
    let bits = EndpointBits::of(endpoint.attributes);
    bits.is_asynchronous()
        && (endpoint.interval <= 4 && (bits.is_data() || (!out && bits.is_implicit_feedback())))
}

/// Whether a second endpoint carries feedback: a report of four bytes, as often as the first endpoint has a packet or less
/// often, at most every 8 microframes (USB 2.0, 5.12.4.2 and 9.6.6).
fn can_carry_feedback(first: &Endpoint, endpoint: &Endpoint) -> bool
    ensures { result ≡ spec.can_carry_feedback first.now endpoint.now }
{
    first.interval <= endpoint.interval && (endpoint.interval <= 4 && 4 <= endpoint.packet_size())
}

/// Whether a stream to the device has its feedback, and one from the device none.
fn has_its_feedback(out: bool, first: &Endpoint, second: &Option<Endpoint>) -> bool
    ensures { result ≡ spec.has_its_feedback out first.now second.now }
{
    match second {
        Some(endpoint) => out && can_carry_feedback(first, endpoint),
        None => !out,
    }
}

/// Whether the most frames of a packet, those of a whole service interval, fit the endpoint.
fn fits(nominal: &Nominal, general: &General, type_one: &TypeOne, first: &Endpoint) -> bool
    requires least { 1 ≤ first.now.interval }
    requires most { first.now.interval ≤ 4 }
    ensures { result ≡ spec.fits nominal.now general.now type_one.now first.now }
{
    let size = frame_size(general.channels, type_one.subslot);
    let frames = u64::from(period_of(first)) * u64::from(nominal.hi);
    u128::from(frames) * u128::from(size) <= u128::from(packet_room(first))
}

/// The bytes that an endpoint carries in a microframe, additional transactions and all (USB 2.0, 9.6.6).
pub fn packet_room(endpoint: &Endpoint) -> u32
    ensures { result ≡ spec.packet_room endpoint.now }
{
    u32::from(endpoint.packet_size()) * (1 + u32::from(endpoint.additional_transactions()))
}

/// The bytes of a frame (Audio Data Formats 2.0, 2.3.1).
fn frame_size(channels: u8, subslot: u8) -> u32
    ensures { result ≡ channels * subslot }
{
    u32::from(channels) * u32::from(subslot)
}

/// The frames that an endpoint carries in a microframe at most.
fn most_frames(format: &Format, endpoint: &Endpoint) -> u32
    ensures { result ≡ spec.packet_room endpoint.now / (format.now.channels * format.now.subslot) }
{
    packet_room(endpoint) / frame_size(format.channels, format.subslot)
}

/// The microframes between the reports of a second endpoint that carries feedback; 0 for a stream from the device.
fn report_period(out: bool, first: &Endpoint, second: &Option<Endpoint>) -> u32
    requires least { 1 ≤ first.now.interval }
    requires feedback { spec.has_its_feedback out first.now second.now ≡ true }
    ensures { result ≡ spec.report_period out second.now }
{
    match second {
        Some(endpoint) => period_of(endpoint),
        None => 0,
    }
}

/// The microframes from one packet of an endpoint to the next: `2^(interval - 1)` (USB 2.0, 9.6.6).
fn period_of(endpoint: &Endpoint) -> u32
    requires least { 1 ≤ endpoint.now.interval }
    requires most { endpoint.now.interval ≤ 4 }
    ensures { result ≡ spec.period_of endpoint.now }
{
    1 << (endpoint.interval - 1)
}
