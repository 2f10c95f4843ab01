// How a running stream is sent.
ghost use Rattle.std.specs.Prelude.{◌≡◌, ◌≤◌, ◌<◌, ◌+◌, ◌*◌, ◌/◌, ◌%◌};
ghost use Rattle.uac_pcm.specs.Frames.{IsFormat};
ghost use Rattle.uac_alt.specs.AltStreams.{stream_fields};
ghost use Rattle.uac_host.specs.HostCalls as spec;
ghost use Rattle.uac_host.specs.HostFields.{IsRunnable};

use std::marker::Model;
use uac_alt::Stream;
use uac_clock::laws::nominal_values_leave_room;
use uac_pcm::Format;
use uac_rate::Pacer;
use uac_rate::laws::packets_and_ticks_are_whole;

/// A stream that runs, how far its pace is past the last whole frame, and the rate value in force (USB 2.0, 5.12.4.2).
#[derive(Drop)]
pub(crate) struct Pace {
    stream: Stream,
    pacer: Pacer,
    value: u32,
}

impl Model for Pace {
    ghost use Rattle.uac_alt.specs.AltStreams.{stream_fields};
    ghost use Rattle.uac_host.specs.HostFields.{PaceFields, IsPace};

    ghost Value = { PaceFields };

    ghost view = { λ p. record { stream = stream_fields p.stream; remainder = p.pacer; value = p.value } };

    ghost invariant = { λ p. IsPace (record { stream = stream_fields p.stream; remainder = p.pacer; value = p.value }) };
}

impl Pace {
    /// A stream that starts at its nominal rate.
    pub(crate) fn start(stream: Stream) -> Pace
        requires { IsRunnable (stream_fields stream) }
        ensures { result ≡ record { stream = stream_fields stream; remainder = 0; value = stream.nominal.f } }
    {
        nominal_values_leave_room();
        Pace {
            stream,
            pacer: Pacer::new(),
            value: stream.nominal.f,
        }
    }

    /// The format of its frames.
    pub(crate) fn format(&self) -> Format
        ensures channels { result.channels ≡ self.now.stream.channels }
        ensures subslot { result.subslot ≡ self.now.stream.subslot }
        ensures bits { result.bits ≡ self.now.stream.bits }
    {
        self.stream.format
    }

    /// Goes on by a service interval, and answers how many frames the packet has.
    pub(crate) fn size(&mut self) -> u32
        ensures frames { result ≡ (self.old.remainder + self.old.stream.service * self.old.value) / 65536 }
        ensures kept { self.new
            ≡ record self.old { remainder = (self.old.remainder + self.old.stream.service * self.old.value) % 65536 } }
        ensures fits { result * (self.old.stream.channels * self.old.stream.subslot) ≤ 3072 }
    {
        nominal_values_leave_room();
        packets_and_ticks_are_whole();
        frames_of(&mut self.pacer, self.value, self.stream.service)
    }

    /// How many bytes the packet of the next service interval has.
    pub(crate) fn bytes(&self) -> u32
        ensures { result ≡ (self.now.remainder + self.now.stream.service * self.now.value) / 65536
            * (self.now.stream.channels * self.now.stream.subslot) }
    {
        nominal_values_leave_room();
        packets_and_ticks_are_whole();
        let mut pacer = self.pacer;
        let frames = frames_of(&mut pacer, self.value, self.stream.service);
        frames * self.stream.format.frame_bytes() as u32
    }

    /// A feedback report came: its value is in force, clamped between the least and the greatest packet.
    pub(crate) fn take_report(&mut self, value: u32)
        ensures { self.new ≡ record self.old { value = spec.within_nominal self.old.stream value } }
    {
        nominal_values_leave_room();
        let nominal = self.stream.nominal;
        self.value = value.clamp(nominal.lo * 65536, nominal.hi * 65536);
    }
}

// How many frames as many microframes give at a rate value.
fn frames_of(pacer: &mut Pacer, value: u32, microframes: u32) -> u32
    requires remainder { pacer.old < 65536 }
    requires few { microframes ≤ 8 }
    requires slow { value ≤ 1638400 }
    ensures frames { result ≡ (pacer.old + microframes * value) / 65536 }
    ensures kept { pacer.new ≡ (pacer.old + microframes * value) % 65536 }
{
    let mut frames = 0;
    for _ in 0..microframes {
        frames += pacer.next(value);
    }
    frames
}
