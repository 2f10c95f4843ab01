// What is known of streams while ticks of a domain wait, interface by interface.
ghost use Rattle.std.specs.Prelude.{◌≡◌, ◌≤◌, ◌+◌, ◌-◌, ◌==◌, ◌&&◌, ℕ, Option, List, length, min, true, IfSome};
ghost use Rattle.std.specs.List.{All, list_all};
ghost use Rattle.std.specs.Option.{option_and_then, option_map, option_map_or};
ghost use Rattle.uac_flow.specs.FlowStreams.{InStream, OutStream, in_level, out_level, takes_all};
ghost use Rattle.uac_flow.specs.FlowTicks.{IsHeld, has_room};
ghost use Rattle.uac_flow.specs.FlowWaits.{feedback_at, may_wait, sent_more};
ghost use Rattle.uac_device.specs.InterfaceStreams.{streams_changed_at};
ghost use Rattle.uac_device.specs.DeviceStreams.{IsDeviceStream, DeviceStreamStands, DeviceStreamsStand, Changes, ports};

use crate::device_stream::{DeviceStream, Flow};
use crate::device_streams::DeviceStreams;

impl DeviceStream {
    /// Whether so many ticks of a domain may wait: where it runs a stream, this is on the domain, and its ring neither runs empty nor full.
    pub(crate) fn may_wait(&self, domain: u8, ticks: u32) -> bool
        ensures held { (out : Option OutStream) (in_ : Option InStream) → DeviceStreamStands self.now out in_ → result ≡ true
            → IfSome in_ IsHeld }
        ensures value { (out : Option OutStream) (in_ : Option InStream) → DeviceStreamStands self.now out in_
            → result ≡ (option_map_or (λ o. self.now.port.domain == domain && may_wait ticks o) out true
            && option_map_or (λ i. self.now.port.domain == domain && has_room ticks i) in_ true) }
    {
        match &self.flow {
            Flow::Idle => true,
            Flow::Out(flow) => self.port.domain == domain && flow.may_wait(&self.ring, ticks),
            Flow::In(flow) => self.port.domain == domain && flow.has_room(&self.ring, ticks),
        }
    }

    /// Whether its ring has room for all frames of a packet of so many bytes, where it runs a stream to the device.
    pub(crate) fn takes(&self, bytes: u32) -> bool
        requires { IsDeviceStream self.now }
        ensures { (out : Option OutStream) (in_ : Option InStream) (packet : List ℕ) → DeviceStreamStands self.now out in_
            → length packet ≡ bytes → result ≡ option_map_or (λ o. takes_all o packet) out true }
    {
        match &self.flow {
            Flow::Out(flow) => flow.takes(&self.ring, bytes),
            Flow::Idle | Flow::In(_) => true,
        }
    }

    /// The report that is due of its stream to the device, when so many ticks wait.
    pub(crate) fn feedback_later(&self, ticks: u32) -> Option<u32>
        requires { IsDeviceStream self.now }
        ensures { (out : Option OutStream) (in_ : Option InStream) → DeviceStreamStands self.now out in_
            → result ≡ option_and_then (λ o. feedback_at (out_level o - ticks) o) out }
    {
        match &self.flow {
            Flow::Out(flow) => flow.feedback_later(&self.ring, ticks),
            Flow::Idle | Flow::In(_) => None,
        }
    }

    /// How many frames the next packet from the device has, when so many ticks wait and so many frames were sent.
    pub(crate) fn frames_later(&self, ticks: u32, sent: u32) -> u32
        requires ticks { ticks ≤ 128 }
        requires sent { sent ≤ 2176 }
        ensures frames { (out : Option OutStream) (in_ : Option InStream) → DeviceStreamStands self.now out in_
            → result ≡ option_map_or (λ i. min ((in_level i + ticks) - sent) i.stream.most) in_ 0 }
        ensures few { sent + result ≤ 2176 }
    {
        match &self.flow {
            Flow::In(flow) => flow.frames_later(&self.ring, ticks, sent),
            Flow::Idle | Flow::Out(_) => 0,
        }
    }

    /// So many of the oldest frames of its stream from the device are gone: they were sent.
    pub(crate) fn drop_sent(&mut self, count: u32)
        requires sound { IsDeviceStream self.old }
        ensures stands { (out : Option OutStream) (in_ : Option InStream) → DeviceStreamStands self.old out in_
            → IfSome in_ (λ i. count ≤ in_level i) → DeviceStreamStands self.new out (option_map (sent_more count) in_) }
        ensures port { self.new.port ≡ self.old.port }
        ensures sound { IsDeviceStream self.new }
    {
        match &self.flow {
            Flow::In(flow) => flow.drop_sent(&mut self.ring, count),
            Flow::Idle | Flow::Out(_) => {}
        }
    }
}

impl DeviceStreams {
    /// Whether so many ticks of a domain may wait: each stream that runs is on the domain, those to the device are primed, without a lost
    /// packet and with a frame for each of the ticks, and the rings of those from it have room.
    pub fn may_wait(&self, domain: u8, ticks: u32) -> bool
        ensures held { (outs : ℕ → Option OutStream) (ins : ℕ → Option InStream) → DeviceStreamsStand self.now outs ins → result ≡ true
            → (interface : ℕ) → IfSome (ins interface) IsHeld }
        ensures value { (outs : ℕ → Option OutStream) (ins : ℕ → Option InStream) → DeviceStreamsStand self.now outs ins
            → result ≡ list_all
            (λ p. option_map_or (λ o. p.domain == domain && may_wait ticks o) (outs p.interface) true
            && option_map_or (λ i. p.domain == domain && has_room ticks i) (ins p.interface) true)
            (ports self.now) }
    {
        may_wait(&self.list, domain, ticks)
    }

    /// Whether the ring of an interface's stream to the device has room for all frames of a packet of so many bytes.
    pub fn takes(&self, interface: u8, bytes: u32) -> bool
        ensures { (outs : ℕ → Option OutStream) (ins : ℕ → Option InStream) (packet : List ℕ) → DeviceStreamsStand self.now outs ins
            → length packet ≡ bytes → result ≡ option_map_or (λ o. takes_all o packet) (outs interface) true }
    {
        match self.stream_index(interface.into()) {
            Some(index) => self.list[index].takes(bytes),
            None => true,
        }
    }

    /// The report that is due of an interface's stream to the device, when so many ticks wait.
    pub fn feedback_later(&self, interface: u8, ticks: u32) -> Option<u32>
        ensures { (outs : ℕ → Option OutStream) (ins : ℕ → Option InStream) → DeviceStreamsStand self.now outs ins
            → result ≡ option_and_then (λ o. feedback_at (out_level o - ticks) o) (outs interface) }
    {
        match self.stream_index(interface.into()) {
            Some(index) => self.list[index].feedback_later(ticks),
            None => None,
        }
    }

    /// How many frames the next packet of an interface has, when so many ticks wait and so many of its frames were sent.
    pub fn frames_later(&self, interface: u8, ticks: u32, sent: u32) -> u32
        requires ticks { ticks ≤ 128 }
        requires sent { sent ≤ 2176 }
        ensures frames { (outs : ℕ → Option OutStream) (ins : ℕ → Option InStream) → DeviceStreamsStand self.now outs ins
            → result ≡ option_map_or (λ i. min ((in_level i + ticks) - sent) i.stream.most) (ins interface) 0 }
        ensures few { sent + result ≤ 2176 }
    {
        match self.stream_index(interface.into()) {
            Some(index) => self.list[index].frames_later(ticks, sent),
            None => 0,
        }
    }

    /// So many of the oldest frames of an interface's stream from the device are gone: they were sent.
    pub fn drop_sent(&mut self, interface: u8, count: u32)
        ensures stands { (outs : ℕ → Option OutStream) (ins : ℕ → Option InStream) → DeviceStreamsStand self.old outs ins
            → IfSome (ins interface) (λ i. count ≤ in_level i)
            → DeviceStreamsStand self.new outs (streams_changed_at interface (sent_more count) ins) }
        ensures ports { ports self.new ≡ ports self.old }
    {
        match self.stream_index(interface.into()) {
            Some(index) => self.list[index].drop_sent(count),
            None => {}
        }
    }
}

// Whether so many ticks of a domain may wait for each of these.
fn may_wait(device_streams: &[DeviceStream], domain: u8, ticks: u32) -> bool
    ensures held { (outs : ℕ → Option OutStream) (ins : ℕ → Option InStream) → DeviceStreamsStand device_streams.now outs ins
        → result ≡ true → (interface : ℕ) → IfSome (ins interface) IsHeld }
    ensures value { (outs : ℕ → Option OutStream) (ins : ℕ → Option InStream) → DeviceStreamsStand device_streams.now outs ins
        → result ≡ list_all
        (λ p. option_map_or (λ o. p.domain == domain && may_wait ticks o) (outs p.interface) true
        && option_map_or (λ i. p.domain == domain && has_room ticks i) (ins p.interface) true)
        (ports device_streams.now) }
{
    for device_stream in device_streams {
        if !device_stream.may_wait(domain, ticks) {
            return false;
        }
    }
    true
}
