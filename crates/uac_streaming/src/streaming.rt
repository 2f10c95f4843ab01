// What a host streams with, beside its device, and the events of both.
ghost use Rattle.std.specs.Prelude.{◌≡◌, ◌<◌, ◌≤◌, if◌then◌else◌, ℕ, Some, None, IfOk, IfSome, OnOk, OnErr, length, set, slice_get};
ghost use Rattle.std.specs.Option.{option_map};
ghost use Rattle.uac_topology.specs.Topology.{IsSoundFunction};
ghost use Rattle.uac_alt.specs.AltStreams.{stream_fields};
ghost use Rattle.uac_rate.specs.Steadiness.{with_deviation_given, is_steady, with_report_given, with_restart_given};
ghost use Rattle.uac_device.specs.DeviceKept as devices;
ghost use Rattle.uac_device.specs.DeviceWorld.{DeviceWorld, arrival_in, frames_in, fresh, met_of, packet_in, after_receiving};
ghost use Rattle.uac_topology.specs.Function.{interface_in};
ghost use Rattle.uac_host.specs.HostCalls.{AreWhole, IsStreamOf, size_of, with_report, with_samples, with_track_tone};
ghost use Rattle.uac_ring.specs.declared.counts.StreamCounts as counted;
ghost use Rattle.uac_streaming.specs.StreamingWorld.{StreamingWorld, after_following, found_counts, packet_fetched, packet_sent_out, packet_to};
ghost use Rattle.uac_streaming.specs.StreamingWorld.{feedback_made, streaming_start};
ghost use Rattle.uac_streaming.specs.StreamingWorld as spec;
ghost use Rattle.uac_streaming.specs.StreamingKept.{StreamingStands};

use crate::ways::{inward, outward};
use std::alloc::Global;
use std::marker::Model;
use uac_alt::Stream;
use uac_descriptor::NoMemory;
use uac_device::{Device, Ticked};
use uac_flow::Arrival;
use uac_host::Host;
use uac_pcm::{Frame, Packet, Tone};
use uac_rate::Steady;
use uac_ring::{
    StreamCounts, after_arrival, nothing_met, one_lost, one_missed, one_over, one_under,
};
use uac_topology::Function;
use uac_topology::laws::{functions_are_sound, interfaces_are_numbered, sound_functions_are_small};

/// A host's side of the streams of a device, and what these met.
#[derive(Drop)]
pub struct Streaming {
    pub(crate) host: Host,
    /// The numbers of the streaming interfaces, the least first, and of these those to the device, and those from it.
    pub(crate) order: Vec<u8>,
    pub(crate) outs: Vec<u8>,
    pub(crate) ins: Vec<u8>,
    /// What the streams of each interface met, in block order.
    met: Vec<StreamCounts>,
    steady: Steady,
    /// The last packet to the device, and the last that was fetched from it. Each is written by its own direction alone, so that a packet
    /// as long as the one before it needs no other size. They lie in boxes, since a value that is moved takes its bytes of the stack anew.
    sent_out_packet: Box<Packet>,
    pub(crate) fetched_packet: Box<Packet>,
    /// The last frame that the host heard.
    pub(crate) frame: Frame,
}

impl Model for Streaming {
    ghost use Rattle.uac_streaming.specs.StreamingKept.{StreamingFields};

    ghost Value = { StreamingFields };

    ghost view = { λ s. record {
      host = s.host;
      order = s.order.items;
      outs = s.outs.items;
      ins = s.ins.items;
      met = s.met.items;
      steady = s.steady;
      sent_out_packet = s.sent_out_packet.value.items;
      fetched_packet = s.fetched_packet.value.items;
    } };
}

/// A packet that was sent to the device: its frames, and how it arrived.
#[derive(Clone, Copy, Debug, PartialEq, Eq)]
pub(crate) struct SentOut {
    pub(crate) frames: u32,
    pub(crate) arrival: Arrival,
}

impl Streaming {
    /// A host of a function, of which no stream runs, with all the memory that it will use but for its tracks.
    pub fn new(alloc: Global, function: &Function) -> Result<Streaming, NoMemory>
        ensures { IfOk result (λ streaming. (d : devices.DeviceFields) → devices.DeviceStands d (fresh function.now)
            → StreamingStands streaming d (streaming_start function.now)) }
    {
        let host = Host::new(alloc, function)?;
        let order = in_order(alloc, function)?;
        let outs = outward(alloc, function, &order)?;
        let ins = inward(alloc, function, &order)?;
        let met = none_met(alloc, function)?;
        Ok(Streaming {
            host,
            order,
            outs,
            ins,
            met,
            steady: Steady::new(),
            sent_out_packet: Box::new(alloc, Packet::new())?,
            fetched_packet: Box::new(alloc, Packet::new())?,
            frame: Frame::new(),
        })
    }

    /// Lets all go that the host's streams hold. A caller that ends so needs no proof of its own of how each part is let go.
    pub fn let_go(self) {}

    /// Whether all that was given is steady: no deviation passed a thousandth, and no stream lost four feedback reports in succession.
    pub fn is_steady(&self) -> bool
        ensures { (d : devices.DeviceFields) (w : StreamingWorld) → StreamingStands self.now d w → result ≡ is_steady w.history }
    {
        self.steady.holds()
    }

    /// A clock is off by so many ppm from now on.
    pub fn deviate(&mut self, ppm: i32)
        ensures { (d : devices.DeviceFields) (w : StreamingWorld) → StreamingStands self.old d w
            → StreamingStands self.new d (record w { history = with_deviation_given ppm w.history }) }
    {
        self.steady.deviate(ppm);
    }

    /// Frames wait after those that do on an interface: samples of full scale, channel after channel, in whole frames of its terminal.
    /// After `NoMemory` all is as it was.
    pub fn append(&mut self, interface: u8, samples: &[i32]) -> Result<(), NoMemory>
        ensures stands { (d : devices.DeviceFields) (w : StreamingWorld) → StreamingStands self.old d w
            → AreWhole w.host.function interface samples.now
            → OnOk result (StreamingStands self.new d (record w { host = with_samples interface samples.now w.host })) }
        ensures unchanged { OnErr result (self.new ≡ self.old) }
    {
        self.host.append(interface, samples)
    }

    /// A tone follows the frames that wait on an interface, from its first frame.
    pub fn track(&mut self, interface: u8, tone: Tone)
        ensures { (d : devices.DeviceFields) (w : StreamingWorld) → StreamingStands self.old d w
            → StreamingStands self.new d (record w { host = with_track_tone interface tone w.host }) }
    {
        self.host.track(interface, tone);
    }

    /// The host's stream of an interface follows the device's: it starts anew, or stops where none is given.
    pub fn follow(&mut self, function: &Function, interface: u16, begun: Option<Stream>)
        requires { IfSome begun (λ s. IsStreamOf function.now interface (stream_fields s)) }
        ensures { (d : devices.DeviceFields) (w : StreamingWorld) → StreamingStands self.old d w → w.device.function ≡ function.now
            → StreamingStands self.new d (after_following interface (option_map stream_fields begun) w) }
    {
        functions_are_sound(function);
        sound_functions_are_small();
        match interface_number_of(function, interface) {
            Some(number) => self.set_stream(function, number, begun),
            None => {}
        }
    }

    /// The host's stream of an interface that the function has starts anew, or stops.
    fn set_stream(&mut self, function: &Function, interface: u8, begun: Option<Stream>)
        requires sound { IsSoundFunction function.now }
        requires few { length function.now.streams ≤ 8 }
        requires begun { IfSome begun (λ s. IsStreamOf function.now interface (stream_fields s)) }
        ensures { (d : devices.DeviceFields) (w : StreamingWorld) → StreamingStands self.old d w → w.device.function ≡ function.now
            → StreamingStands self.new d (after_following interface (option_map stream_fields begun) w) }
    {
        self.host.set_stream(interface, begun);
        if begun.is_some() {
            self.start_feedback(function, interface);
        }
    }

    /// The reports of an interface begin anew.
    fn start_feedback(&mut self, function: &Function, interface: u8)
        requires { length function.now.streams ≤ 8 }
        ensures { (d : devices.DeviceFields) (w : StreamingWorld) → StreamingStands self.old d w → w.device.function ≡ function.now
            → StreamingStands self.new d (record w
            { history = spec.given_at (spec.stream_index w.device.function interface) with_restart_given w.history }) }
    {
        match function.stream_at(interface) {
            Some(index) => self.steady.restart(index as u8),
            None => {}
        }
    }

    /// The host sends a packet to the device, unless it is lost.
    pub(crate) fn send_out(&mut self, device: &mut Device, interface: u8, lost: bool) -> SentOut
        ensures stands { (w : StreamingWorld) → StreamingStands self.old device.old w
            → StreamingStands self.new device.new (packet_sent_out lost interface w) }
        ensures frames { (w : StreamingWorld) → StreamingStands self.old device.old w → result.frames ≡ size_of w.host interface }
        ensures arrival { (w : StreamingWorld) → StreamingStands self.old device.old w
            → result.arrival ≡ arrival_in w.device interface (packet_to lost interface w) }
        ensures function { device.new.function ≡ device.old.function }
        ensures order { self.new.outs ≡ self.old.outs }
    {
        let frames = self.host.packet(interface, &mut self.sent_out_packet);
        let arrival = arrive(device, interface, &*self.sent_out_packet, lost);
        self.count_arrival(device.function(), interface, arrival);
        SentOut { frames, arrival }
    }

    /// The device sends a packet, which is kept, unless it is lost. Answers the number of its frames.
    pub(crate) fn fetch(&mut self, device: &mut Device, interface: u8, lost: bool) -> u32
        ensures stands { (w : StreamingWorld) → StreamingStands self.old device.old w
            → StreamingStands self.new device.new (packet_fetched lost interface w) }
        ensures frames { (w : StreamingWorld) → StreamingStands self.old device.old w → result ≡ frames_in w.device interface }
        ensures packet { (w : StreamingWorld) → StreamingStands self.old device.old w
            → self.new.fetched_packet ≡ packet_in w.device interface }
        ensures function { device.new.function ≡ device.old.function }
        ensures order { self.new.ins ≡ self.old.ins }
    {
        let frames = device.microframe_in(interface, &mut self.fetched_packet);
        self.count_fetched(device.function(), interface, lost);
        frames
    }

    /// A tick found these rings empty and full.
    pub fn count_met(&mut self, function: &Function, found: Ticked)
        ensures { (d : devices.DeviceFields) (w : StreamingWorld) (before : DeviceWorld) (clock : ℕ) → StreamingStands self.old d w
            → w.device.function ≡ function.now → before.function ≡ function.now → found ≡ met_of clock before
            → StreamingStands self.new d (record w { met = found_counts clock before w.met }) }
    {
        count_found(&mut self.met, found);
    }

    /// A feedback report comes to the host, unless it is lost.
    pub(crate) fn bring_feedback(
        &mut self,
        function: &Function,
        interface: u8,
        value: u32,
        lost: bool,
    )
        ensures stands { (d : devices.DeviceFields) (w : StreamingWorld) → StreamingStands self.old d w → w.device.function ≡ function.now
            → StreamingStands self.new d (feedback_made lost value interface w) }
        ensures order { self.new.order ≡ self.old.order }
    {
        functions_are_sound(function);
        sound_functions_are_small();
        self.take_report(interface, value, lost);
        self.count_feedback(function, interface, lost);
        self.count_missed(function, interface, lost);
    }

    /// The host takes a report, unless it is lost.
    fn take_report(&mut self, interface: u8, value: u32, lost: bool)
        ensures stands { (d : devices.DeviceFields) (w : StreamingWorld) → StreamingStands self.old d w
            → StreamingStands self.new d (record w { host = if lost then w.host else with_report interface value w.host }) }
        ensures order { self.new.order ≡ self.old.order }
    {
        if lost {
            return;
        }
        self.host.take_report(interface, value);
    }

    /// One more report of an interface is known to be lost, or to have come.
    fn count_feedback(&mut self, function: &Function, interface: u8, lost: bool)
        requires { length function.now.streams ≤ 8 }
        ensures stands { (d : devices.DeviceFields) (w : StreamingWorld) → StreamingStands self.old d w → w.device.function ≡ function.now
            → StreamingStands self.new d (record w {
              history = spec.given_at (spec.stream_index w.device.function interface) (λ index. with_report_given index lost) w.history;
            }) }
        ensures order { self.new.order ≡ self.old.order }
    {
        match function.stream_at(interface) {
            Some(index) => self.steady.report(index as u8, lost),
            None => {}
        }
    }

    /// A packet to the device arrived so on an interface: one that was taken changes no count.
    fn count_arrival(&mut self, function: &Function, interface: u8, arrival: Arrival)
        ensures stands { (d : devices.DeviceFields) (w : StreamingWorld) → StreamingStands self.old d w → w.device.function ≡ function.now
            → StreamingStands self.new d (record w { met = spec.counted_at interface (spec.after_arrival arrival) w.met }) }
        ensures others { self.new ≡ record self.old { met = self.new.met } }
    {
        match arrival {
            Arrival::Taken => return,
            Arrival::Lost | Arrival::Over => {}
        }
        let counts = after_arrival(arrival, self.met_on(function, interface));
        self.set_met(function, interface, counts);
    }

    /// A packet from the device was lost on an interface, or wasn't: one that came changes no count.
    fn count_fetched(&mut self, function: &Function, interface: u8, lost: bool)
        ensures stands { (d : devices.DeviceFields) (w : StreamingWorld) → StreamingStands self.old d w → w.device.function ≡ function.now
            → StreamingStands self.new d (record w { met = spec.counted_at interface (λ c. if lost then spec.one_lost c else c) w.met }) }
        ensures others { self.new ≡ record self.old { met = self.new.met } }
    {
        if !lost {
            return;
        }
        let counts = one_lost(lost, self.met_on(function, interface));
        self.set_met(function, interface, counts);
    }

    /// A report of an interface was lost, or wasn't: one that came changes no count.
    fn count_missed(&mut self, function: &Function, interface: u8, lost: bool)
        ensures stands { (d : devices.DeviceFields) (w : StreamingWorld) → StreamingStands self.old d w → w.device.function ≡ function.now
            → StreamingStands self.new d (record w { met = spec.counted_at interface (λ c. if lost then spec.one_missed c else c) w.met }) }
        ensures others { self.new ≡ record self.old { met = self.new.met } }
    {
        if !lost {
            return;
        }
        let counts = one_missed(lost, self.met_on(function, interface));
        self.set_met(function, interface, counts);
    }

    /// What the streams of an interface met; nothing where there is no such interface.
    pub fn met_on(&self, function: &Function, interface: u8) -> StreamCounts
        ensures met { (met : ℕ → counted.StreamCounts) (index : ℕ) → self.now.met ≡ spec.met_in met function.now
            → spec.stream_index function.now interface ≡ Some index → result ≡ met interface }
        ensures none { spec.stream_index function.now interface ≡ None → result ≡ spec.nothing_met }
    {
        match function.stream_at(interface) {
            Some(index) => counts_at(&self.met, index),
            None => nothing_met(),
        }
    }

    /// The streams of an interface met this so far. Where there is no such interface, nothing changes.
    fn set_met(&mut self, function: &Function, interface: u8, counts: StreamCounts)
        ensures met { (met : ℕ → counted.StreamCounts) → self.old.met ≡ spec.met_in met function.now
            → self.new.met ≡ spec.met_in (spec.counted_at interface (λ c. counts) met) function.now }
        ensures others { self.new ≡ record self.old { met = self.new.met } }
    {
        functions_are_sound(function);
        interfaces_are_numbered();
        match function.stream_at(interface) {
            Some(index) => put_at(&mut self.met, index, counts),
            None => {}
        }
    }
}

/// A packet comes to the device, unless it is lost.
fn arrive(device: &mut Device, interface: u8, packet: &Packet, lost: bool) -> Arrival
    ensures stands { (w : DeviceWorld) → devices.DeviceStands device.old w
        → devices.DeviceStands device.new (after_receiving interface (if lost then None else Some packet.now.items) w) }
    ensures arrival { (w : DeviceWorld) → devices.DeviceStands device.old w
        → result ≡ arrival_in w interface (if lost then None else Some packet.now.items) }
    ensures function { device.new.function ≡ device.old.function }
{
    if lost {
        return device.microframe_out(interface, None);
    }
    device.microframe_out(interface, Some(packet))
}

/// The number of the streaming interface with this number, as a byte; None exactly where none has it.
fn interface_number_of(function: &Function, interface: u16) -> Option<u8>
    ensures { result ≡ option_map (λ s. s.number) (interface_in function.now interface) }
{
    function
        .interface_numbered(interface)
        .map(|stream| stream.number)
}

/// A tick found these rings empty and full: a bit for each, the first being the lowest.
fn count_found(met: &mut [StreamCounts], found: Ticked)
    ensures { (before : ℕ → counted.StreamCounts) (w : DeviceWorld) (clock : ℕ) → met.old ≡ spec.met_in before w.function
        → found ≡ met_of clock w → met.new ≡ spec.met_in (found_counts clock w before) w.function }
{
    // Most ticks find nothing.
    if found.under == 0 && found.over == 0 {
        return;
    }
    count_some(met, found);
}

/// Counts the rings that a tick found empty or full, where it found some.
#[cold]
#[inline(never)]
fn count_some(met: &mut [StreamCounts], found: Ticked)
    ensures { (before : ℕ → counted.StreamCounts) (w : DeviceWorld) (clock : ℕ) → met.old ≡ spec.met_in before w.function
        → found ≡ met_of clock w → met.new ≡ spec.met_in (found_counts clock w before) w.function }
{
    let mut empty = found.under;
    let mut full = found.over;
    for counts in met.iter_mut() {
        *counts = one_over(full % 2 == 1, one_under(empty % 2 == 1, *counts));
        empty /= 2;
        full /= 2;
    }
}

/// Puts the counts of a stream at its index, where there is such an index; nothing changes where there is none.
fn put_at(met: &mut [StreamCounts], index: usize, counts: StreamCounts)
    ensures put { index < length met.old → met.new ≡ set met.old index counts }
    ensures past { length met.old ≤ index → met.new ≡ met.old }
{
    if index < met.len() {
        met[index] = counts;
    }
}

/// The counts at an index; of nothing met where there is none.
fn counts_at(met: &[StreamCounts], index: usize) -> StreamCounts
    ensures there { index < length met.now → slice_get met.now index ≡ Some result }
    ensures past { length met.now ≤ index → result ≡ spec.nothing_met }
{
    if index < met.len() {
        return met[index];
    }
    nothing_met()
}

/// For each interface nothing met.
fn none_met(alloc: Global, function: &Function) -> Result<Vec<StreamCounts>, NoMemory>
    ensures { IfOk result (λ met. met.items ≡ spec.met_in (λ interface. spec.nothing_met) function.now) }
{
    let mut met = Vec::new(alloc);
    for _stream in function.streams() {
        met.push(nothing_met())?;
    }
    Ok(met)
}

/// The numbers of the streaming interfaces, the least first.
fn in_order(alloc: Global, function: &Function) -> Result<Vec<u8>, NoMemory>
    ensures { IfOk result (λ order. order.items ≡ spec.numbers function.now) }
{
    let mut order = Vec::new(alloc);
    for at in 0..256u32 {
        let number = at as u8;
        if function.interface(number).is_some() {
            order.push(number)?;
        }
    }
    Ok(order)
}
