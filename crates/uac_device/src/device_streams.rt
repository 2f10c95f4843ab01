// What the device keeps of all streaming interfaces.
ghost use Rattle.std.specs.Prelude.{◌≡◌, ◌==◌, ℕ, Option, Some, [], false, map, IfOk, IfSome};
ghost use Rattle.std.specs.List.{find, list_any};
ghost use Rattle.std.specs.Option.{option_and_then, option_map, option_map_or};
ghost use Rattle.uac_alt.specs.AltStreams.{stream_fields};
ghost use Rattle.uac_flow.specs.Flows.{ZerosFit};
ghost use Rattle.uac_flow.specs.FlowStreams.{InStream, OutStream, after_packet, after_sending_in, arrival_of, feedback_of, sent_in_frames};
ghost use Rattle.uac_flow.specs.FlowStreams.{sent_in_packet, in_after_end, out_after_end};
ghost use Rattle.uac_ring.specs.declared.arrival.Arrival.TheVariants as arrival;
ghost use Rattle.uac_device.specs.InterfaceStreams.{NoneRuns, streams_changed_at, either_due, in_from, level_in, out_from};
ghost use Rattle.uac_device.specs.InterfaceStreams.{streams_replaced_at};
ghost use Rattle.uac_device.specs.InterfaceStreams.{runs_either};
ghost use Rattle.uac_device.specs.DeviceStreams.{FitsPort, DeviceStreamsStand, idle_stream, is_running, device_stream_index};
ghost use Rattle.uac_device.specs.DeviceStreams.{port_of};
ghost use Rattle.uac_device.specs.DeviceStreams.{port_with, ports};
ghost use Rattle.uac_device.specs.declared.device_stream.Port as ported;

use crate::device_stream::{DeviceStream, Port, is_running};
use std::alloc::Global;
use std::marker::Model;
use uac_alt::Stream;
use uac_descriptor::NoMemory;
use uac_flow::Arrival;
use uac_pcm::Packet;
use uac_topology::laws::{functions_are_sound, interfaces_are_numbered};
use uac_topology::{Function, StreamInterface};

/// What is kept of each streaming interface, in block order.
#[derive(Drop)]
pub struct DeviceStreams {
    pub(crate) list: Vec<DeviceStream>,
}

impl Model for DeviceStreams {
    ghost use Rattle.std.specs.Prelude.{List};
    ghost use Rattle.uac_device.specs.declared.device_stream.DeviceStream.{DeviceStream};
    ghost use Rattle.uac_device.specs.DeviceStreams.{AreDeviceStreams};

    ghost Value = { List DeviceStream };

    ghost view = { λ l. l.list.items };

    ghost invariant = { λ l. AreDeviceStreams l.list.items };
}

impl DeviceStreams {
    /// What is kept of the interfaces of a function, none of which runs a stream.
    pub fn new(alloc: Global, function: &Function) -> Result<DeviceStreams, NoMemory>
        ensures { IfOk result (λ device_streams. device_streams
            ≡ map (λ s. idle_stream (port_of function.now.entities s)) function.now.streams) }
    {
        interfaces_are_numbered();
        functions_are_sound(function);
        let mut list = Vec::new(alloc);
        for stream in function.streams() {
            let device_stream = DeviceStream::idle(alloc, port(function, stream))?;
            list.push(device_stream)?;
        }
        Ok(DeviceStreams { list })
    }

    // The index of an interface's stream.
    pub(crate) fn stream_index(&self, interface: u16) -> Option<usize>
        ensures { result ≡ device_stream_index self.now interface }
    {
        self.list
            .iter()
            .position(|stream| u16::from(stream.port.interface) == interface)
    }

    /// Whether an interface runs a stream.
    pub fn run_one(&self) -> bool
        ensures value { (outs : ℕ → Option OutStream) (ins : ℕ → Option InStream) → DeviceStreamsStand self.now outs ins
            → result ≡ list_any (λ p. runs_either (outs p.interface) (ins p.interface)) (ports self.now) }
        ensures none { (outs : ℕ → Option OutStream) (ins : ℕ → Option InStream) → DeviceStreamsStand self.now outs ins → result ≡ false
            → NoneRuns outs ins }
    {
        run_one(&self.list)
    }

    /// How many frames lie in the ring of an interface's stream.
    pub fn level(&self, interface: u8) -> u32
        ensures { (outs : ℕ → Option OutStream) (ins : ℕ → Option InStream) → DeviceStreamsStand self.now outs ins
            → result ≡ level_in (outs interface) (ins interface) }
    {
        match self.stream_index(interface.into()) {
            Some(index) => self.list[index].level(),
            None => 0,
        }
    }

    /// The level at which an interface's stream to the device was primed.
    pub fn target(&self, interface: u8) -> Option<u32>
        ensures { (outs : ℕ → Option OutStream) (ins : ℕ → Option InStream) → DeviceStreamsStand self.now outs ins
            → result ≡ option_and_then (λ o. o.target) (outs interface) }
    {
        match self.stream_index(interface.into()) {
            Some(index) => self.list[index].target(),
            None => None,
        }
    }

    /// Whether an interface's stream has a packet in the next microframe.
    pub fn due(&self, interface: u8) -> bool
        ensures { (outs : ℕ → Option OutStream) (ins : ℕ → Option InStream) → DeviceStreamsStand self.now outs ins
            → result ≡ either_due (outs interface) (ins interface) }
    {
        match self.stream_index(interface.into()) {
            Some(index) => self.list[index].due(),
            None => false,
        }
    }

    /// The report that is due of an interface's stream to the device.
    pub fn feedback(&self, interface: u8) -> Option<u32>
        ensures { (outs : ℕ → Option OutStream) (ins : ℕ → Option InStream) → DeviceStreamsStand self.now outs ins
            → result ≡ option_and_then feedback_of (outs interface) }
    {
        match self.stream_index(interface.into()) {
            Some(index) => self.list[index].feedback(),
            None => None,
        }
    }

    /// An interface's stream starts anew, or it runs none from now on. A stream that is given fits the interface.
    pub fn restart(&mut self, interface: u16, begun: Option<Stream>)
        requires fits { IfSome begun (λ s. (port : ported.Port) × (find (λ p. p.interface == interface) (ports self.old) ≡ Some port)
            × FitsPort port (stream_fields s)) }
        ensures stands { (outs : ℕ → Option OutStream) (ins : ℕ → Option InStream) → DeviceStreamsStand self.old outs ins
            → DeviceStreamsStand self.new (streams_replaced_at interface (option_and_then out_from (option_map stream_fields begun)) outs)
            (streams_replaced_at interface (option_and_then in_from (option_map stream_fields begun)) ins) }
        ensures ports { ports self.new ≡ ports self.old }
    {
        match self.stream_index(interface) {
            Some(index) => self.list[index].restart(begun),
            None => {}
        }
    }

    /// A packet comes to the device on an interface, or is lost.
    pub fn receive(&mut self, interface: u8, packet: Option<&Packet>) -> Arrival
        ensures stands { (outs : ℕ → Option OutStream) (ins : ℕ → Option InStream) → DeviceStreamsStand self.old outs ins
            → DeviceStreamsStand self.new (streams_changed_at interface (after_packet (option_map (λ p. p.now.items) packet.entry)) outs)
            ins }
        ensures arrival { (outs : ℕ → Option OutStream) (ins : ℕ → Option InStream) → DeviceStreamsStand self.old outs ins
            → result ≡ option_map_or (arrival_of (option_map (λ p. p.now.items) packet.entry)) (outs interface) arrival.Lost }
        ensures ports { ports self.new ≡ ports self.old }
    {
        match self.stream_index(interface.into()) {
            Some(index) => self.list[index].receive(packet),
            None => Arrival::Lost,
        }
    }

    /// Forms the packet from the device of an interface, and answers the number of its frames.
    pub fn send_in(&mut self, interface: u8, packet: &mut Packet) -> u32
        ensures stands { (outs : ℕ → Option OutStream) (ins : ℕ → Option InStream) → DeviceStreamsStand self.old outs ins
            → DeviceStreamsStand self.new outs (streams_changed_at interface after_sending_in ins) }
        ensures packet { (outs : ℕ → Option OutStream) (ins : ℕ → Option InStream) → DeviceStreamsStand self.old outs ins
            → packet.new.items ≡ option_map_or sent_in_packet (ins interface) [] }
        ensures frames { (outs : ℕ → Option OutStream) (ins : ℕ → Option InStream) → DeviceStreamsStand self.old outs ins
            → result ≡ option_map_or sent_in_frames (ins interface) 0 }
        ensures ports { ports self.new ≡ ports self.old }
    {
        match self.stream_index(interface.into()) {
            Some(index) => self.list[index].send_in(packet),
            None => {
                packet.clear();
                0
            }
        }
    }

    /// A microframe ends for an interface's stream.
    pub fn end_microframe(&mut self, interface: u8)
        ensures stands { (outs : ℕ → Option OutStream) (ins : ℕ → Option InStream) → DeviceStreamsStand self.old outs ins
            → IfSome (outs interface) ZerosFit
            → DeviceStreamsStand self.new (streams_changed_at interface out_after_end outs) (streams_changed_at interface in_after_end ins) }
        ensures ports { ports self.new ≡ ports self.old }
    {
        match self.stream_index(interface.into()) {
            Some(index) => self.list[index].end_microframe(),
            None => {}
        }
    }
}

// An interface with the terminal to which it links.
fn port(function: &Function, stream: &StreamInterface) -> Port
    ensures { result ≡ port_of function.now.entities stream.now }
{
    match function.entity(stream.terminal) {
        Some(terminal) => port_to(stream, terminal.clock, terminal.cluster.channels),
        None => port_to(stream, 0, 0),
    }
}

// An interface with a terminal of this domain and so many channels.
fn port_to(stream: &StreamInterface, domain: u8, channels: u8) -> Port
    ensures { result ≡ port_with stream.now domain channels }
{
    Port {
        interface: stream.number,
        terminal: stream.terminal,
        domain,
        channels,
        out: stream.out,
    }
}

// Whether one of the interfaces runs a stream.
fn run_one(device_streams: &[DeviceStream]) -> bool
    ensures { result ≡ list_any (λ l. is_running l.flow) device_streams.now }
{
    device_streams.iter().any(|stream| is_running(&stream.flow))
}
