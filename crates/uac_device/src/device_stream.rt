// What the device keeps of a streaming interface.
ghost use Rattle.std.specs.Prelude.{◌≡◌, ◌==◌, ◌&&◌, ℕ, Option, Some, [], false, if◌then◌else◌, length, unwrap_or, IfOk, IfSome};
ghost use Rattle.std.specs.Option.{option_and_then, option_map, option_map_or};
ghost use Rattle.uac_alt.specs.AltStreams.{stream_fields};
ghost use Rattle.uac_graph.specs.Wiring.{frame_on, samples_on, silence};
ghost use Rattle.uac_flow.specs.Flows.{CanRun, IsOutFlow, OutStands, ZerosFit};
ghost use Rattle.uac_flow.specs.FlowStreams.{InStream, OutStream, after_packet, after_sending_in, after_taking, arrival_of, feedback_of};
ghost use Rattle.uac_flow.specs.FlowStreams.{is_dry, next_taken, sent_in_frames, sent_in_packet, in_after_end, out_after_end};
ghost use Rattle.uac_ring.specs.declared.arrival.Arrival.TheVariants as arrival;
ghost use Rattle.uac_device.specs.InterfaceStreams.{either_due, in_from, level_in, out_from};
ghost use Rattle.uac_device.specs.DeviceStreams.{FitsPort, IsFlow, IsDeviceStream, FlowStands, DeviceStreamStands, Changes};
ghost use Rattle.uac_device.specs.DeviceStreams.{IsWiredIn, IsWiredOut, stream_counted_on, is_found_dry};
ghost use Rattle.uac_device.specs.DeviceStreams.{is_found_full, frame_given, gives_to, idle_stream, is_running, stream_put_on};
ghost use Rattle.uac_device.specs.DeviceStreams.{stream_taken_on};

use std::alloc::Global;
use uac_alt::Stream;
use uac_descriptor::NoMemory;
use uac_flow::{Arrival, InFlow, OutFlow};
use uac_graph::Wires;
use uac_pcm::Packet;
use uac_ring::Ring;

/// A streaming interface, and the terminal of the bus to which it links: its id, its clock and its channels (Audio Class 2.0, 4.9.2).
#[derive(Clone, Copy)]
pub struct Port {
    pub interface: u8,
    pub terminal: u8,
    pub domain: u8,
    pub channels: u8,
    /// Whether the interface carries from the host to the device.
    pub out: bool,
}

/// The stream that an interface runs, beside its ring.
#[derive(Clone, Copy)]
pub enum Flow {
    Idle,
    Out(OutFlow),
    In(InFlow),
}

/// A streaming interface with its stream.
#[derive(Drop)]
pub struct DeviceStream {
    pub port: Port,
    pub ring: Ring,
    pub flow: Flow,
}

/// What a tick finds of an interface: a ring that is empty, of a primed stream to the device, or one that is full, of a stream from it.
#[derive(Clone, Copy)]
pub(crate) struct Found {
    pub(crate) dry: bool,
    pub(crate) full: bool,
}

impl DeviceStream {
    /// What is kept of an interface that runs no stream, with all the memory that it will use.
    pub(crate) fn idle(alloc: Global, port: Port) -> Result<DeviceStream, NoMemory>
        ensures { IfOk result (λ device_stream. device_stream ≡ idle_stream port) }
    {
        let ring = Ring::new(alloc)?;
        Ok(DeviceStream {
            port,
            ring,
            flow: Flow::Idle,
        })
    }

    /// How many frames lie in the ring of its stream.
    pub(crate) fn level(&self) -> u32
        ensures { (out : Option OutStream) (in_ : Option InStream) → DeviceStreamStands self.now out in_ → result ≡ level_in out in_ }
    {
        match self.flow {
            Flow::Idle => 0,
            Flow::Out(_) | Flow::In(_) => self.ring.level(),
        }
    }

    /// The level at which its stream to the device was primed.
    pub(crate) fn target(&self) -> Option<u32>
        ensures { (out : Option OutStream) (in_ : Option InStream) → DeviceStreamStands self.now out in_
            → result ≡ option_and_then (λ o. o.target) out }
    {
        match &self.flow {
            Flow::Out(flow) => flow.target,
            Flow::Idle | Flow::In(_) => None,
        }
    }

    /// Whether the interface's stream has a packet in the next microframe.
    pub(crate) fn due(&self) -> bool
        requires { IsDeviceStream self.now }
        ensures { (out : Option OutStream) (in_ : Option InStream) → DeviceStreamStands self.now out in_ → result ≡ either_due out in_ }
    {
        match &self.flow {
            Flow::Idle => false,
            Flow::Out(flow) => flow.is_due(),
            Flow::In(flow) => flow.is_due(),
        }
    }

    /// The report that is due of its stream to the device.
    pub(crate) fn feedback(&self) -> Option<u32>
        requires { IsDeviceStream self.now }
        ensures { (out : Option OutStream) (in_ : Option InStream) → DeviceStreamStands self.now out in_
            → result ≡ option_and_then feedback_of out }
    {
        match &self.flow {
            Flow::Out(flow) => flow.feedback(&self.ring),
            Flow::Idle | Flow::In(_) => None,
        }
    }

    /// Starts the interface's stream anew, or leaves the interface without one.
    pub(crate) fn restart(&mut self, begun: Option<Stream>)
        requires fits { IfSome begun (λ s. FitsPort self.old.port (stream_fields s)) }
        ensures turns { Changes (λ out. option_and_then out_from (option_map stream_fields begun))
            (λ in_. option_and_then in_from (option_map stream_fields begun)) self.old self.new }
        ensures sound { IsDeviceStream self.new }
    {
        self.flow = match begun {
            Some(stream) => start(stream, &mut self.ring),
            None => Flow::Idle,
        };
    }

    /// A packet comes to the device; None is a lost one. Where no stream to the device runs, nothing takes it.
    pub(crate) fn receive(&mut self, packet: Option<&Packet>) -> Arrival
        requires { IsDeviceStream self.old }
        ensures turns { Changes (option_map (after_packet (option_map (λ p. p.now.items) packet.entry))) (λ in_. in_) self.old self.new }
        ensures arrival { (out : Option OutStream) (in_ : Option InStream) → DeviceStreamStands self.old out in_
            → result ≡ option_map_or (arrival_of (option_map (λ p. p.now.items) packet.entry)) out arrival.Lost }
        ensures sound { IsDeviceStream self.new }
    {
        match &mut self.flow {
            Flow::Out(flow) => flow.receive(&mut self.ring, packet),
            Flow::Idle | Flow::In(_) => Arrival::Lost,
        }
    }

    /// Forms a packet from the device, and answers the number of its frames; it is empty where no stream from the device runs.
    pub(crate) fn send_in(&mut self, packet: &mut Packet) -> u32
        requires { IsDeviceStream self.old }
        ensures turns { Changes (λ out. out) (option_map after_sending_in) self.old self.new }
        ensures packet { (out : Option OutStream) (in_ : Option InStream) → DeviceStreamStands self.old out in_
            → packet.new.items ≡ option_map_or sent_in_packet in_ [] }
        ensures frames { (out : Option OutStream) (in_ : Option InStream) → DeviceStreamStands self.old out in_
            → result ≡ option_map_or sent_in_frames in_ 0 }
        ensures sound { IsDeviceStream self.new }
    {
        match &mut self.flow {
            Flow::In(flow) => flow.send_in(&mut self.ring, packet),
            Flow::Idle | Flow::Out(_) => {
                packet.clear();
                0
            }
        }
    }

    /// A microframe ends for its stream.
    pub(crate) fn end_microframe(&mut self)
        requires { IsDeviceStream self.old }
        ensures port { self.new.port ≡ self.old.port }
        ensures stands { (out : Option OutStream) (in_ : Option InStream) → DeviceStreamStands self.old out in_ → IfSome out ZerosFit
            → DeviceStreamStands self.new (option_map out_after_end out) (option_map in_after_end in_) }
        ensures sound { IsDeviceStream self.new }
    {
        match &mut self.flow {
            Flow::Idle => {}
            Flow::Out(flow) => flow.end_microframe(&mut self.ring),
            Flow::In(flow) => flow.end_microframe(),
        }
    }

    /// Counts the ticks of a domain that came, where the interface's stream goes to a terminal of the domain.
    pub(crate) fn count(&mut self, domain: u8, ticks: u32)
        requires { IsDeviceStream self.old }
        ensures turns { Changes (stream_counted_on domain ticks self.old.port) (λ in_. in_) self.old self.new }
        ensures sound { IsDeviceStream self.new }
    {
        match &mut self.flow {
            Flow::Out(flow) => {
                if self.port.domain != domain {
                    return;
                }
                flow.count(ticks);
            }
            Flow::Idle | Flow::In(_) => {}
        }
    }

    /// A tick of a domain begins: a terminal of the bus in the domain takes the next frame of its stream, or silence where there is none,
    /// and puts it on its wire. Answers what the tick finds.
    pub(crate) fn begin(&mut self, domain: u8, wires: &mut Wires) -> Found
        requires sound { IsDeviceStream self.old }
        requires wired { IsWiredIn wires.old self.old.port }
        ensures turns { Changes (stream_taken_on domain self.old.port) (λ in_. in_) self.old self.new }
        ensures dry { (out : Option OutStream) (in_ : Option InStream) → DeviceStreamStands self.old out in_
            → result.dry ≡ is_found_dry domain out self.old.port }
        ensures full { (out : Option OutStream) (in_ : Option InStream) → DeviceStreamStands self.old out in_
            → result.full ≡ is_found_full domain in_ self.old.port }
        ensures frame { (out : Option OutStream) (in_ : Option InStream) → DeviceStreamStands self.old out in_
            → (id : ℕ) → frame_on wires.new id
            ≡ (if gives_to domain id self.old.port then Some (frame_given out self.old.port) else frame_on wires.old id) }
        ensures lengths { (id : ℕ) → option_map length (frame_on wires.new id) ≡ option_map length (frame_on wires.old id) }
        ensures sound { IsDeviceStream self.new }
    {
        let port = self.port;
        match &mut self.flow {
            Flow::Idle => {
                rest(port, domain, wires);
                nothing_found()
            }
            Flow::Out(flow) => {
                if port.domain != domain {
                    return nothing_found();
                }
                Found {
                    dry: take_next(flow, &mut self.ring, port.terminal, wires),
                    full: false,
                }
            }
            Flow::In(flow) => Found {
                dry: false,
                full: port.domain == domain && flow.is_full(&self.ring),
            },
        }
    }

    /// A tick of a domain: a stream from a terminal of the domain takes the frame that this played.
    pub(crate) fn put(&mut self, domain: u8, wires: &Wires)
        requires sound { IsDeviceStream self.old }
        requires wired { IsWiredOut wires.now self.old.port }
        ensures turns { Changes (λ out. out) (stream_put_on domain (samples_on wires.now self.old.port.terminal) self.old.port) self.old
            self.new }
        ensures sound { IsDeviceStream self.new }
    {
        match &self.flow {
            Flow::In(flow) => {
                if self.port.domain != domain {
                    return;
                }
                match wires.get(self.port.terminal) {
                    Some(frame) => flow.put(&mut self.ring, frame),
                    None => {}
                }
            }
            Flow::Idle | Flow::Out(_) => {}
        }
    }
}

/// Whether an interface runs a stream.
pub(crate) fn is_running(flow: &Flow) -> bool
    ensures { result ≡ is_running flow.now }
{
    match flow {
        Flow::Idle => false,
        Flow::Out(_) | Flow::In(_) => true,
    }
}

// At a tick of a domain a terminal of the bus in the domain that gets no stream puts silence on its wire.
#[tactic(auto, using(crate::proofs::DeviceStreamsFrameLemmas::hushed))]
fn rest(port: Port, domain: u8, wires: &mut Wires)
    requires { IsWiredIn wires.old port }
    ensures frame { (id : ℕ) → frame_on wires.new id
        ≡ (if gives_to domain id port then Some (silence port.channels) else frame_on wires.old id) }
    ensures lengths { (id : ℕ) → option_map length (frame_on wires.new id) ≡ option_map length (frame_on wires.old id) }
{
    if port.out && port.domain == domain {
        wires.silence(port.terminal);
    }
}

// A tick that finds nothing.
fn nothing_found() -> Found
    ensures dry { result.dry ≡ false }
    ensures full { result.full ≡ false }
{
    Found {
        dry: false,
        full: false,
    }
}

// The terminal of a stream to the device takes its next frame, or silence where there is none, and puts it on its wire. Answers whether
// the tick finds the stream dry.
#[tactic(auto, using(crate::proofs::DeviceStreamsFrameLemmas::hushed, crate::proofs::DeviceStreamsFrameLemmas::frame_not_dry))]
fn take_next(flow: &mut OutFlow, ring: &mut Ring, terminal: u8, wires: &mut Wires) -> bool
    requires sound { IsOutFlow ring.old flow.old }
    requires wired { option_map length (frame_on wires.old terminal) ≡ Some flow.old.stream.format.channels }
    ensures stands { (o : OutStream) → OutStands ring.old flow.old o → OutStands ring.new flow.new (after_taking o) }
    ensures dry { (o : OutStream) → OutStands ring.old flow.old o → result ≡ is_dry o }
    ensures frame { (o : OutStream) → OutStands ring.old flow.old o → (id : ℕ) → frame_on wires.new id
        ≡ (if terminal == id then Some (unwrap_or (next_taken o) (silence flow.old.stream.format.channels)) else frame_on wires.old id) }
    ensures lengths { (id : ℕ) → option_map length (frame_on wires.new id) ≡ option_map length (frame_on wires.old id) }
    ensures sound { IsOutFlow ring.new flow.new }
    ensures stream { flow.new.stream ≡ flow.old.stream }
{
    match flow.next(ring) {
        Some(frame) => {
            wires.set(terminal, frame);
            flow.go_on(ring);
            false
        }
        None => {
            wires.silence(terminal);
            let dry = flow.is_dry(ring);
            flow.go_on(ring);
            dry
        }
    }
}

// A stream at its start; its ring is emptied.
fn start(stream: Stream, ring: &mut Ring) -> Flow
    requires { CanRun (stream_fields stream) }
    ensures stands { FlowStands ring.new result (out_from (stream_fields stream)) (in_from (stream_fields stream)) }
    ensures sound { (port : Port) → FitsPort port (stream_fields stream) → IsFlow port ring.new result }
{
    if stream.out {
        Flow::Out(OutFlow::start(stream, ring))
    } else {
        Flow::In(InFlow::start(stream, ring))
    }
}
