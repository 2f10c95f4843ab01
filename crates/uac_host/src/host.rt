// The host and its calls.
ghost use Rattle.std.specs.Prelude.{◌≡◌, ◌==◌, ◌↔◌, ◌<◌, ℕ, length, position, slice_get, Some, IfOk, IfSome, IsTrue, OnOk, OnErr};
ghost use Rattle.std.specs.Bool.{OnTrue, OnFalse};
ghost use Rattle.std.specs.List.{All};
ghost use Rattle.std.specs.Option.{option_map};
ghost use Rattle.uac_topology.specs.Function.{FunctionFields};
ghost use Rattle.uac_topology.specs.Topology.{IsSoundFunction};
ghost use Rattle.uac_alt.specs.AltStreams.{stream_fields};
ghost use Rattle.uac_host.specs.HostFields.{GivesSilence};
ghost use Rattle.uac_host.specs.HostWorld.{HostWorld, fresh_host};
ghost use Rattle.uac_host.specs.HostCalls.{AreWhole, IsStreamOf, after_host_packet, heard_in, packet_of, size_of};
ghost use Rattle.uac_host.specs.HostCalls.{with_report, with_samples, with_stream, with_track_tone};
ghost use Rattle.uac_host.specs.HostKept.{HostStands};

use crate::host_streams::HostStream;
use std::alloc::Global;
use std::marker::Model;
use uac_alt::Stream;
use uac_descriptor::NoMemory;
use uac_pcm::{Frame, Packet, Tone};
use uac_topology::Function;
use uac_topology::laws::settings_are_in_range;

/// The host of an audio function: for each streaming interface the stream that it runs, and the track from which it sends.
#[derive(Drop)]
pub struct Host {
    host_streams: Vec<HostStream>,
}

impl Model for Host {
    ghost use Rattle.std.specs.Prelude.{List};
    ghost use Rattle.uac_host.specs.declared.host_streams.HostStream.{HostStream};

    ghost Value = { List HostStream };

    ghost view = { λ h. h.host_streams.items };
}

impl Host {
    /// A host of a function, which runs no stream and has silent tracks.
    pub fn new(alloc: Global, function: &Function) -> Result<Host, NoMemory>
        ensures { IfOk result (λ host. HostStands host (fresh_host function.now)) }
    {
        let mut host_streams = Vec::new(alloc);
        for stream in function.streams() {
            host_streams.push(HostStream::at_rest(alloc, stream.number))?;
        }
        Ok(Host { host_streams })
    }

    /// An interface starts a stream anew, at its nominal rate and a whole frame, or runs none from now on. Its track stays. A stream that
    /// is given is one of that interface of the host's function.
    pub fn set_stream(&mut self, interface: u8, stream: Option<Stream>)
        requires { IfSome stream (λ s. (function : FunctionFields) × IsSoundFunction function
            × IsStreamOf function interface (stream_fields s)) }
        ensures stands { (w : HostWorld) → HostStands self.old w → IfSome stream (λ s. IsStreamOf w.function interface (stream_fields s))
            → HostStands self.new (with_stream interface (option_map stream_fields stream) w) }
    {
        settings_are_in_range();
        match self.stream_index(interface) {
            Some(index) => self.host_streams[index].run(stream),
            None => {}
        }
    }

    /// Frames wait after those that do: samples of full scale, channel after channel, in whole frames of the interface's terminal. After
    /// `NoMemory` the track is as it was.
    pub fn append(&mut self, interface: u8, samples: &[i32]) -> Result<(), NoMemory>
        ensures stands { (w : HostWorld) → HostStands self.old w → AreWhole w.function interface samples.now
            → OnOk result (HostStands self.new (with_samples interface samples.now w)) }
        ensures unchanged { OnErr result (self.new ≡ self.old) }
    {
        match self.stream_index(interface) {
            Some(index) => self.host_streams[index].track.append(samples),
            None => Ok(()),
        }
    }

    /// A tone follows the frames that wait on an interface, from its first frame.
    pub fn track(&mut self, interface: u8, tone: Tone)
        ensures stands { (w : HostWorld) → HostStands self.old w → HostStands self.new (with_track_tone interface tone w) }
    {
        match self.stream_index(interface) {
            Some(index) => self.host_streams[index].track.play(tone),
            None => {}
        }
    }

    /// Forms the next packet of the stream that an interface runs, and answers how many frames it has: those of its service interval,
    /// by the rate value in force. The frames that wait come first, each once, and then the tone's. Where no stream runs there are
    /// none.
    pub fn packet(&mut self, interface: u8, packet: &mut Packet) -> u32
        ensures size { (w : HostWorld) → HostStands self.old w → result ≡ size_of w interface }
        ensures packet { (w : HostWorld) → HostStands self.old w → packet.new.items ≡ packet_of w interface }
        ensures stands { (w : HostWorld) → HostStands self.old w → HostStands self.new (after_host_packet interface w) }
    {
        match self.stream_index(interface) {
            Some(index) => self.host_streams[index].send_out(packet),
            None => {
                packet.clear();
                0
            }
        }
    }

    /// How many bytes the next packet of the stream that an interface runs has; 0 where none runs.
    pub fn bytes(&self, interface: u8) -> u32
        ensures { (w : HostWorld) → HostStands self.now w → result ≡ length (packet_of w interface) }
    {
        match self.stream_index(interface) {
            Some(index) => self.host_streams[index].bytes(),
            None => 0,
        }
    }

    /// A feedback report of an interface's stream came: its value is in force, clamped between the least and the greatest packet.
    pub fn take_report(&mut self, interface: u8, value: u32)
        ensures stands { (w : HostWorld) → HostStands self.old w → HostStands self.new (with_report interface value w) }
    {
        match self.stream_index(interface) {
            Some(index) => self.host_streams[index].take_report(value),
            None => {}
        }
    }

    /// Makes `frame` the frame of a number, from 0, of a packet of the stream that an interface runs; false exactly where the packet has no
    /// such frame, and then `frame` stays as it was.
    pub fn hear(&self, interface: u8, packet: &Packet, at: u32, frame: &mut Frame) -> bool
        ensures there { (w : HostWorld) → HostStands self.now w → IsTrue result ↔ (at < length (heard_in w interface packet.now.items)) }
        ensures samples { (w : HostWorld) → HostStands self.now w
            → OnTrue result (slice_get (heard_in w interface packet.now.items) at ≡ Some frame.new.items) }
        ensures unchanged { OnFalse result (frame.new ≡ frame.old) }
    {
        match self.stream_index(interface) {
            Some(index) => self.host_streams[index].hear(packet, at, frame),
            None => false,
        }
    }

    /// Whether it gives silence on every interface: no frames wait, and each track's tone is silent.
    pub fn is_silent(&self) -> bool
        ensures { IsTrue result ↔ All (λ l. GivesSilence l.track) self.now }
    {
        self.host_streams
            .iter()
            .all(|host_stream| host_stream.track.is_silent())
    }

    // The index of an interface's host stream.
    fn stream_index(&self, interface: u8) -> Option<usize>
        ensures { result ≡ position (λ l. l.interface == interface) self.now }
    {
        self.host_streams
            .iter()
            .position(|host_stream| host_stream.interface == interface)
    }
}
