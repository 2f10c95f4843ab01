// What the host keeps for an interface.
ghost use Rattle.std.specs.Prelude.{◌≡◌, ◌↔◌, ◌<◌, length, slice_get, Some, IsTrue, IfSome};
ghost use Rattle.std.specs.Bool.{OnTrue, OnFalse};
ghost use Rattle.std.specs.Option.{option_map};
ghost use Rattle.uac_alt.specs.AltStreams.{stream_fields};
ghost use Rattle.uac_host.specs.HostWorld.{HostWorld};
ghost use Rattle.uac_host.specs.HostCalls.{after_host_packet, heard_in, packet_of, size_of, fresh_pace};
ghost use Rattle.uac_host.specs.HostFields.{IsRunnable};
ghost use Rattle.uac_host.specs.HostKept.{IsKeptStream, kept_stream, kept_pace, kept_report, resting_stream};

use crate::paces::Pace;
use crate::tracks::Track;
use std::alloc::Global;
use uac_alt::Stream;
use uac_pcm::{Frame, Packet};

/// The stream that a streaming interface runs, if any, and its track.
#[derive(Drop)]
pub struct HostStream {
    pub(crate) interface: u8,
    pub(crate) pace: Option<Pace>,
    pub(crate) track: Track,
}

impl HostStream {
    /// What is kept of an interface that runs no stream, with a silent track. It takes no memory.
    pub(crate) fn at_rest(alloc: Global, interface: u8) -> HostStream
        ensures { result ≡ resting_stream interface }
    {
        HostStream {
            interface,
            pace: None,
            track: Track::silent(alloc),
        }
    }

    /// Starts a stream anew, or runs none from now on.
    pub(crate) fn run(&mut self, stream: Option<Stream>)
        requires { IfSome stream (λ s. IsRunnable (stream_fields s)) }
        ensures { self.new ≡ record self.old { pace = option_map (λ s. kept_pace (fresh_pace (stream_fields s))) stream } }
    {
        match stream {
            Some(stream) => self.pace = Some(Pace::start(stream)),
            None => self.pace = None,
        }
    }

    /// A feedback report of the stream came.
    pub(crate) fn take_report(&mut self, value: u32)
        ensures { self.new ≡ record self.old { pace = option_map (kept_report value) self.old.pace } }
    {
        match &mut self.pace {
            Some(pace) => pace.take_report(value),
            None => {}
        }
    }

    /// Makes the packet the next frames of the track, as many as the stream's pace gives, and answers how many these are. Where no stream
    /// runs there are none.
    pub(crate) fn send_out(&mut self, packet: &mut Packet) -> u32
        ensures size { (w : HostWorld) → IsKeptStream w self.old → result ≡ size_of w self.old.interface }
        ensures packet { (w : HostWorld) → IsKeptStream w self.old → packet.new.items ≡ packet_of w self.old.interface }
        ensures stands { (w : HostWorld) → IsKeptStream w self.old
            → self.new ≡ kept_stream (after_host_packet self.old.interface w) self.old.interface }
    {
        match &mut self.pace {
            Some(pace) => {
                let frames = pace.size();
                let format = pace.format();
                self.track.fill(frames, &format, packet);
                frames
            }
            None => {
                packet.clear();
                0
            }
        }
    }

    /// How many bytes the next packet has; 0 where no stream runs.
    pub(crate) fn bytes(&self) -> u32
        ensures { (w : HostWorld) → IsKeptStream w self.now → result ≡ length (packet_of w self.now.interface) }
    {
        match &self.pace {
            Some(pace) => pace.bytes(),
            None => 0,
        }
    }

    /// Makes `frame` the frame of a number, from 0, of a packet of the stream; false exactly where the packet has no such frame, and then
    /// `frame` stays as it was. Where no stream runs there is none.
    pub(crate) fn hear(&self, packet: &Packet, at: u32, frame: &mut Frame) -> bool
        ensures there { (w : HostWorld) → IsKeptStream w self.now
            → IsTrue result ↔ (at < length (heard_in w self.now.interface packet.now.items)) }
        ensures samples { (w : HostWorld) → IsKeptStream w self.now
            → OnTrue result (slice_get (heard_in w self.now.interface packet.now.items) at ≡ Some frame.new.items) }
        ensures unchanged { OnFalse result (frame.new ≡ frame.old) }
    {
        match &self.pace {
            Some(pace) => pace.format().frame_at(packet, at, frame),
            None => false,
        }
    }
}
