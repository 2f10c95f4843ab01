// Several ticks of a clock domain at once, interface by interface: frames go between rings and rows.
ghost use Rattle.std.specs.Prelude.{◌≡◌, ◌<◌, ◌≤◌, ◌==◌, if◌then◌else◌, true, false, ℕ, ℤ, Bool, Option, Some, List, length};
ghost use Rattle.std.specs.List.{All, list_all};
ghost use Rattle.std.specs.Option.{option_map};
ghost use Rattle.uac_graph.specs.TickRows.{frames_at, slot_lengths};
ghost use Rattle.uac_graph.specs.Wiring.{frame_on, samples_on, silence};
ghost use Rattle.uac_flow.specs.Flows.{IsOutFlow, OutStands};
ghost use Rattle.uac_flow.specs.FlowStreams.{InStream, OutStream};
ghost use Rattle.uac_flow.specs.FlowTicks.{given_at, in_after_ticks, out_after_ticks};
ghost use Rattle.uac_device.specs.InterfaceStreams.{changed_where};
ghost use Rattle.uac_device.specs.DeviceStreams.{IsDeviceStream, IsWiredIn, IsWiredOut, DeviceStreamStands, DeviceStreamsStand, Changes};
ghost use Rattle.uac_device.specs.DeviceStreams.{frame_given, frame_given_by, gives_to, ports};
ghost use Rattle.uac_device.specs.DeviceStreamTicks.{goes_on, stream_after_on, stream_with_on};

use crate::device_stream::{DeviceStream, Flow, Port};
use crate::device_streams::DeviceStreams;
use uac_flow::OutFlow;
use uac_graph::WireRows;
use uac_ring::Ring;

impl DeviceStream {
    /// Whether so many ticks of a domain find its ring neither empty nor full.
    pub(crate) fn goes_on(&self, domain: u8, ticks: u32) -> bool
        ensures { (out : Option OutStream) (in_ : Option InStream) → DeviceStreamStands self.now out in_
            → result ≡ goes_on domain ticks out in_ self.now.port }
    {
        if self.port.domain != domain {
            return true;
        }
        match &self.flow {
            Flow::Idle => true,
            Flow::Out(flow) => flow.lasts(&self.ring, ticks),
            Flow::In(flow) => flow.has_room(&self.ring, ticks),
        }
    }

    /// At each of so many ticks of a domain a terminal of the bus in the domain takes the next frame of its stream, or silence where there
    /// is none: these go into its rows.
    pub(crate) fn take_rows(&mut self, domain: u8, ticks: u32, rows: &mut WireRows)
        requires sound { IsDeviceStream self.old }
        requires wired { IsWiredIn (frames_at 0 rows.old) self.old.port }
        requires room { ticks ≤ rows.old.room }
        ensures turns { Changes (stream_after_on domain ticks self.old.port) (λ in_. in_) self.old self.new }
        ensures frames { (out : Option OutStream) (in_ : Option InStream) → DeviceStreamStands self.old out in_
            → (t : ℕ) → t < ticks → (id : ℕ) → frame_on (frames_at t rows.new) id ≡ (if gives_to domain id self.old.port
            then Some (frame_given (option_map (out_after_ticks t) out) self.old.port) else frame_on (frames_at t rows.old) id) }
        ensures lengths { slot_lengths rows.new.slots ≡ slot_lengths rows.old.slots }
        ensures room { rows.new.room ≡ rows.old.room }
        ensures sound { IsDeviceStream self.new }
    {
        let port = self.port;
        match &mut self.flow {
            Flow::Idle => rest_rows(port, domain, ticks, rows),
            Flow::Out(flow) => {
                if port.domain != domain {
                    return;
                }
                take_rows(flow, &mut self.ring, port.terminal, ticks, rows);
            }
            Flow::In(_) => {}
        }
    }

    /// At each of so many ticks of a domain a stream from a terminal of the domain takes the frame that this played.
    pub(crate) fn put_rows(&mut self, domain: u8, ticks: u32, rows: &WireRows)
        requires sound { IsDeviceStream self.old }
        requires wired { IsWiredOut (frames_at 0 rows.now) self.old.port }
        requires room { ticks ≤ rows.now.room }
        ensures turns { Changes (λ out. out)
            (stream_with_on domain ticks (λ t. samples_on (frames_at t rows.now) self.old.port.terminal) self.old.port) self.old self.new }
        ensures sound { IsDeviceStream self.new }
    {
        match &self.flow {
            Flow::In(flow) => {
                if self.port.domain != domain {
                    return;
                }
                flow.put_rows(&mut self.ring, ticks, rows.get(self.port.terminal));
            }
            Flow::Idle | Flow::Out(_) => {}
        }
    }
}

// At each of so many ticks of a domain a terminal of the bus in the domain that gets no stream has silence.
fn rest_rows(port: Port, domain: u8, ticks: u32, rows: &mut WireRows)
    requires wired { IsWiredIn (frames_at 0 rows.old) port }
    requires room { ticks ≤ rows.old.room }
    ensures frames { (t : ℕ) → t < ticks → (id : ℕ) → frame_on (frames_at t rows.new) id
        ≡ (if gives_to domain id port then Some (silence port.channels) else frame_on (frames_at t rows.old) id) }
    ensures lengths { slot_lengths rows.new.slots ≡ slot_lengths rows.old.slots }
    ensures room { rows.new.room ≡ rows.old.room }
{
    if port.out && port.domain == domain {
        rows.silence(port.terminal, ticks as usize);
    }
}

// At each of so many ticks the terminal of a stream to the device takes the next frame, or silence where there is none.
fn take_rows(flow: &mut OutFlow, ring: &mut Ring, terminal: u8, ticks: u32, rows: &mut WireRows)
    requires sound { IsOutFlow ring.old flow.old }
    requires wired { option_map length (frame_on (frames_at 0 rows.old) terminal) ≡ Some flow.old.stream.format.channels }
    requires room { ticks ≤ rows.old.room }
    ensures stands { (o : OutStream) → OutStands ring.old flow.old o → OutStands ring.new flow.new (out_after_ticks ticks o) }
    ensures frames { (o : OutStream) → OutStands ring.old flow.old o → (t : ℕ) → t < ticks → (id : ℕ) → frame_on (frames_at t rows.new) id
        ≡ (if terminal == id then Some (given_at t o) else frame_on (frames_at t rows.old) id) }
    ensures lengths { slot_lengths rows.new.slots ≡ slot_lengths rows.old.slots }
    ensures room { rows.new.room ≡ rows.old.room }
    ensures sound { IsOutFlow ring.new flow.new }
    ensures stream { flow.new.stream ≡ flow.old.stream }
{
    let mut slot = rows.take(terminal);
    match &mut slot {
        Some(held) => flow.take_rows(ring, ticks, held.as_mut_slice()),
        None => unreachable!(),
    }
    rows.put_back(terminal, slot);
}

impl DeviceStreams {
    /// Whether so many ticks of a domain find no ring empty and none full.
    pub fn go_on(&self, domain: u8, ticks: u32) -> bool
        ensures { (outs : ℕ → Option OutStream) (ins : ℕ → Option InStream) → DeviceStreamsStand self.now outs ins
            → result ≡ list_all (λ p. goes_on domain ticks (outs p.interface) (ins p.interface) p) (ports self.now) }
    {
        go_on(&self.list, domain, ticks)
    }

    /// At each of so many ticks of a domain its terminals of the bus take the next frames of their streams, or silence: these go into
    /// their rows.
    pub fn take_rows(&mut self, domain: u8, ticks: u32, rows: &mut WireRows)
        requires wired { All (IsWiredIn (frames_at 0 rows.old)) (ports self.old) }
        requires room { ticks ≤ rows.old.room }
        ensures stands { (on : ℕ → Bool) (outs : ℕ → Option OutStream) (ins : ℕ → Option InStream)
            → All (λ p. on p.interface ≡ (p.domain == domain)) (ports self.old) → DeviceStreamsStand self.old outs ins
            → DeviceStreamsStand self.new (changed_where on (λ interface. out_after_ticks ticks) outs) ins }
        ensures frames { (on : ℕ → Bool) (outs : ℕ → Option OutStream) (ins : ℕ → Option InStream)
            → All (λ p. on p.interface ≡ (p.domain == domain)) (ports self.old) → DeviceStreamsStand self.old outs ins
            → (t : ℕ) → t < ticks → (id : ℕ) → frame_on (frames_at t rows.new) id
            ≡ frame_given_by domain id (changed_where on (λ interface. out_after_ticks t) outs) (ports self.old)
            (frame_on (frames_at t rows.old) id) }
        ensures lengths { slot_lengths rows.new.slots ≡ slot_lengths rows.old.slots }
        ensures room { rows.new.room ≡ rows.old.room }
        ensures ports { ports self.new ≡ ports self.old }
    {
        take_all(&mut self.list, domain, ticks, rows);
    }

    /// At each of so many ticks of a domain the streams from its terminals take the frames that these played.
    pub fn put_rows(&mut self, domain: u8, ticks: u32, rows: &WireRows)
        requires wired { All (IsWiredOut (frames_at 0 rows.now)) (ports self.old) }
        requires room { ticks ≤ rows.now.room }
        ensures stands { (on : ℕ → Bool) (played : ℕ → ℕ → List ℤ) (outs : ℕ → Option OutStream) (ins : ℕ → Option InStream)
            → All (λ p. on p.interface ≡ (p.domain == domain)) (ports self.old)
            → All (λ p. p.out ≡ false → 1 ≤ p.channels → (p.domain == domain) ≡ true → (t : ℕ) → t < ticks
            → frame_on (frames_at t rows.now) p.terminal ≡ Some (played t p.interface)) (ports self.old)
            → DeviceStreamsStand self.old outs ins
            → DeviceStreamsStand self.new outs (changed_where on (λ interface. in_after_ticks (λ t. played t interface) ticks) ins) }
        ensures ports { ports self.new ≡ ports self.old }
    {
        put_all(&mut self.list, domain, ticks, rows);
    }
}

// Whether so many ticks of a domain find no ring empty and none full.
fn go_on(device_streams: &[DeviceStream], domain: u8, ticks: u32) -> bool
    ensures { (outs : ℕ → Option OutStream) (ins : ℕ → Option InStream) → DeviceStreamsStand device_streams.now outs ins
        → result ≡ list_all (λ p. goes_on domain ticks (outs p.interface) (ins p.interface) p) (ports device_streams.now) }
{
    for device_stream in device_streams {
        if !device_stream.goes_on(domain, ticks) {
            return false;
        }
    }
    true
}

// At each of so many ticks of a domain its terminals of the bus take the next frames of their streams, or silence.
fn take_all(device_streams: &mut [DeviceStream], domain: u8, ticks: u32, rows: &mut WireRows)
    requires sound { All IsDeviceStream device_streams.old }
    requires wired { All (IsWiredIn (frames_at 0 rows.old)) (ports device_streams.old) }
    requires room { ticks ≤ rows.old.room }
    ensures stands { (on : ℕ → Bool) (outs : ℕ → Option OutStream) (ins : ℕ → Option InStream)
        → All (λ p. on p.interface ≡ (p.domain == domain)) (ports device_streams.old) → DeviceStreamsStand device_streams.old outs ins
        → DeviceStreamsStand device_streams.new (changed_where on (λ interface. out_after_ticks ticks) outs) ins }
    ensures frames { (on : ℕ → Bool) (outs : ℕ → Option OutStream) (ins : ℕ → Option InStream)
        → All (λ p. on p.interface ≡ (p.domain == domain)) (ports device_streams.old) → DeviceStreamsStand device_streams.old outs ins
        → (t : ℕ) → t < ticks → (id : ℕ) → frame_on (frames_at t rows.new) id
        ≡ frame_given_by domain id (changed_where on (λ interface. out_after_ticks t) outs) (ports device_streams.old)
        (frame_on (frames_at t rows.old) id) }
    ensures lengths { slot_lengths rows.new.slots ≡ slot_lengths rows.old.slots }
    ensures room { rows.new.room ≡ rows.old.room }
    ensures ports { ports device_streams.new ≡ ports device_streams.old }
    ensures sound { All IsDeviceStream device_streams.new }
{
    for device_stream in device_streams.iter_mut() {
        device_stream.take_rows(domain, ticks, rows);
    }
}

// At each of so many ticks of a domain the streams from its terminals take the frames that these played.
fn put_all(device_streams: &mut [DeviceStream], domain: u8, ticks: u32, rows: &WireRows)
    requires sound { All IsDeviceStream device_streams.old }
    requires wired { All (IsWiredOut (frames_at 0 rows.now)) (ports device_streams.old) }
    requires room { ticks ≤ rows.now.room }
    ensures stands { (on : ℕ → Bool) (played : ℕ → ℕ → List ℤ) (outs : ℕ → Option OutStream) (ins : ℕ → Option InStream)
        → All (λ p. on p.interface ≡ (p.domain == domain)) (ports device_streams.old)
        → All (λ p. p.out ≡ false → 1 ≤ p.channels → (p.domain == domain) ≡ true → (t : ℕ) → t < ticks
        → frame_on (frames_at t rows.now) p.terminal ≡ Some (played t p.interface)) (ports device_streams.old)
        → DeviceStreamsStand device_streams.old outs ins
        → DeviceStreamsStand device_streams.new outs (changed_where on (λ interface. in_after_ticks (λ t. played t interface) ticks) ins) }
    ensures ports { ports device_streams.new ≡ ports device_streams.old }
    ensures sound { All IsDeviceStream device_streams.new }
{
    for device_stream in device_streams.iter_mut() {
        device_stream.put_rows(domain, ticks, rows);
    }
}
