// One tick of a clock domain, interface by interface.
ghost use Rattle.std.specs.Prelude.{◌≡◌, ◌≤◌, ◌+◌, ◌==◌, if◌then◌else◌, ℕ, ℤ, Bool, Option, Some, List, false, length};
ghost use Rattle.std.specs.List.{All};
ghost use Rattle.std.specs.Option.{option_map};
ghost use Rattle.uac_graph.specs.Wiring.{frame_on};
ghost use Rattle.uac_flow.specs.FlowStreams.{InStream, OutStream, after_putting, after_taking, after_ticks};
ghost use Rattle.uac_device.specs.InterfaceStreams.{changed_where};
ghost use Rattle.uac_device.specs.DeviceStreams.{AreDeviceStreams, IsDeviceStream, DeviceStreamsStand, IsWiredIn, IsWiredOut};
ghost use Rattle.uac_device.specs.DeviceStreams.{frame_given_by};
ghost use Rattle.uac_device.specs.DeviceStreams.{met_by, ports};

use crate::device_stream::DeviceStream;
use crate::device_streams::DeviceStreams;
use uac_graph::Wires;

/// What a tick met, with a bit for each streaming interface, in block order: a ring that was empty, and one that was full.
#[derive(Clone, Copy, Debug, PartialEq, Eq)]
pub struct Ticked {
    pub under: u8,
    pub over: u8,
}

impl DeviceStreams {
    /// The streams to the terminals of a domain count so many ticks.
    pub fn count(&mut self, domain: u8, ticks: u32)
        ensures stands { (on : ℕ → Bool) (outs : ℕ → Option OutStream) (ins : ℕ → Option InStream)
            → All (λ p. on p.interface ≡ (p.domain == domain)) (ports self.old) → DeviceStreamsStand self.old outs ins
            → DeviceStreamsStand self.new (changed_where on (λ interface. after_ticks ticks) outs) ins }
        ensures ports { ports self.new ≡ ports self.old }
    {
        count(&mut self.list, domain, ticks);
    }

    /// A tick of a domain begins: its terminals of the bus take the next frames of their streams, or silence, and put them on their wires.
    /// Answers what the tick meets.
    pub fn begin(&mut self, domain: u8, wires: &mut Wires) -> Ticked
        requires few { length self.old ≤ 8 }
        requires wired { All (IsWiredIn wires.old) (ports self.old) }
        ensures met { (outs : ℕ → Option OutStream) (ins : ℕ → Option InStream) → DeviceStreamsStand self.old outs ins
            → result ≡ met_by domain outs ins (ports self.old) }
        ensures stands { (on : ℕ → Bool) (outs : ℕ → Option OutStream) (ins : ℕ → Option InStream)
            → All (λ p. on p.interface ≡ (p.domain == domain)) (ports self.old) → DeviceStreamsStand self.old outs ins
            → DeviceStreamsStand self.new (changed_where on (λ interface. after_taking) outs) ins }
        ensures frames { (outs : ℕ → Option OutStream) (ins : ℕ → Option InStream) → DeviceStreamsStand self.old outs ins
            → (id : ℕ) → frame_on wires.new id ≡ frame_given_by domain id outs (ports self.old) (frame_on wires.old id) }
        ensures lengths { (id : ℕ) → option_map length (frame_on wires.new id) ≡ option_map length (frame_on wires.old id) }
        ensures ports { ports self.new ≡ ports self.old }
    {
        begin(&mut self.list, domain, wires)
    }

    /// The streams from the terminals of a domain take the frames that these played.
    pub fn put(&mut self, domain: u8, wires: &Wires)
        requires wired { All (IsWiredOut wires.now) (ports self.old) }
        ensures stands { (on : ℕ → Bool) (played : ℕ → List ℤ) (outs : ℕ → Option OutStream) (ins : ℕ → Option InStream)
            → All (λ p. on p.interface ≡ (p.domain == domain)) (ports self.old)
            → All (λ p. p.out ≡ false → 1 ≤ p.channels → frame_on wires.now p.terminal ≡ Some (played p.interface)) (ports self.old)
            → DeviceStreamsStand self.old outs ins
            → DeviceStreamsStand self.new outs (changed_where on (λ interface. after_putting (played interface)) ins) }
        ensures ports { ports self.new ≡ ports self.old }
    {
        put(&mut self.list, domain, wires);
    }
}

// The streams to the terminals of a domain count so many ticks.
fn count(device_streams: &mut [DeviceStream], domain: u8, ticks: u32)
    requires { All IsDeviceStream device_streams.old }
    ensures stands { (on : ℕ → Bool) (outs : ℕ → Option OutStream) (ins : ℕ → Option InStream)
        → All (λ p. on p.interface ≡ (p.domain == domain)) (ports device_streams.old) → DeviceStreamsStand device_streams.old outs ins
        → DeviceStreamsStand device_streams.new (changed_where on (λ interface. after_ticks ticks) outs) ins }
    ensures ports { ports device_streams.new ≡ ports device_streams.old }
    ensures sound { All IsDeviceStream device_streams.new }
{
    for device_stream in device_streams.iter_mut() {
        device_stream.count(domain, ticks);
    }
}

// The terminals of the bus in a domain take the next frames of their streams, or silence. Answers what the tick meets.
fn begin(device_streams: &mut [DeviceStream], domain: u8, wires: &mut Wires) -> Ticked
    requires few { length device_streams.old ≤ 8 }
    requires sound { All IsDeviceStream device_streams.old }
    requires wired { All (IsWiredIn wires.old) (ports device_streams.old) }
    ensures met { (outs : ℕ → Option OutStream) (ins : ℕ → Option InStream) → DeviceStreamsStand device_streams.old outs ins
        → result ≡ met_by domain outs ins (ports device_streams.old) }
    ensures stands { (on : ℕ → Bool) (outs : ℕ → Option OutStream) (ins : ℕ → Option InStream)
        → All (λ p. on p.interface ≡ (p.domain == domain)) (ports device_streams.old) → DeviceStreamsStand device_streams.old outs ins
        → DeviceStreamsStand device_streams.new (changed_where on (λ interface. after_taking) outs) ins }
    ensures frames { (outs : ℕ → Option OutStream) (ins : ℕ → Option InStream) → DeviceStreamsStand device_streams.old outs ins
        → (id : ℕ) → frame_on wires.new id ≡ frame_given_by domain id outs (ports device_streams.old) (frame_on wires.old id) }
    ensures lengths { (id : ℕ) → option_map length (frame_on wires.new id) ≡ option_map length (frame_on wires.old id) }
    ensures ports { ports device_streams.new ≡ ports device_streams.old }
    ensures sound { All IsDeviceStream device_streams.new }
{
    let mut bit: u16 = 1;
    let mut under: u16 = 0;
    let mut over: u16 = 0;
    for device_stream in device_streams.iter_mut() {
        let found = device_stream.begin(domain, wires);
        under = with_next_stream(under, bit, found.dry);
        over = with_next_stream(over, bit, found.full);
        bit = 2 * bit;
    }
    met_streams(under, over)
}

// The streams so far that were found so, as a number with a bit for each, and the next one, whose bit lies above them, where it was.
fn with_next_stream(bits: u16, bit: u16, found: bool) -> u16
    requires { bits + bit ≤ 65535 }
    ensures { result ≡ bits + (if found then bit else 0) }
{
    if found { bits + bit } else { bits }
}

// What a tick met: the streams that were found dry, and those found full.
fn met_streams(under: u16, over: u16) -> Ticked
    requires under { under ≤ 255 }
    requires over { over ≤ 255 }
    ensures { result ≡ record { under = under; over = over } }
{
    Ticked {
        under: under as u8,
        over: over as u8,
    }
}

// The streams from the terminals of a domain take the frames that these played.
fn put(device_streams: &mut [DeviceStream], domain: u8, wires: &Wires)
    requires sound { All IsDeviceStream device_streams.old }
    requires wired { All (IsWiredOut wires.now) (ports device_streams.old) }
    ensures stands { (on : ℕ → Bool) (played : ℕ → List ℤ) (outs : ℕ → Option OutStream) (ins : ℕ → Option InStream)
        → All (λ p. on p.interface ≡ (p.domain == domain)) (ports device_streams.old)
        → All (λ p. p.out ≡ false → 1 ≤ p.channels → frame_on wires.now p.terminal ≡ Some (played p.interface)) (ports device_streams.old)
        → DeviceStreamsStand device_streams.old outs ins
        → DeviceStreamsStand device_streams.new outs (changed_where on (λ interface. after_putting (played interface)) ins) }
    ensures ports { ports device_streams.new ≡ ports device_streams.old }
    ensures sound { All IsDeviceStream device_streams.new }
{
    for device_stream in device_streams.iter_mut() {
        device_stream.put(domain, wires);
    }
}
