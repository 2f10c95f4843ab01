// The beginning and the end of a tick in the device's streams, which a device that is still leaves out.
ghost use Rattle.std.specs.Prelude.{◌≡◌, ◌≤◌, ℕ, true, false, length};
ghost use Rattle.std.specs.List.{All};
ghost use Rattle.std.specs.Option.{option_map};
ghost use Rattle.uac_graph.specs.Wiring.{frame_on};
ghost use Rattle.uac_device.specs.DeviceStreams.{IsWiredIn, IsWiredOut, ports};
ghost use Rattle.uac_device.specs.Stillness.{HasBegun, TickHasEnded};

use crate::device_streams::DeviceStreams;
use crate::ticking::Ticked;
use uac_graph::Wires;

/// A tick of a domain begins in the device's streams. Where the device is still nothing changes, and nothing is met.
pub(crate) fn begin_unless(
    still: bool,
    device_streams: &mut DeviceStreams,
    domain: u8,
    wires: &mut Wires,
) -> Ticked
    requires few { length device_streams.old ≤ 8 }
    requires wired { All (IsWiredIn wires.old) (ports device_streams.old) }
    ensures begun { still ≡ false → HasBegun domain device_streams.old device_streams.new wires.old wires.new result }
    ensures rests { still ≡ true
        → (device_streams.new ≡ device_streams.old) × (wires.new ≡ wires.old) × (result ≡ record { under = 0; over = 0 }) }
    ensures lengths { (id : ℕ) → option_map length (frame_on wires.new id) ≡ option_map length (frame_on wires.old id) }
    ensures ports { ports device_streams.new ≡ ports device_streams.old }
{
    if still {
        return Ticked { under: 0, over: 0 };
    }
    device_streams.begin(domain, wires)
}

/// A tick of a domain ends in the device's streams. Where the device is still nothing changes.
pub(crate) fn put_unless(still: bool, device_streams: &mut DeviceStreams, domain: u8, wires: &Wires)
    requires { All (IsWiredOut wires.now) (ports device_streams.old) }
    ensures ended { still ≡ false → TickHasEnded domain device_streams.old device_streams.new wires.now }
    ensures rests { still ≡ true → device_streams.new ≡ device_streams.old }
    ensures ports { ports device_streams.new ≡ ports device_streams.old }
{
    if !still {
        device_streams.put(domain, wires);
    }
}
