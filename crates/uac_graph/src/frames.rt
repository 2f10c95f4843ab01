// Silent frames.
ghost use Rattle.std.specs.Prelude.{◌≡◌, ◌≤◌};
ghost use Rattle.uac_graph.specs.Wiring.{silence};

use arrayvec::ArrayVec;
use uac_pcm::Frame;

/// A frame of so many channels, all silent.
pub(crate) fn silent(channels: u8) -> Frame
    requires { channels ≤ 32 }
    ensures { result.items ≡ silence channels }
{
    let mut frame = ArrayVec::new();
    for _each in 0..channels {
        frame.push(0);
    }
    frame
}
