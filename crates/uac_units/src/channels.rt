// The channels of a frame.

ghost use Rattle.std.specs.Prelude.{◌≡◌, ◌≤◌, length};

use uac_pcm::Frame;

/// Gives a frame so many channels. Where it has them its samples stay, and nothing is cleared.
pub(crate) fn fit(frame: &mut Frame, channels: usize)
    requires { channels ≤ 32 }
    ensures { length frame.new.items ≡ channels }
{
    frame.truncate(channels);
    for _each in frame.len()..channels {
        frame.push(0);
    }
}
