// What a line of the script names: jacks, domains, streams, and the packets and reports of these.
ghost use Rattle.std.specs.Prelude.{◌≡◌, ◌≢◌, ◌==◌, ◌%◌, List};
ghost use Rattle.std.specs.List.{list_all, list_any};
ghost use Rattle.uac_script.specs.Line.{phrase_mark};
ghost use Rattle.uac_units.specs.Hearing.{Reading};
ghost use Rattle.uac_running.specs.RunningKept.{RunningStandsBetween};
ghost use Rattle.uac_running.specs.RunningNames as spec;
ghost use Rattle.uac_running.specs.RunningWorld.{RunningWorld};

use crate::running::Running;
use uac_device::Jack;
use uac_script::{Mark, MarkKind};
use uac_topology::laws::{entities_have_channels, functions_are_sound};
use uac_topology::{Function, StreamInterface};

impl Running {
    /// Whether there is an input jack with this id.
    pub fn has_jack(&self, terminal: u8) -> bool
        ensures { (meters : List Reading) (r : RunningWorld) → RunningStandsBetween self.now meters r → result ≡ spec.has_jack r terminal }
    {
        has_jack(&self.jacks, terminal)
    }

    /// Whether there is a domain with this id.
    pub fn has_domain(&self, domain: u8) -> bool
        ensures { (meters : List Reading) (r : RunningWorld) → RunningStandsBetween self.now meters r → result ≡ spec.has_domain r domain }
    {
        self.device.function().domains().contains(&domain)
    }
}

/// Whether one of the jacks has this id.
fn has_jack(jacks: &[Jack], terminal: u8) -> bool
    ensures { result ≡ list_any (λ j. j.terminal == terminal) jacks.now }
{
    jacks.iter().any(|jack| jack.terminal == terminal)
}

/// Whether the interface carries a stream to the device, and links to a terminal.
fn carries_out(stream: &StreamInterface) -> bool
    ensures { result ≡ spec.carries_out stream.now }
{
    stream.out && stream.terminal != 0
}

/// Whether the interface carries a stream from the device, and links to a terminal.
fn carries_in(stream: &StreamInterface) -> bool
    ensures { result ≡ spec.carries_in stream.now }
{
    !stream.out && stream.terminal != 0
}

/// Whether the interface of this number carries a stream to the device.
pub fn has_out(function: &Function, number: u8) -> bool
    ensures { result ≡ spec.has_out function.now number }
{
    match function.interface(number) {
        Some(stream) => carries_out(stream),
        None => false,
    }
}

/// Whether the interface of this number carries a stream from the device.
fn has_in(function: &Function, number: u8) -> bool
    ensures { result ≡ spec.has_in function.now number }
{
    match function.interface(number) {
        Some(stream) => carries_in(stream),
        None => false,
    }
}

/// Whether a mark names an interface that has such packets or reports.
fn names_stream(function: &Function, mark: &Mark) -> bool
    ensures { result ≡ spec.names_stream function.now (phrase_mark mark.now) }
{
    match mark.kind {
        MarkKind::Out => has_out(function, mark.interface),
        MarkKind::In => has_in(function, mark.interface),
        MarkKind::Feedback => has_out(function, mark.interface),
    }
}

/// Whether every mark names a stream of its kind.
pub fn all_name_streams(function: &Function, marks: &[Mark]) -> bool
    ensures { result ≡ list_all (λ mark. spec.names_stream function.now (phrase_mark mark)) marks.now }
{
    marks.iter().all(|mark| names_stream(function, mark))
}

/// Whether the interface of this number carries a stream to the device, and so many samples are whole frames of it.
#[tactic(auto, unfolding(crate::specs::RunningNames::are_frames))]
pub fn are_frames(function: &Function, number: u8, count: usize) -> bool
    ensures { result ≡ spec.are_frames function.now number count }
{
    functions_are_sound(function);
    entities_have_channels();
    match function.interface(number) {
        Some(stream) => {
            carries_out(stream) && are_whole(count, function.channels_of(stream.terminal))
        }
        None => false,
    }
}

/// Whether so many samples are whole frames of so many channels.
fn are_whole(count: usize, channels: u8) -> bool
    requires { channels ≢ 0 }
    ensures { result ≡ (count % channels == 0) }
{
    count % usize::from(channels) == 0
}
