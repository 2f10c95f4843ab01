// Printing what output jacks played.
ghost use Rattle.std.specs.Prelude.{◌≡◌, ◌<◌, ◌==◌, true, if◌then◌else◌, ℕ, List, [], ◌∷◌, ◌++◌, Option};
ghost use Rattle.uac_edges.specs.Faults.{HasCause};
ghost use Rattle.uac_graph.specs.Meaning as meaning;
ghost use Rattle.uac_graph.specs.TickRows.{frames_at};
ghost use Rattle.uac_graph.specs.Wiring.{samples_on};
ghost use Rattle.uac_device.specs.DeviceKept.{DeviceStands};
ghost use Rattle.uac_device.specs.DeviceWorld.{DeviceWorld, is_output_jack};
ghost use Rattle.uac_transcript.specs.Printing.{Prints};
ghost use Rattle.uac_transcript.specs.Transcript.{Said, says_played};
ghost use Rattle.uac_running.specs.ReportLines.{Gathers, GathersMore, Shows, played_lines};

use arrayvec::ArrayVec;
use uac_device::{Device, OutputJack};
use uac_edges::{Failed, Sink, TextLine, give_all};
use uac_pcm::Frame;
use uac_topology::laws::functions_are_sound;
use uac_transcript::{push_played, write_played};

/// Prints what the output jacks of a domain played in the last tick, in block order.
pub(crate) fn write_jacks<K: Sink>(sink: &mut K, device: &Device, domain: u8) -> Result<(), Failed>
    ensures printed { (w : DeviceWorld) → DeviceStands device.now w
        → Prints (K.written sink.old) (K.written sink.new) result (played_lines domain w) }
    ensures cause { HasCause (K.faults sink.old) (K.faults sink.new) result }
{
    functions_are_sound(device.function());
    for jack in device.output_jacks() {
        write_jack(sink, device, domain, jack)?;
    }
    Ok(())
}

/// Prints what an output jack played in the last tick, where it is of the domain.
fn write_jack<K: Sink>(
    sink: &mut K,
    device: &Device,
    domain: u8,
    jack: &OutputJack,
) -> Result<(), Failed>
    requires kind { is_output_jack (meaning.entity device.now.function.entities jack.now.terminal) ≡ true }
    requires clock { (meaning.entity device.now.function.entities jack.now.terminal).clock ≡ jack.now.domain }
    ensures printed { (w : DeviceWorld) → DeviceStands device.now w → Prints (K.written sink.old) (K.written sink.new) result
        (if jack.now.domain == domain then says_played jack.now.terminal (w.played jack.now.terminal) ∷ [] else []) }
    ensures cause { HasCause (K.faults sink.old) (K.faults sink.new) result }
{
    if jack.domain == domain {
        return write_last(sink, device, jack.terminal);
    }
    Ok(())
}

/// Prints what an output jack played in the last tick.
fn write_last<K: Sink>(sink: &mut K, device: &Device, terminal: u8) -> Result<(), Failed>
    requires { is_output_jack (meaning.entity device.now.function.entities terminal) ≡ true }
    ensures printed { (w : DeviceWorld) → DeviceStands device.now w
        → Prints (K.written sink.old) (K.written sink.new) result (says_played terminal (w.played terminal) ∷ []) }
    ensures cause { HasCause (K.faults sink.old) (K.faults sink.new) result }
{
    match device.played(terminal) {
        Some(frame) => write_played(sink, terminal, frame),
        None => Ok(()),
    }
}

/// Gathers the lines of what the output jacks of a domain played, in block order, in one of the ticks that were done at once last.
pub(crate) fn gather_jacks<K: Sink>(
    text: &mut TextLine<1024>,
    sink: &mut K,
    device: &Device,
    domain: u8,
    tick: u32,
) -> Result<(), Failed>
    requires { tick < 128 }
    ensures gathered { (start : Option (List ℕ)) (lines : List Said) (w : DeviceWorld) → Shows tick domain device.now w
        → Gathers start (K.written sink.old) text.old lines
        → GathersMore start (K.written sink.new) text.new result (lines ++ played_lines domain w) }
    ensures cause { HasCause (K.faults sink.old) (K.faults sink.new) result }
{
    functions_are_sound(device.function());
    for jack in device.output_jacks() {
        if jack.domain == domain {
            gather_jack(text, sink, device, jack.terminal, tick)?;
        }
    }
    Ok(())
}

/// Gathers the line of what an output jack played in one of the ticks that were done at once last. Where the text has no room for it, that
/// is given first.
fn gather_jack<K: Sink>(
    text: &mut TextLine<1024>,
    sink: &mut K,
    device: &Device,
    terminal: u8,
    tick: u32,
) -> Result<(), Failed>
    requires { tick < 128 }
    ensures gathered { (start : Option (List ℕ)) (lines : List Said) → Gathers start (K.written sink.old) text.old lines
        → GathersMore start (K.written sink.new) text.new result
        (lines ++ says_played terminal (samples_on (frames_at tick device.now.rows) terminal) ∷ []) }
    ensures cause { HasCause (K.faults sink.old) (K.faults sink.new) result }
{
    if text.as_bytes().len() > 297 {
        give_all(sink, text.as_bytes())?;
        *text = TextLine::new();
    }
    let mut frame: Frame = ArrayVec::new();
    device.read_played(terminal, tick, &mut frame);
    push_played(text, terminal, &frame);
    Ok(())
}
