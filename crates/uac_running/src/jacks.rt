// The jacks' tones.
ghost use Rattle.std.specs.Prelude.{◌≡◌, ◌≤◌, true, IfOk, map, filter};
ghost use Rattle.std.specs.List.{All, list_any};
ghost use Rattle.uac_graph.specs.Meaning.{entity};
ghost use Rattle.uac_device.specs.DeviceKept.{DeviceStands};
ghost use Rattle.uac_device.specs.DeviceWorld.{DeviceWorld};
ghost use Rattle.uac_device.specs.DeviceWorld as world;
ghost use Rattle.uac_running.specs.Events.{after_one, after_jacks, after_jack, jacks_after_frame};
ghost use Rattle.uac_running.specs.EventTicks.{jack_after, jacks_after};
ghost use Rattle.uac_running.specs.RunningWorld as spec;
ghost use Rattle.uac_running.specs.Silence as silence;
ghost use Rattle.uac_running.specs.Silence.{AreAtRest};

use std::alloc::Global;
use uac_descriptor::NoMemory;
use uac_device::{Device, Jack, is_input_jack};
use uac_entities::Entity;
use uac_pcm::Tone;

/// The input jacks among these entities, each silent.
pub(crate) fn silent_jacks(alloc: Global, entities: &[Entity]) -> Result<Vec<Jack>, NoMemory>
    ensures { IfOk result (λ jacks. jacks.items ≡ map spec.silent_jack (filter world.is_input_jack entities.now)) }
{
    let mut jacks = Vec::new(alloc);
    for entity in entities {
        if !is_input_jack(entity) {
            continue;
        }
        jacks.push(silent_jack(entity))?;
    }
    Ok(jacks)
}

fn silent_jack(entity: &Entity) -> Jack
    ensures { result ≡ spec.silent_jack entity.now }
{
    Jack {
        terminal: entity.id,
        domain: entity.clock,
        channels: entity.cluster.channels,
        tone: Tone::Silent,
        place: 0,
    }
}

/// A jack gives this tone from now on, from its first frame.
pub(crate) fn set_tone(jacks: &mut [Jack], terminal: u8, tone: Tone)
    ensures { jacks.new ≡ map (spec.jack_with_tone terminal tone) jacks.old }
{
    for jack in jacks.iter_mut() {
        *jack = jack_with_tone(*jack, terminal, tone);
    }
}

fn jack_with_tone(jack: Jack, terminal: u8, tone: Tone) -> Jack
    ensures { result ≡ spec.jack_with_tone terminal tone jack }
{
    if jack.terminal == terminal {
        Jack {
            tone,
            place: 0,
            ..jack
        }
    } else {
        jack
    }
}

/// Whether a jack gives more than silence.
pub(crate) fn any_is_audible(jacks: &[Jack]) -> bool
    ensures { result ≡ list_any (λ j. silence.is_audible j.tone) jacks.now }
{
    jacks.iter().any(|jack| is_audible(jack.tone))
}

/// Whether a jack of a domain gives more than silence.
pub(crate) fn one_is_audible(jacks: &[Jack], domain: u8) -> bool
    ensures { result ≡ silence.one_is_audible domain jacks.now }
{
    jacks
        .iter()
        .any(|jack| jack.domain == domain && is_audible(jack.tone))
}

fn is_audible(tone: Tone) -> bool
    ensures { result ≡ silence.is_audible tone }
{
    match tone {
        Tone::Silent => false,
        Tone::Ramp { .. } | Tone::Noise { .. } => true,
    }
}

/// The jacks of a domain give the device the next frames of their tones. Where they rest, the device has these frames: each is silence, and
/// so was the last.
pub(crate) fn next_frames(device: &mut Device, jacks: &mut [Jack], domain: u8, rest: bool)
    requires kinds { All (λ j. world.is_input_jack (entity device.old.function.entities j.terminal) ≡ true) jacks.old }
    requires channels { All (λ j. (entity device.old.function.entities j.terminal).cluster.channels ≡ j.channels) jacks.old }
    ensures stands { (w : DeviceWorld) → DeviceStands device.old w → (rest ≡ true → AreAtRest domain jacks.old w)
        → DeviceStands device.new (after_jacks domain jacks.old w) }
    ensures jacks { jacks.new ≡ jacks_after_frame domain jacks.old }
    ensures function { device.new.function ≡ device.old.function }
{
    if rest {
        pass_frames(jacks, domain, 1);
    } else {
        give_jacks(device, jacks, domain);
    }
}

/// The jacks of a domain gave so many frames more.
pub(crate) fn pass_frames(jacks: &mut [Jack], domain: u8, count: u32)
    ensures { jacks.new ≡ jacks_after domain count jacks.old }
{
    for passed in jacks.iter_mut() {
        pass_some(passed, domain, count);
    }
}

/// A jack of the domain gave so many frames more.
fn pass_some(jack: &mut Jack, domain: u8, count: u32)
    ensures { jack.new ≡ jack_after domain count jack.old }
{
    if jack.domain == domain {
        jack.place = jack.place.saturating_add(count.into());
    }
}

/// The jacks of a domain give the device the next frames of their tones.
fn give_jacks(device: &mut Device, jacks: &mut [Jack], domain: u8)
    requires kinds { All (λ j. world.is_input_jack (entity device.old.function.entities j.terminal) ≡ true) jacks.old }
    requires channels { All (λ j. (entity device.old.function.entities j.terminal).cluster.channels ≡ j.channels) jacks.old }
    ensures stands { (w : DeviceWorld) → DeviceStands device.old w → DeviceStands device.new (after_jacks domain jacks.old w) }
    ensures jacks { jacks.new ≡ jacks_after_frame domain jacks.old }
    ensures function { device.new.function ≡ device.old.function }
{
    for jack in jacks.iter_mut() {
        give_jack(device, jack, domain);
    }
}

/// A jack of the domain gives the device the next frame of its tone, and has given one more.
fn give_jack(device: &mut Device, jack: &mut Jack, domain: u8)
    requires kind { world.is_input_jack (entity device.old.function.entities jack.old.terminal) ≡ true }
    requires channels { (entity device.old.function.entities jack.old.terminal).cluster.channels ≡ jack.old.channels }
    ensures stands { (w : DeviceWorld) → DeviceStands device.old w
        → DeviceStands device.new (after_jack domain jack.old w) }
    ensures jack { jack.new ≡ after_one domain jack.old }
    ensures function { device.new.function ≡ device.old.function }
{
    if jack.domain == domain {
        device.give_tone(jack.terminal, jack.tone, jack.place);
        jack.place = jack.place.saturating_add(1);
    }
}
