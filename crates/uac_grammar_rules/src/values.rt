// The values of single fields that the standard allows (rule G4).
ghost use Rattle.std.specs.Prelude.{◌≡◌, ◌||◌};
ghost use Rattle.std.specs.List.{list_any};
ghost use Rattle.uac_grammar_rules.specs.Values.{has_wrong_value, is_barred};

use uac_descriptor::classes::VERSION_02_00;
use uac_descriptor::fields::{is_isochronous, is_no_format, is_no_high_speed};
use uac_descriptor::{Block, Context};

/// Whether a field of the block has a value that is not allowed there. Of the controls only those are judged that
/// are played (Audio Class 2.0, bmControls of 4.7.2 and of the descriptors after it: bits 10 are not allowed).
#[tactic(auto, unfolding(crate::specs::Values::has_wrong_value))]
pub fn has_wrong_value(context: Context, block: &Block) -> bool
    ensures { result ≡ has_wrong_value context block.now }
{
    match block {
        Block::Endpoint(endpoint) => {
            context.is_audio() && is_isochronous(endpoint) && is_no_high_speed(endpoint)
        }
        Block::Header(header) => header.version != VERSION_02_00,
        Block::InputTerminal(terminal) => second_is_barred(terminal.controls as u32),
        Block::OutputTerminal(terminal) => second_is_barred(terminal.controls as u32),
        Block::Mixer(mixer) => mixer.sources.as_slice().is_empty(),
        Block::Selector(selector) => {
            selector.sources.as_slice().is_empty() || first_is_barred(selector.controls as u32)
        }
        Block::Feature(feature) => { has_barred_mute_or_volume(feature.words.as_slice()) }
        Block::Effect(effect) => has_barred_enable(effect.words.as_slice()),
        Block::ClockSource(clock) => {
            first_is_barred(clock.controls as u32) || second_is_barred(clock.controls as u32)
        }
        Block::ClockSelector(clock) => {
            clock.sources.as_slice().is_empty() || first_is_barred(clock.controls as u32)
        }
        Block::ClockMultiplier(clock) => {
            first_is_barred(clock.controls as u32) || second_is_barred(clock.controls as u32)
        }
        Block::General(general) => {
            first_is_barred(general.controls as u32) || second_is_barred(general.controls as u32)
        }
        Block::TypeOne(format) => is_no_format(format),
        Block::Configuration(_)
        | Block::Association(_)
        | Block::Interface(_)
        | Block::Extra(_)
        | Block::ClassEndpoint(_)
        | Block::Foreign(_) => false,
    }
}

/// Bits 1..0 are 10.
fn first_is_barred(controls: u32) -> bool
    ensures { result ≡ is_barred 0 controls }
{
    controls % 4 == 2
}

/// Bits 3..2 are 10.
fn second_is_barred(controls: u32) -> bool
    ensures { result ≡ is_barred 1 controls }
{
    controls / 4 % 4 == 2
}

/// A control word of a feature with bits 10 for mute or volume.
fn has_barred_mute_or_volume(words: &[u32]) -> bool
    ensures { result ≡ list_any (λ word. is_barred 0 word || is_barred 1 word) words.now }
{
    words
        .iter()
        .any(|word| first_is_barred(*word) || second_is_barred(*word))
}

/// A control word of an effect with bits 10 for enable.
fn has_barred_enable(words: &[u32]) -> bool
    ensures { result ≡ list_any (λ word. is_barred 0 word) words.now }
{
    words.iter().any(|word| first_is_barred(*word))
}
