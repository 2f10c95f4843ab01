// The class blocks of the audio control interface as bytes (Audio Class 2.0, 4.7.2).
ghost use Rattle.std.specs.Prelude.{◌≡◌, ◌++◌, OnOk, OnErr};
ghost use Rattle.uac_descriptor.specs.Spelling.{spelling};
ghost use Rattle.uac_descriptor.specs.declared.block.Block.TheVariants as block;

use crate::codes::{
    CLOCK_MULTIPLIER, CLOCK_SELECTOR, CLOCK_SOURCE, CS_INTERFACE, EFFECT_UNIT, FEATURE_UNIT,
    HEADER, INPUT_TERMINAL, MIXER_UNIT, OUTPUT_TERMINAL, SELECTOR_UNIT,
};
use crate::control::{
    ClockMultiplier, ClockSelector, ClockSource, Effect, Feature, Header, InputTerminal, Mixer,
    OutputTerminal, Selector,
};
use crate::lists::{ByteList, NoMemory};
use crate::write::piece::{Piece, extend, extend_words, four, two};

#[tactic(auto, unfolding(crate::specs::Spelling::spelling))]
pub(super) fn header(row: &Header, out: &mut ByteList) -> Result<(), NoMemory>
    ensures appended { OnOk result (out.new ≡ out.old ++ spelling (block.Header row.now)) }
    ensures unchanged { OnErr result (out.new ≡ out.old) }
{
    let [version_low, version_high] = two(row.version);
    let [total_low, total_high] = two(row.total);
    out.append(&[
        9,
        CS_INTERFACE,
        HEADER,
        version_low,
        version_high,
        row.category,
        total_low,
        total_high,
        row.controls,
    ])
}

#[tactic(auto, unfolding(crate::specs::Spelling::spelling))]
pub(super) fn clock_source(row: &ClockSource, out: &mut ByteList) -> Result<(), NoMemory>
    ensures appended { OnOk result (out.new ≡ out.old ++ spelling (block.ClockSource row.now)) }
    ensures unchanged { OnErr result (out.new ≡ out.old) }
{
    out.append(&[
        8,
        CS_INTERFACE,
        CLOCK_SOURCE,
        row.id,
        row.attributes,
        row.controls,
        row.assoc,
        row.name,
    ])
}

#[tactic(auto, unfolding(crate::specs::Spelling::spelling))]
pub(super) fn clock_selector(row: &ClockSelector, out: &mut ByteList) -> Result<(), NoMemory>
    ensures appended { OnOk result (out.new ≡ out.old ++ spelling (block.ClockSelector row.now)) }
    ensures unchanged { OnErr result (out.new ≡ out.old) }
{
    let pins = row.sources.as_slice();
    let size = 7 + pins.len();
    let mut piece = Piece::new();
    extend(
        &mut piece,
        &[
            size as u8,
            CS_INTERFACE,
            CLOCK_SELECTOR,
            row.id,
            pins.len() as u8,
        ],
    );
    extend(&mut piece, pins);
    extend(&mut piece, &[row.controls, row.name]);
    out.append(piece.as_slice())
}

#[tactic(auto, unfolding(crate::specs::Spelling::spelling))]
pub(super) fn clock_multiplier(row: &ClockMultiplier, out: &mut ByteList) -> Result<(), NoMemory>
    ensures appended { OnOk result (out.new ≡ out.old ++ spelling (block.ClockMultiplier row.now)) }
    ensures unchanged { OnErr result (out.new ≡ out.old) }
{
    out.append(&[
        7,
        CS_INTERFACE,
        CLOCK_MULTIPLIER,
        row.id,
        row.source,
        row.controls,
        row.name,
    ])
}

#[tactic(auto, unfolding(crate::specs::Spelling::spelling))]
pub(super) fn input_terminal(row: &InputTerminal, out: &mut ByteList) -> Result<(), NoMemory>
    ensures appended { OnOk result (out.new ≡ out.old ++ spelling (block.InputTerminal row.now)) }
    ensures unchanged { OnErr result (out.new ≡ out.old) }
{
    let [type_low, type_high] = two(row.terminal_type);
    let [l0, l1, l2, l3] = four(row.locations);
    let [controls_low, controls_high] = two(row.controls);
    out.append(&[
        17,
        CS_INTERFACE,
        INPUT_TERMINAL,
        row.id,
        type_low,
        type_high,
        row.assoc,
        row.clock,
        row.channels,
        l0,
        l1,
        l2,
        l3,
        row.names,
        controls_low,
        controls_high,
        row.name,
    ])
}

#[tactic(auto, unfolding(crate::specs::Spelling::spelling))]
pub(super) fn output_terminal(row: &OutputTerminal, out: &mut ByteList) -> Result<(), NoMemory>
    ensures appended { OnOk result (out.new ≡ out.old ++ spelling (block.OutputTerminal row.now)) }
    ensures unchanged { OnErr result (out.new ≡ out.old) }
{
    let [type_low, type_high] = two(row.terminal_type);
    let [controls_low, controls_high] = two(row.controls);
    out.append(&[
        12,
        CS_INTERFACE,
        OUTPUT_TERMINAL,
        row.id,
        type_low,
        type_high,
        row.assoc,
        row.source,
        row.clock,
        controls_low,
        controls_high,
        row.name,
    ])
}

#[tactic(auto, unfolding(crate::specs::Spelling::spelling))]
pub(super) fn mixer(row: &Mixer, out: &mut ByteList) -> Result<(), NoMemory>
    ensures appended { OnOk result (out.new ≡ out.old ++ spelling (block.Mixer row.now)) }
    ensures unchanged { OnErr result (out.new ≡ out.old) }
{
    let pins = row.sources.as_slice();
    let bits = row.mix_bits.as_slice();
    let size = 13 + pins.len() + bits.len();
    let [l0, l1, l2, l3] = four(row.locations);
    let mut piece = Piece::new();
    extend(
        &mut piece,
        &[
            size as u8,
            CS_INTERFACE,
            MIXER_UNIT,
            row.id,
            pins.len() as u8,
        ],
    );
    extend(&mut piece, pins);
    extend(&mut piece, &[row.channels, l0, l1, l2, l3, row.names]);
    extend(&mut piece, bits);
    extend(&mut piece, &[row.controls, row.name]);
    out.append(piece.as_slice())
}

#[tactic(auto, unfolding(crate::specs::Spelling::spelling))]
pub(super) fn selector(row: &Selector, out: &mut ByteList) -> Result<(), NoMemory>
    ensures appended { OnOk result (out.new ≡ out.old ++ spelling (block.Selector row.now)) }
    ensures unchanged { OnErr result (out.new ≡ out.old) }
{
    let pins = row.sources.as_slice();
    let size = 7 + pins.len();
    let mut piece = Piece::new();
    extend(
        &mut piece,
        &[
            size as u8,
            CS_INTERFACE,
            SELECTOR_UNIT,
            row.id,
            pins.len() as u8,
        ],
    );
    extend(&mut piece, pins);
    extend(&mut piece, &[row.controls, row.name]);
    out.append(piece.as_slice())
}

#[tactic(auto, unfolding(crate::specs::Spelling::spelling))]
pub(super) fn feature(row: &Feature, out: &mut ByteList) -> Result<(), NoMemory>
    ensures appended { OnOk result (out.new ≡ out.old ++ spelling (block.Feature row.now)) }
    ensures unchanged { OnErr result (out.new ≡ out.old) }
{
    let words = row.words.as_slice();
    let size = 6 + 4 * words.len();
    let mut piece = Piece::new();
    extend(
        &mut piece,
        &[size as u8, CS_INTERFACE, FEATURE_UNIT, row.id, row.source],
    );
    extend_words(&mut piece, words);
    extend(&mut piece, &[row.name]);
    out.append(piece.as_slice())
}

#[tactic(auto, unfolding(crate::specs::Spelling::spelling))]
pub(super) fn effect(row: &Effect, out: &mut ByteList) -> Result<(), NoMemory>
    ensures appended { OnOk result (out.new ≡ out.old ++ spelling (block.Effect row.now)) }
    ensures unchanged { OnErr result (out.new ≡ out.old) }
{
    let words = row.words.as_slice();
    let size = 8 + 4 * words.len();
    let [type_low, type_high] = two(row.effect_type);
    let mut piece = Piece::new();
    extend(
        &mut piece,
        &[
            size as u8,
            CS_INTERFACE,
            EFFECT_UNIT,
            row.id,
            type_low,
            type_high,
            row.source,
        ],
    );
    extend_words(&mut piece, words);
    extend(&mut piece, &[row.name]);
    out.append(piece.as_slice())
}
