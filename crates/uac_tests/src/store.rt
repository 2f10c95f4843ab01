// The values and rates of small functions, with ample memory.
use crate::blocks::{
    bytes, clock, control, effect, feature, function_of, input, mixer, push, selector,
};
use std::alloc::{AllocError, Global};
use std::process::Abort;
use std::test::Fail;
use uac_descriptor::{Block, ClockMultiplier, ClockSelector, NoMemory};
use uac_store::{Key, Range, Store, ranges};
use uac_topology::Function;

/// What is tried on a function and its controls.
#[derive(Clone, Copy)]
enum Trial {
    StartValues,
    Rates,
    Ranges,
    Frequencies,
    UnitValues,
    ClockValues,
}

fn push_for(trial: Trial, alloc: Global, blocks: &mut Vec<Block>) -> Result<(), AllocError> {
    match trial {
        Trial::StartValues => push_headset(alloc, blocks),
        Trial::Rates => push_clocks(alloc, blocks),
        Trial::Ranges | Trial::Frequencies | Trial::UnitValues | Trial::ClockValues => {
            push_boxes(alloc, blocks)
        }
    }
}

fn function(alloc: Global, trial: Trial) -> Result<Function, AllocError> {
    let mut blocks = Vec::new(alloc);
    push_for(trial, alloc, &mut blocks)?;
    function_of(alloc, &blocks)
}

// The function and the store are each let go of at one place, since a proof has every step of that at each.
fn try_on_store(
    rt: &impl Abort,
    alloc: Global,
    trial: Trial,
    function: &Function,
) -> Result<(), AllocError> {
    let mut store = match Store::new(alloc, function) {
        Ok(store) => store,
        Err(NoMemory) => return Err(AllocError),
    };
    act(rt, trial, function, &mut store);
    Ok(())
}

/// Tries this on a new store.
fn try_out(rt: &impl Abort, alloc: Global, trial: Trial) -> Result<(), AllocError> {
    let function = function(alloc, trial)?;
    try_on_store(rt, alloc, trial, &function)
}

fn act(rt: &impl Abort, trial: Trial, function: &Function, store: &mut Store) {
    match trial {
        Trial::StartValues => expect_start(rt, store),
        Trial::Rates => expect_rates(rt, function, store),
        Trial::Ranges => expect_ranges(rt, function),
        Trial::Frequencies => expect_frequencies(rt, function),
        Trial::UnitValues => expect_units(rt, store, function),
        Trial::ClockValues => {
            expect_clock_values(rt, store, function);
            expect_rated(rt, store, function)
        }
    }
}

pub(crate) fn key(entity: u8, selector: u8, channel: u8) -> Key {
    Key {
        entity,
        selector,
        channel,
    }
}

// A new value for a control that is there.
pub(crate) fn hold(store: &mut Store, key: Key, value: i32) {
    if store.cur(key).is_some() {
        store.set(key, value);
    }
}

// The headset's clock, microphone feature, and a mixer of two inputs and three outputs on both terminals.
fn push_headset(alloc: Global, blocks: &mut Vec<Block>) -> Result<(), AllocError> {
    push(blocks, control(0))?;
    push(blocks, clock(1, 3))?;
    push(blocks, input(2, 0x0201, 2, 0))?;
    push(blocks, input(5, 0x0201, 1, 0))?;
    let mouth = feature(alloc, 6, 5, &[3, 12])?;
    push(blocks, mouth)?;
    let mixed = mixer(alloc, 8, &[2, 6], 3, 0, &[0xff, 0x80])?;
    push(blocks, mixed)
}

// The headset with a selector and an effect of its terminals, and a second clock that is fixed, a selector of both clocks
// and a multiplier of what it chooses.
fn push_boxes(alloc: Global, blocks: &mut Vec<Block>) -> Result<(), AllocError> {
    push_headset(alloc, blocks)?;
    let chosen = selector(alloc, 9, &[2, 2])?;
    push(blocks, chosen)?;
    let bypassed = effect(alloc, 10, 0, 5, &[3, 3])?;
    push(blocks, bypassed)?;
    push(blocks, clock(11, 1))?;
    push_clock_units(alloc, blocks, &[1, 11], 12, 13)
}

// A selector over these clocks, and a multiplier of what it chooses.
fn push_clock_units(
    alloc: Global,
    blocks: &mut Vec<Block>,
    clocks: &[u8; 2],
    selector: u8,
    multiplier: u8,
) -> Result<(), AllocError> {
    let sources = bytes(alloc, clocks)?;
    push(
        blocks,
        Block::ClockSelector(ClockSelector {
            id: selector,
            sources,
            controls: 3,
            name: 0,
        }),
    )?;
    push(
        blocks,
        Block::ClockMultiplier(ClockMultiplier {
            id: multiplier,
            source: selector,
            controls: 15,
            name: 0,
        }),
    )
}

// Two sources, a selector over them, and a multiplier of what it chooses.
fn push_clocks(alloc: Global, blocks: &mut Vec<Block>) -> Result<(), AllocError> {
    push(blocks, control(0))?;
    push(blocks, clock(1, 3))?;
    push(blocks, clock(2, 3))?;
    push_clock_units(alloc, blocks, &[1, 2], 3, 4)
}

// The values at the start, by entity, selector and channel, and a volume that is set.
fn expect_start(rt: &impl Abort, store: &mut Store) {
    for (entity, selector, channel, want) in [
        (1, 1, 0, Some(48000)),
        (1, 2, 0, None),
        (2, 2, 0, None),
        (6, 1, 0, Some(0)),
        (6, 2, 1, Some(0)),
        (6, 2, 2, None),
        (6, 3, 0, None),
        (8, 1, 4, Some(0)),
        (8, 1, 5, Some(-32768)),
        (8, 1, 6, Some(0)),
        (8, 1, 9, None),
        (9, 1, 0, None),
    ] {
        assert_eq!(rt; store.cur(key(entity, selector, channel)), want);
    }
    hold(store, key(6, 2, 1), -256);
    assert_eq!(rt; store.cur(key(6, 2, 1)), Some(-256));
    assert_eq!(rt; store.cur(key(6, 2, 0)), Some(0));
}

#[test]
fn controls_have_start_values(rt: HostRuntime) -> Result<(), Fail> {
    try_out(&rt, rt.alloc(), Trial::StartValues)?;
    Ok(())
}

// The rates behind the multiplier, once the first clock is chosen and the second has another frequency.
fn expect_rates(rt: &impl Abort, function: &Function, store: &mut Store) {
    assert_eq!(rt; store.rate(function, 4), Some(48000));
    hold(store, key(2, 1, 0), 44100);
    hold(store, key(4, 1, 0), 2);
    assert_eq!(rt; store.rate(function, 4), Some(96000));
    for (pin, denominator, want) in [
        (2, 8, Some(11025)),
        (2, 1, Some(88200)),
        (1, 8, None),
        (2, 7, None),
        (2, 16, None),
        (3, 1, None),
    ] {
        hold(store, key(3, 1, 0), pin);
        hold(store, key(4, 2, 0), denominator);
        assert_eq!(rt; store.rate(function, 4), want);
    }
    assert_eq!(rt; store.rate(function, 2), Some(44100));
    assert_eq!(rt; store.rate(function, 9), None);
}

#[test]
fn rates_follow_the_clocks(rt: HostRuntime) -> Result<(), Fail> {
    try_out(&rt, rt.alloc(), Trial::Rates)?;
    Ok(())
}

// Whether a control has these subranges, each as MIN, MAX and RES.
fn has_ranges(function: &Function, key: Key, wanted: &[(i32, i32, i32)]) -> bool {
    match ranges(function, key) {
        Some(told) => are_ranges(told.as_slice(), wanted),
        None => false,
    }
}

fn are_ranges(told: &[Range], wanted: &[(i32, i32, i32)]) -> bool {
    for (range, want) in told.iter().zip(wanted.iter()) {
        if (range.min, range.max, range.res) != *want {
            return false;
        }
    }
    told.len() == wanted.len()
}

// Controls of a subrange alone, the volumes, and what has none.
fn expect_ranges(rt: &impl Abort, function: &Function) {
    for (entity, selector, want) in [
        (11, 1, (48000, 48000, 0)),
        (12, 1, (1, 2, 1)),
        (13, 1, (1, 8, 1)),
        (13, 2, (1, 8, 1)),
        (9, 1, (1, 2, 1)),
    ] {
        assert!(rt;
            has_ranges(function, key(entity, selector, 0), &[want]),
            "{entity}"
        );
    }
    let volumes = [(-24576, -8448, 256), (-8192, 3072, 128)];
    assert!(rt; has_ranges(function, key(8, 1, 8), &volumes));
    assert!(rt; has_ranges(function, key(6, 2, 0), &volumes));
    assert!(rt; has_ranges(function, key(6, 2, 1), &volumes));
    expect_no_ranges(rt, function);
}

fn expect_no_ranges(rt: &impl Abort, function: &Function) {
    for (entity, selector, channel) in [
        (6, 1, 0),
        (10, 1, 1),
        (1, 2, 0),
        (2, 2, 0),
        (6, 2, 2),
        (8, 1, 9),
        (12, 0, 0),
        (13, 3, 0),
        (14, 1, 0),
    ] {
        assert!(rt;
            ranges(function, key(entity, selector, channel)).is_none(),
            "{entity}"
        );
    }
}

#[test]
fn controls_have_ranges(rt: HostRuntime) -> Result<(), Fail> {
    try_out(&rt, rt.alloc(), Trial::Ranges)?;
    Ok(())
}

fn expect_frequencies(rt: &impl Abort, function: &Function) {
    let twelve = [
        (8000, 8000, 0),
        (11025, 11025, 0),
        (16000, 16000, 0),
        (22050, 22050, 0),
        (32000, 32000, 0),
        (44100, 44100, 0),
        (48000, 48000, 0),
        (64000, 64000, 0),
        (88200, 88200, 0),
        (96000, 96000, 0),
        (176400, 176400, 0),
        (192000, 192000, 0),
    ];
    assert!(rt; has_ranges(function, key(1, 1, 0), &twelve));
}

#[test]
fn frequencies_are_the_twelve(rt: HostRuntime) -> Result<(), Fail> {
    try_out(&rt, rt.alloc(), Trial::Frequencies)?;
    Ok(())
}

// Whether a control is there and the value is legal for it.
fn may_hold(store: &Store, function: &Function, key: Key, value: i32) -> bool {
    store.cur(key).is_some() && store.legal(function, key, value)
}

// Whether a control may have each of these values, or none of them.
fn expect_each(
    rt: &impl Abort,
    store: &Store,
    function: &Function,
    key: Key,
    values: &[i32],
    want: bool,
) {
    for value in values {
        assert_eq!(rt; may_hold(store, function, key, *value), want, "{value}");
    }
}

// The values that a volume may have, and values near them that it may not.
fn expect_volumes(rt: &impl Abort, store: &Store, function: &Function, volume: Key) {
    let within = [
        0, -256, -24576, -32768, -128, -8192, -8064, -8448, 128, 256, 3072,
    ];
    let beside = [
        -64, -1, -8320, -24448, -24575, -24577, -24832, -32767, -32769, -65536, 64, 3071, 3200,
        32768,
    ];
    expect_each(rt, store, function, volume, &within, true);
    expect_each(rt, store, function, volume, &beside, false);
}

// The values that mutes, a bypass and a selector of two pins may have.
fn expect_choices(rt: &impl Abort, store: &Store, function: &Function) {
    for (entity, channel, value, want) in [
        (6, 0, 0, true),
        (6, 0, 1, true),
        (6, 0, 2, false),
        (6, 0, -1, false),
        (10, 1, 0, true),
        (10, 1, 1, true),
        (10, 1, 2, false),
        (10, 1, -1, false),
        (9, 0, 0, false),
        (9, 0, 1, true),
        (9, 0, 2, true),
        (9, 0, 3, false),
        (9, 0, -1, false),
    ] {
        assert_eq!(rt;
            may_hold(store, function, key(entity, 1, channel), value),
            want,
            "{entity} {value}"
        );
    }
}

fn expect_units(rt: &impl Abort, store: &Store, function: &Function) {
    expect_volumes(rt, store, function, key(6, 2, 1));
    expect_volumes(rt, store, function, key(8, 1, 5));
    expect_choices(rt, store, function);
}

#[test]
fn legal_values_of_units(rt: HostRuntime) -> Result<(), Fail> {
    try_out(&rt, rt.alloc(), Trial::UnitValues)?;
    Ok(())
}

// The values that clocks may have at the start, by entity and selector.
fn expect_clock_values(rt: &impl Abort, store: &Store, function: &Function) {
    for (entity, selector, value, want) in [
        (1, 1, 44100, true),
        (1, 1, 44000, false),
        (1, 1, -8000, false),
        (11, 1, 48000, true),
        (11, 1, 44100, false),
        (12, 1, 0, false),
        (12, 1, 2, true),
        (12, 1, 3, false),
        (13, 1, 0, false),
        (13, 1, 4, true),
        (13, 1, 8, false),
        (13, 1, 9, false),
        (13, 2, 6, true),
        (13, 2, 7, false),
    ] {
        assert_eq!(rt;
            may_hold(store, function, key(entity, selector, 0), value),
            want,
            "{entity} {value}"
        );
    }
}

// A value is legal only while every clock entity has a rate with it.
fn expect_rated(rt: &impl Abort, store: &mut Store, function: &Function) {
    hold(store, key(13, 1, 0), 4);
    assert_eq!(rt; may_hold(store, function, key(1, 1, 0), 44100), true);
    assert_eq!(rt; may_hold(store, function, key(1, 1, 0), 96000), false);
    hold(store, key(12, 1, 0), 2);
    assert_eq!(rt; may_hold(store, function, key(1, 1, 0), 96000), true);
    hold(store, key(1, 1, 0), 96000);
    assert_eq!(rt; may_hold(store, function, key(12, 1, 0), 1), false);
}

#[test]
fn legal_values_of_clocks(rt: HostRuntime) -> Result<(), Fail> {
    try_out(&rt, rt.alloc(), Trial::ClockValues)?;
    Ok(())
}
