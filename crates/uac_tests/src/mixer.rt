// A view of a small device: a jack through a feature to a jack, under one clock that can be set.
ghost use Rattle.std.specs.Prelude.{◌≡◌, IfOk};
ghost use Rattle.uac_device.specs.DeviceKept.{DeviceFields};
ghost use Rattle.uac_store.specs.StoreControls.{IsStoreOf};

use crate::blocks::{clock, control, feature, function_of, input, output, push};
use std::alloc::{AllocError, Global};
use std::process::Abort;
use std::test::Fail;
use uac_descriptor::Block;
use uac_device::Device;
use uac_mixer::laws::controls_start_with_values;
use uac_mixer::{DeviceLink, Link, View, When};
use uac_request::{Answer, Setup};
use uac_topology::Function;
use uac_topology::laws::functions_are_sound;

/// Clock 1, whose frequency can be set; jack 2 of two channels feeds feature 3, which feeds jack 4. The feature's mute is on
/// the master alone, and can only be read; its volume is on both channels, and on the second can only be read.
fn push_blocks(alloc: Global, blocks: &mut Vec<Block>) -> Result<(), AllocError> {
    push(blocks, control(0))?;
    push(blocks, clock(1, 3))?;
    push(blocks, input(2, 0x0201, 2, 3))?;
    let middle = feature(alloc, 3, 2, &[1, 12, 4])?;
    push(blocks, middle)?;
    push(blocks, output(4, 0x0301, 3))
}

fn function(alloc: Global) -> Result<Function, AllocError> {
    let mut blocks = Vec::new(alloc);
    push_blocks(alloc, &mut blocks)?;
    function_of(alloc, blocks.as_slice())
}

fn device(alloc: Global) -> Result<Device, AllocError>
    ensures { IfOk result (λ device. IsStoreOf device.function.entities device.controls) }
{
    let function = function(alloc)?;
    functions_are_sound(&function);
    controls_start_with_values();
    match Device::new(alloc, function) {
        Ok(device) => Ok(device),
        Err(_) => Err(AllocError),
    }
}

/// What is tried on a new device.
#[derive(Clone, Copy)]
enum Trial {
    Listing,
    BrokenLink,
    Transfer,
}

// The device is let go of at one place, since a proof has every step of that at each.
fn try_out(rt: &impl Abort, alloc: Global, trial: Trial) -> Result<(), AllocError> {
    let mut device = device(alloc)?;
    act(rt, alloc, trial, &mut device)
}

fn act(rt: &impl Abort, alloc: Global, trial: Trial, device: &mut Device) -> Result<(), AllocError>
    requires { IsStoreOf device.old.function.entities device.old.controls }
{
    match trial {
        Trial::Listing => list(rt, alloc, device),
        Trial::BrokenLink => {
            break_the_link(rt, alloc, device);
            Ok(())
        }
        Trial::Transfer => {
            transfer(rt, alloc, device);
            Ok(())
        }
    }
}

/// Whether an element has this name and this value, and a host may set it or not.
fn is_at(view: &View, at: usize, name: &[u8], writable: bool, value: i32) -> bool {
    match view.elements().get(at) {
        Some(element) => {
            element.name().as_bytes() == name
                && element.writable == writable
                && element.value == Some(value)
        }
        None => false,
    }
}

// The elements of the small device, in their order.
fn expect_elements(rt: &impl Abort, view: &View) {
    assert!(rt; view.elements().len() == 4);
    assert!(rt; is_at(view, 0, b"rate.1.0", true, 48000));
    assert!(rt; is_at(view, 1, b"mute.3.0", false, 0));
    assert!(rt; is_at(view, 2, b"volume.3.1", true, 0));
    assert!(rt; is_at(view, 3, b"volume.3.2", false, 0));
    assert!(rt; view.find(b"volume.3.2") == Some(3));
    assert!(rt; view.find(b"volume.3.0") == None);
}

fn list(rt: &impl Abort, alloc: Global, device: &mut Device) -> Result<(), AllocError>
    requires { IsStoreOf device.old.function.entities device.old.controls }
{
    let view = match View::read(alloc, &mut DeviceLink::new(device, None)) {
        Ok(view) => view,
        Err(_) => return Err(AllocError),
    };
    expect_elements(rt, &view);
    Ok(())
}

#[test]
fn a_view_lists_what_is_declared(rt: HostRuntime) -> Result<(), Fail> {
    try_out(&rt, rt.alloc(), Trial::Listing)?;
    Ok(())
}

/// Whether the device at the end of a link can be read.
fn is_read<L: Link>(alloc: Global, link: &mut L) -> bool {
    match View::read(alloc, link) {
        Ok(_) => true,
        Err(_) => false,
    }
}

fn break_the_link(rt: &impl Abort, alloc: Global, device: &mut Device)
    requires { IsStoreOf device.old.function.entities device.old.controls }
{
    let mut link = DeviceLink::new(device, Some(When::Before));
    assert!(rt; !is_read(alloc, &mut link));
    assert!(rt; link.last().is_none());
    assert!(rt; is_read(alloc, &mut link));
    assert!(rt; link.last().is_some());
}

#[test]
fn nothing_is_read_over_a_broken_link(rt: HostRuntime) -> Result<(), Fail> {
    try_out(&rt, rt.alloc(), Trial::BrokenLink)?;
    Ok(())
}

/// A SET CUR of the first volume.
const SET_VOLUME: Setup = Setup {
    request_type: 0x21,
    request: 1,
    value: 0x0201,
    index: 0x0300,
    length: 2,
};

/// What a view knows of the first volume, once these bytes were sent to it.
fn volume_after<L: Link>(alloc: Global, link: &mut L, sent: &[u8]) -> Option<i32> {
    let mut view = match View::read(alloc, link) {
        Ok(view) => view,
        Err(_) => return None,
    };
    let _came = view.transfer(link, &SET_VOLUME, sent);
    view.elements().get(2)?.value
}

fn transfer(rt: &impl Abort, alloc: Global, device: &mut Device)
    requires { IsStoreOf device.old.function.entities device.old.controls }
{
    let mut link = DeviceLink::new(device, None);
    assert!(rt; volume_after(alloc, &mut link, &[0, 0xFF]) == Some(-256));
    assert!(rt; matches!(link.last(), Some(Answer::Done)));
    assert!(rt; volume_after(alloc, &mut link, &[1, 0xFF]) == Some(-256));
    assert!(rt; matches!(link.last(), Some(Answer::Stall(9))));
}

#[test]
fn a_transfer_keeps_the_view_right(rt: HostRuntime) -> Result<(), Fail> {
    try_out(&rt, rt.alloc(), Trial::Transfer)?;
    Ok(())
}
