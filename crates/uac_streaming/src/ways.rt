// Which way the streams of interfaces go (USB 2.0, 9.6.6).
ghost use Rattle.std.specs.Prelude.{◌≡◌, IfOk, filter};
ghost use Rattle.uac_streaming.specs.StreamingWorld as spec;

use std::alloc::Global;
use uac_descriptor::NoMemory;
use uac_topology::Function;

/// Of these interfaces those that carry a stream to the device, in their order.
pub(crate) fn outward(alloc: Global, function: &Function, order: &[u8]) -> Result<Vec<u8>, NoMemory>
    ensures { IfOk result (λ outs. outs.items ≡ filter (spec.goes_out function.now) order.now) }
{
    let mut outs = Vec::new(alloc);
    for interface in order {
        if !goes_out(function, *interface) {
            continue;
        }
        outs.push(*interface)?;
    }
    Ok(outs)
}

/// Of these interfaces those that carry a stream from the device, in their order.
pub(crate) fn inward(alloc: Global, function: &Function, order: &[u8]) -> Result<Vec<u8>, NoMemory>
    ensures { IfOk result (λ ins. ins.items ≡ filter (spec.comes_in function.now) order.now) }
{
    let mut ins = Vec::new(alloc);
    for interface in order {
        if !comes_in(function, *interface) {
            continue;
        }
        ins.push(*interface)?;
    }
    Ok(ins)
}

/// Whether an interface carries a stream to the device.
pub(crate) fn goes_out(function: &Function, interface: u8) -> bool
    ensures { result ≡ spec.goes_out function.now interface }
{
    match function.interface(interface) {
        Some(stream) => stream.out,
        None => false,
    }
}

/// Whether an interface carries a stream from the device.
fn comes_in(function: &Function, interface: u8) -> bool
    ensures { result ≡ spec.comes_in function.now interface }
{
    match function.interface(interface) {
        Some(stream) => !stream.out,
        None => false,
    }
}
