// A device and the host's view of it, just after the host read every value.
ghost use Rattle.std.specs.Prelude.{◌≡◌, IfOk};
ghost use Rattle.uac_store.specs.StoreControls.{initial_controls};
ghost use Rattle.uac_device.specs.DeviceWorld.{DeviceWorld, fresh};
ghost use Rattle.uac_device.specs.DeviceKept as kept;
ghost use Rattle.uac_mixer.specs.ViewWorld.{IsViewOf, known_view};

use crate::faults::ViewFault;
use crate::link::DeviceLink;
use crate::view::View;
use std::alloc::Global;
use uac_descriptor::NoMemory;
use uac_device::Device;
use uac_topology::Function;

/// A device, and what its host knows of it.
#[derive(Drop)]
pub struct Viewed {
    pub device: Device,
    pub view: View,
}

/// A device whose host has read every value.
fn with_view(alloc: Global, device: Device) -> Result<Viewed, NoMemory>
    ensures view { IfOk result (λ viewed. viewed.view ≡ known_view device.function.entities device.controls) }
    ensures of_function { IfOk result (λ viewed. IsViewOf viewed.device.function.entities viewed.view) }
    ensures stands { IfOk result (λ viewed. (w : DeviceWorld) → kept.DeviceStands device w → kept.DeviceStands viewed.device w) }
    ensures function { IfOk result (λ viewed. viewed.device.function ≡ device.function) }
{
    let mut device = device;
    let mut link = DeviceLink::new(&mut device, None);
    let read = View::read(alloc, &mut link);
    match read {
        Ok(view) => Ok(Viewed { device, view }),
        Err(ViewFault::NoMemory) => {
            device.let_go();
            Err(NoMemory)
        }
        Err(ViewFault::Broken) => unreachable!(),
    }
}

/// What a host's mixer shows of a fresh device of a function.
pub fn fresh_view(alloc: Global, function: Function) -> Result<View, NoMemory>
    ensures { IfOk result (λ view. view ≡ known_view function.entities (initial_controls function.entities)) }
{
    let viewed = fresh_viewed(alloc, function)?;
    viewed.device.let_go();
    Ok(viewed.view)
}

/// A fresh device of a function, whose host has read every value.
pub fn fresh_viewed(alloc: Global, function: Function) -> Result<Viewed, NoMemory>
    ensures view { IfOk result (λ viewed. viewed.view ≡ known_view function.entities (initial_controls function.entities)) }
    ensures of_function { IfOk result (λ viewed. IsViewOf viewed.device.function.entities viewed.view) }
    ensures stands { IfOk result (λ viewed. kept.DeviceStands viewed.device (fresh function)) }
    ensures function { IfOk result (λ viewed. viewed.device.function ≡ function) }
{
    let device = Device::new(alloc, function)?;
    with_view(alloc, device)
}
