// The link over which transfers go to a device.
ghost use Rattle.uac_store.specs.StoreControls.{IsStoreOf};

use crate::answers::copy_of;
use uac_device::laws::controls_are_stored;
use uac_device::{Begun, Device};
use uac_request::{Answer, Setup};
use uac_topology::Function;

/// A transfer broke: the host doesn't know whether the device acted.
#[derive(Clone, Copy, PartialEq, Eq, Debug)]
pub struct Broken;

/// When a transfer breaks: before the device acted, or after it.
#[derive(Clone, Copy, PartialEq, Eq, Debug)]
pub enum When {
    Before,
    After,
}

/// A way to a device, on which transfers may break. It has the device at its end, the last answer that the device gave
/// through it, a count of its transfers, a count of breaks that never falls and, where it tells it, the fault of its next
/// transfer.
pub trait Link {
    ghost use Rattle.std.specs.Prelude.{◌≡◌};
    ghost use base.Fml.{GName};
    ghost use Rattle.uac_mixer.specs.ViewLinks.{LinkFields, IsTransferred};
    ghost use Rattle.uac_mixer.specs.ViewTransfers.{came_of};

    // What it is seen as.
    ghost state: { Self → LinkFields };

    // Who lends the device, where it is lent: the lender knows by that what became of it.
    ghost lender: { Self → GName };

    /// The device's function.
    fn function(&self) -> &Function
        ensures function { result.now ≡ (state self.now).device.function }
        ensures stored { IsStoreOf (state self.now).device.function.entities (state self.now).device.controls };

    /// One transfer, and no second one. `Broken` comes only where the count of breaks rose, and then the device and the last answer are those
    /// before the transfer, or those that the device's answer leaves. Else the device answered this, and the last answer is
    /// this one. Where the fault is told, the transfer breaks exactly by that, and after it the fault told is none.
    fn control(&mut self, setup: &Setup, sent: &[u8]) -> Result<Answer, Broken>
        ensures lender { lender self.new ≡ lender self.old }
        ensures transfer { IsTransferred setup.now sent.now (came_of result) (state self.old) (state self.new) };
}

/// The link of a device in memory, whose first transfer breaks where the caller says so.
#[derive(Drop)]
pub struct DeviceLink<'a> {
    device: &'a mut Device,
    last: Option<Answer>,
    began: Option<Begun>,
    transfers: u64,
    fault: Option<When>,
    ghost stored: { IsStoreOf device.now.function.entities device.now.controls },
}

impl<'a> DeviceLink<'a> {
    ghost use Rattle.std.specs.Prelude.{◌≡◌, None, Some};
    ghost use Rattle.std.specs.Option.{option_map};
    ghost use Rattle.uac_request.specs.Requests.{answer_fields};
    ghost use Rattle.uac_device.specs.DeviceKept.{IsControlled, begun_fields};
    ghost use Rattle.uac_device.specs.DeviceWorld.{begun_by};

    /// A link to a device. It tells `fault` and has no last answer.
    pub fn new(device: &'a mut Device, fault: Option<When>) -> DeviceLink<'a>
        ensures same_reference { result.device.ghost_name ≡ device.entry.ghost_name }
        ensures device { result.device.now ≡ device.old }
        ensures last { result.last ≡ None }
        ensures began { result.began ≡ None }
        ensures transfers { result.transfers ≡ 0 }
        ensures fault { result.fault ≡ fault }
    {
        controls_are_stored(device);
        DeviceLink {
            device,
            last: None,
            began: None,
            transfers: 0,
            fault,
        }
    }

    /// The last answer; None exactly where no transfer through this link reached the device.
    /// Tests alone call it.
    pub fn last(&self) -> Option<&Answer>
        ensures { option_map (λ answer. answer_fields answer.now) result ≡ option_map answer_fields self.now.last }
    {
        self.last.as_ref()
    }

    /// What the last request that reached the device through this link began.
    pub fn began(&self) -> Option<Begun>
        ensures { result ≡ self.now.began }
    {
        self.began
    }

    // The device acts.
    #[inline(always)]
    fn act(&mut self, setup: &Setup, sent: &[u8]) -> Answer
        ensures same_reference { self.new.device.ghost_name ≡ self.old.device.ghost_name }
        ensures device { IsControlled setup.now sent.now (answer_fields result) self.old.device.now self.new.device.now }
        ensures last { option_map answer_fields self.new.last ≡ Some (answer_fields result) }
        ensures began { option_map begun_fields self.new.began
            ≡ begun_by self.old.device.now.function self.old.device.now.controls setup.now (answer_fields result) }
        ensures transfers { self.new.transfers ≡ self.old.transfers }
        ensures fault { self.new.fault ≡ self.old.fault }
    {
        let acted = self.device.act(setup, sent);
        self.last = Some(copy_of(&acted.answer));
        self.began = acted.began;
        acted.answer
    }
}

impl<'a> Link for DeviceLink<'a> {
    ghost use Rattle.std.specs.Prelude.{◌≡◌, Some, is_some, if◌then◌else◌};
    ghost use Rattle.std.specs.Option.{option_map};
    ghost use Rattle.uac_request.specs.Requests.{answer_fields};
    ghost use Rattle.uac_device.specs.DeviceKept.{begun_fields};

    // The count of breaks is 0 while the one break of the link lies ahead.
    ghost state = { λ l. record {
      device = l.device.now;
      last = option_map answer_fields l.last;
      began = option_map begun_fields l.began;
      transfers = l.transfers;
      breaks = if is_some l.fault then 0 else 1;
      fault = Some l.fault;
    } };

    ghost lender = { λ l. l.device.ghost_name };

    fn function(&self) -> &Function {
        self.device.function()
    }

    fn control(&mut self, setup: &Setup, sent: &[u8]) -> Result<Answer, Broken> {
        self.transfers = self.transfers.saturating_add(1);
        match self.fault.take() {
            None => Ok(self.act(setup, sent)),
            Some(When::Before) => Err(Broken),
            Some(When::After) => {
                let _answer = self.act(setup, sent);
                Err(Broken)
            }
        }
    }
}
