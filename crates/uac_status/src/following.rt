// The host follows a message: it gets the control that the message names again.
ghost use Rattle.std.specs.Prelude.{◌≡◌, ◌↔◌, ◌<◌, ◌==◌, ◌%◌, ◌&&◌, ℕ, true, false, if◌then◌else◌, Ok, Err, Some, None, Option, IsSome, IfSome, IfOk, OnOk, OnErr, is_ok, is_some, position, slice_get, get_or, length};
ghost use Rattle.std.specs.Option.{option_and_then};
ghost use Rattle.uac_store.specs.Keyed.{same_key, value_of};
ghost use Rattle.uac_mixer.specs.declared.element.Element.{Element};
ghost use Rattle.uac_mixer.specs.declared.link.When.{When};
ghost use Rattle.uac_mixer.specs.ViewLinks.{IsAsBefore};
ghost use Rattle.uac_mixer.specs.ViewWorld.{IsViewOf};
ghost use Rattle.uac_status.specs.Messages as spec;
ghost use Rattle.uac_status.specs.Messages.{element_keyed, is_foreign, key_told};
ghost use Rattle.uac_status.specs.PanelCalls.{IsFollowed, IsKnownNow};

use crate::panel::CUR;
use thiserror::Error;
use uac_mixer::{Broken, Element, Link, View};
use uac_store::Key;

/// Why a message wasn't followed.
#[derive(Clone, Copy, PartialEq, Eq, Debug, Error)]
pub enum FollowFault {
    /// The message is of no element of the view.
    #[error("the message is of no element")]
    Foreign,
    /// The transfer broke.
    #[error("the transfer broke")]
    Broken,
}

impl From<Broken> for FollowFault {
    ghost use Rattle.std.specs.Prelude.{◌≡◌};
    ghost use Rattle.uac_status.specs.declared.following.FollowFault.TheVariants as faults;

    ghost from_gives = { λ _ e. e ≡ faults.Broken };

    fn from(_broken: Broken) -> FollowFault {
        FollowFault::Broken
    }
}

/// The element that a message was of, as it was before, and its value, which the device told.
#[derive(Clone, Copy)]
pub(crate) struct Heard {
    pub(crate) element: Element,
    pub(crate) value: i32,
}

/// Follows a message: gets the element that it names, and keeps its value.
///
/// # Errors
///
/// `Foreign` where the message is of no element, and then no transfer is made; `Broken` where the transfer broke. After each the view is
/// unchanged.
pub fn follow<L: Link>(view: &mut View, message: [u8; 6], link: &mut L) -> Result<(), FollowFault>
    requires { IsViewOf (L.state link.old).device.function.entities view.old }
    ensures lender { L.lender link.new ≡ L.lender link.old }
    ensures foreign { (result ≡ Err FollowFault.Foreign)
        ↔ (is_foreign (L.state link.old).device.function.control_interface view.old.elements message ≡ true) }
    ensures untouched { result ≡ Err FollowFault.Foreign → L.state link.new ≡ L.state link.old }

    // A message of an element: what its transfer made of the view and the link, and what is known then.
    ensures followed { (x : Element) → is_foreign (L.state link.old).device.function.control_interface view.old.elements message ≡ false
        → element_keyed view.old.elements (key_told message) ≡ Some x
        → IsFollowed (is_ok result) x view.old view.new (L.state link.old) (L.state link.new) }
    ensures known { OnOk result (IsKnownNow (L.state link.old).device.controls view.new.elements (key_told message)) }

    ensures broken { result ≡ Err FollowFault.Broken → (L.state link.old).breaks < (L.state link.new).breaks }
    ensures told { is_foreign (L.state link.old).device.function.control_interface view.old.elements message ≡ false
        → (fault : Option When) → (L.state link.old).fault ≡ Some fault → (result ≡ Err FollowFault.Broken) ↔ IsSome fault }

    // What stays.
    ensures of_function { IsViewOf (L.state link.new).device.function.entities view.new }
    ensures unchanged { OnErr result (view.new ≡ view.old) }
    ensures as_before { IsAsBefore (L.state link.old).device (L.state link.new).device }
{
    hear(view, message, link)?;
    Ok(())
}

/// Follows a message, and tells what came of it.
pub(crate) fn hear<L: Link>(
    view: &mut View,
    message: [u8; 6],
    link: &mut L,
) -> Result<Heard, FollowFault>
    requires { IsViewOf (L.state link.old).device.function.entities view.old }
    ensures lender { L.lender link.new ≡ L.lender link.old }
    ensures foreign { (result ≡ Err FollowFault.Foreign)
        ↔ (is_foreign (L.state link.old).device.function.control_interface view.old.elements message ≡ true) }
    ensures untouched { result ≡ Err FollowFault.Foreign → L.state link.new ≡ L.state link.old }
    ensures followed { (x : Element) → is_foreign (L.state link.old).device.function.control_interface view.old.elements message ≡ false
        → element_keyed view.old.elements (key_told message) ≡ Some x
        → IsFollowed (is_ok result) x view.old view.new (L.state link.old) (L.state link.new) }
    ensures heard { IfOk result (λ heard. element_keyed view.old.elements (key_told message) ≡ Some heard.element) }
    ensures value { IfOk result (λ heard. value_of (L.state link.old).device.controls heard.element.key ≡ Some heard.value) }
    ensures known { OnOk result (IsKnownNow (L.state link.old).device.controls view.new.elements (key_told message)) }
    ensures broken { result ≡ Err FollowFault.Broken → (L.state link.old).breaks < (L.state link.new).breaks }
    ensures told { is_foreign (L.state link.old).device.function.control_interface view.old.elements message ≡ false
        → (fault : Option When) → (L.state link.old).fault ≡ Some fault → (result ≡ Err FollowFault.Broken) ↔ IsSome fault }
    ensures of_function { IsViewOf (L.state link.new).device.function.entities view.new }
    ensures unchanged { OnErr result (view.new ≡ view.old) }
    ensures as_before { IsAsBefore (L.state link.old).device (L.state link.new).device }
{
    let control = link.function().control_interface();
    let Some(at) = element_told(view, control, &message) else {
        return Err(FollowFault::Foreign);
    };
    let element = element_at(view, at);
    match view.get(at, link) {
        Ok(value) => Ok(Heard { element, value }),
        Err(Broken) => Err(FollowFault::Broken),
    }
}

/// The index of the element that a message is of; None where it is of none.
pub(crate) fn element_told(view: &View, control: u8, message: &[u8; 6]) -> Option<usize>
    ensures found { option_and_then (slice_get view.now.elements) result
        ≡ (if is_foreign control view.now.elements message.now then None else element_keyed view.now.elements (key_told message.now)) }
    ensures there { IfSome result (λ at. at < length view.now.elements) }
    ensures none { (result ≡ None) ↔ (is_foreign control view.now.elements message.now ≡ true) }
{
    if !is_of_interface(control, message) {
        return None;
    }
    index_of(
        view,
        Key {
            entity: message[5],
            selector: message[3],
            channel: message[2],
        },
    )
}

/// The index of the first element with a key.
fn index_of(view: &View, key: Key) -> Option<usize>
    ensures { result ≡ position (λ x. same_key x.key key) view.now.elements }
{
    view.elements()
        .iter()
        .position(|element| element.key == key)
}

/// The element at an index.
pub(crate) fn element_at(view: &View, at: usize) -> Element
    requires { at < length view.now.elements }
    ensures { slice_get view.now.elements at ≡ Some result }
{
    view.elements()[at]
}

/// Whether a message is of the current value of one of the control interface's controls.
fn is_of_interface(control: u8, message: &[u8; 6]) -> bool
    ensures { result ≡ spec.is_of_interface control message.now }
{
    message[0] % 4 == 0 && message[1] == CUR && message[4] == control
}
