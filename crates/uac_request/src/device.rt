// What a device answers.
ghost use Rattle.std.specs.Prelude.{◌≡◌};
ghost use Rattle.uac_store.specs.StoreControls.{IsStoreOf};
ghost use Rattle.uac_request.specs.Requests.{AreSettingsOf, after_request, request_state, reply_of, answer_fields};

use crate::reply::{Answer, stalled};
use crate::request::{Request, request_of};
use crate::rule::RequestRule;
use crate::serve::{get_cur, get_descriptor, get_interface, get_range, set_cur, set_interface};
use crate::setup::Setup;
use uac_alt::Settings;
use uac_store::Store;
use uac_topology::Function;

/// What a device answers to a control request, and what it keeps after it (Audio Class 2.0, 5.2; USB 2.0, 9.4). `sent`
/// are the bytes that came with it. It takes no memory.
///
/// A stall carries the first of the rules Q1 to Q12 that the request breaks, and changes nothing.
#[tactic(auto, unfolding(crate::specs::Requests::reply_of, crate::specs::Requests::after_request), using(crate::proofs::RequestsRuleLemmas::first_unknown))]
#[inline(always)]
pub fn answer(
    function: &Function,
    store: &mut Store,
    settings: &mut Settings,
    setup: &Setup,
    sent: &[u8],
) -> Answer
    requires of_function { IsStoreOf function.now.entities store.old }
    requires settings { AreSettingsOf function.now settings.old }
    ensures answer { answer_fields result ≡ reply_of function.now (request_state store.old settings.old) setup.now sent.now }
    ensures held { request_state store.new settings.new
        ≡ after_request function.now (request_state store.old settings.old) setup.now sent.now }
    ensures of_function { IsStoreOf function.now.entities store.new }
    ensures still { AreSettingsOf function.now settings.new }
{
    match request_of(setup) {
        Some(Request::GetCur) => get_cur(function, store, settings, setup, sent),
        Some(Request::GetRange) => get_range(function, store, setup, sent),
        Some(Request::SetCur) => set_cur(function, store, settings, setup, sent),
        Some(Request::GetDescriptor) => get_descriptor(function, setup, sent),
        Some(Request::GetInterface) => get_interface(function, settings, setup, sent),
        Some(Request::SetInterface) => set_interface(function, store, settings, setup, sent),
        None => stalled(RequestRule::UnknownRequest),
    }
}
