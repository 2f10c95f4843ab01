// The host's view of a device.
ghost use Rattle.std.specs.Prelude.{◌≡◌, ◌<◌, ℕ, [], length, position, slice_get, slice_set, true, is_ok, IfOk, OnErr, OnOk};
ghost use Rattle.std.specs.Prelude.{Ok, Err, None, Some, IsSome, Option};
ghost use Rattle.std.specs.List.{All};
ghost use Rattle.std.specs.Option.{option_map};
ghost use Rattle.std.specs.Str.{bytes_eq};
ghost use Rattle.uac_request.specs.Requests.{is_done, is_stalled, answer_fields, key_named, value_bytes};
ghost use Rattle.uac_store.specs.StoreControls.{IsKeyed};
ghost use Rattle.uac_store.specs.Keyed.{value_of};
ghost use Rattle.uac_mixer.specs.declared.element.Element.{Element};
ghost use Rattle.uac_mixer.specs.declared.faults.SetFault.TheVariants as refusals;
ghost use Rattle.uac_mixer.specs.declared.faults.ViewFault.TheVariants as faults;
ghost use Rattle.uac_mixer.specs.declared.link.When.{When};
ghost use Rattle.uac_mixer.specs.Agreement.{IsMade, IsElementRead};
ghost use Rattle.uac_mixer.specs.MixerElements.{fits_element, element_list, name_of, width_of};
ghost use Rattle.uac_mixer.specs.ViewLinks.{IsAsBefore};
ghost use Rattle.uac_mixer.specs.Readable.{IsReadable};
ghost use Rattle.uac_mixer.specs.ViewTransfers.{came_of, came_of_get, came_of_set, element_after, get_of, set_of, view_after};
ghost use Rattle.uac_mixer.specs.ViewWorld.{IsViewOf, ViewWorld, known_view};

use crate::element::Element;
use crate::faults::{SetFault, ViewFault};
use crate::link::{Broken, Link};
use crate::listing;
use crate::transfers::{GET, SET, element_setup, follow_all, follow_one, is_for_any};
use std::alloc::Global;
use std::marker::Model;
use uac_request::bytes::value_bytes;
use uac_request::{Answer, Setup};
use uac_topology::laws::functions_are_sound;

/// What a host knows of a device's controls: the elements of the device's function, each with its value or none.
#[derive(Drop)]
pub struct View {
    elements: Vec<Element>,
}

impl Model for View {
    ghost use Rattle.uac_mixer.specs.ViewWorld.{ViewWorld};

    ghost Value = { ViewWorld };

    ghost view = { λ v. record { elements = v.elements.items } };
}

impl View {
    /// The view of the link's function: its elements are listed first, and then each is read. Then every value is known.
    ///
    /// `Broken` comes only where the link's count of breaks rose, and where the link tells its fault only where that isn't none. Without
    /// memory no transfer is made.
    pub fn read<L: Link>(alloc: Global, link: &mut L) -> Result<View, ViewFault>
        ensures lender { L.lender link.new ≡ L.lender link.old }
        ensures view { IfOk result (λ view.
            view ≡ known_view (L.state link.old).device.function.entities (L.state link.old).device.controls) }
        ensures of_function { IfOk result (λ view. IsViewOf (L.state link.new).device.function.entities view) }
        ensures asked { IsElementRead (is_ok result) (L.state link.old) (L.state link.new) }
        ensures broken { result ≡ Err faults.Broken → (L.state link.old).breaks < (L.state link.new).breaks }
        ensures unread { result ≡ Err faults.NoMemory → L.state link.new ≡ L.state link.old }
        ensures told { (fault : Option When) → (L.state link.old).fault ≡ Some fault → result ≡ Err faults.Broken → IsSome fault }
    {
        let elements = listing::element_list(alloc, link.function())?;
        let mut view = View { elements };
        view.read_all(link)?;
        Ok(view)
    }

    // Reads each element in turn, where none is known yet.
    fn read_all<L: Link>(&mut self, link: &mut L) -> Result<(), Broken>
        requires { self.old.elements ≡ element_list (L.state link.old).device.function.entities }
        ensures lender { L.lender link.new ≡ L.lender link.old }
        ensures view { OnOk result
            (self.new ≡ known_view (L.state link.old).device.function.entities (L.state link.old).device.controls) }
        ensures of_function { OnOk result (IsViewOf (L.state link.new).device.function.entities self.new) }
        ensures asked { IsElementRead (is_ok result) (L.state link.old) (L.state link.new) }
        ensures broken { OnErr result ((L.state link.old).breaks < (L.state link.new).breaks) }
        ensures told { (fault : Option When) → (L.state link.old).fault ≡ Some fault → OnErr result (IsSome fault) }
    {
        for at in 0..self.elements().len() {
            self.get(at, link)?;
        }
        Ok(())
    }

    /// The elements, in block order, then by selector, then by channel.
    pub fn elements(&self) -> &[Element]
        ensures { result.now ≡ self.now.elements }
    {
        self.elements.as_slice()
    }

    /// The index of the element with a name; None exactly where none has it.
    pub fn find(&self, name: &[u8]) -> Option<usize>
        ensures { result ≡ position (λ x. bytes_eq (name_of x) name.now) self.now.elements }
    {
        self.elements
            .iter()
            .position(|element| element.name().as_bytes() == name)
    }

    /// Reads an element by its GET CUR, and keeps the value. After `Broken` the element stays as it was.
    pub fn get<L: Link>(&mut self, at: usize, link: &mut L) -> Result<i32, Broken>
        requires of_function { IsViewOf (L.state link.old).device.function.entities self.old }
        requires at { at < length self.old.elements }
        ensures lender { L.lender link.new ≡ L.lender link.old }
        ensures made { (x : Element) → slice_get self.old.elements at ≡ Some x
            → IsMade (get_of (L.state link.old).device.function.control_interface x) [] (came_of_get x result)
            self.old self.new (L.state link.old) (L.state link.new) }
        ensures value { (x : Element) → slice_get self.old.elements at ≡ Some x
            → IfOk result (λ value. value_of (L.state link.old).device.controls x.key ≡ Some value) }
        ensures kept { IfOk result (λ value. option_map (λ x. x.value) (slice_get self.new.elements at) ≡ Some (Some value)) }
        ensures unchanged { OnErr result (self.new ≡ self.old) }
        ensures as_before { IsAsBefore (L.state link.old).device (L.state link.new).device }
    {
        functions_are_sound(link.function());
        let control = link.function().control_interface();
        let setup = element_setup(GET, control, self.element(at));
        self.transfer_at(at, link, &setup, &[])?;
        Ok(self.element(at).value.unwrap())
    }

    /// Sets an element by its SET CUR. After `Stalled` the element stays as it was, and after `Broken` it is unknown.
    pub fn set<L: Link>(&mut self, at: usize, value: i32, link: &mut L) -> Result<(), SetFault>
        requires of_function { IsViewOf (L.state link.old).device.function.entities self.old }
        requires at { at < length self.old.elements }
        requires fits { (x : Element) → slice_get self.old.elements at ≡ Some x → fits_element x.kind value ≡ true }
        ensures lender { L.lender link.new ≡ L.lender link.old }
        ensures made { (x : Element) → slice_get self.old.elements at ≡ Some x
            → IsMade (set_of (L.state link.old).device.function.control_interface x) (value_bytes (width_of x.kind) value)
            (came_of_set result) self.old self.new (L.state link.old) (L.state link.new) }
        ensures done { OnOk result (option_map (λ x. x.value) (slice_get self.new.elements at) ≡ Some (Some value)) }
        ensures stalled { (rule : ℕ) → result ≡ Err (refusals.Stalled rule) → self.new ≡ self.old }
        ensures unknown { result ≡ Err refusals.Broken → option_map (λ x. x.value) (slice_get self.new.elements at) ≡ Some None }
    {
        let control = link.function().control_interface();
        let element = self.element(at);
        let setup = element_setup(SET, control, element);
        let bytes = value_bytes(element.kind.width(), value);
        let answer = self.transfer_at(at, link, &setup, bytes.as_slice())?;
        set_outcome(answer)
    }

    /// Passes a transfer on, and keeps what is known right.
    #[inline(always)]
    pub fn transfer<L: Link>(
        &mut self,
        link: &mut L,
        setup: &Setup,
        sent: &[u8],
    ) -> Result<Answer, Broken>
        requires of_function { IsViewOf (L.state link.old).device.function.entities self.old }
        ensures lender { L.lender link.new ≡ L.lender link.old }
        ensures made { IsMade setup.now sent.now (came_of result) self.old self.new (L.state link.old) (L.state link.new) }
    {
        let control = link.function().control_interface();
        let came = self.pass_on(link, setup, sent);
        self.follow(control, setup, sent, &came);
        came
    }

    // Passes a request for the element at an index on. It is for no other element, and none but this one is looked at.
    fn transfer_at<L: Link>(
        &mut self,
        at: usize,
        link: &mut L,
        setup: &Setup,
        sent: &[u8],
    ) -> Result<Answer, Broken>
        requires of_function { IsViewOf (L.state link.old).device.function.entities self.old }
        requires at { at < length self.old.elements }
        requires named { (x : Element) → slice_get self.old.elements at ≡ Some x → x.key ≡ key_named setup.now }
        ensures lender { L.lender link.new ≡ L.lender link.old }
        ensures made { IsMade setup.now sent.now (came_of result) self.old self.new (L.state link.old) (L.state link.new) }
    {
        let control = link.function().control_interface();
        let came = self.pass_on(link, setup, sent);
        self.follow_at(at, control, setup, sent, &came);
        came
    }

    // Passes a transfer on. The view that it makes of this one is still to be kept.
    #[inline(always)]
    fn pass_on<L: Link>(&self, link: &mut L, setup: &Setup, sent: &[u8]) -> Result<Answer, Broken>
        requires of_function { IsViewOf (L.state link.old).device.function.entities self.now }
        ensures lender { L.lender link.new ≡ L.lender link.old }
        ensures keyed { IsKeyed (L.state link.old).device.function.entities }
        ensures readable { All (IsReadable (L.state link.old).device.function.control_interface setup.now sent.now (came_of result))
            self.now.elements }
        ensures made { (after : ViewWorld)
            → after ≡ view_after (L.state link.old).device.function.control_interface setup.now sent.now (came_of result) self.now
            → IsMade setup.now sent.now (came_of result) self.now after (L.state link.old) (L.state link.new) }
    {
        functions_are_sound(link.function());
        link.control(setup, sent)
    }

    // What a transfer makes of each element.
    #[tactic(auto, unfolding(crate::specs::ViewTransfers::view_after))]
    fn follow(&mut self, control: u8, setup: &Setup, sent: &[u8], came: &Result<Answer, Broken>)
        requires { All (IsReadable control setup.now sent.now (came_of came.now)) self.old.elements }
        ensures { self.new ≡ view_after control setup.now sent.now (came_of came.now) self.old }
    {
        if is_for_any(control, setup) {
            follow_all(self.elements.as_mut_slice(), control, setup, sent, came);
        }
    }

    // What a transfer makes of the element at an index. The others stay.
    fn follow_at(
        &mut self,
        at: usize,
        control: u8,
        setup: &Setup,
        sent: &[u8],
        came: &Result<Answer, Broken>,
    )
        requires at { at < length self.old.elements }
        requires readable { All (IsReadable control setup.now sent.now (came_of came.now)) self.old.elements }
        ensures { (x : Element) → slice_get self.old.elements at ≡ Some x
            → self.new.elements ≡ slice_set self.old.elements at (element_after control setup.now sent.now (came_of came.now) x) }
    {
        follow_one(&mut self.elements[at], control, setup, sent, came);
    }

    // The element at an index; its key is of three bytes.
    fn element(&self, at: usize) -> Element
        requires { at < length self.now.elements }
        ensures there { slice_get self.now.elements at ≡ Some result }
        ensures entity { result.key.entity < 256 }
        ensures selector { result.key.selector < 256 }
        ensures channel { result.key.channel < 256 }
    {
        with_its_bytes(self.elements[at])
    }
}

// What an answer to a SET CUR says: it is done, or a stall.
fn set_outcome(answer: Answer) -> Result<(), SetFault>
    ensures done { answer_fields answer ≡ is_done → came_of_set result ≡ Some is_done }
    ensures stalled { (rule : ℕ) → answer_fields answer ≡ is_stalled rule → came_of_set result ≡ Some (is_stalled rule) }
{
    match answer {
        Answer::Stall(rule) => Err(SetFault::Stalled(rule)),
        Answer::Bytes(_) | Answer::Descriptor { .. } | Answer::Done => Ok(()),
    }
}

// An element, whose key is of three bytes.
fn with_its_bytes(element: Element) -> Element
    ensures same { result ≡ element }
    ensures entity { result.key.entity < 256 }
    ensures selector { result.key.selector < 256 }
    ensures channel { result.key.channel < 256 }
{
    element
}
