// A device with its front panel, and what its host knows of it.
ghost use Rattle.std.specs.Prelude.{◌≡◌, ◌≢◌, ◌<◌, ◌∷◌, [], drop, length, slice_get, true, false, Some, None, IfOk, IfSome, OnOk, OnErr};
ghost use Rattle.std.specs.Option.{option_and_then};
ghost use Rattle.uac_edges.specs.Faults.{HasCause};
ghost use Rattle.uac_edges.specs.Writing.{Writes};
ghost use Rattle.uac_mixer.specs.MixerElements.{fits_element, width_of};
ghost use Rattle.uac_mixer.specs.ViewTransfers.{came_of_set, set_of};
ghost use Rattle.uac_mixer.specs.ViewWorld.{IsViewOf, known_view};
ghost use Rattle.uac_mixer.specs.declared.element.Element.{Element as ElementFields};
ghost use Rattle.uac_request.specs.Requests.{value_bytes};
ghost use Rattle.uac_status.specs.Messages.{first_message};
ghost use Rattle.uac_status.specs.Panels as spec;
ghost use Rattle.uac_status.specs.Panels.{PanelWorld, all_followed, named_in, panel_breaking, panel_comes_back, panel_got, panel_set};
ghost use Rattle.uac_status.specs.Panels.{panel_outcome, panel_start, turned};
ghost use Rattle.uac_status.specs.PanelCalls.{outcome_of};
ghost use Rattle.uac_status.specs.PanelLines.{all_told, following_told, got_sight, panel_spelling, says_line, shown_sight, was_set_sight};
ghost use Rattle.uac_status.specs.PanelLines.{says_knob};
ghost use Rattle.uac_status.specs.Desks.{ready_line};
ghost use Rattle.uac_status.specs.FrontKept.{FrontStands, FrontTells, HearsMessage, IsGot, TellsMessage};
ghost use Rattle.uac_transcript.specs.Transcript.{says_view};

use crate::following::{FollowFault, Heard, hear};
use crate::panel::{Panel, Turned};
use crate::printing::{write_message, write_no_message};
use std::alloc::Global;
use std::marker::Model;
use uac_descriptor::NoMemory;
use uac_device::Device;
use uac_edges::{Failed, Sink};
use uac_mixer::{Broken, DeviceLink, Element, SetFault, View, When, fresh_viewed};
use uac_topology::Function;
use uac_transcript::{
    write_ready, write_set, write_set_stalled, write_unknown, write_value, write_view_broken,
};

/// A device with its front panel, and what its host knows of it.
#[derive(Drop)]
pub struct Front {
    device: Device,
    view: View,
    panel: Panel,
    breaks: Option<When>,
}

impl Model for Front {
    ghost use Rattle.uac_status.specs.FrontKept.{FrontFields, IsFront};

    ghost Value = { FrontFields };

    ghost view = { λ f. record { device = f.device; view = f.view; pending = f.panel; breaks = f.breaks } };

    ghost invariant = { λ f. IsFront (record { device = f.device; view = f.view; pending = f.panel; breaks = f.breaks }) };
}

/// When a transfer breaks.
fn break_at(after: bool) -> When
    ensures { result ≡ spec.break_at after }
{
    if after { When::After } else { When::Before }
}

impl Front {
    /// A device of a function just after the descriptor's end, whose host has read every value, and with no message that waits.
    pub fn new(alloc: Global, function: Function) -> Result<Front, NoMemory>
        ensures { IfOk result (λ front. FrontStands front (panel_start function)) }
    {
        let viewed = fresh_viewed(alloc, function)?;
        Ok(Front {
            device: viewed.device,
            view: viewed.view,
            panel: Panel::new(alloc),
            breaks: None,
        })
    }

    /// Lets all go, the device by a call. A caller that ends so needs no proof of its own of how each part is let go.
    pub fn let_go(self) {
        self.device.let_go();
    }

    /// Prints the line of the descriptor's end.
    #[tactic(auto, unfolding(crate::specs::PanelLines::panel_spelling))]
    pub fn ready<K: Sink>(&self, sink: &mut K) -> Result<(), Failed>
        ensures written { Writes (K.written sink.old) (K.written sink.new) result (panel_spelling (ready_line self.now.device.function)) }
        ensures cause { HasCause (K.faults sink.old) (K.faults sink.new) result }
    {
        let function = self.device.function();
        write_ready(
            sink,
            function.entities().len(),
            function.streams().len(),
            function.domains().len(),
        )
    }

    /// The index of the first element with a name.
    pub fn find(&self, name: &[u8]) -> Option<usize>
        ensures named { (w : PanelWorld) → FrontStands self.now w
            → option_and_then (slice_get w.view.elements) result ≡ named_in w name.now }
        ensures there { IfSome result (λ at. at < length self.now.view.elements) }
    {
        self.view.find(name)
    }

    /// The element at an index.
    fn element_at(&self, at: usize) -> Element
        requires { at < length self.now.view.elements }
        ensures { slice_get self.now.view.elements at ≡ Some result }
    {
        self.view.elements()[at]
    }

    /// Whether a value fits the bytes of the element at an index.
    pub fn fits(&self, at: usize, value: i32) -> bool
        requires { at < length self.now.view.elements }
        ensures { (x : ElementFields) → slice_get self.now.view.elements at ≡ Some x → result ≡ fits_element x.kind value }
    {
        self.element_at(at).kind.fits(value)
    }

    /// The next transfer breaks before or after the device acted; a break that was pending is forgotten.
    pub fn set_break(&mut self, after: bool)
        ensures { (w : PanelWorld) → FrontStands self.old w → FrontStands self.new (panel_breaking after w) }
    {
        self.breaks = Some(break_at(after));
    }

    /// Reads the element at an index from the device, and prints its value.
    pub fn read_element<K: Sink>(&mut self, at: usize, sink: &mut K) -> Result<(), Failed>
        requires { at < length self.old.view.elements }
        ensures tells { (w : PanelWorld) (x : ElementFields) → FrontStands self.old w → slice_get w.view.elements at ≡ Some x
            → FrontTells (says_line (says_view (got_sight x w)) ∷ []) (panel_got x w) self.new (K.written sink.old) (K.written sink.new) result }
        ensures cause { HasCause (K.faults sink.old) (K.faults sink.new) result }
    {
        let name = self.element_at(at).name();
        match self.read(at) {
            Ok(value) => write_value(sink, name.as_bytes(), value),
            Err(Broken) => write_view_broken(sink),
        }
    }

    /// The value of the element at an index, as the device tells it.
    fn read(&mut self, at: usize) -> Result<i32, Broken>
        requires { at < length self.old.view.elements }
        ensures stands { (w : PanelWorld) (x : ElementFields) → FrontStands self.old w → slice_get w.view.elements at ≡ Some x
            → FrontStands self.new (panel_got x w) }
        ensures value { (w : PanelWorld) (x : ElementFields) → FrontStands self.old w → slice_get w.view.elements at ≡ Some x
            → IsGot x w result }
    {
        let fault = self.breaks.take();
        let mut link = DeviceLink::new(&mut self.device, fault);
        self.view.get(at, &mut link)
    }

    /// Sets the element at an index, and prints how that went.
    pub fn set_element<K: Sink>(
        &mut self,
        at: usize,
        value: i32,
        sink: &mut K,
    ) -> Result<(), Failed>
        requires at { at < length self.old.view.elements }
        requires fits { (x : ElementFields) → slice_get self.old.view.elements at ≡ Some x → fits_element x.kind value ≡ true }
        ensures tells { (w : PanelWorld) (x : ElementFields) → FrontStands self.old w → slice_get w.view.elements at ≡ Some x
            → FrontTells (says_line (says_view (was_set_sight x value w)) ∷ []) (panel_set x value w) self.new
            (K.written sink.old) (K.written sink.new) result }
        ensures cause { HasCause (K.faults sink.old) (K.faults sink.new) result }
    {
        match self.set(at, value) {
            Ok(()) => write_set(sink),
            Err(SetFault::Stalled(rule)) => write_set_stalled(sink, rule),
            Err(SetFault::Broken) => write_view_broken(sink),
        }
    }

    /// The device is asked to hold a value of the element at an index.
    fn set(&mut self, at: usize, value: i32) -> Result<(), SetFault>
        requires at { at < length self.old.view.elements }
        requires fits { (x : ElementFields) → slice_get self.old.view.elements at ≡ Some x → fits_element x.kind value ≡ true }
        ensures stands { (w : PanelWorld) (x : ElementFields) → FrontStands self.old w → slice_get w.view.elements at ≡ Some x
            → FrontStands self.new (panel_set x value w) }
        ensures came { (w : PanelWorld) (x : ElementFields) → FrontStands self.old w → slice_get w.view.elements at ≡ Some x
            → came_of_set result
            ≡ panel_comes_back (set_of w.function.control_interface x) (value_bytes (width_of x.kind) value) w }
    {
        let fault = self.breaks.take();
        let mut link = DeviceLink::new(&mut self.device, fault);
        self.view.set(at, value, &mut link)
    }

    /// Prints what the host knows of the element at an index.
    pub fn show_element<K: Sink>(&self, at: usize, sink: &mut K) -> Result<(), Failed>
        requires { at < length self.now.view.elements }
        ensures tells { (w : PanelWorld) (x : ElementFields) → FrontStands self.now w → slice_get w.view.elements at ≡ Some x
            → FrontTells (says_line (says_view (shown_sight x x.value)) ∷ []) w self.now (K.written sink.old) (K.written sink.new) result }
        ensures cause { HasCause (K.faults sink.old) (K.faults sink.new) result }
    {
        let element = self.element_at(at);
        let name = element.name();
        match element.value {
            Some(value) => write_value(sink, name.as_bytes(), value),
            None => write_unknown(sink, name.as_bytes()),
        }
    }

    /// Turns the knob of the element at an index. The host isn't told.
    pub fn turn(&mut self, at: usize, value: i32) -> Result<Turned, NoMemory>
        requires at { at < length self.old.view.elements }
        requires fits { (x : ElementFields) → slice_get self.old.view.elements at ≡ Some x → fits_element x.kind value ≡ true }
        ensures stands { (w : PanelWorld) (x : ElementFields) → FrontStands self.old w → slice_get w.view.elements at ≡ Some x
            → OnOk result (FrontStands self.new (turned x.key value w)) }
        ensures came { (w : PanelWorld) (x : ElementFields) → FrontStands self.old w → slice_get w.view.elements at ≡ Some x
            → IfOk result (λ turned. outcome_of turned ≡ panel_outcome x.key value w) }
    {
        let key = self.element_at(at).key;
        self.panel.turn(&mut self.device, key, value)
    }

    /// Follows the messages that wait, the oldest first, up to the first whose transfer breaks, and prints each and what it brought.
    pub fn follow_all<K: Sink>(&mut self, sink: &mut K) -> Result<(), Failed>
        ensures tells { (w : PanelWorld) → FrontStands self.old w
            → FrontTells (following_told w.pending w) (all_followed w.pending w) self.new (K.written sink.old) (K.written sink.new) result }
        ensures cause { HasCause (K.faults sink.old) (K.faults sink.new) result }
    {
        match self.first_message() {
            Some(_) => self.follow_waiting(sink),
            None => write_no_message(sink),
        }
    }

    /// The message of the control that changed first.
    fn first_message(&self) -> Option<[u8; 6]>
        ensures { result ≡ first_message self.now.device.function.control_interface self.now.pending }
    {
        self.panel.first(self.device.function())
    }

    /// Follows the messages that wait.
    fn follow_waiting<K: Sink>(&mut self, sink: &mut K) -> Result<(), Failed>
        ensures tells { (w : PanelWorld) → FrontStands self.old w
            → FrontTells (all_told w.pending w) (all_followed w.pending w) self.new (K.written sink.old) (K.written sink.new) result }
        ensures cause { HasCause (K.faults sink.old) (K.faults sink.new) result }
    {
        while let Some(message) = self.first_message() {
            if !self.follow_message(message, sink)? {
                return Ok(());
            }
        }
        Ok(())
    }

    /// Follows the first message, and prints it and what it brought. Answers whether its transfer was answered.
    fn follow_message<K: Sink>(&mut self, message: [u8; 6], sink: &mut K) -> Result<bool, Failed>
        requires { first_message self.old.device.function.control_interface self.old.pending ≡ Some message }
        ensures tells { (w : PanelWorld) → FrontStands self.old w → TellsMessage w self.new (K.written sink.old) (K.written sink.new) result }
        ensures fewer { IfOk result (λ answered. answered ≡ true → self.new.pending ≡ drop 1 self.old.pending) }
        ensures cause { HasCause (K.faults sink.old) (K.faults sink.new) result }
    {
        let heard = self.hear_message(message);
        write_message(sink, message)?;
        match heard {
            Ok(heard) => {
                write_value(sink, heard.element.name().as_bytes(), heard.value)?;
                Ok(true)
            }
            Err(Broken) => {
                write_view_broken(sink)?;
                Ok(false)
            }
        }
    }

    /// The host follows the first message; where that is answered it is removed.
    fn hear_message(&mut self, message: [u8; 6]) -> Result<Heard, Broken>
        requires { first_message self.old.device.function.control_interface self.old.pending ≡ Some message }
        ensures hears { (w : PanelWorld) → FrontStands self.old w → HearsMessage w self.new result }
        ensures fewer { OnOk result (self.new.pending ≡ drop 1 self.old.pending) }
    {
        let fault = self.breaks.take();
        let mut link = DeviceLink::new(&mut self.device, fault);
        match hear(&mut self.view, message, &mut link) {
            Ok(heard) => {
                self.panel.remove_first();
                Ok(heard)
            }
            Err(FollowFault::Broken) => Err(Broken),
            Err(FollowFault::Foreign) => unreachable!(),
        }
    }
}
