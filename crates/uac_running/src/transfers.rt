// Control transfers of a running device, and the elements of the host's view.
ghost use Rattle.std.specs.Prelude.{◌≡◌, ◌<◌, ◌∷◌, [], List, length, slice_get, true, Some, None};
ghost use Rattle.std.specs.Prelude.{IfSome};
ghost use Rattle.std.specs.Option.{option_and_then, option_map};
ghost use Rattle.uac_alt.specs.AltStreams.{stream_fields};
ghost use Rattle.uac_request.specs.Requests.{answer_fields, value_bytes};
ghost use Rattle.uac_units.specs.Hearing.{Reading};
ghost use Rattle.uac_edges.specs.Faults.{HasCause};
ghost use Rattle.uac_device.specs.DeviceKept as kept;
ghost use Rattle.uac_device.specs.DeviceKept.{begun_fields};
ghost use Rattle.uac_host.specs.HostCalls.{IsStreamOf};
ghost use Rattle.uac_streaming.specs.StreamingKept.{StreamingStands};
ghost use Rattle.uac_streaming.specs.StreamingWorld.{StreamingWorld};
ghost use Rattle.uac_mixer.specs.declared.element.Element.{Element};
ghost use Rattle.uac_mixer.specs.MixerElements.{fits_element, width_of};
ghost use Rattle.uac_mixer.specs.ViewTransfers.{came_of, came_of_set, get_of, set_of};
ghost use Rattle.uac_transcript.specs.Printing.{Prints};
ghost use Rattle.uac_transcript.specs.Transcript.{says_answer, says_view};
ghost use Rattle.uac_running.specs.RunningWorld.{RunningWorld};
ghost use Rattle.uac_running.specs.RunningTransfers.{comes_back, element_named, outcome_of, shown_sight, transfer};
ghost use Rattle.uac_running.specs.RunningTransfers.{after_transfer};
ghost use Rattle.uac_running.specs.RunningTransfers.{with_break};
ghost use Rattle.uac_running.specs.RunningTransfers as spec;
ghost use Rattle.uac_running.specs.RunningKept.{RunningStands, RunningStandsBetween, RunningTellsBetween};

use crate::running::Running;
use uac_device::Begun;
use uac_edges::{Failed, Sink};
use uac_mixer::{Broken, DeviceLink, Element, SetFault, When};
use uac_request::{Answer, Setup};
use uac_streaming::Streaming;
use uac_topology::Function;
use uac_transcript::{
    write_broken, write_done, write_given, write_set, write_set_stalled, write_stalled,
    write_unknown, write_value, write_view_broken,
};

/// When a transfer breaks.
fn break_at(after: bool) -> When
    ensures { result ≡ spec.break_at after }
{
    if after { When::After } else { When::Before }
}

/// The host's streams follow what a request began, if it began anything.
fn follow(streaming: &mut Streaming, function: &Function, began: Option<Begun>)
    requires { IfSome began (λ begun. IfSome begun.stream (λ s. IsStreamOf function.now begun.interface (stream_fields s))) }
    ensures { (d : kept.DeviceFields) (w : StreamingWorld) → StreamingStands streaming.old d w → w.device.function ≡ function.now
        → StreamingStands streaming.new d (spec.with_begun (option_map begun_fields began) w) }
{
    match began {
        Some(begun) => streaming.follow(function, begun.interface, begun.stream),
        None => {}
    }
}

impl Running {
    /// The next transfer breaks before or after the device acted; a break that was pending is forgotten.
    pub fn set_break(&mut self, after: bool)
        ensures stands { (meters : List Reading) (r : RunningWorld) → RunningStandsBetween self.old meters r
            → RunningStandsBetween self.new meters (with_break after r) }
        ensures function { self.new.device.function ≡ self.old.device.function }
    {
        self.breaks = Some(break_at(after));
    }

    /// A control transfer, with the bytes that are sent: its answer is printed.
    pub fn control<K: Sink>(
        &mut self,
        setup: &Setup,
        sent: &[u8],
        sink: &mut K,
    ) -> Result<(), Failed>
        ensures tells { (meters : List Reading) (r : RunningWorld) → RunningStandsBetween self.old meters r
            → RunningTellsBetween (transfer setup.now sent.now r) self.new meters (K.written sink.old) (K.written sink.new) result }
        ensures cause { HasCause (K.faults sink.old) (K.faults sink.new) result }
    {
        let came = self.transfer(setup, sent);
        self.write_outcome(&came, sink)
    }

    /// A control transfer: the device acts, unless it breaks before, the host's streams follow it, and the view follows what comes back.
    #[inline(always)]
    fn transfer(&mut self, setup: &Setup, sent: &[u8]) -> Result<Answer, Broken>
        ensures stands { (meters : List Reading) (r : RunningWorld) → RunningStands self.old meters r
            → RunningStands self.new meters (after_transfer setup.now sent.now r) }
        ensures came { (meters : List Reading) (r : RunningWorld) → RunningStands self.old meters r
            → came_of result ≡ comes_back setup.now sent.now r }
    {
        let fault = self.breaks.take();
        let mut link = DeviceLink::new(&mut self.device, fault);
        let came = self.view.transfer(&mut link, setup, sent);
        let began = link.began();
        follow(&mut self.streaming, self.device.function(), began);
        came
    }

    /// Prints what came back of a transfer.
    fn write_outcome<K: Sink>(
        &self,
        came: &Result<Answer, Broken>,
        sink: &mut K,
    ) -> Result<(), Failed>
        ensures printed { Prints (K.written sink.old) (K.written sink.new) result
            (says_answer (outcome_of self.now.configuration (came_of came.now)) ∷ []) }
        ensures cause { HasCause (K.faults sink.old) (K.faults sink.new) result }
    {
        match came {
            Ok(answer) => self.write_answer(answer, sink),
            Err(Broken) => write_broken(sink),
        }
    }

    /// Prints an answer: a descriptor is a piece of the configuration's bytes.
    fn write_answer<K: Sink>(&self, answer: &Answer, sink: &mut K) -> Result<(), Failed>
        ensures printed { Prints (K.written sink.old) (K.written sink.new) result
            (says_answer (outcome_of self.now.configuration (Some (answer_fields answer.now))) ∷ []) }
        ensures cause { HasCause (K.faults sink.old) (K.faults sink.new) result }
    {
        match answer {
            Answer::Bytes(bytes) => write_given(sink, bytes.as_slice()),
            Answer::Descriptor { from, to } => write_given(sink, self.piece(*from, *to)),
            Answer::Done => write_done(sink),
            Answer::Stall(rule) => write_stalled(sink, *rule),
        }
    }

    /// A piece of the configuration's bytes.
    fn piece(&self, from: u32, to: u32) -> &[u8]
        ensures { result.now ≡ spec.piece from to self.now.configuration }
    {
        let bytes = self.configuration.as_slice();
        let front = &bytes[..bytes.len().min(to as usize)];
        &front[front.len().min(from as usize)..]
    }

    /// The index of the first element with a name.
    pub fn element(&self, name: &[u8]) -> Option<usize>
        ensures named { (meters : List Reading) (r : RunningWorld) → RunningStandsBetween self.now meters r
            → option_and_then (slice_get r.view.elements) result ≡ element_named r name.now }
        ensures there { IfSome result (λ at. at < length self.now.view.elements) }
    {
        self.view.find(name)
    }

    /// The element at an index.
    fn element_at(&self, at: usize) -> Element
        requires { at < length self.now.view.elements }
        ensures { slice_get self.now.view.elements at ≡ Some result }
    {
        self.view.elements()[at]
    }

    /// Whether a value fits the bytes of the element at an index.
    pub fn fits(&self, at: usize, value: i32) -> bool
        requires { at < length self.now.view.elements }
        ensures { (x : Element) → slice_get self.now.view.elements at ≡ Some x → result ≡ fits_element x.kind value }
    {
        self.element_at(at).kind.fits(value)
    }

    /// Reads the element at an index from the device, and prints its value.
    pub fn read_element<K: Sink>(&mut self, at: usize, sink: &mut K) -> Result<(), Failed>
        requires { at < length self.old.view.elements }
        ensures tells { (meters : List Reading) (r : RunningWorld) (x : Element) → RunningStandsBetween self.old meters r
            → slice_get r.view.elements at ≡ Some x
            → RunningTellsBetween (spec.read_element x r) self.new meters (K.written sink.old) (K.written sink.new) result }
        ensures cause { HasCause (K.faults sink.old) (K.faults sink.new) result }
    {
        let name = self.element_at(at).name();
        match self.read(at) {
            Ok(value) => write_value(sink, name.as_bytes(), value),
            Err(Broken) => write_view_broken(sink),
        }
    }

    /// The value of the element at an index, as the device tells it.
    fn read(&mut self, at: usize) -> Result<i32, Broken>
        requires { at < length self.old.view.elements }
        ensures stands { (meters : List Reading) (r : RunningWorld) (x : Element) → RunningStands self.old meters r
            → slice_get r.view.elements at ≡ Some x
            → RunningStands self.new meters (after_transfer (get_of r.device.function.control_interface x) [] r) }
        ensures value { (meters : List Reading) (r : RunningWorld) (x : Element) → RunningStands self.old meters r
            → slice_get r.view.elements at ≡ Some x
            → spec.IsRead x r result }
    {
        let fault = self.breaks.take();
        let mut link = DeviceLink::new(&mut self.device, fault);
        self.view.get(at, &mut link)
    }

    /// Sets the element at an index, and prints how that went.
    pub fn set_element<K: Sink>(
        &mut self,
        at: usize,
        value: i32,
        sink: &mut K,
    ) -> Result<(), Failed>
        requires at { at < length self.old.view.elements }
        requires fits { (x : Element) → slice_get self.old.view.elements at ≡ Some x → fits_element x.kind value ≡ true }
        ensures tells { (meters : List Reading) (r : RunningWorld) (x : Element) → RunningStandsBetween self.old meters r
            → slice_get r.view.elements at ≡ Some x
            → RunningTellsBetween (spec.set_element x value r) self.new meters (K.written sink.old) (K.written sink.new) result }
        ensures cause { HasCause (K.faults sink.old) (K.faults sink.new) result }
    {
        match self.set(at, value) {
            Ok(()) => write_set(sink),
            Err(SetFault::Stalled(rule)) => write_set_stalled(sink, rule),
            Err(SetFault::Broken) => write_view_broken(sink),
        }
    }

    /// The device is asked to hold a value of the element at an index.
    fn set(&mut self, at: usize, value: i32) -> Result<(), SetFault>
        requires at { at < length self.old.view.elements }
        requires fits { (x : Element) → slice_get self.old.view.elements at ≡ Some x → fits_element x.kind value ≡ true }
        ensures stands { (meters : List Reading) (r : RunningWorld) (x : Element) → RunningStands self.old meters r
            → slice_get r.view.elements at ≡ Some x
            → RunningStands self.new meters
            (after_transfer (set_of r.device.function.control_interface x) (value_bytes (width_of x.kind) value)
            r) }
        ensures came { (meters : List Reading) (r : RunningWorld) (x : Element) → RunningStands self.old meters r
            → slice_get r.view.elements at ≡ Some x
            → came_of_set result ≡ comes_back (set_of r.device.function.control_interface x) (value_bytes (width_of x.kind) value) r }
    {
        let fault = self.breaks.take();
        let mut link = DeviceLink::new(&mut self.device, fault);
        self.view.set(at, value, &mut link)
    }

    /// Prints what the host knows of the element at an index.
    pub fn show_element<K: Sink>(&self, at: usize, sink: &mut K) -> Result<(), Failed>
        requires { at < length self.now.view.elements }
        ensures printed { (x : Element) → slice_get self.now.view.elements at ≡ Some x
            → Prints (K.written sink.old) (K.written sink.new) result (says_view (shown_sight x x.value) ∷ []) }
        ensures cause { HasCause (K.faults sink.old) (K.faults sink.new) result }
    {
        let element = self.element_at(at);
        let name = element.name();
        match element.value {
            Some(value) => write_value(sink, name.as_bytes(), value),
            None => write_unknown(sink, name.as_bytes()),
        }
    }
}
