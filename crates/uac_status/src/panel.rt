// The knobs of a device, and the messages that wait.
ghost use Rattle.std.specs.Prelude.{◌≡◌, ◌<◌, ℕ, [], drop, length, Option, IfOk, OnErr, OnOk};
ghost use Rattle.std.specs.Option.{option_map_or};
ghost use Rattle.uac_request.specs.Requests.{answer_fields, has_value, is_done, is_stalled, request_state};
ghost use Rattle.uac_status.specs.Messages as spec;
ghost use Rattle.uac_status.specs.Messages.{first_message};
ghost use Rattle.uac_status.specs.Knobs.{IsKnob, is_pending, knob_outcome, outcome_by, pending_turned};
ghost use Rattle.uac_status.specs.PanelCalls.{IsTurned, outcome_of};

use crate::knobs::{knob_setup, width_at};
use std::alloc::Global;
use std::marker::Model;
use uac_descriptor::NoMemory;
use uac_device::Device;
use uac_device::laws::controls_are_stored;
use uac_request::Answer;
use uac_request::bytes::value_bytes;
use uac_store::{Key, Store};
use uac_topology::Function;
use uac_topology::laws::functions_are_sound;

/// The knobs of a device: the keys of the controls that they changed and of which the host wasn't told yet, each once, the oldest first.
#[derive(Drop)]
pub struct Panel {
    pending: Vec<Key>,
}

impl Model for Panel {
    ghost use Rattle.std.specs.Prelude.{List};
    ghost use Rattle.uac_store.specs.declared.keys.Key.{Key};

    ghost Value = { List Key };

    ghost view = { λ p. p.pending.items };
}

/// What came of a knob.
#[derive(Clone, Copy, Debug, PartialEq, Eq)]
pub enum Turned {
    /// The device stalled the request, by the rule with this number.
    Stall(u8),
    /// The control has that value already.
    Same,
    /// The control has the value now, and a message waits.
    Done,
}

impl Panel {
    /// No message waits. It takes no memory.
    pub fn new(alloc: Global) -> Panel
        ensures { result ≡ [] }
    {
        Panel {
            pending: Vec::new(alloc),
        }
    }

    /// Turns the knob of an element's control to a value that fits its bytes: the device sends itself the request to set it. Where that
    /// changes the control its message waits, after those that do, unless it waits already. After `NoMemory` nothing is changed.
    pub fn turn(&mut self, device: &mut Device, key: Key, value: i32) -> Result<Turned, NoMemory>
        requires { IsKnob device.old.function.entities key value }

        // What comes of it, and what it leaves: a stall and a value that the control has change nothing.
        ensures turned { IfOk result (λ turned. outcome_of turned
            ≡ knob_outcome device.old.function (request_state device.old.controls device.old.settings) key value) }
        ensures device { OnOk result (IsTurned
            (knob_outcome device.old.function (request_state device.old.controls device.old.settings) key value) key value
            device.old device.new) }
        ensures pending { OnOk result (self.new ≡ pending_turned
            (knob_outcome device.old.function (request_state device.old.controls device.old.settings) key value) key self.old) }

        // Without memory.
        ensures panel_stays { OnErr result (self.new ≡ self.old) }
        ensures device_stays { OnErr result (device.new ≡ device.old) }
    {
        if self.waits(key) {
            return Ok(turn_knob(device, key, value));
        }
        self.pending.push(key)?;
        let turned = turn_knob(device, key, value);
        if turned != Turned::Done {
            let _ = self.pending.pop();
        }
        Ok(turned)
    }

    /// The message of the control that changed first; None exactly where none waits.
    pub fn first(&self, function: &Function) -> Option<[u8; 6]>
        ensures { result ≡ first_message function.now.control_interface self.now }
    {
        let key = self.pending.first()?;
        Some(message_of(function.control_interface(), *key))
    }

    /// Removes the message of the control that changed first.
    pub fn remove_first(&mut self)
        requires { 0 < length self.old }
        ensures { self.new ≡ drop 1 self.old }
    {
        self.pending.remove(0);
    }

    /// Whether a message of the control with this key waits.
    fn waits(&self, key: Key) -> bool
        ensures { result ≡ is_pending self.now key }
    {
        self.pending.contains(&key)
    }
}

/// bAttribute of a message of a control's current value (Audio Class 2.0, A.14).
pub(crate) const CUR: u8 = 0x01;

/// The message that a control's current value changed (Audio Class 2.0, 6.1).
fn message_of(control: u8, key: Key) -> [u8; 6]
    ensures { result ≡ spec.message_of control key }
{
    [0, CUR, key.channel, key.selector, control, key.entity]
}

/// The device sets a control of its own.
fn turn_knob(device: &mut Device, key: Key, value: i32) -> Turned
    requires { IsKnob device.old.function.entities key value }
    ensures turned { outcome_of result
        ≡ knob_outcome device.old.function (request_state device.old.controls device.old.settings) key value }
    ensures device { IsTurned
        (knob_outcome device.old.function (request_state device.old.controls device.old.settings) key value) key value
        device.old device.new }
{
    functions_are_sound(device.function());
    controls_are_stored(device);
    let has = has_value(device.store(), key, value);
    let setup = knob_setup(device.function(), key);
    let bytes = value_bytes(width_at(device.function(), key), value);
    let answer = device.control(&setup, bytes.as_slice());
    what_came(has, answer)
}

/// What came of a request to set a control, by whether it had the value.
fn what_came(has: bool, answer: Answer) -> Turned
    ensures { (broken : Option ℕ) → answer_fields answer ≡ option_map_or is_stalled broken is_done → outcome_of result ≡ outcome_by broken has }
{
    match answer {
        Answer::Stall(rule) => Turned::Stall(rule),
        Answer::Done if has => Turned::Same,
        Answer::Done => Turned::Done,
        Answer::Bytes(_) | Answer::Descriptor { .. } => Turned::Same,
    }
}

/// Whether a control has a value.
fn has_value(store: &Store, key: Key, value: i32) -> bool
    ensures { result ≡ has_value store.now key value }
{
    match store.cur(key) {
        Some(held) => value == held,
        None => false,
    }
}
