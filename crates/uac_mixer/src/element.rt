// An element of a view, and its name.
ghost use Rattle.std.specs.Prelude.{◌≡◌, ◌≤◌, ◌+◌, ◌++◌, [], List, ℕ, length, decimal};

use crate::kinds::ElementKind;
use arrayvec::ArrayVec;
use itoa::Buffer;
use std::marker::Model;
use uac_store::Key;

/// A control that a host's mixer shows, with what is known of its value.
#[derive(Clone, Copy, PartialEq, Eq, Debug)]
pub struct Element {
    pub key: Key,
    pub kind: ElementKind,
    /// Whether a host may set the control.
    pub writable: bool,
    /// The device's value; None where it is unknown.
    pub value: Option<i32>,
}

/// The name of an element, as `volume.3.1`: a kind, an entity and a channel.
#[derive(Drop)]
pub struct ElementName {
    bytes: ArrayVec<u8, 16>,
}

impl Model for ElementName {
    ghost use Rattle.std.specs.Prelude.{ℕ, List};

    ghost Value = { List ℕ };

    ghost view = { λ n. n.bytes.items };
}

impl Element {
    ghost use Rattle.uac_mixer.specs.MixerElements.{name_of};

    /// The name of an element.
    #[tactic(auto, unfolding(crate::specs::MixerElements::name_of))]
    pub fn name(&self) -> ElementName
        ensures { result ≡ name_of self.now }
    {
        let mut name = ElementName {
            bytes: ArrayVec::new(),
        };
        name.push(self.kind.kind_name());
        name.push(b".");
        name.push_number(self.key.entity);
        name.push(b".");
        name.push_number(self.key.channel);
        name
    }
}

impl ElementName {
    /// The text, of at most 16 bytes.
    pub fn as_bytes(&self) -> &[u8]
        ensures text { result.now ≡ self.now }
        ensures few { length result.now ≤ 16 }
    {
        self.bytes.as_slice()
    }

    // Appends a text, for which there is room.
    fn push(&mut self, text: &[u8])
        requires { length self.old + length text.now ≤ 16 }
        ensures text { self.new ≡ self.old ++ text.now }
        ensures len { length self.new ≡ length self.old + length text.now }
    {
        match self.bytes.try_extend_from_slice(text) {
            Ok(()) => {}
            Err(_) => unreachable!(),
        }
    }

    // Appends a number, for three digits of which there is room.
    fn push_number(&mut self, number: u8)
        requires { length self.old + 3 ≤ 16 }
        ensures text { self.new ≡ self.old ++ decimal number }
        ensures len { length self.new ≤ length self.old + 3 }
    {
        let mut digits = Buffer::new();
        self.push(digits.format(number).as_bytes());
    }
}
