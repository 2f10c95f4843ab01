// What an element controls.
ghost use Rattle.std.specs.Prelude.{◌≡◌, ◌≤◌, length};
ghost use Rattle.uac_mixer.specs.MixerElements as spec;

use uac_entities::EntityKind;
use uac_store::controls::{Control, control_of, facts_of};

/// What an element controls (Audio Class 2.0, 5.2.5).
#[derive(Clone, Copy, PartialEq, Eq, Debug)]
pub enum ElementKind {
    /// A clock source's frequency.
    Rate,
    /// The clock that a clock selector takes.
    Clock,
    /// A clock multiplier's numerator.
    Times,
    /// A clock multiplier's denominator.
    Over,
    /// A mixer's node.
    Mix,
    /// The pin that a selector takes.
    Select,
    /// A feature's mute.
    Mute,
    /// A feature's volume.
    Volume,
    /// An effect's enable.
    Enable,
}

impl ElementKind {
    /// The word that names begin with.
    pub fn kind_name(self) -> &'static [u8]
        ensures text { result.now ≡ spec.kind_name self }
        ensures short { length result.now ≤ 6 }
    {
        match self {
            ElementKind::Rate => b"rate",
            ElementKind::Clock => b"clock",
            ElementKind::Times => b"times",
            ElementKind::Over => b"over",
            ElementKind::Mix => b"mix",
            ElementKind::Select => b"select",
            ElementKind::Mute => b"mute",
            ElementKind::Volume => b"volume",
            ElementKind::Enable => b"enable",
        }
    }

    /// The control that it is.
    pub fn control(self) -> Control
        ensures { result ≡ spec.control_shown self }
    {
        match self {
            ElementKind::Rate => Control::SamplingFrequency,
            ElementKind::Clock => Control::ClockSelector,
            ElementKind::Times => Control::Numerator,
            ElementKind::Over => Control::Denominator,
            ElementKind::Mix => Control::MixerNode,
            ElementKind::Select => Control::Selector,
            ElementKind::Mute => Control::Mute,
            ElementKind::Volume => Control::Volume,
            ElementKind::Enable => Control::Enable,
        }
    }

    /// The bytes of the control (Audio Class 2.0, 5.2.5.1 to 5.2.5.8).
    #[tactic(auto, using(crate::proofs::MixerElementsByteLemmas::some, crate::proofs::MixerElementsByteLemmas::few))]
    pub fn width(self) -> u8
        ensures value { result ≡ spec.width_of self }
        ensures some { 1 ≤ result }
        ensures few { result ≤ 4 }
    {
        facts_of(self.control()).width
    }

    /// Whether the values of an element of the kind are gains, which are signed.
    pub fn is_gain(self) -> bool
        ensures { result ≡ spec.is_gain self }
    {
        facts_of(self.control()).signed
    }

    /// Whether a value, which is one of four bytes with a sign, lies in the bytes of the control.
    pub fn fits(self, value: i32) -> bool
        ensures { result ≡ spec.fits_element self value }
    {
        let bits = 8 * self.width();
        if self.is_gain() {
            let half = 1 << (bits - 1);
            (-half..half).contains(&i64::from(value))
        } else {
            (0..1 << bits).contains(&i64::from(value))
        }
    }
}

/// The kind of an entity's control that keeps a value; None where no control with this selector keeps one.
pub(crate) fn kind_at(entity: EntityKind, selector: u8) -> Option<ElementKind>
    ensures { result ≡ spec.kind_at entity selector }
{
    let control = control_of(entity, selector)?;
    element_of(control)
}

// The element that a control is, None where it keeps no value.
fn element_of(control: Control) -> Option<ElementKind>
    ensures { result ≡ spec.element_of control }
{
    match control {
        Control::SamplingFrequency => Some(ElementKind::Rate),
        Control::ClockSelector => Some(ElementKind::Clock),
        Control::Numerator => Some(ElementKind::Times),
        Control::Denominator => Some(ElementKind::Over),
        Control::MixerNode => Some(ElementKind::Mix),
        Control::Selector => Some(ElementKind::Select),
        Control::Mute => Some(ElementKind::Mute),
        Control::Volume => Some(ElementKind::Volume),
        Control::Enable => Some(ElementKind::Enable),
        Control::ClockValid | Control::Connector => None,
    }
}
