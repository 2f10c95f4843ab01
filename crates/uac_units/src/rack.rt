// The four units that a graph is rendered with.

ghost use Rattle.std.specs.Prelude.{◌≡◌, true, false};
ghost use Rattle.uac_units.specs.declared.jobs.UnitKind.TheVariants.{Mixer, Selector, Feature, Effect};
ghost use Rattle.uac_units.specs.Fitting.{IsFitted, slot};

use crate::jobs::UnitKind;
use crate::unit::Unit;

/// A box for each kind of unit.
#[derive(Drop)]
pub struct Rack {
    mixer: Box<dyn Unit>,
    selector: Box<dyn Unit>,
    feature: Box<dyn Unit>,
    effect: Box<dyn Unit>,
}

impl Rack {
    /// Takes a box of each kind.
    pub fn new(
        mixer: Box<dyn Unit>,
        selector: Box<dyn Unit>,
        feature: Box<dyn Unit>,
        effect: Box<dyn Unit>,
    ) -> Rack
        requires mixer { kind_of mixer ≡ Mixer }
        requires selector { kind_of selector ≡ Selector }
        requires feature { kind_of feature ≡ Feature }
        requires effect { kind_of effect ≡ Effect }
        ensures fitted { IsFitted (λ v x. (⟦<dyn Unit as Unit>⟧ v).kind_of x) result }
        ensures mixer { slot result Mixer ≡ (mixer.vtable, mixer.value) }
        ensures selector { slot result Selector ≡ (selector.vtable, selector.value) }
        ensures feature { slot result Feature ≡ (feature.vtable, feature.value) }
        ensures effect { slot result Effect ≡ (effect.vtable, effect.value) }
    {
        Rack {
            mixer,
            selector,
            feature,
            effect,
        }
    }

    /// The box of that kind.
    pub fn unit(&self, kind: UnitKind) -> &dyn Unit
        requires { IsFitted (λ v x. (⟦<dyn Unit as Unit>⟧ v).kind_of x) self.now }
        ensures kind { kind_of result.now ≡ kind }
        ensures slot { result.now ≡ slot self.now kind }
    {
        // Features and mixers, the most frequent, are asked for alone, so that no table of jumps is made.
        match kind {
            UnitKind::Feature => &*self.feature,
            UnitKind::Mixer => &*self.mixer,
            UnitKind::Selector => self.selector_or_effect(true),
            UnitKind::Effect => self.selector_or_effect(false),
        }
    }

    // The selector's box, or else the effect's.
    #[inline(never)]
    fn selector_or_effect(&self, selects: bool) -> &dyn Unit
        ensures selector { selects ≡ true → result.now ≡ slot self.now Selector }
        ensures effect { selects ≡ false → result.now ≡ slot self.now Effect }
    {
        if selects {
            &*self.selector
        } else {
            &*self.effect
        }
    }
}
