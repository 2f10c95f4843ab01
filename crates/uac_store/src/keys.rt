// Keys, and the ranges that a control's values lie in.
ghost use Rattle.std.specs.Prelude.{[], ◌∷◌};
ghost use Rattle.std.proofs.Common.{rules};
ghost use Rattle.std.specs.Cmp.Rules.{hashing};

use arrayvec::ArrayVec;
use std::hash::{Hash, Hasher};

/// What addresses one control of an audio function (Audio Class 2.0, 5.2.2): an entity's id, a control selector, and a
/// channel number. A mixer's node has its number for a channel: `u * outputs + v` for input `u` and output `v`, both
/// counted from 0 (profile).
#[derive(Clone, Copy, PartialEq, Eq, Debug)]
pub struct Key {
    pub entity: u8,
    pub selector: u8,
    pub channel: u8,
}

impl Hash for Key {
    ghost hash_input = { λ key. (key.entity ∷ key.selector ∷ key.channel ∷ []) ∷ [] };

    ghost respects_eq = { Prim.search (hashing, rules) };

    // In one write: one is cheaper than three.
    fn hash<H: Hasher>(&self, state: &mut H) {
        state.write(&[self.entity, self.selector, self.channel]);
    }
}

/// A subrange of the values of a control, as RANGE answers it (Audio Class 2.0, 5.2.1): from `min` to `max` in steps of
/// `res`, in the control's own units.
#[derive(Clone, Copy, PartialEq, Eq, Debug, Default)]
pub struct Range {
    pub min: i32,
    pub max: i32,
    pub res: i32,
}

/// The subranges of one control, at most twelve.
pub type Ranges = ArrayVec<Range, 12>;
