// Units in boxes.
ghost use Rattle.std.specs.Prelude.{IfOk};
ghost use Rattle.uac_units.specs.Fitting.{IsFitted};

use std::alloc::{AllocError, Global};
use uac_units::{PlainEffect, PlainFeature, PlainMixer, PlainSelector, Rack, Unit};

/// A rack of plain units.
pub(crate) fn plain_rack(alloc: Global) -> Result<Rack, AllocError>
    ensures { IfOk result (λ rack. IsFitted (λ v x. (⟦<dyn Unit as Unit>⟧ v).kind_of x) rack) }
{
    Ok(Rack::new(
        Box::new(alloc, PlainMixer)?,
        Box::new(alloc, PlainSelector)?,
        Box::new(alloc, PlainFeature)?,
        Box::new(alloc, PlainEffect)?,
    ))
}
