// Why reading a view, or setting an element, failed.
use crate::link::Broken;
use std::alloc::AllocError;
use thiserror::Error;
use uac_descriptor::NoMemory;

/// Why a view wasn't read.
#[derive(Clone, Copy, PartialEq, Eq, Debug, Error)]
pub enum ViewFault {
    /// A transfer broke.
    #[error("a transfer broke")]
    Broken,
    /// There was no memory for the elements.
    #[error("out of memory")]
    NoMemory,
}

/// Why an element wasn't set.
#[derive(Clone, Copy, PartialEq, Eq, Debug, Error)]
pub enum SetFault {
    /// The transfer broke.
    #[error("the transfer broke")]
    Broken,
    /// The device stalled it, by the rule with this number.
    #[error("stalled by rule Q{0}")]
    Stalled(u8),
}

impl From<Broken> for ViewFault {
    ghost use Rattle.std.specs.Prelude.{◌≡◌};
    ghost use Rattle.uac_mixer.specs.declared.faults.ViewFault.TheVariants as faults;

    ghost from_gives = { λ _ e. e ≡ faults.Broken };

    fn from(_broken: Broken) -> ViewFault {
        ViewFault::Broken
    }
}

impl From<NoMemory> for ViewFault {
    ghost use Rattle.std.specs.Prelude.{◌≡◌};
    ghost use Rattle.uac_mixer.specs.declared.faults.ViewFault.TheVariants as faults;

    ghost from_gives = { λ _ e. e ≡ faults.NoMemory };

    fn from(_refused: NoMemory) -> ViewFault {
        ViewFault::NoMemory
    }
}

impl From<Broken> for SetFault {
    ghost use Rattle.std.specs.Prelude.{◌≡◌};
    ghost use Rattle.uac_mixer.specs.declared.faults.SetFault.TheVariants as faults;

    ghost from_gives = { λ _ e. e ≡ faults.Broken };

    fn from(_broken: Broken) -> SetFault {
        SetFault::Broken
    }
}
