// Why a line of a bench isn't done.
use thiserror::Error;
use uac_edges::Failed;

/// Why a line of a script isn't done on a bench.
#[derive(Clone, Copy, Debug, PartialEq, Eq, Error)]
pub enum BenchFault {
    /// The line breaks a rule of the script: 5 or 6.
    #[error("the line breaks rule S{0}")]
    Script(u8),
    /// The sink failed.
    #[error("a write failed")]
    WriteFault,
}

impl From<Failed> for BenchFault {
    ghost use Rattle.std.specs.Prelude.{◌≡◌};
    ghost use Rattle.uac_fullspeed.specs.declared.fault.BenchFault.TheVariants as faults;

    ghost from_gives = { λ _ e. e ≡ faults.WriteFault };

    fn from(_failed: Failed) -> BenchFault {
        BenchFault::WriteFault
    }
}
