// Why a reader stopped.
use std::alloc::AllocFailed;
use uac_descriptor::{Block, NoMemory};
use uac_grammar_rules::GrammarFault;

/// Why a reader stopped.
#[derive(Clone, Copy, PartialEq, Eq, Debug)]
pub enum ReadStop {
    /// The bytes break a rule.
    Fault(GrammarFault),
    /// No memory was found.
    NoMemory,
}

impl From<NoMemory> for ReadStop {
    ghost use Rattle.std.specs.Prelude.{◌≡◌};
    ghost use Rattle.uac_grammar.specs.declared.fault.ReadStop.TheVariants as stops;

    ghost from_gives = { λ _ stop. stop ≡ stops.NoMemory };

    fn from(_refused: NoMemory) -> ReadStop {
        ReadStop::NoMemory
    }
}

// The block that found no room is dropped.
impl From<AllocFailed<Block>> for ReadStop {
    ghost use Rattle.std.specs.Prelude.{◌≡◌};
    ghost use Rattle.uac_grammar.specs.declared.fault.ReadStop.TheVariants as stops;

    ghost from_gives = { λ _ stop. stop ≡ stops.NoMemory };

    fn from(_refused: AllocFailed<Block>) -> ReadStop {
        ReadStop::NoMemory
    }
}
