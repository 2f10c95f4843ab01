// Why a line isn't done.
use thiserror::Error;
use uac_descriptor::NoMemory;
use uac_edges::Failed;
use uac_grammar_rules::GrammarFault;
use uac_topology_rules::TopologyFault;

/// Why a line of a script, or its end, isn't done.
#[derive(Clone, Copy, Debug, PartialEq, Eq, Error)]
pub enum LineFault {
    /// The line breaks this rule of the script; at the end rule 8.
    #[error("the line breaks rule S{0}")]
    Script(u8),
    /// The descriptor has this first fault.
    #[error("the descriptor breaks a rule of the grammar")]
    Grammar(GrammarFault),
    /// The function breaks this rule.
    #[error("the function breaks a rule of the topology")]
    Topology(TopologyFault),
    /// The sink failed.
    #[error("a write failed")]
    WriteFault,
    /// There was no memory.
    #[error("no memory")]
    NoMemory,
}

impl From<Failed> for LineFault {
    ghost use Rattle.std.specs.Prelude.{◌≡◌};
    ghost use Rattle.uac_ends.specs.declared.fault.LineFault.TheVariants as faults;

    ghost from_gives = { λ _ e. e ≡ faults.WriteFault };

    fn from(_failed: Failed) -> LineFault {
        LineFault::WriteFault
    }
}

impl From<NoMemory> for LineFault {
    ghost use Rattle.std.specs.Prelude.{◌≡◌};
    ghost use Rattle.uac_ends.specs.declared.fault.LineFault.TheVariants as faults;

    ghost from_gives = { λ _ e. e ≡ faults.NoMemory };

    fn from(_refused: NoMemory) -> LineFault {
        LineFault::NoMemory
    }
}
