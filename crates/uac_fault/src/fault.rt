// Why a line isn't done.
use thiserror::Error;
use uac_descriptor::NoMemory;
use uac_edges::Failed;
use uac_grammar::{GrammarFault, ReadStop};
use uac_topology::{DescriptorFault, TopologyFault};

/// Why a line of a script isn't done.
#[derive(Clone, Copy, Debug, PartialEq, Eq, Error)]
pub enum BusFault {
    /// The line breaks a rule of the script: 5, 6 or 7; at the end rule 8.
    #[error("the line breaks rule S{0}")]
    Script(u8),
    /// The descriptor has this first fault.
    #[error("the descriptor breaks a rule of the grammar")]
    Grammar(GrammarFault),
    /// The function breaks this rule.
    #[error("the function breaks a rule of the topology")]
    Topology(TopologyFault),
    /// The sink failed.
    #[error("a write failed")]
    WriteFault,
    /// There was no memory.
    #[error("no memory")]
    NoMemory,
}

impl From<Failed> for BusFault {
    ghost use Rattle.std.specs.Prelude.{◌≡◌};
    ghost use Rattle.uac_fault.specs.declared.fault.BusFault.TheVariants as faults;

    ghost from_gives = { λ _ e. e ≡ faults.WriteFault };

    fn from(_failed: Failed) -> BusFault {
        BusFault::WriteFault
    }
}

impl From<NoMemory> for BusFault {
    ghost use Rattle.std.specs.Prelude.{◌≡◌};
    ghost use Rattle.uac_fault.specs.declared.fault.BusFault.TheVariants as faults;

    ghost from_gives = { λ _ e. e ≡ faults.NoMemory };

    fn from(_refused: NoMemory) -> BusFault {
        BusFault::NoMemory
    }
}

impl From<DescriptorFault> for BusFault {
    ghost use Rattle.std.specs.Prelude.{◌≡◌};
    ghost use Rattle.uac_fault.specs.DescriptorFaults.{bus_fault_of};

    ghost from_gives = { λ fault told. told ≡ bus_fault_of fault };

    fn from(fault: DescriptorFault) -> BusFault {
        match fault {
            DescriptorFault::Grammar(fault) => BusFault::Grammar(fault),
            DescriptorFault::Topology(fault) => BusFault::Topology(fault),
            DescriptorFault::NoMemory => BusFault::NoMemory,
        }
    }
}

impl From<ReadStop> for BusFault {
    ghost use Rattle.std.specs.Prelude.{◌≡◌};
    ghost use Rattle.uac_topology.specs.ConfigurationVerdict.{fault_of};
    ghost use Rattle.uac_fault.specs.DescriptorFaults.{bus_fault_of};

    ghost from_gives = { λ stop told. told ≡ bus_fault_of (fault_of stop) };

    fn from(stop: ReadStop) -> BusFault {
        BusFault::from(DescriptorFault::from(stop))
    }
}
