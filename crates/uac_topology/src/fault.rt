// Why bytes come to nothing.
use thiserror::Error;
use uac_grammar::{GrammarFault, ReadStop};
use uac_topology_rules::TopologyFault;

/// Why bytes describe no sound function.
#[derive(Clone, Copy, Debug, PartialEq, Eq, Error)]
pub enum DescriptorFault {
    /// The descriptor has this first fault.
    #[error("the descriptor breaks a rule of the grammar")]
    Grammar(GrammarFault),
    /// The function breaks this rule.
    #[error("the function breaks a rule of the topology")]
    Topology(TopologyFault),
    /// There was no memory.
    #[error("no memory")]
    NoMemory,
}

impl From<ReadStop> for DescriptorFault {
    ghost use Rattle.std.specs.Prelude.{◌≡◌};
    ghost use Rattle.uac_topology.specs.ConfigurationVerdict.{fault_of};

    ghost from_gives = { λ stop fault. fault ≡ fault_of stop };

    fn from(stop: ReadStop) -> DescriptorFault {
        match stop {
            ReadStop::Fault(fault) => DescriptorFault::Grammar(fault),
            ReadStop::NoMemory => DescriptorFault::NoMemory,
        }
    }
}
