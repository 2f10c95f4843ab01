// From a reader that took the bytes to what they come to.
ghost use Rattle.std.specs.Prelude.{◌≡◌, flat_map, IfErr, IfOk};
ghost use Rattle.uac_descriptor.specs.Spelling.{spelling};
ghost use Rattle.uac_topology.specs.Configuration.{configuration_of};
ghost use Rattle.uac_topology.specs.ConfigurationVerdict.{Describes};

use crate::bytes::configuration_in;
use crate::fault::DescriptorFault;
use crate::function::Function;
use crate::soundness::{CheckStop, check};
use std::alloc::Global;
use uac_descriptor::{Block, ByteList, NoMemory};
use uac_grammar::Reader;
use uac_grammar_rules::laws::sentences_are_well_formed;

/// What a descriptor's bytes come to: the function that they describe, and those of them of which descriptors are answered.
#[derive(Drop)]
pub struct SoundDescriptor {
    /// What the bytes describe.
    pub function: Function,
    /// The bytes without a device descriptor in front.
    pub configuration: ByteList,
}

/// What the bytes describe that the reader took.
///
/// # Errors
///
/// The first fault of the bytes; the least rule that their function breaks, with its first offender; want of memory.
pub fn sound_descriptor(alloc: Global, reader: Reader) -> Result<SoundDescriptor, DescriptorFault>
    ensures { Describes reader.taken result }
{
    sentences_are_well_formed();
    match reader.finish() {
        Ok(blocks) => match check(alloc, blocks.as_slice()) {
            Ok(function) => with_bytes(alloc, function, blocks.as_slice()),
            Err(CheckStop::Fault(fault)) => Err(DescriptorFault::Topology(fault)),
            Err(CheckStop::NoMemory) => Err(DescriptorFault::NoMemory),
        },
        Err(stop) => Err(DescriptorFault::from(stop)),
    }
}

/// A function, with the configuration's bytes, which are those of its blocks.
fn with_bytes(
    alloc: Global,
    function: Function,
    blocks: &[Block],
) -> Result<SoundDescriptor, DescriptorFault>
    ensures ok { IfOk result (λ described. (described.function ≡ function)
        × (described.configuration ≡ configuration_of (flat_map spelling blocks.now))) }
    ensures err { IfErr result (λ fault. fault ≡ DescriptorFault.NoMemory) }
{
    match configuration_in(alloc, blocks) {
        Ok(configuration) => Ok(SoundDescriptor {
            function,
            configuration,
        }),
        Err(NoMemory) => {
            drop(function);
            Err(DescriptorFault::NoMemory)
        }
    }
}
