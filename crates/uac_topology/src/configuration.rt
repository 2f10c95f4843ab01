// The configuration's own fields.
ghost use Rattle.std.specs.Prelude.{◌≡◌};
ghost use Rattle.uac_topology.specs.Topology as spec;

use uac_descriptor::Block;
use uac_descriptor::classes::is_control_interface;

/// The number of the first control interface.
pub(crate) fn control_interface_of(blocks: &[Block]) -> u8
    ensures { result ≡ spec.first_given spec.control_number blocks.now }
{
    for block in blocks {
        if let Some(number) = control_number(block) {
            return number;
        }
    }
    0
}

/// wTotalLength of the first configuration.
pub(crate) fn total_of(blocks: &[Block]) -> u16
    ensures { result ≡ spec.first_given spec.total_length blocks.now }
{
    for block in blocks {
        if let Some(total) = total_length(block) {
            return total;
        }
    }
    0
}

#[tactic(auto, unfolding(crate::specs::Topology::control_number))]
fn control_number(block: &Block) -> Option<u8>
    ensures { result ≡ spec.control_number block.now }
{
    if let Block::Interface(interface) = block {
        if is_control_interface(interface) {
            return Some(interface.number);
        }
    }
    None
}

#[tactic(auto, unfolding(crate::specs::Topology::total_length))]
fn total_length(block: &Block) -> Option<u16>
    ensures { result ≡ spec.total_length block.now }
{
    if let Block::Configuration(configuration) = block {
        Some(configuration.total)
    } else {
        None
    }
}
