// The bytes of blocks, and those of the configuration among them.
ghost use Rattle.std.specs.Prelude.{◌≡◌, flat_map, IfOk};
ghost use Rattle.uac_descriptor.specs.Spelling.{spelling};
ghost use Rattle.uac_topology.specs.Configuration as meaning;
ghost use Rattle.uac_topology.specs.Configuration.{configuration_of};

use std::alloc::Global;
use uac_descriptor::{Block, ByteList, NoMemory};

/// The configuration's bytes among those of blocks.
pub(crate) fn configuration_in(alloc: Global, blocks: &[Block]) -> Result<ByteList, NoMemory>
    ensures { IfOk result (λ configuration. configuration ≡ configuration_of (flat_map spelling blocks.now)) }
{
    let bytes = bytes_of(alloc, blocks)?;
    configuration_of(alloc, bytes.as_slice())
}

/// The bytes of blocks, one after the other.
pub fn bytes_of(alloc: Global, blocks: &[Block]) -> Result<ByteList, NoMemory>
    ensures { IfOk result (λ bytes. bytes ≡ flat_map spelling blocks.now) }
{
    let mut bytes = ByteList::from_vec(Vec::new(alloc));
    for block in blocks {
        block.write(&mut bytes)?;
    }
    Ok(bytes)
}

/// A descriptor's bytes without a device descriptor in front (USB 2.0, 9.6.1).
fn configuration_of(alloc: Global, bytes: &[u8]) -> Result<ByteList, NoMemory>
    ensures { IfOk result (λ configuration. configuration ≡ configuration_of bytes.now) }
{
    let front = if begins_with_device(bytes) { 18 } else { 0 };
    let rest = &bytes[bytes.len().min(front)..];
    let configuration = Vec::from_slice(alloc, rest)?;
    Ok(ByteList::from_vec(configuration))
}

/// Whether a device descriptor stands in front.
fn begins_with_device(bytes: &[u8]) -> bool
    ensures { result ≡ meaning.begins_with_device bytes.now }
{
    bytes.first().copied().unwrap_or(0) == 18 && bytes.get(1).copied().unwrap_or(0) == 1
}
