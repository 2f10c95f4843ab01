// The blocks of USB 2.0, 9.6, and the interface association, as bytes.
ghost use Rattle.std.specs.Prelude.{◌≡◌, ◌++◌, OnOk, OnErr};
ghost use Rattle.uac_descriptor.specs.Spelling.{spelling};
ghost use Rattle.uac_descriptor.specs.declared.block.Block.TheVariants as block;

use crate::codes::{CONFIGURATION, ENDPOINT, INTERFACE, INTERFACE_ASSOCIATION};
use crate::lists::{ByteList, NoMemory};
use crate::standard::{Association, Configuration, Endpoint, Foreign, Interface};
use crate::write::piece::two;

#[tactic(auto, unfolding(crate::specs::Spelling::spelling))]
pub(super) fn configuration(row: &Configuration, out: &mut ByteList) -> Result<(), NoMemory>
    ensures appended { OnOk result (out.new ≡ out.old ++ spelling (block.Configuration row.now)) }
    ensures unchanged { OnErr result (out.new ≡ out.old) }
{
    let [total_low, total_high] = two(row.total);
    out.append(&[
        9,
        CONFIGURATION,
        total_low,
        total_high,
        row.interfaces,
        row.value,
        row.name,
        row.attributes,
        row.power,
    ])
}

#[tactic(auto, unfolding(crate::specs::Spelling::spelling))]
pub(super) fn association(row: &Association, out: &mut ByteList) -> Result<(), NoMemory>
    ensures appended { OnOk result (out.new ≡ out.old ++ spelling (block.Association row.now)) }
    ensures unchanged { OnErr result (out.new ≡ out.old) }
{
    out.append(&[
        8,
        INTERFACE_ASSOCIATION,
        row.first,
        row.count,
        row.class,
        row.subclass,
        row.protocol,
        row.name,
    ])
}

#[tactic(auto, unfolding(crate::specs::Spelling::spelling))]
pub(super) fn interface(row: &Interface, out: &mut ByteList) -> Result<(), NoMemory>
    ensures appended { OnOk result (out.new ≡ out.old ++ spelling (block.Interface row.now)) }
    ensures unchanged { OnErr result (out.new ≡ out.old) }
{
    out.append(&[
        9,
        INTERFACE,
        row.number,
        row.setting,
        row.endpoints,
        row.class,
        row.subclass,
        row.protocol,
        row.name,
    ])
}

#[tactic(auto, unfolding(crate::specs::Spelling::spelling))]
pub(super) fn endpoint(row: &Endpoint, out: &mut ByteList) -> Result<(), NoMemory>
    ensures appended { OnOk result (out.new ≡ out.old ++ spelling (block.Endpoint row.now)) }
    ensures unchanged { OnErr result (out.new ≡ out.old) }
{
    let [packet_low, packet_high] = two(row.max_packet);
    out.append(&[
        7,
        ENDPOINT,
        row.address,
        row.attributes,
        packet_low,
        packet_high,
        row.interval,
    ])
}

#[tactic(auto, unfolding(crate::specs::Spelling::spelling))]
pub(super) fn foreign(row: &Foreign, out: &mut ByteList) -> Result<(), NoMemory>
    ensures appended { OnOk result (out.new ≡ out.old ++ spelling (block.Foreign row.now)) }
    ensures unchanged { OnErr result (out.new ≡ out.old) }
{
    out.append(row.bytes.as_slice())
}
