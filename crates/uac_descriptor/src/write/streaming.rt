// The class blocks of the audio streaming interfaces as bytes (Audio Class 2.0, 4.9 and 4.10; Audio Data Formats 2.0,
// 2.3.1.6).
ghost use Rattle.std.specs.Prelude.{◌≡◌, ◌++◌, OnOk, OnErr};
ghost use Rattle.uac_descriptor.specs.Spelling.{spelling};
ghost use Rattle.uac_descriptor.specs.declared.block.Block.TheVariants as block;

use crate::codes::{AS_GENERAL, CS_ENDPOINT, CS_INTERFACE, EP_GENERAL, FORMAT_TYPE, FORMAT_TYPE_I};
use crate::lists::{ByteList, NoMemory};
use crate::streaming::{ClassEndpoint, Extra, General, TypeOne};
use crate::write::piece::{Piece, extend, four, two};

#[tactic(auto, unfolding(crate::specs::Spelling::spelling))]
pub(super) fn general(row: &General, out: &mut ByteList) -> Result<(), NoMemory>
    ensures appended { OnOk result (out.new ≡ out.old ++ spelling (block.General row.now)) }
    ensures unchanged { OnErr result (out.new ≡ out.old) }
{
    let [f0, f1, f2, f3] = four(row.formats);
    let [l0, l1, l2, l3] = four(row.locations);
    out.append(&[
        16,
        CS_INTERFACE,
        AS_GENERAL,
        row.link,
        row.controls,
        row.format_type,
        f0,
        f1,
        f2,
        f3,
        row.channels,
        l0,
        l1,
        l2,
        l3,
        row.names,
    ])
}

#[tactic(auto, unfolding(crate::specs::Spelling::spelling))]
pub(super) fn type_one(row: &TypeOne, out: &mut ByteList) -> Result<(), NoMemory>
    ensures appended { OnOk result (out.new ≡ out.old ++ spelling (block.TypeOne row.now)) }
    ensures unchanged { OnErr result (out.new ≡ out.old) }
{
    out.append(&[
        6,
        CS_INTERFACE,
        FORMAT_TYPE,
        FORMAT_TYPE_I,
        row.subslot,
        row.bits,
    ])
}

#[tactic(auto, unfolding(crate::specs::Spelling::spelling))]
pub(super) fn extra(row: &Extra, out: &mut ByteList) -> Result<(), NoMemory>
    ensures appended { OnOk result (out.new ≡ out.old ++ spelling (block.Extra row.now)) }
    ensures unchanged { OnErr result (out.new ≡ out.old) }
{
    let rest = row.rest.as_slice();
    let size = 3 + rest.len();
    let mut piece = Piece::new();
    extend(&mut piece, &[size as u8, CS_INTERFACE, row.subtype]);
    extend(&mut piece, rest);
    out.append(piece.as_slice())
}

#[tactic(auto, unfolding(crate::specs::Spelling::spelling))]
pub(super) fn class_endpoint(row: &ClassEndpoint, out: &mut ByteList) -> Result<(), NoMemory>
    ensures appended { OnOk result (out.new ≡ out.old ++ spelling (block.ClassEndpoint row.now)) }
    ensures unchanged { OnErr result (out.new ≡ out.old) }
{
    let [delay_low, delay_high] = two(row.lock_delay);
    out.append(&[
        8,
        CS_ENDPOINT,
        EP_GENERAL,
        row.attributes,
        row.controls,
        row.lock_units,
        delay_low,
        delay_high,
    ])
}
