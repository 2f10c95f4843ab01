// The bytes of a control's ranges.
ghost use Rattle.std.specs.Prelude.{◌≡◌, ◌≤◌, ◌+◌, ◌*◌, ◌++◌, true, length, unwrap_or, []};
ghost use Rattle.arrayvec.specs.ArrayVec.{array_vec_len};
ghost use Rattle.uac_store.specs.StoreValues.{ranges_of};
ghost use Rattle.uac_request.specs.Owners.{owner_fields};
ghost use Rattle.uac_request.specs.Requests as spec;
ghost use Rattle.uac_request.specs.Requests.{key_named};

use crate::bytes::{push_number, push_value};
use crate::controls::width_of;
use crate::owner::Owner;
use crate::reply::Reply;
use crate::setup::{Setup, key_named};
use uac_store::{Range, ranges};
use uac_topology::Function;

/// Writes the bytes of a control's ranges, whole (Audio Class 2.0, 5.2.1).
#[tactic(auto, using(crate::proofs::RequestsWidthLemmas::narrow_range))]
pub(crate) fn write_ranges(reply: &mut Reply, function: &Function, setup: &Setup, owner: Owner<'_>)
    requires empty { reply.old.items ≡ [] }
    requires ranged { spec.has_range (owner_fields owner) (spec.high setup.now.value) ≡ true }
    ensures { reply.new.items ≡ spec.range_bytes (spec.bytes_of (owner_fields owner.entry) (spec.high setup.now.value))
        (unwrap_or (ranges_of function.now.entities (key_named setup.now)) []) }
{
    let key = key_named(setup);
    let width = width_of(owner, key.selector).unwrap_or(0);
    match ranges(function, key) {
        Some(ranges) => write_all(reply, width, ranges.as_slice()),
        None => write_all(reply, width, &[]),
    }
}

// The number of subranges in two bytes, and of each the least value, the greatest and the step (Audio Class 2.0, 5.2.3).
#[tactic(auto, unfolding(crate::specs::Requests::range_bytes))]
fn write_all(reply: &mut Reply, width: u8, ranges: &[Range])
    requires empty { reply.old.items ≡ [] }
    requires narrow { width ≤ 6 }
    requires room { 2 + length ranges.now * (3 * width) ≤ 146 }
    ensures { reply.new.items ≡ spec.range_bytes width ranges.now }
{
    push_number(reply, 2, ranges.len() as u64);
    for range in ranges {
        push_range(reply, width, range);
    }
}

// One subrange.
fn push_range(reply: &mut Reply, width: u8, range: &Range)
    requires narrow { width ≤ 6 }
    requires room { array_vec_len reply.old + 3 * width ≤ 146 }
    ensures bytes { reply.new.items ≡ reply.old.items ++ spec.one_range_bytes width range.now }
    ensures len { array_vec_len reply.new ≡ array_vec_len reply.old + 3 * width }
{
    push_value(reply, width, range.min);
    push_value(reply, width, range.max);
    push_value(reply, width, range.res);
}
