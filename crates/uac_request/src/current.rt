// The bytes of a control's value now.
ghost use Rattle.std.specs.Prelude.{◌≡◌, ◌≤◌, [], Some};
ghost use Rattle.uac_topology.specs.Function.{interface_in};
ghost use Rattle.uac_request.specs.Owners.{owner_fields};
ghost use Rattle.uac_request.specs.Requests as spec;
ghost use Rattle.uac_request.specs.Requests.{request_state};

use crate::bytes::{push_number, push_value};
use crate::controls::{StreamControl, map_bytes, stream_control_of};
use crate::owner::Owner;
use crate::reply::Reply;
use crate::setup::{Setup, high_byte, key_named};
use crate::valid::valid_map;
use uac_alt::Settings;
use uac_store::controls::{Control, control_of, facts_of};
use uac_store::{Key, Store};
use uac_topology::{Entity, Function, StreamInterface};

/// Writes the bytes of a control's value now, whole.
#[tactic(auto, unfolding(crate::specs::Requests::cur_bytes), using(crate::proofs::RequestsOwnerLemmas::stream_named))]
pub(crate) fn write_cur(
    reply: &mut Reply,
    function: &Function,
    store: &Store,
    settings: &Settings,
    setup: &Setup,
    owner: Owner<'_>,
)
    requires empty { reply.old.items ≡ [] }
    requires owned { spec.owner_of function.now setup.now.index ≡ Some (owner_fields owner) }
    ensures { reply.new.items ≡ spec.cur_bytes function.now (request_state store.now settings.now) setup.now (owner_fields owner.entry) }
{
    match owner {
        Owner::Entity(entity) => write_entity(reply, entity, store, key_named(setup)),
        Owner::Interface(stream) => {
            write_stream(
                reply,
                function,
                store,
                settings,
                stream,
                high_byte(setup.value),
            );
        }
    }
}

// The value of the control that a selector names; nothing where it names none.
fn write_entity(reply: &mut Reply, entity: &Entity, store: &Store, key: Key)
    requires { reply.old.items ≡ [] }
    ensures { reply.new.items ≡ spec.entity_bytes entity.now.kind entity.now store.now key }
{
    if let Some(control) = control_of(entity.kind, key.selector) {
        write_control(reply, entity, store, key, control);
    }
}

// A clock source is always valid (Audio Class 2.0, 5.2.5.1.2), a terminal's connector is its cluster, and each other
// control keeps a value.
fn write_control(reply: &mut Reply, entity: &Entity, store: &Store, key: Key, control: Control)
    requires { reply.old.items ≡ [] }
    ensures { reply.new.items ≡ spec.control_bytes control entity.now store.now key }
{
    match control {
        Control::ClockValid => reply.push(1),
        Control::Connector => write_connector(reply, entity),
        Control::SamplingFrequency
        | Control::ClockSelector
        | Control::Numerator
        | Control::Denominator
        | Control::MixerNode
        | Control::Selector
        | Control::Mute
        | Control::Volume
        | Control::Enable => {
            write_kept(reply, store, key, facts_of(control).width);
        }
    }
}

// A terminal's connector is its cluster (Audio Class 2.0, 5.2.5.4.2).
fn write_connector(reply: &mut Reply, entity: &Entity)
    requires { reply.old.items ≡ [] }
    ensures { reply.new.items ≡ spec.connector_bytes entity.now }
{
    reply.push(entity.cluster.channels);
    push_number(reply, 4, u64::from(entity.cluster.locations));
    reply.push(entity.cluster.names);
}

// The value that is kept, in the control's bytes.
fn write_kept(reply: &mut Reply, store: &Store, key: Key, width: u8)
    requires empty { reply.old.items ≡ [] }
    requires narrow { width ≤ 6 }
    ensures { reply.new.items ≡ spec.kept_bytes store.now key width }
{
    let value = store.cur(key).unwrap_or(0);
    push_value(reply, width, value);
}

// The active setting of an interface, or its valid settings (Audio Class 2.0, 5.2.6); nothing where the selector names
// neither.
fn write_stream(
    reply: &mut Reply,
    function: &Function,
    store: &Store,
    settings: &Settings,
    stream: &StreamInterface,
    selector: u8,
)
    requires empty { reply.old.items ≡ [] }
    requires stream { interface_in function.now stream.now.number ≡ Some stream.now }
    ensures { reply.new.items ≡ spec.stream_bytes function.now (request_state store.now settings.now) stream.now selector }
{
    match stream_control_of(selector) {
        Some(StreamControl::ActiveSetting) => reply.push(settings.get(stream.number).unwrap_or(0)),
        Some(StreamControl::ValidSettings) => write_valid(reply, function, store, stream),
        None => {}
    }
}

// The valid settings: the number of bitmap bytes, and a bit for each setting by its number.
#[tactic(auto, unfolding(crate::specs::Requests::valid_bytes))]
fn write_valid(reply: &mut Reply, function: &Function, store: &Store, stream: &StreamInterface)
    requires empty { reply.old.items ≡ [] }
    requires stream { interface_in function.now stream.now.number ≡ Some stream.now }
    ensures { reply.new.items ≡ spec.valid_bytes function.now store.now stream.now }
{
    let width = map_bytes(stream);
    reply.push(width);
    push_number(reply, width, valid_map(function, store, stream));
}
