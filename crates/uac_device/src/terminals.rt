// Which terminals carry no stream of the bus.
ghost use Rattle.std.specs.Prelude.{◌≡◌};
ghost use Rattle.uac_device.specs.DeviceWorld as spec;

use uac_entities::{Entity, USB_STREAMING};
use uac_graph::is_end;
use uac_topology_rules::{is_input, is_output};

/// Whether a terminal carries no stream of the bus (USB Terminal Types 2.0, 2.1).
pub fn is_jack(entity: &Entity) -> bool
    ensures { result ≡ spec.is_jack entity.now }
{
    entity.terminal_type != USB_STREAMING
}

/// Whether an entity is an input terminal that carries no stream of the bus.
pub fn is_input_jack(entity: &Entity) -> bool
    ensures { result ≡ spec.is_input_jack entity.now }
{
    is_input(entity.kind) && is_jack(entity)
}

/// Whether an entity is an output terminal that carries no stream of the bus.
pub fn is_output_jack(entity: &Entity) -> bool
    ensures { result ≡ spec.is_output_jack entity.now }
{
    is_output(entity.kind) && is_jack(entity)
}

/// Whether an entity is an output jack of a clock domain.
pub fn is_output_jack_of(clock: u8, entity: &Entity) -> bool
    ensures { result ≡ spec.is_output_jack_of clock entity.now }
{
    is_end(clock, entity) && is_jack(entity)
}
