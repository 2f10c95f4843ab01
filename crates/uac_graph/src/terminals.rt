// The output terminals of a clock domain.
ghost use Rattle.std.specs.Prelude.{◌≡◌};
ghost use Rattle.uac_graph.specs.Needs as spec;

use uac_entities::Entity;
use uac_topology_rules::is_output;

/// Whether an entity is an output terminal of the domain.
pub fn is_end(domain: u8, entity: &Entity) -> bool
    ensures { result ≡ spec.is_end domain entity.now }
{
    is_output(entity.kind) && entity.clock == domain
}
