// A sound function.
ghost use Rattle.std.specs.Prelude.{◌≡◌, ◌<◌, length, IfSome};
ghost use Rattle.std.specs.Option.{option_map};
ghost use Rattle.uac_entities.specs.EntityInterfaces.{channels_of, entity_by_id};
ghost use Rattle.uac_topology.specs.Function.{FunctionFields, interface_in, stream_index};
ghost use Rattle.uac_topology_rules.specs.Table.{at, first_index_of, index_of};

use std::marker::Model;
use uac_entities::{Entity, StreamInterface};
use uac_topology_rules::EntityTable;

/// A sound audio function.
#[derive(Drop)]
pub struct Function {
    pub(crate) table: EntityTable,
    pub(crate) domains: Vec<u8>,
    pub(crate) streams: Vec<StreamInterface>,
    pub(crate) control_interface: u8,
    pub(crate) total: u16,
}

impl Model for Function {
    ghost use Rattle.uac_topology.specs.Function.{FunctionFields};
    ghost use Rattle.uac_topology.specs.Topology.{IsSoundFunction};

    ghost Value = { FunctionFields };

    ghost view = { λ f. record {
      entities = f.table;
      domains = f.domains.items;
      streams = f.streams.items;
      control_interface = f.control_interface;
      total = f.total;
    } };

    ghost invariant = { λ f. IsSoundFunction
        (record {
          entities = f.table;
          domains = f.domains.items;
          streams = f.streams.items;
          control_interface = f.control_interface;
          total = f.total;
        }) };
}

impl Function {
    /// The entities in block order, each with the cluster that it puts out.
    pub fn entities(&self) -> &[Entity]
        ensures { result.now ≡ self.now.entities }
    {
        self.table.as_slice()
    }

    /// The index of the entity with this id, None exactly where no entity has it.
    #[tactic(auto, unfolding(uac_topology_rules::specs::Table::first_index_of))]
    pub fn find(&self, id: u8) -> Option<usize>
        ensures value { result ≡ first_index_of self.now.entities id }
        ensures there { IfSome result (λ index. index < length self.now.entities) }
    {
        self.table.find(id)
    }

    /// The entity with this id, None exactly where no entity has it.
    #[tactic(auto, using(crate::proofs::FunctionFoundLemmas::named_at, crate::proofs::FunctionFoundLemmas::named_nowhere))]
    pub fn entity(&self, id: u8) -> Option<&Entity>
        ensures { option_map (λ e. e.now) result ≡ entity_by_id self.now.entities id }
    {
        match self.find(id) {
            Some(index) => self.entities().get(index),
            None => None,
        }
    }

    /// The channels that the entity with this id puts out, 0 where no entity has it.
    pub fn channels_of(&self, id: u8) -> u8
        ensures value { result ≡ channels_of self.now.entities id }
        ensures placed { result ≡ (at self.now.entities (index_of self.now.entities id)).cluster.channels }
    {
        self.table.channels_of(id)
    }

    /// The clocks that terminals name, each once, in the order in which they are first named.
    pub fn domains(&self) -> &[u8]
        ensures { result.now ≡ self.now.domains }
    {
        self.domains.as_slice()
    }

    /// The streaming interfaces in block order.
    pub fn streams(&self) -> &[StreamInterface]
        ensures { result.now ≡ self.now.streams }
    {
        self.streams.as_slice()
    }

    /// The index of the streaming interface with this number, None exactly where none has it.
    pub fn stream_at(&self, interface: u8) -> Option<usize>
        ensures { result ≡ stream_index self.now interface }
    {
        self.stream_numbered(interface.into())
    }

    /// The streaming interface with this number, None exactly where none has it.
    pub fn interface(&self, number: u8) -> Option<&StreamInterface>
        ensures { option_map (λ s. s.now) result ≡ interface_in self.now number }
    {
        self.interface_numbered(number.into())
    }

    /// The streaming interface with this number as a request names it, None exactly where none has it.
    pub fn interface_numbered(&self, number: u16) -> Option<&StreamInterface>
        ensures { option_map (λ s. s.now) result ≡ interface_in self.now number }
    {
        match self.stream_numbered(number) {
            Some(index) => self.streams().get(index),
            None => None,
        }
    }

    // The index of the streaming interface with this number as a request names it, None exactly where none has it.
    fn stream_numbered(&self, number: u16) -> Option<usize>
        ensures { result ≡ stream_index self.now number }
    {
        self.streams()
            .iter()
            .position(|stream| u16::from(stream.number) == number)
    }

    /// The number of the control interface.
    pub fn control_interface(&self) -> u8
        ensures { result ≡ self.now.control_interface }
    {
        self.control_interface
    }

    /// The configuration's wTotalLength.
    pub fn total(&self) -> u16
        ensures { result ≡ self.now.total }
    {
        self.total
    }
}
