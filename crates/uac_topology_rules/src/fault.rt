// A broken rule, with who breaks it.

/// A broken rule of the topology, with its first offender in block order.
#[derive(Clone, Copy, PartialEq, Eq, Debug)]
pub struct TopologyFault {
    /// 1 to 14.
    pub rule: u8,
    /// The id of an entity, or the number of an interface.
    pub id: u8,
    /// Whether `id` is an interface's number.
    pub interface: bool,
}
