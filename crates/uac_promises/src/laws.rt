// Laws of whole scripts.

/// Steady scripts keep their rings in their bands.
pub mod steady;
/// What is promised of every line that a steady script prints.
pub mod promised;
/// What the host knows, what is counted, and what comes out of packets.
pub mod believed;
/// Generated scripts run whole, and are steady.
pub mod generated;
