//! The rules of an audio function's topology: which entity or streaming interface breaks which rule; and walks along links, by which
//! the rules on cycles are judged.
#![tactic(auto)]

/// The nodes that one node names.
mod links;
/// The order, found by counting the links that still wait.
mod order;

/// The rules by name.
mod rule;
/// A broken rule, with who breaks it.
mod fault;
/// The entities by their index and by their id.
mod table;

/// What kind an entity is of.
mod kinds;

/// The rules on what ids name, U1 to U5.
mod names;

/// The links between entities, as graphs of indices.
mod graph;
/// The rules on walks, U6 and U7.
mod walks;

/// The entities with what is found along their signal links.
mod signals;
/// A function whose names and walks are in order, with what is found along its links.
mod known;
/// The clock domains.
mod domains;
/// The rules on clusters, sizes and clocks, U8 to U11, and the limits of entities, U14.
mod shapes;
/// The rules on streaming interfaces, U12, U13 and U14.
mod ends;
/// Laws of the definitions, each the contract of a function that does nothing.
pub mod laws;

pub use domains::{Domains, domains_of};
pub use ends::ends_fault;
pub use fault::TopologyFault;
pub use kinds::{is_clock, is_output};
pub use known::Known;
pub use links::Links;
pub use names::names_fault;
pub use shapes::{entity_limit, shapes_fault};
pub use signals::Behind;
pub use table::EntityTable;
pub use uac_entities::is_input;
pub use walks::{Walked, walk};
