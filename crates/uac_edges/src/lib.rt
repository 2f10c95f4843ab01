//! The outside of the program: where its bytes come from, and where its text goes.
#![tactic(auto)]

/// Which calls of an object in memory fail.
mod calls;
/// What is asked of a source and of a sink, and the writing of a whole text.
mod edges;
/// A sink that gathers bytes before another.
mod gathering;
/// The sink in memory.
mod sinks;
/// The sources in memory.
mod sources;
/// Any reader as a source, and any writer as a sink.
mod std_edges;
/// A line of text in a buffer of fixed size.
mod text;

pub use edges::{Failed, Sink, Source, give_all};
pub use gathering::Gathering;
pub use sinks::MemorySink;
pub use sources::{MemorySource, SteadySource};
pub use std_edges::{StdSink, StdSource};
pub use text::TextLine;
