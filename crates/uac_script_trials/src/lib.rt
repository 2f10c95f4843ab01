//! The tests of the crates of the outside through their public calls: sources and sinks, generated scripts, lines in and lines out, lines
//! that run, and the words of the command line. They stand in a crate of their own, since a crate with tests is proved twice.
#![tactic(auto)]

/// A machine that counts lines.
#[cfg(test)]
mod counter;
/// The objects in memory, and the writing of text.
#[cfg(test)]
mod edges;
/// A sink that gathers.
#[cfg(test)]
mod gathering;
/// Generated scripts.
#[cfg(test)]
mod generator;
/// The lines of a script.
#[cfg(test)]
mod lines;
/// Lines that run on that machine.
#[cfg(test)]
mod runs;
/// What a line of a script says.
#[cfg(test)]
mod script;
/// The edges over a reader and a writer.
#[cfg(test)]
mod std_edges;
/// The lines that a run prints.
#[cfg(test)]
mod transcript;
/// What a sink or a writer took.
#[cfg(test)]
mod watched;
/// The words of the command line.
#[cfg(test)]
mod words;
