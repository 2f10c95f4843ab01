//! What each line of a script says, by its words.
#![tactic(auto)]

/// What holds of every line.
pub mod laws;
/// A line whose long parts lie elsewhere.
mod lent;
/// A line of the script.
mod line;
/// The rows that end in a list.
mod lists;
/// What marks tell is lost.
mod marks;
/// A line with its long parts in itself.
mod owned;
/// A whole line, by its first word.
mod parsing;
/// The rows of the table of lines.
mod rows;
/// The rules that a line's words break, by name.
mod rule;

pub use lent::{LentLine, LineRoom};
pub use line::{Line, Mark, MarkKind, Name};
pub use marks::{loses_feedback, loses_in, loses_out};
pub use parsing::is_idle;
pub use uac_edges::{
    Failed, MemorySink, MemorySource, Sink, Source, StdSink, StdSource, SteadySource, TextLine,
    give_all,
};
pub use uac_gen::Gen;
pub use uac_lines::{LineStop, Lines, Next};
