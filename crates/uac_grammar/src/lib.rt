//! Descriptor bytes to blocks, in any cutting, or the first place that is wrong.
#![tactic(auto)]

/// Why a reader stopped.
mod fault;
/// One block from its bytes.
mod blocks;
/// What the bytes of a block come to, and the end of the input.
mod judge;
/// The next bytes of a block.
mod next;
/// Laws of the definitions.
pub mod laws;
/// The reader.
mod reader;

pub use fault::ReadStop;
pub use reader::Reader;
pub use uac_grammar_rules::GrammarFault;
