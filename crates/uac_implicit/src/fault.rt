// Why a line isn't done.
use thiserror::Error;

/// Why a line of a script isn't done.
#[derive(Clone, Copy, Debug, PartialEq, Eq, Error)]
pub enum PairFault {
    /// The line breaks a rule of the script: 5 where a pair has no such line, 6 where it names what a pair hasn't got.
    #[error("the line breaks rule S{0}")]
    Script(u8),
    /// The sink failed.
    #[error("a write failed")]
    WriteFault,
}
