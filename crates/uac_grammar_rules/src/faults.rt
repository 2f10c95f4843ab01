// The first fault of a descriptor.

/// A broken rule, G1 to G9, and the place of the first byte of the block that breaks it.
#[derive(Clone, Copy, PartialEq, Eq, Debug)]
pub struct GrammarFault {
    /// 1 to 9, printed G1 to G9.
    pub rule: u8,
    /// The number of bytes before it.
    pub at: u32,
}
