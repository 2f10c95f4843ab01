// What is said of a descriptor.

/// What is said of a descriptor.
#[derive(Clone, Copy, Debug, PartialEq, Eq)]
pub enum Description {
    /// Whether the descriptor is sound, and if not, which rule it breaks first.
    Check,
    /// The blocks, the entities and the settings of a sound one.
    Show,
    /// What a host's mixer shows of a fresh device.
    Elements,
}
