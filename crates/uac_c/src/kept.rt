// All of a text, kept in memory.
ghost use Rattle.std.specs.Prelude.{◌≡◌, [], Some};

use std::alloc::Global;
use uac_edges::{Failed, Sink};

/// A sink that keeps the whole text. It fails only where there is no memory for more.
#[derive(Drop)]
pub struct KeptText {
    bytes: Vec<u8>,
    faults: u64,
}

impl KeptText {
    /// No text yet. It takes no memory.
    pub fn new(alloc: Global) -> KeptText
        ensures empty { result.bytes.items ≡ [] }
        ensures faultless { result.faults ≡ 0 }
    {
        KeptText {
            bytes: Vec::new(alloc),
            faults: 0,
        }
    }

    /// The text.
    pub fn into_bytes(self) -> Vec<u8>
        ensures { result.items ≡ self.bytes.items }
    {
        self.bytes
    }
}

impl Sink for KeptText {
    ghost written = { λ s. Some s.bytes.items };

    ghost waiting = { λ _. 0 };

    ghost faults = { λ s. s.faults };

    /// Appends the whole piece, where there is memory for it.
    fn give(&mut self, piece: &[u8]) -> Result<usize, Failed> {
        if self.bytes.extend_from_slice(piece).is_err() {
            self.faults = self.faults.saturating_add(1);
            return Err(Failed);
        }
        Ok(piece.len())
    }

    /// Does nothing, since nothing waits.
    fn flush(&mut self) -> Result<(), Failed> {
        Ok(())
    }
}
