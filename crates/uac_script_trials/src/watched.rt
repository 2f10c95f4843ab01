// What a sink or a writer took, told while another holds it.
use std::alloc::{AllocError, Global};
use std::cell::Cell;
use std::process::Abort;
use std::rc::Rc;

/// The bytes that were taken, of at most 5,000, and how many writes and flushes there were.
#[derive(Clone, Copy)]
pub(crate) struct Taken {
    bytes: [u8; 5000],
    size: usize,
    pub(crate) writes: usize,
    pub(crate) flushes: usize,
}

impl Taken {
    /// Appends the bytes, as far as there is room.
    pub(crate) fn append(&mut self, piece: &[u8]) {
        for byte in piece {
            if self.size < 5000 {
                self.bytes[self.size] = *byte;
                self.size += 1;
            }
        }
    }
}

/// Nothing was taken yet.
pub(crate) fn nothing_taken(alloc: Global) -> Result<Rc<Cell<Taken>>, AllocError> {
    let nothing = Cell::new(Taken {
        bytes: [0; 5000],
        size: 0,
        writes: 0,
        flushes: 0,
    });
    Ok(Rc::new(alloc, nothing)?)
}

/// Asserts which bytes were taken by then.
pub(crate) fn expect_taken(rt: &impl Abort, taken: &Cell<Taken>, bytes: &[u8], then: &str) {
    let noted = taken.get();
    let size = noted.size.min(5000);
    assert_eq!(rt; &noted.bytes[..size], bytes, "{then}");
}
