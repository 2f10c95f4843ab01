// A sink that gathers bytes before another.
ghost use Rattle.std.specs.Prelude.{◌≡◌, ◌+◌, ◌<◌, ◌≤◌, [], length, take, drop, IfOk, OnOk};
ghost use Rattle.std.specs.Io.KnownBytes.{Appends, Keeps, WriteAppends, append_known};
ghost use Rattle.uac_edges.specs.Faults.{HasCause};

use crate::edges::{Failed, Sink};
use arrayvec::ArrayVec;

/// A sink before another. It gathers at most 4,096 bytes, and hands them on where there is no room
/// for more and where it is flushed. It has written what the sink beneath has, and then what waits
/// here; after a fault what wasn't handed on still waits.
#[derive(Drop)]
pub struct Gathering<K: Sink + Drop> {
    beneath: K,
    waiting: ArrayVec<u8, 4096>,
}

impl<K: Sink + Drop> Gathering<K> {
    /// A sink before `beneath`, in which nothing waits.
    pub fn new(beneath: K) -> Gathering<K>
        ensures { result ≡ record { beneath = beneath; waiting = record { items = [] } } }
    {
        Gathering {
            beneath,
            waiting: ArrayVec::new(),
        }
    }

    // Makes room for a byte at least: where there is none, all that waits is handed on.
    fn make_room(&mut self) -> Result<(), Failed>
        ensures kept { Keeps (append_known (K.written self.old.beneath) self.old.waiting.items)
            (append_known (K.written self.new.beneath) self.new.waiting.items) }
        ensures room { OnOk result (length self.new.waiting.items < 4096) }
        ensures unneeded { length self.old.waiting.items < 4096 → self.new ≡ self.old }
        ensures cause { HasCause (K.faults self.old.beneath) (K.faults self.new.beneath) result }
    {
        if self.waiting.is_full() {
            return self.hand_on();
        }
        Ok(())
    }

    // Hands on all that waits, up to a fault.
    fn hand_on(&mut self) -> Result<(), Failed>
        ensures kept { Keeps (append_known (K.written self.old.beneath) self.old.waiting.items)
            (append_known (K.written self.new.beneath) self.new.waiting.items) }
        ensures all { OnOk result (self.new.waiting.items ≡ []) }
        ensures cause { HasCause (K.faults self.old.beneath) (K.faults self.new.beneath) result }
    {
        let (count, given) = give_front(&mut self.beneath, self.waiting.as_slice());
        remove_front(&mut self.waiting, count);
        given
    }
}

impl<K: Sink + Drop> Sink for Gathering<K> {
    ghost written = { λ s. append_known (K.written s.beneath) s.waiting.items };

    ghost waiting = { λ s. K.waiting s.beneath + length s.waiting.items };

    ghost faults = { λ s. K.faults s.beneath };

    /// Takes as many bytes as there is room for. Nothing is handed on while there is any.
    fn give(&mut self, piece: &[u8]) -> Result<usize, Failed>
        requires { 0 < length piece.now }
        ensures some { IfOk result (λ n. 0 < n) }
        ensures fits { IfOk result (λ n. n ≤ length piece.now) }
        ensures bytes { WriteAppends (append_known (K.written self.old.beneath) self.old.waiting.items)
            (append_known (K.written self.new.beneath) self.new.waiting.items) result piece.now }
        ensures cause { HasCause (K.faults self.old.beneath) (K.faults self.new.beneath) result }
        ensures gathered { length self.old.waiting.items < 4096 → self.new.beneath ≡ self.old.beneath }
    {
        self.make_room()?;
        let count = piece.len().min(self.waiting.remaining_capacity());
        match self.waiting.try_extend_from_slice(&piece[..count]) {
            Ok(()) => Ok(count),
            Err(_) => unreachable!(),
        }
    }

    /// Hands on all that waits, and flushes the sink beneath.
    fn flush(&mut self) -> Result<(), Failed> {
        self.hand_on()?;
        self.beneath.flush()
    }
}

// Gives a text, piece by piece, up to its end or to a call that fails, and answers how many bytes
// of it were given.
fn give_front<K: Sink>(sink: &mut K, text: &[u8]) -> (usize, Result<(), Failed>)
    ensures fits { result.0 ≤ length text.now }
    ensures given { Appends (K.written sink.old) (K.written sink.new) (take result.0 text.now) }
    ensures all { OnOk result.1 (result.0 ≡ length text.now) }
    ensures cause { HasCause (K.faults sink.old) (K.faults sink.new) result.1 }
{
    let mut given = 0;
    while given < text.len() {
        match sink.give(&text[given..]) {
            Ok(count) => given += count,
            Err(failed) => return (given, Err(failed)),
        }
    }
    (given, Ok(()))
}

// Removes so many bytes from the front.
fn remove_front(bytes: &mut ArrayVec<u8, 4096>, count: usize)
    requires { count ≤ length bytes.old.items }
    ensures { bytes.new.items ≡ drop count bytes.old.items }
{
    let rest = bytes.len() - count;
    bytes.as_mut_slice().rotate_left(count);
    bytes.truncate(rest);
}
