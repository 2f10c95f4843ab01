// The source of the program's bytes and the sink of its text.
ghost use Rattle.std.specs.Prelude.{◌≡◌, ℕ, ◌<◌, ◌≤◌, List, [], length, Option, IfOk, OnOk};
ghost use Rattle.std.specs.Io.KnownBytes.{Keeps, ReadConsumes, WriteAppends};
ghost use Rattle.uac_edges.specs.Faults.{HasCause};
ghost use Rattle.uac_edges.specs.Writing.{Writes};

/// A source or a sink failed in this call.
#[derive(Debug, Clone, Copy, PartialEq, Eq)]
pub struct Failed;

/// Where bytes come from. It has the bytes that are left, where it tells them, and a count of
/// faults that never falls.
pub trait Source {
    // The bytes that are left, where the source tells them.
    ghost left: { Self → Option (List ℕ) };

    // The faults so far. The count stands still at 18446744073709551615.
    ghost faults: { Self → ℕ };

    /// Moves the next bytes to the front of `into` and answers their number, at most the length of
    /// `into`. 0 is the end of input: a source that tells its bytes has none left then. `Failed`
    /// comes only where the count of faults rose in this call, and then no byte is taken; a call
    /// that isn't `Failed` met no fault.
    fn take(&mut self, into: &mut [u8]) -> Result<usize, Failed>
        requires { 0 < length into.old }
        ensures fits { IfOk result (λ n. n ≤ length into.new) }
        ensures bytes { ReadConsumes (left self.old) (left self.new) result into.new }
        ensures cause { HasCause (faults self.old) (faults self.new) result };
}

/// Where text goes. It has the bytes written, where it tells them, how many of these aren't handed
/// on yet, and a count of faults that never falls.
pub trait Sink {
    // The bytes written so far, where the sink tells them.
    ghost written: { Self → Option (List ℕ) };

    // How many of these, from the end, wait: they weren't handed on yet.
    ghost waiting: { Self → ℕ };

    // The faults so far. The count stands still at 18446744073709551615.
    ghost faults: { Self → ℕ };

    /// Appends bytes from the front of `piece` and answers their number, at least 1 and at most
    /// the length of `piece`. `Failed` comes only where the count of faults rose in this call, and
    /// then nothing was appended; a call that isn't `Failed` met no fault.
    fn give(&mut self, piece: &[u8]) -> Result<usize, Failed>
        requires { 0 < length piece.now }
        ensures some { IfOk result (λ n. 0 < n) }
        ensures fits { IfOk result (λ n. n ≤ length piece.now) }
        ensures bytes { WriteAppends (written self.old) (written self.new) result piece.now }
        ensures cause { HasCause (faults self.old) (faults self.new) result };

    /// Hands on all that waits. The bytes written stay as they are, also where it fails. `Failed`
    /// comes only where the count of faults rose in this call; a call that isn't `Failed` met no
    /// fault, and then nothing waits.
    fn flush(&mut self) -> Result<(), Failed>
        ensures kept { Keeps (written self.old) (written self.new) }
        ensures flushed { OnOk result (waiting self.new ≡ 0) }
        ensures cause { HasCause (faults self.old) (faults self.new) result };
}

/// Gives the whole text, piece by piece, however little each call takes. `Ok` means that no call
/// met a fault. After `Failed` a front of the text was appended. An empty text gives nothing.
#[inline]
pub fn give_all<K: Sink>(sink: &mut K, text: &[u8]) -> Result<(), Failed>
    ensures written { Writes (K.written sink.old) (K.written sink.new) result text.now }
    ensures cause { HasCause (K.faults sink.old) (K.faults sink.new) result }
    ensures empty { text.now ≡ [] → sink.new ≡ sink.old }
{
    if text.is_empty() {
        return Ok(());
    }
    let first = sink.give(text)?;
    if first == text.len() {
        return Ok(());
    }
    give_rest(sink, &text[first..])
}

// Gives what the first call left of a text: most sinks take a short text whole.
#[inline(never)]
fn give_rest<K: Sink>(sink: &mut K, text: &[u8]) -> Result<(), Failed>
    ensures written { Writes (K.written sink.old) (K.written sink.new) result text.now }
    ensures cause { HasCause (K.faults sink.old) (K.faults sink.new) result }
{
    let mut rest = text;
    while !rest.is_empty() {
        let given = sink.give(rest)?;
        rest = &rest[given..];
    }
    Ok(())
}
