// The sink in memory, whose cut, room and faults the caller chooses.
ghost use Rattle.std.specs.Prelude.{◌≡◌, ◌<◌, ◌≤◌, ◌↔◌, [], length, take, Some, IsOk, IsErr, IfOk, OnErr};
ghost use Rattle.std.specs.Io.KnownBytes.{Keeps, WriteAppends};
ghost use Rattle.uac_edges.specs.Faults.{HasCause};
ghost use Rattle.uac_edges.specs.Memory.{appended_count, after_appending, after_refusing, IsRefusing};

use crate::calls::is_failing;
use crate::edges::{Failed, Sink};
use std::alloc::Global;
use std::marker::Model;
use uac_descriptor::{NoMemory, WordList};

/// A sink in memory. It keeps and tells what was written.
#[derive(Drop)]
pub struct MemorySink {
    bytes: Vec<u8>,
    cut: usize,
    room: usize,
    failing: WordList,
    calls: u64,
    faults: u64,
}

impl Model for MemorySink {
    ghost use Rattle.std.specs.Prelude.{◌≤◌, vec_len, vec_capacity};
    ghost use Rattle.uac_edges.specs.Memory.{SinkInMemory};

    ghost Value = { SinkInMemory };

    ghost view = { λ s. record {
      written = s.bytes.items;
      cut = s.cut;
      room = s.room;
      failing = s.failing;
      calls = s.calls;
      faults = s.faults;
    } };

    ghost invariant = { λ s. (vec_len s.bytes ≤ s.room) × (s.room ≤ vec_capacity s.bytes) × (1 ≤ s.cut) };
}

impl MemorySink {
    /// An empty sink, which appends at most `cut` bytes in a call, holds at most `room`, and whose
    /// calls of the numbers in `failing` fail. Calls are counted from 1. The memory for `room`
    /// bytes is taken here and none later.
    /// Tests alone call it.
    pub fn new(
        alloc: Global,
        cut: usize,
        room: usize,
        failing: WordList,
    ) -> Result<MemorySink, NoMemory>
        requires { 1 ≤ cut }
        ensures { IfOk result (λ s. s ≡ record { written = []; cut = cut; room = room; failing = failing; calls = 0; faults = 0 }) }
    {
        let bytes = Vec::with_capacity(alloc, room)?;
        Ok(MemorySink {
            bytes,
            cut,
            room,
            failing,
            calls: 0,
            faults: 0,
        })
    }

    /// The bytes written so far.
    /// Tests alone call it.
    pub fn bytes_written(&self) -> &[u8]
        ensures { result.now ≡ self.now.written }
    {
        self.bytes.as_slice()
    }
}

impl Sink for MemorySink {
    ghost written = { λ s. Some s.written };

    ghost waiting = { λ _. 0 };

    ghost faults = { λ s. s.faults };

    /// Fails exactly where the number of this call is in `failing` or `room` bytes are held, and
    /// then appends nothing and counts a fault. Else it appends the least of `cut`, the piece's
    /// length and the room left.
    fn give(&mut self, piece: &[u8]) -> Result<usize, Failed>
        requires { 0 < length piece.now }
        ensures some { IfOk result (λ n. 0 < n) }
        ensures fits { IfOk result (λ n. n ≤ length piece.now) }
        ensures bytes { WriteAppends (Some self.old.written) (Some self.new.written) result piece.now }
        ensures cause { HasCause self.old.faults self.new.faults result }

        // Exactly when it fails, and what it appends.
        ensures fails { IsErr result ↔ IsRefusing self.old }
        ensures late { 4294967295 ≤ self.old.calls → length self.old.written < self.old.room → IsOk result }
        ensures count { IfOk result (λ n. n ≡ appended_count self.old (length piece.now)) }

        // What it leaves.
        ensures ok { IfOk result (λ n. self.new ≡ after_appending self.old (take n piece.now)) }
        ensures err { OnErr result (self.new ≡ after_refusing self.old) }
    {
        self.calls = self.calls.saturating_add(1);
        let room = self.room - self.bytes.len();
        if room == 0 || is_failing(&self.failing, self.calls) {
            self.faults = self.faults.saturating_add(1);
            return Err(Failed);
        }
        let count = self.cut.min(piece.len()).min(room);
        match self.bytes.extend_from_slice(&piece[..count]) {
            Ok(()) => Ok(count),
            Err(_) => unreachable!(),
        }
    }

    /// Does nothing, since nothing waits.
    fn flush(&mut self) -> Result<(), Failed>
        ensures ok { result ≡ Ok tt }
        ensures same { self.new ≡ self.old }
        ensures kept { Keeps (Some self.old.written) (Some self.new.written) }
        ensures cause { HasCause self.old.faults self.new.faults result }
    {
        Ok(())
    }
}
