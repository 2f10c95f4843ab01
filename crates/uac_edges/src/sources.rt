// The sources in memory, whose cuts and faults the caller chooses.
ghost use Rattle.std.specs.Prelude.{◌≡◌, ℕ, ◌<◌, ◌≤◌, ◌↔◌, List, ◌++◌, length, take, drop, min, Some, IsOk, IsErr, IfOk, OnErr};
ghost use Rattle.std.specs.Io.KnownBytes.{ReadConsumes};
ghost use Rattle.uac_edges.specs.Faults.{HasCause};
ghost use Rattle.uac_edges.specs.Memory.{moved_count, after_moving, after_failing, IsFailing};

use crate::calls::is_failing;
use crate::edges::{Failed, Source};
use std::marker::Model;
use uac_descriptor::{ByteList, WordList};

/// A source over bytes in memory. It tells what is left.
#[derive(Drop)]
pub struct MemorySource {
    bytes: ByteList,
    at: usize,
    cut: usize,
    failing: WordList,
    calls: u64,
    faults: u64,
}

impl Model for MemorySource {
    ghost use Rattle.std.specs.Prelude.{◌≤◌, drop, length};
    ghost use Rattle.uac_edges.specs.Memory.{SourceInMemory};

    ghost Value = { SourceInMemory };

    ghost view = { λ s. record { left = drop s.at s.bytes; cut = s.cut; failing = s.failing; calls = s.calls; faults = s.faults } };

    ghost invariant = { λ s. (s.at ≤ length s.bytes) × (1 ≤ s.cut) };
}

impl MemorySource {
    /// A source of `bytes`, which moves at most `cut` of them in a call, and whose calls of the
    /// numbers in `failing` fail. Calls are counted from 1.
    /// Tests alone call it.
    pub fn new(bytes: ByteList, cut: usize, failing: WordList) -> MemorySource
        requires { 1 ≤ cut }
        ensures { result ≡ record { left = bytes; cut = cut; failing = failing; calls = 0; faults = 0 } }
    {
        MemorySource {
            bytes,
            at: 0,
            cut,
            failing,
            calls: 0,
            faults: 0,
        }
    }
}

impl Source for MemorySource {
    ghost left = { λ s. Some s.left };

    ghost faults = { λ s. s.faults };

    /// Fails exactly where the number of this call is in `failing`, and then moves nothing and
    /// counts a fault. Else it moves the least of `cut`, the length of `into` and the bytes left.
    fn take(&mut self, into: &mut [u8]) -> Result<usize, Failed>
        requires { 0 < length into.old }
        ensures fits { IfOk result (λ n. n ≤ length into.new) }
        ensures bytes { ReadConsumes (Some self.old.left) (Some self.new.left) result into.new }
        ensures cause { HasCause self.old.faults self.new.faults result }

        // Exactly when it fails, and what it moves.
        ensures fails { IsErr result ↔ IsFailing self.old }
        ensures late { 4294967295 ≤ self.old.calls → IsOk result }
        ensures count { IfOk result (λ n. n ≡ moved_count self.old (length into.old)) }
        ensures moved { IfOk result (λ n. into.new ≡ take n self.old.left ++ drop n into.old) }
        ensures unmoved { OnErr result (into.new ≡ into.old) }

        // What it leaves.
        ensures ok { IfOk result (λ n. self.new ≡ after_moving self.old n) }
        ensures err { OnErr result (self.new ≡ after_failing self.old) }
    {
        self.calls = self.calls.saturating_add(1);
        if is_failing(&self.failing, self.calls) {
            self.faults = self.faults.saturating_add(1);
            return Err(Failed);
        }
        let count = copy_front(&self.bytes.as_slice()[self.at..], into, self.cut);
        self.at += count;
        Ok(count)
    }
}

/// A source over bytes in memory that never fails. It tells what is left.
#[derive(Drop)]
pub struct SteadySource {
    bytes: ByteList,
    at: usize,
}

impl Model for SteadySource {
    ghost Value = { List ℕ };

    ghost view = { λ s. drop s.at s.bytes };

    ghost invariant = { λ s. s.at ≤ length s.bytes };
}

impl SteadySource {
    /// A source of `bytes`.
    pub fn new(bytes: ByteList) -> SteadySource
        ensures { result ≡ bytes }
    {
        SteadySource { bytes, at: 0 }
    }
}

impl Source for SteadySource {
    ghost left = { λ s. Some s };

    ghost faults = { λ _. 0 };

    /// Moves as many bytes as fit into `into` and are left.
    fn take(&mut self, into: &mut [u8]) -> Result<usize, Failed>
        requires { 0 < length into.old }
        ensures fits { IfOk result (λ n. n ≤ length into.new) }
        ensures bytes { ReadConsumes (Some self.old) (Some self.new) result into.new }
        ensures cause { HasCause 0 0 result }

        // A list in memory never fails, and moves all that fits.
        ensures count { result ≡ Ok (min (length into.old) (length self.old)) }
        ensures moved { IfOk result (λ n. into.new ≡ take n self.old ++ drop n into.old) }
        ensures after { IfOk result (λ n. self.new ≡ drop n self.old) }
    {
        let space = into.len();
        let count = copy_front(&self.bytes.as_slice()[self.at..], into, space);
        self.at += count;
        Ok(count)
    }
}

// Copies bytes from the front of `from` to the front of `into`: the least of `most` and what both
// have. Returns how many.
fn copy_front(from: &[u8], into: &mut [u8], most: usize) -> usize
    ensures count { result ≡ min most (min (length into.old) (length from.now)) }
    ensures moved { into.new ≡ take result from.now ++ drop result into.old }
{
    let count = most.min(into.len()).min(from.len());
    into[..count].copy_from_slice(&from[..count]);
    count
}
