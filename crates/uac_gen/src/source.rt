// The script as a source of bytes.
ghost use Rattle.std.specs.Prelude.{◌≡◌, ℕ, ◌+◌, ◌<◌, ◌≤◌, List, [], ◌∷◌, ◌++◌, length, take, drop, Some, IsOk, IfOk};
ghost use Rattle.std.specs.Io.KnownBytes.{ReadConsumes};
ghost use Rattle.uac_edges.specs.Faults.{HasCause};
ghost use Rattle.uac_edges.specs.TextLines.{with_newlines};
ghost use Rattle.uac_gen.specs.GeneratedScript.{script_of};

use crate::generator::Gen;
use arrayvec::ArrayVec;
use std::marker::Model;
use uac_edges::{Failed, Source};

/// The script that a number generates, as a source of its bytes. It tells what is left, and never
/// fails. It takes no memory, and holds one line at a time.
#[derive(Drop)]
pub struct GenSource {
    script: Gen,
    // The line that is handed out, without its newline.
    line: ArrayVec<u8, 4096>,
    // The index of the next byte in it. At its length the newline is due; after that the next line.
    at: usize,
}

impl Model for GenSource {
    ghost use Rattle.std.specs.Prelude.{ℕ, ◌+◌, ◌≤◌, List, [], ◌∷◌, ◌++◌, length, drop};
    ghost use Rattle.uac_edges.specs.TextLines.{with_newlines};

    // The bytes that are left.
    ghost Value = { List ℕ };

    ghost view = { λ s. drop s.at (s.line.items ++ 10 ∷ []) ++ with_newlines s.script };

    ghost invariant = { λ s. s.at ≤ length s.line.items + 1 };
}

impl GenSource {
    /// The script of this number, with all its bytes left.
    pub fn new(number: u32) -> GenSource
        ensures { result ≡ script_of number }
    {
        // After the newline of an empty line.
        GenSource {
            script: Gen::new(number),
            line: ArrayVec::new(),
            at: 1,
        }
    }
}

impl Source for GenSource {
    ghost left = { λ s. Some s };

    ghost faults = { λ _. 0 };

    /// Moves as many bytes as fit into `into` and are left of one line, or else its newline alone.
    fn take(&mut self, into: &mut [u8]) -> Result<usize, Failed>
        requires { 0 < length into.old }
        ensures fits { IfOk result (λ n. n ≤ length into.new) }
        ensures bytes { ReadConsumes (Some self.old) (Some self.new) result into.new }
        ensures cause { HasCause 0 0 result }

        // A generated script is always there to be taken.
        ensures steady { IsOk result }
    {
        let at = next_byte(&mut self.script, &mut self.line, self.at);
        let count = copy_rest(self.line.as_slice(), at, into);
        self.at = at + count;
        Ok(count)
    }
}

// The index of the next byte, in this line or at the front of the next. It is after the newline
// only where no line is left.
fn next_byte(script: &mut Gen, line: &mut ArrayVec<u8, 4096>, at: usize) -> usize
    requires { at ≤ length line.old.items + 1 }
    ensures same { drop at (line.old.items ++ 10 ∷ []) ++ with_newlines script.old
        ≡ drop result (line.new.items ++ 10 ∷ []) ++ with_newlines script.new }
    ensures within { result ≤ length line.new.items + 1 }
    ensures ended { length line.new.items < result → script.new ≡ [] }
{
    if at <= line.len() {
        return at;
    }
    if script.next(line) {
        return 0;
    }
    at
}

// Copies bytes of the line with its newline, from this byte on, to the front of `into`: at least
// one, unless that is after the newline. Returns how many.
fn copy_rest(line: &[u8], at: usize, into: &mut [u8]) -> usize
    requires byte { at ≤ length line.now + 1 }
    requires room { 0 < length into.old }
    ensures moved { drop at (line.now ++ 10 ∷ []) ≡ take result into.new ++ drop (at + result) (line.now ++ 10 ∷ []) }
    ensures fits { result ≤ length into.new }
    ensures within { at + result ≤ length line.now + 1 }
    ensures some { at ≤ length line.now → 0 < result }
{
    if at > line.len() {
        return 0;
    }
    if at == line.len() {
        into[0] = b'\n';
        return 1;
    }
    let count = (line.len() - at).min(into.len());
    into[..count].copy_from_slice(&line[at..at + count]);
    count
}
