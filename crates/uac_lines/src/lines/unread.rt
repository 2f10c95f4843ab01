// The bytes that were taken of a source and aren't in a line yet.
ghost use Rattle.std.specs.Prelude.{◌≡◌, ◌-◌, ◌<◌, ◌≤◌, [], length, take, drop, IfOk, OnErr};
ghost use Rattle.std.specs.Io.KnownBytes.{Keeps};
ghost use Rattle.uac_edges.specs.Faults.{HasCause};
ghost use Rattle.uac_lines.specs.ScriptLines.{script_piece};
ghost use Rattle.uac_lines.specs.Taking.{Grows};

use std::marker::Model;
use uac_edges::{Failed, Source};

/// How many bytes may stand unread.
const SIZE: usize = 8192;

/// The bytes that were taken of a source and aren't in a line yet, at most 8,192.
#[derive(Drop)]
pub struct Unread {
    bytes: [u8; 8192],
    start: usize,
    end: usize,
}

impl Model for Unread {
    ghost use Rattle.std.specs.Prelude.{ℕ, List, ◌-◌, ◌≤◌, take, drop};

    ghost Value = { List ℕ };

    ghost view = { λ u. take (u.end - u.start) (drop u.start u.bytes) };

    ghost invariant = { λ u. (u.start ≤ u.end) × (u.end ≤ 8192) };
}

// Moves the bytes from `start` to `end` to the front.
fn move_to_front(bytes: &mut [u8], start: usize, end: usize)
    requires order { start ≤ end }
    requires fits { end ≤ length bytes.old }
    ensures { take (end - start) bytes.new ≡ take (end - start) (drop start bytes.old) }
{
    if start > 0 {
        bytes.copy_within(start..end, 0);
    }
}

impl Unread {
    /// No bytes.
    pub fn new() -> Unread
        ensures { result ≡ [] }
    {
        Unread {
            bytes: [0; 8192],
            start: 0,
            end: 0,
        }
    }

    /// Lends the bytes.
    pub fn as_bytes(&self) -> &[u8]
        ensures { result.now ≡ self.now }
    {
        &self.bytes[self.start..self.end]
    }

    /// Leaves out the first `count` bytes.
    pub fn skip(&mut self, count: usize)
        requires { count ≤ length self.old }
        ensures { self.new ≡ drop count self.old }
    {
        self.start += count;
    }

    /// Takes at most `most` bytes of a source, in one call, after those that stand here, and
    /// answers how many came: 0 is the end of input. `Failed` is the source's: then the bytes
    /// stay as they are.
    pub fn fill<S: Source>(&mut self, source: &mut S, most: usize) -> Result<usize, Failed>
        requires some { 0 < most }
        requires room { length self.old < SIZE }
        ensures ok { IfOk result (λ n. Grows self.old self.new (S.left source.old) (S.left source.new) most n) }
        ensures err { OnErr result (self.new ≡ self.old) }
        ensures piece { IfOk result (λ n. n ≤ script_piece) }
        ensures kept { OnErr result (Keeps (S.left source.old) (S.left source.new)) }
        ensures cause { HasCause (S.faults source.old) (S.faults source.new) result }
    {
        move_to_front(&mut self.bytes, self.start, self.end);
        self.end -= self.start;
        self.start = 0;
        let room = most.min(SIZE - self.end);
        let count = source.take(&mut self.bytes[self.end..self.end + room])?;
        self.end += count;
        Ok(count)
    }
}
