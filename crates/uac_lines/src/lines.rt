// The lines of a script, from a source that gives its bytes in pieces of any size.
ghost use Rattle.std.specs.Prelude.{◌≡◌, ◌≢◌, ◌+◌, ◌-◌, ◌≤◌, ◌<◌, true, false, [], None, Some, Ok, Err, IfOk, OnErr, length, take, drop};
ghost use Rattle.std.specs.Io.KnownBytes.{Keeps};
ghost use Rattle.uac_edges.specs.Faults.{HasCause};
ghost use Rattle.uac_lines.specs.ScriptLines.{Splits, Goes, Stops, IsDecided, head_of, most_of_input, most_of_line, script_piece};
ghost use Rattle.uac_lines.specs.Looking.{ShowsFront, line_end};
ghost use Rattle.uac_lines.specs.Taking.{Grows};

/// What stands first in the unread bytes.
mod front;
/// The bytes that were taken of a source and aren't in a line yet.
mod unread;

use arrayvec::ArrayVec;
use front::{Front, look};
use std::marker::Model;
use uac_edges::{Failed, Source};
use unread::Unread;

/// The most bytes of an input.
const MOST_OF_INPUT: usize = 268_435_456;

/// What the next line is.
#[derive(Clone, Copy, Debug, PartialEq, Eq)]
pub enum Next {
    /// A line, which `Lines::text` lends.
    Line,
    /// No line is left.
    End,
}

/// Why there is no next line.
#[derive(Clone, Copy, Debug, PartialEq, Eq)]
pub enum LineStop {
    /// A read failed.
    Failed,
    /// Rule S1: the line has more than 4,096 bytes.
    Long,
    /// The input has more than 268,435,456 bytes.
    TooLong,
}

/// Reads the lines of a script. It takes no memory.
#[derive(Drop)]
pub struct Lines {
    line: ArrayVec<u8, 4096>,
    number: u64,
    unread: Unread,
    spare: usize,
    stop: Option<LineStop>,
    ended: bool,
}

impl Model for Lines {
    ghost use Rattle.std.specs.Prelude.{◌+◌, ◌≤◌, length};
    ghost use Rattle.uac_lines.specs.ScriptLines.{Splitting, most_of_input};

    ghost Value = { Splitting };

    ghost view = { λ l. record {
      text = l.line.items;
      number = l.number;
      unread = l.unread;
      spare = l.spare;
      stop = l.stop;
      ended = l.ended;
    } };

    ghost invariant = { λ l. (l.spare ≤ most_of_input) × (length l.unread ≤ l.spare + 1) };
}

impl Lines {
    /// No line yet.
    pub fn new() -> Lines
        ensures { result ≡ record { text = []; number = 0; unread = []; spare = most_of_input; stop = None; ended = false } }
    {
        Lines {
            line: ArrayVec::new(),
            number: 0,
            unread: Unread::new(),
            spare: MOST_OF_INPUT,
            stop: None,
            ended: false,
        }
    }

    /// Takes the next line from a source. After a stop it answers that stop again. After a line
    /// that no newline ends it answers `End`, and calls the source no more. A line that stands whole
    /// in the bytes at hand is answered without a call of the source, and once one stands whole, no
    /// piece more is taken. Unless it answers `Failed`, no call of the source met a fault. All calls
    /// together take at most 268,435,457 bytes.
    pub fn next<S: Source>(&mut self, source: &mut S) -> Result<Next, LineStop>
        ensures splits { self.old.stop ≡ None → self.old.ended ≡ false
            → Splits self.old self.new (S.left source.old) (S.left source.new) (S.faults source.old) (S.faults source.new) result }
        ensures ended { self.old.stop ≡ None → self.old.ended ≡ true
            → (result ≡ Ok Next.End) × (self.new ≡ self.old) × (source.new ≡ source.old) }
        ensures again { (why : LineStop) → self.old.stop ≡ Some why
            → (result ≡ Err why) × (self.new ≡ self.old) × (source.new ≡ source.old) }
        ensures told { self.old.stop ≡ None → self.old.ended ≡ false → IsDecided (head_of self.old.spare self.old.unread)
            → source.new ≡ source.old }
        ensures faultless { result ≢ Err LineStop.Failed → S.faults source.new ≡ S.faults source.old }
        ensures never_falls { S.faults source.old ≤ S.faults source.new }
        ensures within { length self.new.unread ≤ self.new.spare + 1 }
    {
        if let Some(stop) = self.stop {
            return Err(stop);
        }
        if self.ended {
            return Ok(Next::End);
        }
        let mut searched = 0;
        loop {
            let number = self.number();
            match self.first(searched) {
                Front::Line(size) => return Ok(self.go(size, size + 1, false)),
                Front::Long => return Err(self.halt(LineStop::Long, number.saturating_add(1))),
                Front::Past => return Err(self.halt(LineStop::TooLong, number)),
                Front::Open(size) => searched = size,
            }
            match self.fill(source) {
                Ok(0) if searched == 0 => return Ok(Next::End),
                Ok(0) => return Ok(self.go(searched, searched, true)),
                Ok(_) => {}
                Err(Failed) => return Err(self.halt(LineStop::Failed, number)),
            }
        }
    }

    /// The last line, without its newline.
    pub fn text(&self) -> &[u8]
        ensures { (result.now ≡ self.now.text) × (length result.now ≤ most_of_line) }
    {
        self.line.as_slice()
    }

    /// The number of the last line, from 1; after a line that is too long that line's. It stands
    /// still at 18446744073709551615, where no input brings it.
    pub fn number(&self) -> u64
        ensures { result ≡ self.now.number }
    {
        self.number
    }

    // What stands first in the unread bytes. The first `searched` have no newline.
    fn first(&self, searched: usize) -> Front
        requires known { searched ≤ line_end self.now.unread }
        requires counted { searched ≤ self.now.spare }
        ensures { ShowsFront self.now.spare self.now.unread result }
    {
        look(self.unread.as_bytes(), searched, self.spare)
    }

    // Takes more bytes after the unread ones, in one call of the source.
    fn fill<S: Source>(&mut self, source: &mut S) -> Result<usize, Failed>
        requires fits { length self.old.unread ≤ most_of_line }
        requires counted { length self.old.unread ≤ self.old.spare }
        ensures ok { IfOk result (λ n. Grows self.old.unread self.new.unread (S.left source.old) (S.left source.new)
            (self.old.spare + 1 - length self.old.unread) n) }
        ensures piece { IfOk result (λ n. n ≤ script_piece) }
        ensures others { self.new ≡ record self.old { unread = self.new.unread } }
        ensures err { OnErr result (self.new ≡ self.old) }
        ensures kept { OnErr result (Keeps (S.left source.old) (S.left source.new)) }
        ensures cause { HasCause (S.faults source.old) (S.faults source.new) result }
    {
        let most = self.spare + 1 - self.unread.as_bytes().len();
        self.unread.fill(source, most)
    }

    // Makes the first `size` unread bytes the next line, and uses up `used` of them: with the
    // newline, or at the end of the source with none, and then `last` is true.
    fn go(&mut self, size: usize, used: usize, last: bool) -> Next
        requires going { self.old.stop ≡ None }
        requires some { 0 < used }
        requires order { size ≤ used }
        requires fits { size ≤ most_of_line }
        requires there { used ≤ length self.old.unread }
        requires counted { used ≤ self.old.spare }
        ensures answer { result ≡ Next.Line }
        ensures goes { Goes self.old self.new (take size self.old.unread) (drop used self.old.unread) used last }
    {
        self.line.clear();
        match self
            .line
            .try_extend_from_slice(&self.unread.as_bytes()[..size])
        {
            Ok(()) => {}
            Err(_) => unreachable!(),
        }
        self.number = self.number.saturating_add(1);
        self.unread.skip(used);
        self.spare -= used;
        self.ended = last;
        Next::Line
    }

    // Stops, and keeps why. `number` is the last line's.
    fn halt(&mut self, why: LineStop, number: u64) -> LineStop
        ensures answer { result ≡ why }
        ensures stops { Stops self.old self.new self.old.unread why number }
    {
        self.number = number;
        self.stop = Some(why);
        why
    }
}
