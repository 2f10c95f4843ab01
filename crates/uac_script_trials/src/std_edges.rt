// The real edges over a reader and a writer that answer by a list: an interruption, a fault, and a
// flush that fails.
use crate::watched::{Taken, expect_taken, nothing_taken};
use std::cell::Cell;
use std::io;
use std::io::{Error, ErrorKind, Read, Write};
use std::process::Abort;
use std::rc::Rc;
use std::test::Fail;
use uac_edges::{Failed, Sink, Source, StdSink, StdSource, give_all};

// What a call of the reader or the writer does.
#[derive(Clone, Copy)]
enum Reply {
    // The call moves so many bytes, as far as there is room.
    Moves(usize),
    Interrupted,
    Breaks,
}

// The number of bytes that a call moves.
fn move_by(turns: &[Reply], at: usize) -> io::Result<usize> {
    match turns.get(at) {
        None => Ok(0),
        Some(Reply::Moves(count)) => Ok(*count),
        Some(Reply::Interrupted) => Err(Error::from(ErrorKind::Interrupted)),
        Some(Reply::Breaks) => Err(Error::from(ErrorKind::BrokenPipe)),
    }
}

// A reader of the bytes 1, 2, 3 and so on, by turns, and of none after them.
#[derive(Drop)]
struct Counting {
    turns: [Reply; 6],
    at: usize,
    last: u8,
}

impl Read for Counting {
    fn read(&mut self, buf: &mut [u8]) -> io::Result<usize> {
        let at = self.at;
        self.at = at.saturating_add(1);
        let count = move_by(&self.turns, at)?.min(buf.len());
        for byte in &mut buf[..count] {
            self.last = self.last.saturating_add(1);
            *byte = self.last;
        }
        Ok(count)
    }
}

#[test]
fn reads_are_tried_again_and_fail(rt: HostRuntime) {
    let turns = [
        Reply::Interrupted,
        Reply::Moves(3),
        Reply::Breaks,
        Reply::Interrupted,
        Reply::Interrupted,
        Reply::Moves(9),
    ];
    let mut source = StdSource::new(Counting {
        turns,
        at: 0,
        last: 0,
    });
    let mut into = [0; 4];
    assert_eq!(rt; source.take(&mut into), Ok(3));
    assert_eq!(rt; into, [1, 2, 3, 0]);
    assert_eq!(rt; source.take(&mut into), Err(Failed));
    assert_eq!(rt; source.take(&mut into), Ok(4));
    assert_eq!(rt; into, [4, 5, 6, 7]);
    assert_eq!(rt; source.take(&mut into), Ok(0));
}

// A reader that tells its bytes.
#[test]
fn bytes_are_a_source(rt: HostRuntime) {
    let mut source = StdSource::new(b"abcde".as_slice());
    let mut into = [0; 3];
    assert_eq!(rt; source.take(&mut into), Ok(3));
    assert_eq!(rt; into.as_slice(), b"abc".as_slice());
    assert_eq!(rt; source.take(&mut into), Ok(2));
    assert_eq!(rt; &into[..2], b"de".as_slice());
    assert_eq!(rt; source.take(&mut into), Ok(0));
}

// A writer by turns, which tells what it took, and whose flushes go by turns of their own.
#[derive(Drop)]
struct FlushingWriter {
    turns: [Reply; 4],
    flushes: [Reply; 4],
    taken: Rc<Cell<Taken>>,
}

impl Write for FlushingWriter {
    fn write(&mut self, buf: &[u8]) -> io::Result<usize> {
        let mut taken = self.taken.get();
        let at = taken.writes;
        taken.writes = at.saturating_add(1);
        self.taken.set(taken);
        let count = move_by(&self.turns, at)?.min(buf.len());
        taken.append(&buf[..count]);
        self.taken.set(taken);
        Ok(count)
    }

    fn flush(&mut self) -> io::Result<()> {
        let mut taken = self.taken.get();
        let flushed = taken.flushes;
        taken.flushes = flushed.saturating_add(1);
        self.taken.set(taken);
        match move_by(&self.flushes, flushed) {
            Ok(_) => Ok(()),
            Err(error) => Err(error),
        }
    }
}

// A sink over such a writer.
fn sink(
    taken: &Rc<Cell<Taken>>,
    turns: [Reply; 4],
    flushes: [Reply; 4],
) -> Result<StdSink<FlushingWriter>, Fail> {
    Ok(StdSink::new(FlushingWriter {
        turns,
        flushes,
        taken: taken.clone()?,
    }))
}

// Asserts which bytes the writer took, and how many writes and flushes there were.
fn expect(rt: &impl Abort, taken: &Cell<Taken>, bytes: &[u8], calls: (usize, usize)) {
    let noted = taken.get();
    assert_eq!(rt; (noted.writes, noted.flushes), calls);
    expect_taken(rt, taken, bytes, "after these calls");
}

#[test]
fn each_write_is_flushed(rt: HostRuntime) -> Result<(), Fail> {
    let turns = [
        Reply::Moves(2),
        Reply::Interrupted,
        Reply::Moves(3),
        Reply::Moves(1),
    ];
    let flushes = [
        Reply::Moves(0),
        Reply::Interrupted,
        Reply::Moves(0),
        Reply::Moves(0),
    ];
    let taken = nothing_taken(rt.alloc())?;
    let mut sink = sink(&taken, turns, flushes)?;
    assert_eq!(rt; sink.give(b"ok blo"), Ok(2));
    expect(&rt, &taken, b"ok", (1, 1));
    assert_eq!(rt; sink.give(b" blo"), Ok(3));
    expect(&rt, &taken, b"ok bl", (3, 3));
    assert_eq!(rt; give_all(&mut sink, b"o"), Ok(()));
    expect(&rt, &taken, b"ok blo", (4, 4));
    Ok(())
}

#[test]
fn writes_that_take_nothing_are_faults(rt: HostRuntime) -> Result<(), Fail> {
    let turns = [
        Reply::Moves(0),
        Reply::Breaks,
        Reply::Moves(2),
        Reply::Moves(0),
    ];
    let taken = nothing_taken(rt.alloc())?;
    let mut sink = sink(&taken, turns, [Reply::Moves(0); 4])?;
    assert_eq!(rt; sink.give(b"ok"), Err(Failed));
    expect(&rt, &taken, b"", (1, 0));
    assert_eq!(rt; sink.give(b"ok"), Err(Failed));
    expect(&rt, &taken, b"", (2, 0));
    assert_eq!(rt; give_all(&mut sink, b"ok\n"), Err(Failed));
    expect(&rt, &taken, b"ok", (4, 1));
    Ok(())
}

// A flush that fails is a fault, and the sink writes no more.
#[test]
fn flushes_that_fail_are_faults(rt: HostRuntime) -> Result<(), Fail> {
    let flushes = [
        Reply::Moves(0),
        Reply::Breaks,
        Reply::Moves(0),
        Reply::Moves(0),
    ];
    let taken = nothing_taken(rt.alloc())?;
    let mut sink = sink(&taken, [Reply::Moves(2); 4], flushes)?;
    assert_eq!(rt; sink.give(b"ok"), Ok(2));
    assert_eq!(rt; sink.give(b"ok"), Err(Failed));
    expect(&rt, &taken, b"okok", (2, 2));
    assert_eq!(rt; sink.give(b"ok"), Err(Failed));
    expect(&rt, &taken, b"okok", (2, 2));
    Ok(())
}
