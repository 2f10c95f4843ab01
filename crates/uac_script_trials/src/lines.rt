// Lines in pieces of any size, with a fault, without an end, and at the limits.
ghost use Rattle.std.specs.Prelude.{◌≤◌};

use std::alloc::Global;
use std::io;
use std::io::Read;
use std::process::Abort;
use std::test::Fail;
use uac_descriptor::{ByteList, WordList};
use uac_edges::{MemorySource, Source, StdSource};
use uac_lines::{LineStop, Lines, Next};

// The next line is this one, of this number.
fn expect_line<S: Source>(
    rt: &impl Abort,
    lines: &mut Lines,
    source: &mut S,
    text: &[u8],
    number: u64,
) {
    assert_eq!(rt; lines.next(source), Ok(Next::Line), "at line {number}");
    assert_eq!(rt; lines.text(), text, "at line {number}");
    assert_eq!(rt; lines.number(), number);
}

// No line is left, the first time and from then on.
fn expect_end<S: Source>(rt: &impl Abort, lines: &mut Lines, source: &mut S, number: u64) {
    assert_eq!(rt; lines.next(source), Ok(Next::End));
    assert_eq!(rt; lines.next(source), Ok(Next::End));
    assert_eq!(rt; lines.number(), number);
}

// The reader stops, the first time and from then on.
fn expect_stop<S: Source>(
    rt: &impl Abort,
    lines: &mut Lines,
    source: &mut S,
    stop: LineStop,
    number: u64,
) {
    assert_eq!(rt; lines.next(source), Err(stop));
    assert_eq!(rt; lines.number(), number);
    assert_eq!(rt; lines.next(source), Err(stop));
    assert_eq!(rt; lines.number(), number);
}

// Three lines, in pieces of at most `cut` bytes, with and without the last newline.
fn read_three(rt: &impl Abort, alloc: Global, cut: usize) -> Result<(), Fail>
    requires { 1 ≤ cut }
{
    for text in [b"v 1\n\n# last\n".as_slice(), b"v 1\n\n# last".as_slice()] {
        let never = WordList::from_vec(vec![in alloc]?);
        let bytes = ByteList::from_vec(text.to_vec(alloc)?);
        let mut source = MemorySource::new(bytes, cut, never);
        let mut lines = Lines::new();
        assert_eq!(rt; lines.number(), 0);
        expect_line(rt, &mut lines, &mut source, b"v 1", 1);
        expect_line(rt, &mut lines, &mut source, b"", 2);
        expect_line(rt, &mut lines, &mut source, b"# last", 3);
        expect_end(rt, &mut lines, &mut source, 3);
        assert_eq!(rt; lines.text(), b"# last".as_slice());
    }
    Ok(())
}

#[test]
fn pieces_of_one_byte(rt: HostRuntime) -> Result<(), Fail> {
    read_three(&rt, rt.alloc(), 1)
}

#[test]
fn pieces_of_two_bytes(rt: HostRuntime) -> Result<(), Fail> {
    read_three(&rt, rt.alloc(), 2)
}

#[test]
fn pieces_of_4096_bytes(rt: HostRuntime) -> Result<(), Fail> {
    read_three(&rt, rt.alloc(), 4096)
}

#[test]
fn no_line(rt: HostRuntime) -> Result<(), Fail> {
    let never = WordList::from_vec(vec![in rt.alloc()]?);
    let bytes = ByteList::from_vec(vec![in rt.alloc()]?);
    let mut source = MemorySource::new(bytes, 1, never);
    let mut lines = Lines::new();
    expect_end(&rt, &mut lines, &mut source, 0);
    assert_eq!(rt; lines.text(), b"".as_slice());
    Ok(())
}

// A source of lines of these lengths, each with its newline, in pieces of at most `cut` bytes.
fn source_of(alloc: Global, sizes: &[usize], cut: usize) -> Result<MemorySource, Fail>
    requires { 1 ≤ cut }
{
    let mut text = Vec::new(alloc);
    for size in sizes {
        for _ in 0..*size {
            text.push(b'#')?;
        }
        text.push(b'\n')?;
    }
    let never = WordList::from_vec(vec![in alloc]?);
    Ok(MemorySource::new(ByteList::from_vec(text), cut, never))
}

#[test]
fn line_of_4096_bytes(rt: HostRuntime) -> Result<(), Fail> {
    let mut source = source_of(rt.alloc(), &[4096, 2], 1000)?;
    let mut lines = Lines::new();
    assert_eq!(rt; lines.next(&mut source), Ok(Next::Line));
    assert_eq!(rt; lines.text().len(), 4096);
    assert!(rt; lines.text().iter().all(|b| *b == b'#'));
    expect_line(&rt, &mut lines, &mut source, b"##", 2);
    expect_end(&rt, &mut lines, &mut source, 2);
    Ok(())
}

#[test]
fn line_of_4097_bytes(rt: HostRuntime) -> Result<(), Fail> {
    let mut source = source_of(rt.alloc(), &[1, 4097, 1], 4096)?;
    let mut lines = Lines::new();
    expect_line(&rt, &mut lines, &mut source, b"#", 1);
    expect_stop(&rt, &mut lines, &mut source, LineStop::Long, 2);
    Ok(())
}

// The second call fails: the line that the first call gave comes first, and no call follows.
#[test]
fn second_call_fails(rt: HostRuntime) -> Result<(), Fail> {
    let failing = WordList::from_vec(vec![in rt.alloc(); 2]?);
    let bytes = ByteList::from_vec(b"v 1\nq\n".to_vec(rt.alloc())?);
    let mut source = MemorySource::new(bytes, 5, failing);
    let mut lines = Lines::new();
    expect_line(&rt, &mut lines, &mut source, b"v 1", 1);
    expect_stop(&rt, &mut lines, &mut source, LineStop::Failed, 1);
    let mut into = [0; 8];
    assert_eq!(rt; source.take(&mut into), Ok(1));
    assert_eq!(rt; into[0], b'\n');
    Ok(())
}

// After a last line without a newline the source isn't called: its third call would fail.
#[test]
fn no_call_after_the_end(rt: HostRuntime) -> Result<(), Fail> {
    let alloc = rt.alloc();
    let third = WordList::from_vec(vec![in alloc; 3]?);
    let bytes = ByteList::from_vec(b"v 1".as_slice().to_vec(alloc)?);
    let mut source = MemorySource::new(bytes, 8, third);
    let mut lines = Lines::new();
    expect_line(&rt, &mut lines, &mut source, b"v 1", 1);
    expect_end(&rt, &mut lines, &mut source, 1);
    Ok(())
}

// A reader of so many bytes: comments of 4,096 bytes with their newlines, but for the first, which may be shorter.
#[derive(Drop)]
struct Comments {
    left: usize,
}

impl Read for Comments {
    fn read(&mut self, buf: &mut [u8]) -> io::Result<usize> {
        let count = self.left.min(buf.len());
        for byte in &mut buf[..count] {
            self.left = self.left.saturating_sub(1);
            *byte = if self.left % 4096 == 0 { b'\n' } else { b'#' };
        }
        Ok(count)
    }
}

// A reader of lines that may take so many bytes more: it has read comments of all others, 65,536 lines.
fn reader_of(rt: &impl Abort, spare: usize) -> Lines
    requires { spare ≤ 4096 }
{
    let mut source = StdSource::new(Comments {
        left: 268_435_456 - spare,
    });
    let mut lines = Lines::new();
    for number in 1..=65536u32 {
        assert_eq!(rt; lines.next(&mut source), Ok(Next::Line), "at line {number}");
    }
    lines
}

// Lines of two and four bytes, each with its newline, are eight bytes.
#[test]
fn input_is_too_long(rt: HostRuntime) -> Result<(), Fail> {
    for spare in 5..8 {
        let mut source = source_of(rt.alloc(), &[2, 4], 1)?;
        let mut lines = reader_of(&rt, spare);
        expect_line(&rt, &mut lines, &mut source, b"##", 65537);
        expect_stop(&rt, &mut lines, &mut source, LineStop::TooLong, 65537);
    }
    let mut source = source_of(rt.alloc(), &[2, 4], 1)?;
    let mut lines = reader_of(&rt, 8);
    expect_line(&rt, &mut lines, &mut source, b"##", 65537);
    expect_line(&rt, &mut lines, &mut source, b"####", 65538);
    expect_end(&rt, &mut lines, &mut source, 65538);
    Ok(())
}
