// The objects in memory and the writing of text, at values that were worked by hand.
ghost use Rattle.std.specs.Prelude.{◌≡◌, ◌++◌, [], codes, decimal};
ghost use Rattle.uac_edges.specs.Faults.{HasCause};
ghost use Rattle.uac_edges.specs.Writing.{Writes};

use std::test::Fail;
use uac_descriptor::{ByteList, WordList};
use uac_edges::{Failed, MemorySink, MemorySource, Sink, Source, SteadySource, TextLine, give_all};

// The line that names a broken rule of the grammar and its place.
fn push_broken(line: &mut TextLine<64>, rule: u8, at: u32)
    requires { line.old ≡ [] }
    ensures { line.new ≡ codes "descriptor G" ++ decimal rule ++ codes " at " ++ decimal at ++ codes "\n" }
{
    line.push(b"descriptor G");
    line.push_number(u64::from(rule));
    line.push(b" at ");
    line.push_number(u64::from(at));
    line.push(b"\n");
}

#[test]
fn lines_are_built(rt: HostRuntime) {
    let mut line = TextLine::new();
    push_broken(&mut line, 5, 293);
    assert_eq!(rt; line.as_bytes(), b"descriptor G5 at 293\n".as_slice());
    for (number, digits) in [
        (0, b"0".as_slice()),
        (7, b"7".as_slice()),
        (293, b"293".as_slice()),
        (18446744073709551615, b"18446744073709551615".as_slice()),
    ] {
        let mut line = TextLine::<20>::new();
        line.push_number(number);
        assert_eq!(rt; line.as_bytes(), digits, "at {number}");
    }
}

// A sink that takes one byte a call, and fails at one of its calls.
#[test]
fn texts_are_cut_by_faults(rt: HostRuntime) -> Result<(), Fail> {
    let text = b"ok blocks 4";
    for call in 1..=12u32 {
        let failing = WordList::from_vec(vec![in rt.alloc(); call]?);
        let mut sink = MemorySink::new(rt.alloc(), 1, 64, failing)?;
        let given = give_all(&mut sink, text);
        let before = call as usize - 1;
        assert_eq!(rt; given.is_ok(), before == 11, "a fault at call {call}");
        assert_eq!(rt;
            sink.bytes_written(),
            &text[..before],
            "a fault at call {call}"
        );
    }
    Ok(())
}

#[test]
fn sink_is_cut_and_full(rt: HostRuntime) -> Result<(), Fail> {
    let never = WordList::from_vec(vec![in rt.alloc()]?);
    let mut sink = MemorySink::new(rt.alloc(), 3, 4, never)?;
    assert_eq!(rt; sink.give(b"abcdef"), Ok(3));
    assert_eq!(rt; sink.give(b"def"), Ok(1));
    assert_eq!(rt; sink.give(b"ef"), Err(Failed));
    assert_eq!(rt; give_all(&mut sink, b""), Ok(()));
    assert_eq!(rt; sink.bytes_written(), b"abcd".as_slice());
    Ok(())
}

// Pieces of nine bytes, and a fault at the second call.
#[test]
fn source_is_cut_and_fails(rt: HostRuntime) -> Result<(), Fail> {
    let text = b"0123456789abcdefghijkl";
    let failing = WordList::from_vec(vec![in rt.alloc(); 2]?);
    let bytes = ByteList::from_vec(text.to_vec(rt.alloc())?);
    let mut source = MemorySource::new(bytes, 9, failing);
    let mut into = [0; 64];
    assert_eq!(rt; source.take(&mut into), Ok(9));
    assert_eq!(rt; &into[..10], b"012345678\0".as_slice());
    assert_eq!(rt; source.take(&mut into), Err(Failed));
    assert_eq!(rt; source.take(&mut into[..2]), Ok(2));
    assert_eq!(rt; &into[..3], b"9a2".as_slice());
    assert_eq!(rt; source.take(&mut into), Ok(9));
    assert_eq!(rt; source.take(&mut into), Ok(2));
    assert_eq!(rt; &into[..3], b"kld".as_slice());
    assert_eq!(rt; source.take(&mut into), Ok(0));
    Ok(())
}

#[test]
fn steady_source_gives_all(rt: HostRuntime) -> Result<(), Fail> {
    let bytes = ByteList::from_vec(b"0123".to_vec(rt.alloc())?);
    let mut source = SteadySource::new(bytes);
    let mut into = [0; 3];
    assert_eq!(rt; source.take(&mut into), Ok(3));
    assert_eq!(rt; into.as_slice(), b"012".as_slice());
    assert_eq!(rt; source.take(&mut into), Ok(1));
    assert_eq!(rt; into.as_slice(), b"312".as_slice());
    assert_eq!(rt; source.take(&mut into), Ok(0));
    Ok(())
}

// Two texts in a row are written as one.
#[tactic(auto, using(uac_edges::proofs::WritingLemmas::writings))]
fn give_both<K: Sink>(sink: &mut K, first: &[u8], second: &[u8]) -> Result<(), Failed>
    ensures written { Writes (K.written sink.old) (K.written sink.new) result (first.now ++ second.now) }
    ensures cause { HasCause (K.faults sink.old) (K.faults sink.new) result }
{
    match give_all(sink, first) {
        Ok(()) => {}
        Err(failed) => return Err(failed),
    }
    give_all(sink, second)
}

#[test]
fn two_texts_are_written(rt: HostRuntime) -> Result<(), Fail> {
    let never = WordList::from_vec(vec![in rt.alloc()]?);
    let mut sink = MemorySink::new(rt.alloc(), 2, 64, never)?;
    assert_eq!(rt; give_both(&mut sink, b"ok ", b"blocks 4"), Ok(()));
    assert_eq!(rt; sink.bytes_written(), b"ok blocks 4".as_slice());
    Ok(())
}
