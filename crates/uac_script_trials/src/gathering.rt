// What stands beneath a sink that gathers, over a sink in memory.
use crate::watched::{Taken, expect_taken, nothing_taken};
use std::cell::Cell;
use std::rc::Rc;
use std::test::Fail;
use uac_descriptor::WordList;
use uac_edges::{Failed, Gathering, MemorySink, Sink, give_all};

/// A sink that tells what it took, also where another sink owns it.
#[derive(Drop)]
struct Watched<K: Sink + Drop> {
    beneath: K,
    taken: Rc<Cell<Taken>>,
}

impl<K: Sink + Drop> Sink for Watched<K> {
    ghost written = { λ s. K.written s.beneath };

    ghost waiting = { λ s. K.waiting s.beneath };

    ghost faults = { λ s. K.faults s.beneath };

    fn give(&mut self, piece: &[u8]) -> Result<usize, Failed> {
        let given = self.beneath.give(piece);
        note(&self.taken, piece, given);
        given
    }

    fn flush(&mut self) -> Result<(), Failed> {
        self.beneath.flush()
    }
}

// Notes the bytes of the piece that were given.
fn note(taken: &Cell<Taken>, piece: &[u8], given: Result<usize, Failed>) {
    if let Ok(count) = given {
        let mut noted = taken.get();
        noted.append(&piece[..count.min(piece.len())]);
        taken.set(noted);
    }
}

// A sink beneath that takes three bytes a call, holds eight or more, and fails at one of its calls. What it didn't take then
// still waits: the next flush hands on what it has room for, and a long piece finds only the room that the rest leaves.
#[test]
fn a_front_stands_beneath(rt: HostRuntime) -> Result<(), Fail> {
    let text = b"ok blocks 4";
    let long = [b'x'; 5000];
    for (call, room, before, in_all) in [
        (1, 8, 0, 8),
        (2, 8, 3, 8),
        (3, 8, 6, 8),
        (4, 8, 8, 8),
        (1, 64, 0, 11),
        (2, 64, 3, 11),
        (3, 64, 6, 11),
        (4, 64, 9, 11),
    ] {
        let failing = WordList::from_vec(vec![in rt.alloc(); call]?);
        let taken = nothing_taken(rt.alloc())?;
        let mut sink = Gathering::new(Watched {
            beneath: MemorySink::new(rt.alloc(), 3, room, failing)?,
            taken: taken.clone()?,
        });
        assert_eq!(rt; give_all(&mut sink, text), Ok(()));
        expect_taken(&rt, &taken, b"", "before the flush");
        assert!(rt; sink.flush().is_err(), "a fault at call {call}");
        expect_taken(&rt, &taken, &text[..before], "after the fault");
        assert_eq!(rt;
            sink.flush().is_ok(),
            in_all == 11,
            "a fault at call {call}"
        );
        expect_taken(&rt, &taken, &text[..in_all], "after a second flush");
        assert_eq!(rt;
            sink.give(&long),
            Ok(4085 + in_all),
            "a fault at call {call}"
        );
    }
    Ok(())
}

// More than is gathered: the front is handed on, and the rest waits.
#[test]
fn a_full_sink_is_handed_on(rt: HostRuntime) -> Result<(), Fail> {
    let text = [b'a'; 5000];
    let never = WordList::from_vec(vec![in rt.alloc()]?);
    let taken = nothing_taken(rt.alloc())?;
    let mut sink = Gathering::new(Watched {
        beneath: MemorySink::new(rt.alloc(), 5000, 5000, never)?,
        taken: taken.clone()?,
    });
    assert_eq!(rt; give_all(&mut sink, &text), Ok(()));
    expect_taken(&rt, &taken, &text[..4096], "before the flush");
    assert_eq!(rt; sink.flush(), Ok(()));
    expect_taken(&rt, &taken, text.as_slice(), "after the flush");
    Ok(())
}
