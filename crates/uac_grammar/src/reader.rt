// The reader: descriptor bytes in, in pieces of any size, blocks or a fault out.
ghost use Rattle.std.specs.Prelude.{◌≡◌, ◌≢◌, ◌≤◌, ◌<◌, [], ◌++◌, length, take, IsOk, IfOk, OnOk, IfErr, MatchResult, None};
ghost use Rattle.uac_grammar_rules.specs.Grammar.{first_fault};
ghost use Rattle.uac_grammar_rules.specs.Sentence.{IsSentence};
ghost use Rattle.uac_grammar.specs.ReaderKept.{ReaderFields, IsUnstopped, most_taken};
ghost use Rattle.uac_grammar.specs.Stop.{first_stop, shown_stop};

use crate::fault::ReadStop;
use crate::judge::{Verdict, judge_end};
use crate::next::{Next, judge_next};
use arrayvec::ArrayVec;
use std::alloc::Global;
use std::marker::Model;
use uac_descriptor::Block;
use uac_grammar_rules::State;

/// Reads descriptor bytes, in pieces of any size, up to the first place that is wrong.
#[derive(Drop)]
pub struct Reader {
    alloc: Global,
    blocks: Vec<Block>,
    /// What was taken of the block that isn't whole yet.
    pending: ArrayVec<u8, 255>,
    /// What the blocks so far leave to be remembered.
    state: State,
    /// The place of the pending block.
    place: u32,
    stop: Option<ReadStop>,
}

impl Model for Reader {
    ghost use Rattle.std.specs.Prelude.{◌++◌};
    ghost use Rattle.uac_grammar_rules.specs.Sentence.{spellings};
    ghost use Rattle.uac_grammar.specs.ReaderKept.{ReaderFields, IsReaderOf};

    ghost Value = { ReaderFields };

    ghost view = { λ r. record { taken = spellings r.blocks.items ++ r.pending.items; stop = r.stop } };

    ghost invariant = { λ r. IsReaderOf r.blocks.items r.state r.place r.pending.items r.stop };
}

impl Reader {
    /// A reader that took nothing. It takes no memory.
    pub fn new(alloc: Global) -> Reader
        ensures { result ≡ record { taken = []; stop = None } }
    {
        Reader {
            alloc,
            blocks: Vec::new(alloc),
            pending: ArrayVec::new(),
            state: State::start(),
            place: 0,
            stop: None,
        }
    }

    /// Lets all go that the reader holds. A caller that ends so needs no proof of its own of how each part is let go.
    pub fn let_go(self) {}

    /// Takes the next bytes. It answers the first fault of all bytes so far as soon as their number is
    /// past its place, unless the block there is cut off (rule G1), and stops there. A stop is answered
    /// again after that.
    pub fn feed(&mut self, piece: &[u8]) -> Result<(), ReadStop>
        ensures again { (s : ReadStop) → self.old.stop ≡ Some s → (result ≡ Err s) × (self.new ≡ self.old) }
        ensures answer { MatchResult result (λ _. self.new.stop ≡ None) (λ s. self.new.stop ≡ Some s) }

        // where there was no stop
        ensures takes { self.old.stop ≡ None → self.new.stop ≡ None → self.new.taken ≡ self.old.taken ++ piece.now }
        ensures shown { self.old.stop ≡ None → self.new.stop ≢ Some ReadStop.NoMemory
            → self.new.stop ≡ shown_stop (self.old.taken ++ piece.now) }
        ensures bounded { OnOk result (length self.new.taken ≤ most_taken) }
    {
        if let Some(stop) = self.stop {
            return Err(stop);
        }
        let mut rest = piece;
        while !rest.is_empty() {
            let count = self.take(rest)?;
            rest = &rest[count..];
        }
        Ok(())
    }

    /// Takes the first of these bytes, up to the end of a block, and keeps the block; or all of them, where they end before it. It
    /// answers how many it took.
    fn take(&mut self, bytes: &[u8]) -> Result<usize, ReadStop>
        requires unstopped { self.old.stop ≡ None }
        requires some { 0 < length bytes.now }
        ensures within { IfOk result (λ count. (0 < count) × (count ≤ length bytes.now)) }
        ensures taken { IfOk result (λ count. self.new.taken ≡ self.old.taken ++ take count bytes.now) }
        ensures going { IsOk result → IsUnstopped self.new }
        ensures stopped { IfErr result (λ s. self.new.stop ≡ Some s) }
        ensures shown { IfErr result (λ s. s ≢ ReadStop.NoMemory → shown_stop (self.old.taken ++ bytes.now) ≡ Some s) }
    {
        let Next {
            count,
            size,
            verdict,
        } = judge_next(
            self.alloc,
            &mut self.blocks,
            &mut self.state,
            self.place,
            &mut self.pending,
            bytes,
        );
        match verdict {
            Verdict::Partial => Ok(count),
            Verdict::Kept => {
                self.place += size as u32;
                Ok(count)
            }
            Verdict::Stopped(stop) => {
                self.stop = Some(stop);
                Err(stop)
            }
        }
    }

    /// The blocks of the bytes, or their first fault. It takes no memory; where a `feed` found none, it
    /// answers `NoMemory`.
    pub fn finish(self) -> Result<Vec<Block>, ReadStop>
        ensures again { (s : ReadStop) → self.stop ≡ Some s → result ≡ Err s }
        ensures sentence { IfOk result (λ blocks. IsSentence self.taken blocks.items) }
        ensures no_fault { OnOk result (first_fault self.taken ≡ None) }
        ensures stop { IfErr result (λ s. s ≢ ReadStop.NoMemory → first_stop self.taken ≡ Some s) }
        ensures no_memory { IfErr result (λ s. s ≡ ReadStop.NoMemory → self.stop ≡ Some s) }
    {
        let Reader {
            alloc: _,
            blocks,
            pending,
            state,
            place,
            stop,
        } = self;
        if let Some(stop) = stop {
            return Err(stop);
        }
        match judge_end(&state, place, pending.as_slice()) {
            Some(fault) => Err(ReadStop::Fault(fault)),
            None => Ok(blocks),
        }
    }
}
