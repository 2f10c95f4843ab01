// The real edges: any reader as a source, and any writer as a sink.
ghost use Rattle.std.specs.Prelude.{◌≡◌, ◌≢◌, ◌<◌, ◌≤◌, length, true, false, IfErr, IfOk, OnOk, OnErr, IsErr};
ghost use Rattle.std.specs.IoError.{error_kind};
ghost use Rattle.std.specs.Io.KnownBytes.{Keeps, ReadConsumes, WriteAppends};
ghost use Rattle.uac_edges.specs.Faults.{HasCause, Rose};
ghost use Rattle.uac_edges.specs.Memory.{raised_count};
ghost use Rattle.uac_edges.specs.StdEdges.{without_last};

use crate::edges::{Failed, Sink, Source};
use std::io::{Error, ErrorKind, Read, Write};

/// A reader as a source. It tells the bytes that the reader has left, where the reader tells them.
/// A read that was interrupted is tried again, and is no fault.
#[derive(Drop)]
pub struct StdSource<R: Read + Drop> {
    input: R,
    faults: u64,
}

impl<R: Read + Drop> StdSource<R> {
    /// A source of what the reader gives.
    pub fn new(input: R) -> StdSource<R>
        ensures { result ≡ record { input = input; faults = 0 } }
    {
        StdSource { input, faults: 0 }
    }
}

impl<R: Read + Drop> Source for StdSource<R> {
    ghost left = { λ s. R.remaining s.input };

    ghost faults = { λ s. s.faults };

    /// Takes what one read gives. It fails exactly where that read does, and counts one fault then.
    fn take(&mut self, into: &mut [u8]) -> Result<usize, Failed>
        requires { 0 < length into.old }
        ensures fits { IfOk result (λ n. n ≤ length into.new) }
        ensures bytes { ReadConsumes (R.remaining self.old.input) (R.remaining self.new.input) result into.new }
        ensures cause { HasCause self.old.faults self.new.faults result }
        ensures counted { OnErr result (self.new.faults ≡ raised_count self.old.faults) }
    {
        read_some(&mut self.input, &mut self.faults, into)
    }
}

/// A writer as a sink, flushed after each write. It tells the bytes that were written and flushed,
/// where the writer tells what it holds. A call that was interrupted is tried again, and is no
/// fault; a write that takes nothing, and a flush that fails, is one. A sink whose flush failed
/// fails from then on, and writes no more.
#[derive(Drop)]
pub struct StdSink<W: Write + Drop> {
    output: W,
    // The bytes of a write whose flush failed.
    unflushed: usize,
    faults: u64,
}

impl<W: Write + Drop> StdSink<W> {
    /// A sink that appends to the writer.
    pub fn new(output: W) -> StdSink<W>
        ensures { result ≡ record { output = output; unflushed = 0; faults = 0 } }
    {
        StdSink {
            output,
            unflushed: 0,
            faults: 0,
        }
    }

    // Writes from the front of `piece`, and flushes.
    #[tactic(auto, using(crate::proofs::StdEdgesLemmas::keeping))]
    fn write(&mut self, piece: &[u8]) -> Result<usize, Failed>
        requires { 0 < length piece.now }
        ensures some { IfOk result (λ n. 0 < n) }
        ensures fits { IfOk result (λ n. n ≤ length piece.now) }
        ensures bytes { WriteAppends (without_last self.old.unflushed (W.contents self.old.output))
            (without_last self.new.unflushed (W.contents self.new.output)) result piece.now }
        ensures cause { HasCause self.old.faults self.new.faults result }
        ensures counted { OnErr result (self.new.faults ≡ raised_count self.old.faults) }
        ensures stuck { 0 < self.old.unflushed
            → IsErr result × (self.new.output ≡ self.old.output) × (self.new.unflushed ≡ self.old.unflushed) }
    {
        if self.unflushed > 0 {
            self.faults = self.faults.saturating_add(1);
            return Err(Failed);
        }
        let count = write_some(&mut self.output, &mut self.faults, piece)?;
        self.unflushed = count;
        flush(&mut self.output, &mut self.unflushed, &mut self.faults)?;
        Ok(count)
    }
}

impl<W: Write + Drop> Sink for StdSink<W> {
    ghost written = { λ s. without_last s.unflushed (W.contents s.output) };

    ghost waiting = { λ _. 0 };

    ghost faults = { λ s. s.faults };

    /// Appends what one write takes. It fails exactly where that write or its flush does, and from
    /// such a flush on, and counts one fault then.
    fn give(&mut self, piece: &[u8]) -> Result<usize, Failed>
        requires { 0 < length piece.now }
        ensures some { IfOk result (λ n. 0 < n) }
        ensures fits { IfOk result (λ n. n ≤ length piece.now) }
        ensures bytes { WriteAppends (without_last self.old.unflushed (W.contents self.old.output))
            (without_last self.new.unflushed (W.contents self.new.output)) result piece.now }
        ensures cause { HasCause self.old.faults self.new.faults result }
        ensures counted { OnErr result (self.new.faults ≡ raised_count self.old.faults) }
        ensures stuck { 0 < self.old.unflushed
            → IsErr result × (self.new.output ≡ self.old.output) × (self.new.unflushed ≡ self.old.unflushed) }
    {
        self.write(piece)
    }

    /// Does nothing, since each write was flushed and nothing waits.
    #[tactic(auto, using(crate::proofs::StdEdgesLemmas::keeping))]
    fn flush(&mut self) -> Result<(), Failed>
        ensures ok { result ≡ Ok tt }
        ensures same { self.new ≡ self.old }
        ensures kept { Keeps (without_last self.old.unflushed (W.contents self.old.output))
            (without_last self.new.unflushed (W.contents self.new.output)) }
        ensures cause { HasCause self.old.faults self.new.faults result }
    {
        Ok(())
    }
}

// Whether a call was interrupted.
fn is_interrupted(error: &Error) -> bool
    ensures yes { result ≡ true → error_kind error.now ≡ ErrorKind.Interrupted }
    ensures no { result ≡ false → error_kind error.now ≢ ErrorKind.Interrupted }
{
    error.kind() == ErrorKind::Interrupted
}

// One read. A failure is counted, unless the read was interrupted.
#[tactic(auto, using(crate::proofs::StdEdgesLemmas::keeping))]
fn read_once<R: Read>(input: &mut R, faults: &mut u64, into: &mut [u8]) -> Result<usize, Error>
    ensures fits { IfOk result (λ n. n ≤ length into.new) }
    ensures bytes { ReadConsumes (R.remaining input.old) (R.remaining input.new) result into.new }
    ensures ok { OnOk result (faults.new ≡ faults.old) }
    ensures interrupted { IfErr result (λ e. error_kind e ≡ ErrorKind.Interrupted → faults.new ≡ faults.old) }
    ensures failed { IfErr result (λ e. error_kind e ≢ ErrorKind.Interrupted → faults.new ≡ raised_count faults.old) }
    ensures rose { IfErr result (λ e. error_kind e ≢ ErrorKind.Interrupted → Rose faults.old faults.new) }
    ensures never_falls { faults.old ≤ faults.new }
{
    match input.read(into) {
        Ok(read) => Ok(read),
        Err(error) => {
            if !is_interrupted(&error) {
                *faults = faults.saturating_add(1);
            }
            Err(error)
        }
    }
}

// One read, as often as it is interrupted.
#[tactic(auto, using(crate::proofs::StdEdgesLemmas::keeping))]
fn read_some<R: Read>(input: &mut R, faults: &mut u64, into: &mut [u8]) -> Result<usize, Failed>
    ensures fits { IfOk result (λ n. n ≤ length into.new) }
    ensures bytes { ReadConsumes (R.remaining input.old) (R.remaining input.new) result into.new }
    ensures cause { HasCause faults.old faults.new result }
    ensures counted { OnErr result (faults.new ≡ raised_count faults.old) }
{
    for _ in 0..u64::MAX {
        match read_once(input, faults, into) {
            Ok(read) => return Ok(read),
            Err(error) => {
                if !is_interrupted(&error) {
                    return Err(Failed);
                }
            }
        }
    }
    *faults = faults.saturating_add(1);
    Err(Failed)
}

// One write. A failure is counted, unless the write was interrupted.
#[tactic(auto, using(crate::proofs::StdEdgesLemmas::keeping))]
fn write_once<W: Write>(output: &mut W, faults: &mut u64, piece: &[u8]) -> Result<usize, Error>
    ensures fits { IfOk result (λ n. n ≤ length piece.now) }
    ensures bytes { WriteAppends (W.contents output.old) (W.contents output.new) result piece.now }
    ensures ok { OnOk result (faults.new ≡ faults.old) }
    ensures interrupted { IfErr result (λ e. error_kind e ≡ ErrorKind.Interrupted → faults.new ≡ faults.old) }
    ensures failed { IfErr result (λ e. error_kind e ≢ ErrorKind.Interrupted → faults.new ≡ raised_count faults.old) }
    ensures rose { IfErr result (λ e. error_kind e ≢ ErrorKind.Interrupted → Rose faults.old faults.new) }
    ensures never_falls { faults.old ≤ faults.new }
{
    match output.write(piece) {
        Ok(written) => Ok(written),
        Err(error) => {
            if !is_interrupted(&error) {
                *faults = faults.saturating_add(1);
            }
            Err(error)
        }
    }
}

// One write, as often as it is interrupted. It fails where it takes nothing.
#[tactic(auto, using(crate::proofs::StdEdgesLemmas::keeping))]
fn write_some<W: Write>(output: &mut W, faults: &mut u64, piece: &[u8]) -> Result<usize, Failed>
    requires { 0 < length piece.now }
    ensures some { IfOk result (λ n. 0 < n) }
    ensures fits { IfOk result (λ n. n ≤ length piece.now) }
    ensures bytes { WriteAppends (W.contents output.old) (W.contents output.new) result piece.now }
    ensures cause { HasCause faults.old faults.new result }
    ensures counted { OnErr result (faults.new ≡ raised_count faults.old) }
{
    for _ in 0..u64::MAX {
        match write_once(output, faults, piece) {
            Ok(0) => {
                *faults = faults.saturating_add(1);
                return Err(Failed);
            }
            Ok(written) => return Ok(written),
            Err(error) => {
                if !is_interrupted(&error) {
                    return Err(Failed);
                }
            }
        }
    }
    *faults = faults.saturating_add(1);
    Err(Failed)
}

// One flush. A failure is counted, unless the flush was interrupted.
#[tactic(auto, using(crate::proofs::StdEdgesLemmas::keeping))]
fn flush_once<W: Write>(
    output: &mut W,
    unflushed: &mut usize,
    faults: &mut u64,
) -> Result<(), Error>
    ensures kept { Keeps (W.contents output.old) (W.contents output.new) }
    ensures done { OnOk result (unflushed.new ≡ 0) }
    ensures held { OnErr result (unflushed.new ≡ unflushed.old) }
    ensures ok { OnOk result (faults.new ≡ faults.old) }
    ensures interrupted { IfErr result (λ e. error_kind e ≡ ErrorKind.Interrupted → faults.new ≡ faults.old) }
    ensures failed { IfErr result (λ e. error_kind e ≢ ErrorKind.Interrupted → faults.new ≡ raised_count faults.old) }
    ensures rose { IfErr result (λ e. error_kind e ≢ ErrorKind.Interrupted → Rose faults.old faults.new) }
    ensures never_falls { faults.old ≤ faults.new }
{
    match output.flush() {
        Ok(()) => {
            *unflushed = 0;
            Ok(())
        }
        Err(error) => {
            if !is_interrupted(&error) {
                *faults = faults.saturating_add(1);
            }
            Err(error)
        }
    }
}

// One flush, as often as it is interrupted.
#[tactic(auto, using(crate::proofs::StdEdgesLemmas::keeping))]
fn flush<W: Write>(output: &mut W, unflushed: &mut usize, faults: &mut u64) -> Result<(), Failed>
    ensures kept { Keeps (W.contents output.old) (W.contents output.new) }
    ensures done { OnOk result (unflushed.new ≡ 0) }
    ensures held { OnErr result (unflushed.new ≡ unflushed.old) }
    ensures cause { HasCause faults.old faults.new result }
    ensures counted { OnErr result (faults.new ≡ raised_count faults.old) }
{
    for _ in 0..u64::MAX {
        match flush_once(output, unflushed, faults) {
            Ok(()) => return Ok(()),
            Err(error) => {
                if !is_interrupted(&error) {
                    return Err(Failed);
                }
            }
        }
    }
    *faults = faults.saturating_add(1);
    Err(Failed)
}
