// Parsing a descriptor from a source, to its end or to its first fault.
ghost use Rattle.std.specs.Prelude.{◌≡◌, ◌≢◌, ◌≤◌, None};
ghost use Rattle.uac_listing.specs.SourceParsing.{Reads, Finishes};

use std::alloc::Global;
use uac_descriptor::Block;
use uac_edges::{Failed, Source};
use uac_grammar::{ReadStop, Reader};

/// What came of parsing a descriptor.
#[derive(Drop)]
pub enum SourceEnd {
    /// The input ended, and is these blocks.
    Whole(Vec<Block>),
    /// The descriptor is refused, or there was no memory for it.
    Stopped(ReadStop),
    /// A read failed before anything was refused.
    Failed,
}

/// Reads a descriptor: to the end of the input, a failed read, or the first fault that the bytes show. Unless it answers `Failed`, no read
/// met a fault.
pub fn read_descriptor<S: Source>(alloc: Global, source: &mut S) -> SourceEnd
    ensures reads { Reads (S.left source.old) (S.left source.new) (S.faults source.old) (S.faults source.new) result }
    ensures faultless { result ≢ SourceEnd.Failed → S.faults source.new ≡ S.faults source.old }
    ensures never_falls { S.faults source.old ≤ S.faults source.new }
{
    let mut reader = Reader::new(alloc);
    let mut piece = [0; 4096];
    loop {
        match source.take(&mut piece) {
            Ok(0) => return end_of_descriptor(reader),
            Ok(count) => match reader.feed(&piece[..count]) {
                Ok(()) => {}
                Err(stop) => return SourceEnd::Stopped(stop),
            },
            Err(Failed) => return SourceEnd::Failed,
        }
    }
}

/// What the bytes come to, now that there are no more.
fn end_of_descriptor(reader: Reader) -> SourceEnd
    requires { reader.stop ≡ None }
    ensures { Finishes reader.taken result }
{
    match reader.finish() {
        Ok(blocks) => SourceEnd::Whole(blocks),
        Err(stop) => SourceEnd::Stopped(stop),
    }
}
