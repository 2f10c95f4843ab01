// The line of a sound descriptor, from a buffer of fixed size.
ghost use Rattle.std.specs.Prelude.{◌≡◌};
ghost use Rattle.uac_listing.specs.declared.description.Description.TheVariants.{Check};
ghost use Rattle.uac_listing.specs.Outcome.{listing_of};

use uac_descriptor::Block;
use uac_edges::TextLine;
use uac_topology::Function;

/// `check`'s line for a sound descriptor.
pub fn sound_line(blocks: &[Block], function: &Function) -> TextLine<160>
    ensures { result ≡ listing_of Check blocks.now function.now }
{
    let mut line = TextLine::new();
    line.push(b"ok blocks ");
    line.push_number(blocks.len() as u64);
    line.push(b" entities ");
    line.push_number(function.entities().len() as u64);
    line.push(b" streams ");
    line.push_number(function.streams().len() as u64);
    line.push(b" domains ");
    line.push_number(function.domains().len() as u64);
    line.push(b"\n");
    line
}
