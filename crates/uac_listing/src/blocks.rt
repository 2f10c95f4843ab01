// Printing the blocks of a descriptor.
ghost use Rattle.std.specs.Prelude.{◌≡◌, ◌≤◌, ◌+◌, ◌++◌, length, flat_map, MatchResult, OnOk};
ghost use Rattle.uac_descriptor.specs.Spelling.{spelling};
ghost use Rattle.uac_edges.specs.Faults.{HasCause};
ghost use Rattle.uac_edges.specs.Writing.{AppendsFront, Writes};
ghost use Rattle.uac_listing.specs.BlockLines.{block_line, block_lines, block_name, line_of, BeginsWith, Gives};

use uac_descriptor::Block;
use uac_descriptor::laws::has_spelling;
use uac_edges::{Failed, Sink, TextLine, give_all};

/// No line of a block is longer.
const LINE: usize = 580;

/// Room for the lines that are given to a sink at once.
const ROOM: usize = 4096;

/// Writes a line for each block; the bytes are theirs, one after the other. The sink is given many lines at once.
pub fn write_blocks<K: Sink>(sink: &mut K, blocks: &[Block], bytes: &[u8]) -> Result<(), Failed>
    requires { bytes.now ≡ flat_map spelling blocks.now }
    ensures written { Writes (K.written sink.old) (K.written sink.new) result (block_lines 0 blocks.now) }
    ensures cause { HasCause (K.faults sink.old) (K.faults sink.new) result }
{
    let mut lines = TextLine::new();
    let mut place = 0;
    for block in blocks {
        make_room(sink, &mut lines)?;
        place += push_block(&mut lines, place, block, &bytes[place..]);
    }
    give_all(sink, lines.as_bytes())
}

/// Gives the lines to the sink where there is no room for one more.
fn make_room<K: Sink>(sink: &mut K, lines: &mut TextLine<ROOM>) -> Result<(), Failed>
    ensures given { MatchResult result (λ _. Gives (K.written sink.old) (K.written sink.new) lines.old lines.new)
        (λ _. AppendsFront (K.written sink.old) (K.written sink.new) lines.old) }
    ensures room { OnOk result (length lines.new + LINE ≤ ROOM) }
    ensures cause { HasCause (K.faults sink.old) (K.faults sink.new) result }
{
    if lines.as_bytes().len() <= ROOM - LINE {
        return Ok(());
    }
    give_all(sink, lines.as_bytes())?;
    *lines = TextLine::new();
    Ok(())
}

/// Appends the line of a block at a place, where its bytes are in front; answers how many they are.
fn push_block(lines: &mut TextLine<ROOM>, place: usize, block: &Block, rest: &[u8]) -> usize
    requires begins { BeginsWith rest.now (spelling block.now) }
    requires room { length lines.old + LINE ≤ ROOM }
    ensures text { lines.new ≡ lines.old ++ block_line place block.now }
    ensures size { result ≡ length (spelling block.now) }
{
    let bytes = front(block, rest);
    push_line(lines, place, block, bytes);
    bytes.len()
}

/// The block's bytes, in front of these.
fn front<'a>(block: &Block, rest: &'a [u8]) -> &'a [u8]
    requires { BeginsWith rest.now (spelling block.now) }
    ensures bytes { result.now ≡ spelling block.now }
    ensures short { length result.now ≤ 255 }
{
    has_spelling(block);
    &rest[..usize::from(rest[0])]
}

/// Appends the line for a block at a place: its kind, and its bytes in hexadecimal.
fn push_line(lines: &mut TextLine<ROOM>, place: usize, block: &Block, bytes: &[u8])
    requires few { length bytes.now ≤ 255 }
    requires room { length lines.old + LINE ≤ ROOM }
    ensures { lines.new ≡ lines.old ++ line_of place (block_name block.now) bytes.now }
{
    lines.push_number(place as u64);
    lines.push(b" ");
    lines.push(block_name(block));
    lines.push(b" ");
    lines.push_hex(bytes);
    lines.push(b"\n");
}

/// A block's kind.
fn block_name(block: &Block) -> &'static [u8]
    ensures kind { result.now ≡ block_name block.now }
    ensures short { length result.now ≤ 16 }
{
    match block {
        Block::Configuration(_) => b"configuration",
        Block::Association(_) => b"association",
        Block::Interface(_) => b"interface",
        Block::Endpoint(_) => b"endpoint",
        Block::Header(_) => b"header",
        Block::InputTerminal(_) => b"input_terminal",
        Block::OutputTerminal(_) => b"output_terminal",
        Block::Mixer(_) => b"mixer",
        Block::Selector(_) => b"selector",
        Block::Feature(_) => b"feature",
        Block::Effect(_) => b"effect",
        Block::ClockSource(_) => b"clock_source",
        Block::ClockSelector(_) => b"clock_selector",
        Block::ClockMultiplier(_) => b"clock_multiplier",
        Block::General(_) => b"general",
        Block::TypeOne(_) => b"type_one",
        Block::Extra(_) => b"extra",
        Block::ClassEndpoint(_) => b"class_endpoint",
        Block::Foreign(_) => b"foreign",
    }
}
