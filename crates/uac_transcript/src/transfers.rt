// The lines of control transfers.
ghost use Rattle.hex.specs.Hex.{encode_lower};
ghost use Rattle.std.specs.Prelude.{◌≡◌, ◌≤◌, length};
ghost use Rattle.uac_edges.specs.Faults.{HasCause};
ghost use Rattle.uac_edges.specs.Writing.{Writes};
ghost use Rattle.uac_transcript.specs.Transcript.{broke, gave, hex_or_dash, says_answer, spelling_of, transfer_was_stalled, was_done};

use uac_edges::{Failed, Sink, TextLine, give_all};

/// How many bytes are written in one piece.
const PIECE: usize = 255;

/// Prints the bytes that a transfer gave, a dash where there are none.
pub fn write_given<K: Sink>(sink: &mut K, bytes: &[u8]) -> Result<(), Failed>
    ensures written { Writes (K.written sink.old) (K.written sink.new) result (spelling_of (says_answer (gave bytes.now))) }
    ensures cause { HasCause (K.faults sink.old) (K.faults sink.new) result }
{
    give_all(sink, b"c bytes ")?;
    write_hex_or_dash(sink, bytes)?;
    give_all(sink, b"\n")
}

/// Writes bytes in hexadecimal digits, or a dash where there are none.
fn write_hex_or_dash<K: Sink>(sink: &mut K, bytes: &[u8]) -> Result<(), Failed>
    ensures written { Writes (K.written sink.old) (K.written sink.new) result (hex_or_dash bytes.now) }
    ensures cause { HasCause (K.faults sink.old) (K.faults sink.new) result }
{
    if bytes.is_empty() {
        give_all(sink, b"-")
    } else {
        write_hex(sink, bytes)
    }
}

/// Writes bytes in hexadecimal digits, piece by piece: a descriptor has up to 65,535 bytes.
fn write_hex<K: Sink>(sink: &mut K, bytes: &[u8]) -> Result<(), Failed>
    ensures written { Writes (K.written sink.old) (K.written sink.new) result (encode_lower bytes.now) }
    ensures cause { HasCause (K.faults sink.old) (K.faults sink.new) result }
{
    let mut rest = bytes;
    while !rest.is_empty() {
        let size = rest.len().min(PIECE);
        write_piece(sink, &rest[..size])?;
        rest = &rest[size..];
    }
    Ok(())
}

/// Writes at most 255 bytes in hexadecimal digits.
fn write_piece<K: Sink>(sink: &mut K, bytes: &[u8]) -> Result<(), Failed>
    requires { length bytes.now ≤ 255 }
    ensures written { Writes (K.written sink.old) (K.written sink.new) result (encode_lower bytes.now) }
    ensures cause { HasCause (K.faults sink.old) (K.faults sink.new) result }
{
    let mut text: TextLine<510> = TextLine::new();
    text.push_hex(bytes);
    give_all(sink, text.as_bytes())
}

/// Prints that a transfer was done.
#[tactic(auto, unfolding(crate::specs::Transcript::spelling_of))]
pub fn write_done<K: Sink>(sink: &mut K) -> Result<(), Failed>
    ensures written { Writes (K.written sink.old) (K.written sink.new) result (spelling_of (says_answer was_done)) }
    ensures cause { HasCause (K.faults sink.old) (K.faults sink.new) result }
{
    give_all(sink, b"c done\n")
}

/// Prints the rule by which a transfer was stalled.
pub fn write_stalled<K: Sink>(sink: &mut K, rule: u8) -> Result<(), Failed>
    ensures written { Writes (K.written sink.old) (K.written sink.new) result (spelling_of (says_answer (transfer_was_stalled rule))) }
    ensures cause { HasCause (K.faults sink.old) (K.faults sink.new) result }
{
    give_all(sink, stalled_text(rule).as_bytes())
}

#[tactic(auto, unfolding(crate::specs::Transcript::spelling_of))]
fn stalled_text(rule: u8) -> TextLine<64>
    ensures { result ≡ spelling_of (says_answer (transfer_was_stalled rule)) }
{
    let mut text = TextLine::new();
    text.push(b"c stall Q");
    text.push_number(u64::from(rule));
    text.push_byte(b'\n');
    text
}

/// Prints that a transfer broke.
#[tactic(auto, unfolding(crate::specs::Transcript::spelling_of))]
pub fn write_broken<K: Sink>(sink: &mut K) -> Result<(), Failed>
    ensures written { Writes (K.written sink.old) (K.written sink.new) result (spelling_of (says_answer broke)) }
    ensures cause { HasCause (K.faults sink.old) (K.faults sink.new) result }
{
    give_all(sink, b"c broken\n")
}
