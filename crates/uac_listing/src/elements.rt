// Printing the elements of a host's mixer.
ghost use Rattle.std.specs.Prelude.{◌≡◌, ◌≤◌, length};
ghost use Rattle.uac_edges.specs.Faults.{HasCause};
ghost use Rattle.uac_edges.specs.Writing.{Writes};
ghost use Rattle.uac_listing.specs.ElementLines.{access_text, element_line, element_lines};

use uac_edges::{Failed, Sink, TextLine, give_all};
use uac_mixer::Element;

/// Writes a line for each element.
pub fn write_elements<K: Sink>(sink: &mut K, elements: &[Element]) -> Result<(), Failed>
    ensures written { Writes (K.written sink.old) (K.written sink.new) result (element_lines elements.now) }
    ensures cause { HasCause (K.faults sink.old) (K.faults sink.new) result }
{
    for element in elements {
        give_all(sink, element_line(element).as_bytes())?;
    }
    Ok(())
}

/// An element's line.
#[tactic(auto, unfolding(crate::specs::ElementLines::element_line))]
fn element_line(element: &Element) -> TextLine<64>
    ensures { result ≡ element_line element.now }
{
    let name = element.name();
    let mut line = TextLine::new();
    line.push(name.as_bytes());
    line.push(access_text(element.writable));
    line.push_signed(element.value.unwrap_or(0));
    line.push(b"\n");
    line
}

/// The word that tells whether a host may set an element.
fn access_text(writable: bool) -> &'static [u8]
    ensures text { result.now ≡ access_text writable }
    ensures short { length result.now ≤ 4 }
{
    if writable { b" rw " } else { b" ro " }
}
