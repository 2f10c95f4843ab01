// Which packets and feedback reports are lost.
ghost use Rattle.std.specs.Prelude.{◌≡◌, map};
ghost use Rattle.uac_script.specs.Line.{phrase_mark};
ghost use Rattle.uac_script.specs.Losses as spec;

use crate::line::{Mark, MarkKind};

/// Whether the packet to the device of an interface is lost.
pub fn loses_out(marks: &[Mark], interface: u8) -> bool
    ensures { result ≡ spec.loses_out (map phrase_mark marks.now) interface }
{
    marks
        .iter()
        .any(|mark| is_out(mark.kind) && mark.interface == interface)
}

/// Whether the packet from the device of an interface is lost.
pub fn loses_in(marks: &[Mark], interface: u8) -> bool
    ensures { result ≡ spec.loses_in (map phrase_mark marks.now) interface }
{
    marks
        .iter()
        .any(|mark| is_in(mark.kind) && mark.interface == interface)
}

/// Whether the feedback report of an interface is lost.
pub fn loses_feedback(marks: &[Mark], interface: u8) -> bool
    ensures { result ≡ spec.loses_feedback (map phrase_mark marks.now) interface }
{
    marks.iter().any(|mark| is_feedback(mark.kind) && mark.interface == interface)
}

fn is_out(kind: MarkKind) -> bool
    ensures { result ≡ spec.marks_out kind }
{
    match kind {
        MarkKind::Out => true,
        MarkKind::In => false,
        MarkKind::Feedback => false,
    }
}

fn is_in(kind: MarkKind) -> bool
    ensures { result ≡ spec.marks_in kind }
{
    match kind {
        MarkKind::Out => false,
        MarkKind::In => true,
        MarkKind::Feedback => false,
    }
}

fn is_feedback(kind: MarkKind) -> bool
    ensures { result ≡ spec.marks_feedback kind }
{
    match kind {
        MarkKind::Out => false,
        MarkKind::In => false,
        MarkKind::Feedback => true,
    }
}
