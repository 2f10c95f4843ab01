// Which packets are lost.
ghost use Rattle.std.specs.Prelude.{◌≡◌, map};
ghost use Rattle.std.specs.List.{list_all};
ghost use Rattle.uac_script.specs.Line.{phrase_mark};
ghost use Rattle.uac_implicit.specs.PairLines as spec;

use uac_script::{Mark, MarkKind, loses_in, loses_out};

/// The packets that are lost in a microframe: that to the device, and that from it.
#[derive(Clone, Copy, Debug, PartialEq, Eq)]
pub(crate) struct Losses {
    pub(crate) loses_out: bool,
    pub(crate) loses_in: bool,
}

/// Whether all marks are of a pair: `o1` and `i2` alone.
pub(crate) fn are_of_pair(marks: &[Mark]) -> bool
    ensures { result ≡ list_all spec.is_of_pair (map phrase_mark marks.now) }
{
    marks.iter().all(|mark| is_of_pair(*mark))
}

fn is_of_pair(mark: Mark) -> bool
    ensures { result ≡ spec.is_of_pair (phrase_mark mark) }
{
    match mark.kind {
        MarkKind::Out => mark.interface == 1,
        MarkKind::In => mark.interface == 2,
        MarkKind::Feedback => false,
    }
}

/// The packets that are lost in each microframe of a line with these marks, all of them of a pair.
pub(crate) fn losses_of(marks: &[Mark]) -> Losses
    ensures { result ≡ spec.losses_of (map phrase_mark marks.now) }
{
    Losses {
        loses_out: loses_out(marks, 1),
        loses_in: loses_in(marks, 2),
    }
}
