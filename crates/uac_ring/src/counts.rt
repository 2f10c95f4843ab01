// Counts of what streams met. Each stands still at the greatest number of 64 bits.
ghost use Rattle.std.specs.Prelude.{◌≡◌, if◌then◌else◌};
ghost use Rattle.uac_ring.specs.Meeting as spec;

use crate::arrival::Arrival;

/// What the streams of an interface met since the start: rings found empty and full, packets lost, reports missed. Each count
/// stands still at 18446744073709551615.
#[derive(Clone, Copy, Debug, PartialEq, Eq)]
pub struct StreamCounts {
    pub under: u64,
    pub over: u64,
    pub lost: u64,
    pub missed: u64,
}

/// Streams that met nothing.
pub fn nothing_met() -> StreamCounts
    ensures { result ≡ spec.nothing_met }
{
    StreamCounts {
        under: 0,
        over: 0,
        lost: 0,
        missed: 0,
    }
}

/// A packet arrived so.
pub fn after_arrival(arrival: Arrival, counts: StreamCounts) -> StreamCounts
    ensures { result ≡ spec.after_arrival arrival counts }
{
    match arrival {
        Arrival::Taken => counts,
        Arrival::Lost => one_lost(true, counts),
        Arrival::Over => one_over(true, counts),
    }
}

/// A packet was lost, or wasn't.
pub fn one_lost(lost: bool, counts: StreamCounts) -> StreamCounts
    ensures { result ≡ (if lost then spec.one_lost counts else counts) }
{
    if lost {
        StreamCounts {
            lost: counts.lost.saturating_add(1),
            ..counts
        }
    } else {
        counts
    }
}

/// A ring had no room, or had.
pub fn one_over(over: bool, counts: StreamCounts) -> StreamCounts
    ensures { result ≡ (if over then spec.one_over counts else counts) }
{
    if over {
        StreamCounts {
            over: counts.over.saturating_add(1),
            ..counts
        }
    } else {
        counts
    }
}

/// A primed ring was found empty, or wasn't.
pub fn one_under(under: bool, counts: StreamCounts) -> StreamCounts
    ensures { result ≡ (if under then spec.one_under counts else counts) }
{
    if under {
        StreamCounts {
            under: counts.under.saturating_add(1),
            ..counts
        }
    } else {
        counts
    }
}

/// A report was lost, or wasn't.
pub fn one_missed(missed: bool, counts: StreamCounts) -> StreamCounts
    ensures { result ≡ (if missed then spec.one_missed counts else counts) }
{
    if missed {
        StreamCounts {
            missed: counts.missed.saturating_add(1),
            ..counts
        }
    } else {
        counts
    }
}
