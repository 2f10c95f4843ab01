// Words of several lines.
ghost use Rattle.std.specs.Prelude.{◌≡◌, ◌+◌, ◌≤◌, ◌++◌, length};
ghost use Rattle.uac_transcript.specs.Transcript.{lost_or_ok, number_or_dash, with_stream, yes_or_no};

use uac_edges::TextLine;
use uac_ring::StreamCounts;

pub(crate) fn yes_or_no(answer: bool) -> &'static [u8]
    ensures text { result.now ≡ yes_or_no answer }
    ensures short { length result.now ≤ 3 }
{
    if answer { b"yes" } else { b"no" }
}

/// Appends whether a packet or a report was lost.
pub fn push_lost_or_ok<const N: usize>(text: &mut TextLine<N>, lost: bool)
    requires { length text.old + 4 ≤ N }
    ensures text { text.new ≡ text.old ++ lost_or_ok lost }
    ensures len { length text.new ≤ length text.old + 4 }
{
    if lost {
        text.push(b"lost");
    } else {
        text.push(b"ok");
    }
}

/// Appends a number, or a dash where there is none.
pub fn push_number_or_dash<const N: usize>(text: &mut TextLine<N>, number: Option<u32>)
    requires { length text.old + 20 ≤ N }
    ensures text { text.new ≡ text.old ++ number_or_dash number }
    ensures len { length text.new ≤ length text.old + 20 }
{
    match number {
        Some(number) => text.push_number(u64::from(number)),
        None => text.push_byte(b'-'),
    }
}

/// Appends the level and the target of a stream, and what the stream met, but for its reports.
pub fn push_stream<const N: usize>(
    text: &mut TextLine<N>,
    level: u32,
    target: Option<u32>,
    met: StreamCounts,
)
    requires { length text.old + 134 ≤ N }
    ensures text { text.new ≡ with_stream text.old level target met }
    ensures len { length text.new ≤ length text.old + 134 }
{
    text.push(b" level ");
    text.push_number(u64::from(level));
    text.push(b" target ");
    push_number_or_dash(text, target);
    text.push(b" under ");
    text.push_number(met.under);
    text.push(b" over ");
    text.push_number(met.over);
    text.push(b" lost ");
    text.push_number(met.lost);
}
