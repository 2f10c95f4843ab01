// Each line as it is printed.
use arrayvec::ArrayVec;
use std::test::Fail;
use uac_descriptor::WordList;
use uac_edges::{Failed, MemorySink};
use uac_pcm::Frame;
use uac_ring::{Arrival, StreamCounts};
use uac_transcript::{
    write_broken, write_domain, write_done, write_feedback, write_frame, write_given, write_in,
    write_in_stream, write_level, write_meter, write_microframe, write_out, write_out_stream,
    write_over, write_played, write_ready, write_renders, write_set, write_set_stalled,
    write_stalled, write_steady, write_time, write_under, write_unknown, write_value,
    write_view_broken,
};
use uac_units::MeterKind;

const LINES: &[u8] = b"ready entities 7 streams 2 domains 1
u 18446744073709551615
o 1 6 ok
o 1 7 lost
o 1 5 over
i 2 6 ok
i 2 6 lost
r 2 -2147483648
p 4 65536 -1
under 1
over 2
l 1 128 -
l 1 130 128
f 1 00060000 ok
f 1 0005fffd lost
c bytes 0102ff
c bytes -
c done
c stall Q12
c broken
h volume.3.1 -32768
h mix.8.0 unknown
h done
h stall Q9
h broken
time 2
steady no
domain 1 rate 48000 ticks 12
stream 1 out setting 1 level 128 target 130 under 1 over 2 lost 3 missed 4
stream 2 in setting 0 level 0 over 2 lost 3
meter clipped 9
renders 24
";

// Writes one line of each kind, and of each word that a line may have.
fn write_lines(sink: &mut MemorySink) -> Result<(), Failed> {
    let mut mono: Frame = ArrayVec::new();
    mono.push(-2147483648);
    let mut stereo: Frame = ArrayVec::new();
    stereo.push(65536);
    stereo.push(-1);
    let met = StreamCounts {
        under: 1,
        over: 2,
        lost: 3,
        missed: 4,
    };
    write_ready(sink, 7, 2, 1)?;
    write_microframe(sink, 18446744073709551615)?;
    write_out(sink, 1, 6, Arrival::Taken)?;
    write_out(sink, 1, 7, Arrival::Lost)?;
    write_out(sink, 1, 5, Arrival::Over)?;
    write_in(sink, 2, 6, false)?;
    write_in(sink, 2, 6, true)?;
    write_frame(sink, 2, &mono)?;
    write_played(sink, 4, &stereo)?;
    write_under(sink, 1)?;
    write_over(sink, 2)?;
    write_level(sink, 1, 128, None)?;
    write_level(sink, 1, 130, Some(128))?;
    write_feedback(sink, 1, 393216, false)?;
    write_feedback(sink, 1, 393213, true)?;
    write_transfers(sink)?;
    write_time(sink, 2)?;
    write_steady(sink, false)?;
    write_domain(sink, 1, Some(48000), 12)?;
    write_out_stream(sink, 1, 1, 128, Some(130), met)?;
    write_in_stream(sink, 2, 0, 0, met)?;
    write_meter(sink, MeterKind::Clipped, 9)?;
    write_renders(sink, 24)
}

// Writes each line of a transfer, and of the host's view.
fn write_transfers(sink: &mut MemorySink) -> Result<(), Failed> {
    write_given(sink, &[1, 2, 255])?;
    write_given(sink, &[])?;
    write_done(sink)?;
    write_stalled(sink, 12)?;
    write_broken(sink)?;
    write_value(sink, b"volume.3.1", -32768)?;
    write_unknown(sink, b"mix.8.0")?;
    write_set(sink)?;
    write_set_stalled(sink, 9)?;
    write_view_broken(sink)
}

#[test]
fn lines_are_printed(rt: HostRuntime) -> Result<(), Fail> {
    let never = WordList::from_vec(vec![in rt.alloc()]?);
    let mut sink = MemorySink::new(rt.alloc(), 3, 4096, never)?;
    assert_eq!(rt; write_lines(&mut sink), Ok(()));
    assert_eq!(rt; sink.bytes_written(), LINES);
    Ok(())
}

/// A long answer is written in pieces: 600 bytes of 1.
#[test]
fn many_bytes_are_printed(rt: HostRuntime) -> Result<(), Fail> {
    let never = WordList::from_vec(vec![in rt.alloc()]?);
    let mut sink = MemorySink::new(rt.alloc(), 4096, 4096, never)?;
    assert_eq!(rt; write_given(&mut sink, &[1; 600]), Ok(()));
    let written = sink.bytes_written();
    assert_eq!(rt; written.len(), 8 + 1200 + 1);
    assert!(rt; written.ends_with(b"01\n"));
    Ok(())
}
