// The headset of the examples: a track of one frame to its speaker, over sources and sinks that fail, and that memory is found.
ghost use Rattle.std.specs.Prelude.{◌<◌};

use super::*;

/// The headset's descriptor, a track of one frame, 43 microframes in which the stream is primed, one whose frames are printed, and a report.
const SCRIPT: &[u8] =
    b"d 12010002ef02014034127856000101020001090213010401008032080b00030100200009040000000101200009240100
d 02046b000008240a010307000011240202010100010203000000000000001224060302030000000c0000000c00000000
d 0c240304020300030100000011240205010200010100000000000000000e24060605030000000c000000000c24030701
d 010006010000000904010000010220000904010102010220001024010205010100000002030000000006240201031807
d 050105960001082501000000000007058111040004090402000001022000090402010101022000102401070501010000
d 000100000000000624020102100705820532000108250100000000000904030001030000000921110100012219000705
d 830304000a
g
a 1 256 -256
c 010b010001000000
m 43
v 1
m 1
q
";

/// What it prints, and after how many bytes of the script: at the ends of `g`, `c`, the second `m` and `q`.
const PRINTED: [(usize, &[u8]); 4] = [
    (609, b"ready entities 7 streams 2 domains 1\n"),
    (641, b"c done\n"),
    (
        654,
        b"p 4 256 -256\np 4 0 0\np 4 0 0\np 4 0 0\np 4 0 0\np 4 0 0\n",
    ),
    (
        656,
        b"time 44
steady yes
domain 1 rate 48000 ticks 264
stream 1 out setting 1 level 258 target 258 under 0 over 0 lost 0 missed 0
stream 2 in setting 0 level 0 over 0 lost 0
meter peak 256
meter clipped 0
meter sum 512
renders 528
",
    ),
];

/// What is printed after so many bytes of the script.
fn printed_after(alloc: Global, taken: usize) -> Result<Vec<u8>, AllocError> {
    let mut text = Vec::new(alloc);
    for (end, lines) in PRINTED {
        if end <= taken {
            text.extend_from_slice(lines)?;
        }
    }
    Ok(text)
}

/// A sink of 512 bytes, which takes so many in a call and fails at one call.
fn sink_that_fails(alloc: Global, cut: usize, call: u32) -> Result<MemorySink, AllocError>
    requires { 0 < cut }
{
    let failing = numbers(alloc, &[call])?;
    match MemorySink::new(alloc, cut, 512, failing) {
        Ok(sink) => Ok(sink),
        Err(NoMemory) => Err(AllocError),
    }
}

/// `run` of the script, of which 16 bytes come in a call and the source fails at this one, ends with this status, and writes what the
/// lines that came before print, and then this line.
fn expect_source(
    rt: &impl Abort,
    alloc: Global,
    call: u32,
    last: &[u8],
    status: Status,
) -> Result<(), AllocError> {
    let mut source = source_of(alloc, SCRIPT, 16, &[call])?;
    let mut sink = sink_that_fails(alloc, 64, 0)?;
    let got = end_of(alloc, &["run"], &mut source, &mut sink);
    let mut text = printed_after(alloc, 16 * (call.min(100) as usize).saturating_sub(1))?;
    text.extend_from_slice(last)?;
    judge(rt, got, &sink, text.as_slice(), status)
}

/// The script has 656 bytes, which come in 41 calls; the next call says that it ends, and there is none after that.
#[test]
fn source_of_16_bytes_a_call_fails_at_each_call(rt: HostRuntime) -> Result<(), Fail> {
    for call in 1..43u32 {
        expect_source(&rt, rt.alloc(), call, b"read fault\n", Status::ReadFault)?;
    }
    expect_source(&rt, rt.alloc(), 43, b"", Status::Ok)?;
    Ok(())
}

/// How much was written of the whole text by a run whose sink failed; none where no write failed, and then it is the whole text.
fn written_of(
    rt: &impl Abort,
    got: Result<Status, AllocError>,
    sink: &MemorySink,
    text: &[u8],
) -> Result<Option<usize>, AllocError> {
    let written = sink.bytes_written();
    let status = got?;
    if status == Status::Ok {
        assert_eq!(rt; written, text);
        return Ok(None);
    }
    assert_eq!(rt; status, Status::WriteFault);
    assert_eq!(rt; Some(written), text.get(..written.len()));
    Ok(Some(written.len()))
}

/// `run` of the script, whose sink takes 7 bytes in a call and fails at this one.
fn run_with_failing_sink(
    rt: &impl Abort,
    alloc: Global,
    call: u32,
) -> Result<Option<usize>, AllocError> {
    let mut source = source_of(alloc, SCRIPT, 16, &[])?;
    let mut sink = sink_that_fails(alloc, 7, call)?;
    let got = end_of(alloc, &["run"], &mut source, &mut sink);
    let text = printed_after(alloc, SCRIPT.len())?;
    written_of(rt, got, &sink, text.as_slice())
}

/// Whether a run writes more, the later its failing write is, up to the first run in which no write fails.
fn sink_fails_later_and_later(rt: &impl Abort, alloc: Global) -> Result<bool, AllocError> {
    let mut least = 0;
    for call in 1..101u32 {
        match run_with_failing_sink(rt, alloc, call)? {
            Some(written) if written < least => return Ok(false),
            Some(written) => least = written.saturating_add(1),
            None => return Ok(call > 40),
        }
    }
    Ok(false)
}

#[test]
fn sink_of_7_bytes_a_call_fails_at_each_call(rt: HostRuntime) -> Result<(), Fail> {
    assert!(rt; sink_fails_later_and_later(&rt, rt.alloc())?);
    Ok(())
}

/// A program that always gives up with `no memory` is refused by this test; no contract says that memory is there.
#[test]
fn memory_that_is_there_is_found(rt: HostRuntime) -> Result<(), Fail> {
    let alloc = rt.alloc();
    let played = printed_after(alloc, SCRIPT.len())?;
    for (command, input, text) in [
        (
            "check",
            CLOCKED.as_slice(),
            b"ok blocks 5 entities 1 streams 0 domains 0\n".as_slice(),
        ),
        (
            "elements",
            CLOCKED.as_slice(),
            b"rate.1.0 rw 48000\n".as_slice(),
        ),
        ("run", SCRIPT, played.as_slice()),
    ] {
        let mut source = source_of(alloc, input, 64, &[])?;
        let mut sink = sink_that_fails(alloc, 64, 0)?;
        let got = end_of(alloc, &[command], &mut source, &mut sink);
        judge(&rt, got, &sink, text, Status::Ok)?;
    }
    Ok(())
}
