// The top call over sources and sinks in memory. Each row's text and status are those that the rules ask for.
ghost use Rattle.std.specs.Prelude.{◌≡◌, ◌<◌, IfOk};
ghost use Rattle.uac_units.specs.Fitting.{IsFitted};

use super::*;
use std::alloc::{AllocError, Global};
use std::cell::Cell;
use std::process::Abort;
use std::rc::Rc;
use std::test::Fail;
use uac_boxes::run_in_boxes;
use uac_bus::Bus;
use uac_descriptor::{ByteList, NoMemory, WordList};
use uac_edges::{MemorySink, MemorySource, Source, SteadySource};
use uac_pcm::Frame;
use uac_script::Line;
use uac_units::{
    Job, LaneEffect, LaneFeature, LaneMixer, LaneSelector, Meters, Pins, PlainEffect, PlainFeature,
    PlainMixer, PlainSelector, Rack, Steps, Unit, UnitKind,
};

/// The headset's track.
mod headset;

/// The least descriptor: 35 bytes, blocks at 0, 9, 17 and 26.
const MINIMAL: [u8; 35] = [
    9, 2, 35, 0, 1, 1, 0, 0x80, 0x32, 8, 11, 0, 1, 1, 0, 0x20, 0, 9, 4, 0, 0, 0, 1, 1, 0x20, 0, 9,
    0x24, 1, 0, 2, 4, 9, 0, 0,
];

/// The same with a clock source, whose frequency a host may set: 43 bytes.
const CLOCKED: [u8; 43] = [
    9, 2, 43, 0, 1, 1, 0, 0x80, 0x32, 8, 11, 0, 1, 1, 0, 0x20, 0, 9, 4, 0, 0, 0, 1, 1, 0x20, 0, 9,
    0x24, 1, 0, 2, 4, 17, 0, 0, 8, 0x24, 0x0A, 1, 3, 7, 0, 0,
];

/// What `show` prints of the least.
const LISTING: &[u8] =
    b"0 configuration 090223000101008032\n9 association 080b000101002000\n17 interface 090400000001012000\n26 header 092401000204090000\n";

fn bytes(alloc: Global, items: &[u8]) -> Result<ByteList, AllocError> {
    Ok(ByteList::from_vec(Vec::from_slice(alloc, items)?))
}

fn numbers(alloc: Global, items: &[u32]) -> Result<WordList, AllocError> {
    Ok(WordList::from_vec(Vec::from_slice(alloc, items)?))
}

/// A source of these bytes, which moves so many in a call and fails at these calls.
fn source_of(
    alloc: Global,
    items: &[u8],
    cut: usize,
    failing: &[u32],
) -> Result<MemorySource, AllocError>
    requires { 0 < cut }
{
    let items = bytes(alloc, items)?;
    let failing = numbers(alloc, failing)?;
    Ok(MemorySource::new(items, cut, failing))
}

/// A sink of 224 bytes.
fn sink_in_memory(alloc: Global, cut: usize, failing: &[u32]) -> Result<MemorySink, AllocError>
    requires { 0 < cut }
{
    let failing = numbers(alloc, failing)?;
    match MemorySink::new(alloc, cut, 224, failing) {
        Ok(sink) => Ok(sink),
        Err(NoMemory) => Err(AllocError),
    }
}

fn push_words(alloc: Global, list: &mut Vec<String>, words: &[&str]) -> Result<(), AllocError> {
    for word in words {
        list.push(String::from_str(alloc, *word)?)?;
    }
    Ok(())
}

fn strings(alloc: Global, words: &[&str]) -> Result<Vec<String>, AllocError> {
    let mut list = Vec::new(alloc);
    push_words(alloc, &mut list, words)?;
    Ok(list)
}

/// The status with which the program ends, called with these words.
fn end_of<S: Source>(
    alloc: Global,
    words: &[&str],
    source: &mut S,
    sink: &mut MemorySink,
) -> Result<Status, AllocError> {
    let words = strings(alloc, words)?;
    run_in_boxes(alloc, &words, source, sink)
}

/// A run ended with this status and wrote this text.
fn judge(
    rt: &impl Abort,
    got: Result<Status, AllocError>,
    sink: &MemorySink,
    text: &[u8],
    status: Status,
) -> Result<(), AllocError> {
    let got = got?;
    assert_eq!(rt; sink.bytes_written(), text);
    assert_eq!(rt; got, status);
    Ok(())
}

/// The program, called with these words over this source, writes this text and ends with this status. The sink takes `cut` bytes a
/// call, and fails at these calls.
fn expect<R: Abort, S: Source>(
    rt: &R,
    alloc: Global,
    words: &[&str],
    source: &mut S,
    cut: usize,
    failing: &[u32],
    text: &[u8],
    status: Status,
) -> Result<(), AllocError>
    requires { 0 < cut }
{
    let mut sink = sink_in_memory(alloc, cut, failing)?;
    let got = end_of(alloc, words, source, &mut sink);
    judge(rt, got, &sink, text, status)
}

/// `check` of the least descriptor with the byte at a place changed, its first `len` bytes alone, so many in a call.
fn expect_check(
    rt: &impl Abort,
    alloc: Global,
    cut: usize,
    row: (usize, usize, u8, &str, Status),
) -> Result<(), AllocError>
    requires { 0 < cut }
{
    let (len, at, byte, text, status) = row;
    let mut items = MINIMAL;
    if at < 35 {
        items[at] = byte;
    }
    let all = items.as_slice();
    let mut source = source_of(alloc, all.get(..len).unwrap_or(all), cut, &[])?;
    expect(
        rt,
        alloc,
        &["check"],
        &mut source,
        64,
        &[],
        text.as_bytes(),
        status,
    )
}

#[test]
fn verdicts(rt: HostRuntime) -> Result<(), Fail> {
    let alloc = rt.alloc();
    for row in [
        (
            35,
            0,
            9,
            "ok blocks 4 entities 0 streams 0 domains 0\n",
            Status::Ok,
        ),
        (0, 0, 9, "descriptor G1 at 0\n", Status::Descriptor),
        (34, 0, 9, "descriptor G1 at 26\n", Status::Descriptor),
        (35, 26, 1, "descriptor G2 at 26\n", Status::Descriptor),
        (35, 2, 0x24, "descriptor G5 at 35\n", Status::Descriptor),
        (35, 2, 0x22, "descriptor G5 at 26\n", Status::Descriptor),
        (35, 29, 1, "descriptor G4 at 26\n", Status::Descriptor),
        (35, 13, 3, "descriptor G7 at 17\n", Status::Descriptor),
    ] {
        expect_check(&rt, alloc, 64, row)?;
        expect_check(&rt, alloc, 1, row)?;
    }
    Ok(())
}

/// The program, called with these words over the least descriptor, whose source moves 9 bytes in a call and fails at these calls.
fn expect_words(
    rt: &impl Abort,
    alloc: Global,
    words: &[&str],
    failing: &[u32],
    text: &[u8],
    status: Status,
) -> Result<(), AllocError> {
    let mut source = source_of(alloc, &MINIMAL, 9, failing)?;
    expect(rt, alloc, words, &mut source, 64, &[], text, status)
}

#[test]
fn read_fault_at_the_second_call(rt: HostRuntime) -> Result<(), Fail> {
    expect_words(
        &rt,
        rt.alloc(),
        &["show"],
        &[2],
        b"read fault\n",
        Status::ReadFault,
    )?;
    Ok(())
}

/// What the program writes where its words are no command.
const USAGE: &[u8] =
    b"usage: uac_cli check|show|elements|run|gen NUMBER|full RATE|settle|pair RATE|panel [--rack plain|lanes]\n";

#[test]
fn other_words_take_nothing(rt: HostRuntime) -> Result<(), Fail> {
    expect_words(&rt, rt.alloc(), &[], &[1], USAGE, Status::Usage)?;
    Ok(())
}

#[test]
fn two_words_are_no_command(rt: HostRuntime) -> Result<(), Fail> {
    expect_words(&rt, rt.alloc(), &["run", "7"], &[], USAGE, Status::Usage)?;
    Ok(())
}

/// `run` of a script, whose source moves so many bytes in a call and fails at these calls.
fn expect_run(
    rt: &impl Abort,
    alloc: Global,
    cut: usize,
    script: &[u8],
    failing: &[u32],
    text: &[u8],
    status: Status,
) -> Result<(), AllocError>
    requires { 0 < cut }
{
    let mut source = source_of(alloc, script, cut, failing)?;
    expect(rt, alloc, &["run"], &mut source, 64, &[], text, status)
}

#[test]
fn scripts_without_a_descriptor(rt: HostRuntime) -> Result<(), Fail> {
    let alloc = rt.alloc();
    for (script, text, status) in [
        ("", "script S8 line 1\n", Status::Script),
        ("x", "script S2 line 1\n", Status::Script),
        ("# a\n\n", "script S8 line 3\n", Status::Script),
        ("#\nm 1\n", "script S5 line 2\n", Status::Script),
        ("g\n", "descriptor G1 at 0\n", Status::Descriptor),
    ] {
        expect_run(
            &rt,
            alloc,
            64,
            script.as_bytes(),
            &[],
            text.as_bytes(),
            status,
        )?;
        expect_run(
            &rt,
            alloc,
            1,
            script.as_bytes(),
            &[],
            text.as_bytes(),
            status,
        )?;
    }
    Ok(())
}

#[test]
fn third_line_is_too_long(rt: HostRuntime) -> Result<(), Fail> {
    let alloc = rt.alloc();
    let mut script = Vec::from_slice(alloc, b"#\n#\n")?;
    for _ in 0..4097 {
        script.push(b'#')?;
    }
    let text = b"script S1 line 3\n";
    expect_run(
        &rt,
        alloc,
        100,
        script.as_slice(),
        &[],
        text,
        Status::Script,
    )?;
    Ok(())
}

#[test]
fn script_fails_at_its_second_call(rt: HostRuntime) -> Result<(), Fail> {
    expect_run(
        &rt,
        rt.alloc(),
        1,
        b"#\nx\n",
        &[2],
        b"read fault\n",
        Status::ReadFault,
    )?;
    Ok(())
}

#[test]
fn no_call_after_the_end(rt: HostRuntime) -> Result<(), Fail> {
    expect_run(
        &rt,
        rt.alloc(),
        64,
        b"#",
        &[3],
        b"script S8 line 2\n",
        Status::Script,
    )?;
    Ok(())
}

/// A script whose second line is refused. It ends 4 bytes, and as many stand after it.
const REFUSED: &[u8] = b"#\nx\n#\nq\n";

/// `run` of that script in pieces of so many bytes leaves these bytes in the source: it takes no piece after the refused line.
fn expect_left(rt: &impl Abort, alloc: Global, cut: usize, left: &[u8]) -> Result<(), AllocError>
    requires { 0 < cut }
{
    let mut source = source_of(alloc, REFUSED, cut, &[])?;
    let text = b"script S2 line 2\n";
    expect(
        rt,
        alloc,
        &["run"],
        &mut source,
        64,
        &[],
        text,
        Status::Script,
    )?;
    let mut byte = [0u8];
    for expected in left {
        assert_eq!(rt; source.take(&mut byte), Ok(1));
        assert_eq!(rt; byte[0], *expected);
    }
    assert_eq!(rt; source.take(&mut byte), Ok(0));
    Ok(())
}

#[test]
fn no_piece_after_a_refused_line(rt: HostRuntime) -> Result<(), Fail> {
    for (cut, left) in [
        (1, b"#\nq\n".as_slice()),
        (2, b"#\nq\n".as_slice()),
        (3, b"q\n".as_slice()),
        (5, b"\nq\n".as_slice()),
        (64, b"".as_slice()),
    ] {
        expect_left(&rt, rt.alloc(), cut, left)?;
    }
    Ok(())
}

/// The least descriptor, two microframes, and a report. The descriptor is accepted in the second line, which 75 bytes end.
const SCRIPT: &[u8] =
    b"d 090223000101008032080b000101002000090400000001012000092401000204090000\ng\nm 2\nq\n";

/// What it prints: 37 bytes at the second line, and the others at the last.
const TRANSCRIPT: &[u8] =
    b"ready entities 0 streams 0 domains 0\ntime 2\nsteady yes\nmeter peak 0\nmeter clipped 0\nmeter sum 0\nrenders 0\n";

/// A stream of one channel to the device, which a jack plays. Of the frames that the host sends, six a microframe, the first two are the
/// samples of its track. After 43 microframes it is primed, with 258 frames, and in the 44th the jack plays the first six.
const TRACK: &[u8] =
    b"d 090286000201008032080b0002010020000904000000010120000924010002042e000008240a0103070000
d 11240202010100010100000000000000000c2403030103000201000000090401000001022000090401010201022000
d 10240102000101000000010000000000062402010420070501051c0001082501000000000007058111040004
g
c 010b010001000000
a 1 5 -7
m 44
q
";

/// What it prints.
const PLAYED: &[u8] = b"ready entities 3 streams 1 domains 1
c done
time 44
steady yes
domain 1 rate 48000 ticks 264
stream 1 out setting 1 level 258 target 258 under 0 over 0 lost 0 missed 0
meter peak 7
meter clipped 0
meter sum 12
renders 0
";

#[test]
fn samples_of_a_track_are_played(rt: HostRuntime) -> Result<(), Fail> {
    expect_run(&rt, rt.alloc(), 64, TRACK, &[], PLAYED, Status::Ok)?;
    Ok(())
}

/// A command over all of an input, whose sink takes one byte a call, so many of its 224, and fails at the next call: it writes so many
/// bytes of the text.
fn expect_front(
    rt: &impl Abort,
    alloc: Global,
    command: &str,
    input: &[u8],
    text: &[u8],
    taken: usize,
) -> Result<(), AllocError> {
    let status = if taken < text.len() {
        Status::WriteFault
    } else {
        Status::Ok
    };
    let front = text.get(..taken).unwrap_or(text);
    let failing = [taken.min(224) as u32 + 1];
    let mut source = SteadySource::new(bytes(alloc, input)?);
    expect(
        rt,
        alloc,
        &[command],
        &mut source,
        1,
        &failing,
        front,
        status,
    )
}

#[test]
fn sink_fails_at_each_call(rt: HostRuntime) -> Result<(), Fail> {
    for (command, input, text) in [
        (
            "check",
            MINIMAL.as_slice(),
            b"ok blocks 4 entities 0 streams 0 domains 0\n".as_slice(),
        ),
        ("show", MINIMAL.as_slice(), LISTING),
        (
            "elements",
            CLOCKED.as_slice(),
            b"rate.1.0 rw 48000\n".as_slice(),
        ),
        ("run", SCRIPT, TRANSCRIPT),
    ] {
        for taken in 0..text.len() + 1 {
            expect_front(&rt, rt.alloc(), command, input, text, taken)?;
        }
    }
    Ok(())
}

/// How many bytes stand after a script of which so many were taken.
fn printed_length(taken: usize) -> usize {
    if taken < 75 {
        0
    } else if taken < SCRIPT.len() {
        37
    } else {
        TRANSCRIPT.len()
    }
}

/// Whether a text is one text and then another.
fn is_both(text: &[u8], front: &[u8], rest: &[u8]) -> bool {
    match (text.get(..front.len()), text.get(front.len()..)) {
        (Some(one), Some(other)) => one == front && other == rest,
        _ => false,
    }
}

/// A run ended with this status, and what stands after so many bytes of the script is followed by this text.
fn judge_what_follows(
    rt: &impl Abort,
    got: Result<Status, AllocError>,
    sink: &MemorySink,
    taken: usize,
    rest: &[u8],
    status: Status,
) -> Result<(), AllocError> {
    let front = TRANSCRIPT
        .get(..printed_length(taken))
        .unwrap_or(TRANSCRIPT);
    assert_eq!(rt; got?, status, "after {taken} bytes");
    assert!(rt;
        is_both(sink.bytes_written(), front, rest),
        "after {taken} bytes"
    );
    Ok(())
}

fn run_what_follows<R: Abort, S: Source>(
    rt: &R,
    alloc: Global,
    source: &mut S,
    taken: usize,
    rest: &[u8],
    status: Status,
) -> Result<(), AllocError> {
    let mut sink = sink_in_memory(alloc, 1, &[])?;
    let got = end_of(alloc, &["run"], source, &mut sink);
    judge_what_follows(rt, got, &sink, taken, rest, status)
}

/// `run` of that script, byte by byte, whose source fails after so many bytes, or not at all where these are more than all.
fn expect_what_follows(
    rt: &impl Abort,
    alloc: Global,
    taken: usize,
    rest: &[u8],
    status: Status,
) -> Result<(), AllocError> {
    let mut source = source_of(alloc, SCRIPT, 1, &[taken.min(200) as u32 + 1])?;
    run_what_follows(rt, alloc, &mut source, taken, rest, status)
}

#[test]
fn source_of_a_script_fails_at_each_call(rt: HostRuntime) -> Result<(), Fail> {
    for taken in 0..SCRIPT.len() + 1 {
        expect_what_follows(&rt, rt.alloc(), taken, b"read fault\n", Status::ReadFault)?;
    }
    expect_what_follows(&rt, rt.alloc(), SCRIPT.len() + 1, b"", Status::Ok)?;
    Ok(())
}

/// A unit that hands its job to another, and counts beside others how often it is asked.
#[derive(Drop)]
struct Counting<U> {
    unit: U,
    renders: Rc<Cell<u64>>,
}

impl<U: Unit> Unit for Counting<U> {
    ghost kind_of = { λ c. U.kind_of c.unit };

    fn kind(&self) -> UnitKind {
        self.unit.kind()
    }

    fn render(&self, job: &Job, pins: &Pins, out: &mut Frame, steps: &mut Steps) {
        self.unit.render(job, pins, out, steps);
        self.renders.set(self.renders.get().saturating_add(1));
    }
}

fn counting_unit<U: Unit>(unit: U, renders: &Rc<Cell<u64>>) -> Result<Counting<U>, AllocError>
    ensures { IfOk result (λ c. U.kind_of c.unit ≡ U.kind_of unit) }
{
    Ok(Counting {
        unit,
        renders: renders.clone()?,
    })
}

/// Eight boxes that count, those of each rack together.
fn counting_racks(
    alloc: Global,
    plain: &Rc<Cell<u64>>,
    lanes: &Rc<Cell<u64>>,
) -> Result<Racks, AllocError>
    ensures plain { IfOk result (λ racks. IsFitted (λ v x. (⟦<dyn Unit as Unit>⟧ v).kind_of x) racks.plain) }
    ensures lanes { IfOk result (λ racks. IsFitted (λ v x. (⟦<dyn Unit as Unit>⟧ v).kind_of x) racks.lanes) }
{
    Ok(Racks {
        plain: Rack::new(
            Box::new(alloc, counting_unit(PlainMixer, plain)?)?,
            Box::new(alloc, counting_unit(PlainSelector, plain)?)?,
            Box::new(alloc, counting_unit(PlainFeature, plain)?)?,
            Box::new(alloc, counting_unit(PlainEffect, plain)?)?,
        ),
        lanes: Rack::new(
            Box::new(alloc, counting_unit(LaneMixer, lanes)?)?,
            Box::new(alloc, counting_unit(LaneSelector, lanes)?)?,
            Box::new(alloc, counting_unit(LaneFeature, lanes)?)?,
            Box::new(alloc, counting_unit(LaneEffect, lanes)?)?,
        ),
    })
}

/// The text of `gen 1`, without meters: up to its stream's line, and from there on.
const GENERATED: &[u8] =
    b"ready entities 24 streams 1 domains 1\nc done\nc done\ntime 8000\nsteady yes\ndomain 1 rate 32000 ticks 32000\n";

const RENDERED: &[u8] =
    b"stream 1 out setting 1 level 256 target 256 under 0 over 0 lost 120 missed 398\nrenders 672000\n";

/// `gen 1` with these words after it asks the boxes of each rack together so often.
fn expect_counts(
    rt: &impl Abort,
    alloc: Global,
    words: &[&str],
    plain_asked: u64,
    lanes_asked: u64,
) -> Result<(), AllocError> {
    let plain = Rc::new(alloc, Cell::new(0u64))?;
    let lanes = Rc::new(alloc, Cell::new(0u64))?;
    let racks = counting_racks(alloc, &plain, &lanes)?;
    let words = strings(alloc, words)?;
    let mut source = source_of(alloc, b"", 1, &[])?;
    let mut sink = sink_in_memory(alloc, 64, &[])?;
    let mut meters = Meters::new(Vec::new(alloc));
    let status = uac_main(alloc, &words, &mut source, &mut sink, &racks, &mut meters);
    assert!(rt; is_both(sink.bytes_written(), GENERATED, RENDERED));
    assert_eq!(rt; status, Status::Ok);
    assert_eq!(rt; plain.get(), plain_asked);
    assert_eq!(rt; lanes.get(), lanes_asked);
    Ok(())
}

#[test]
fn the_rack_that_is_chosen_is_asked(rt: HostRuntime) -> Result<(), Fail> {
    expect_counts(&rt, rt.alloc(), &["gen", "1"], 672000, 0)?;
    expect_counts(&rt, rt.alloc(), &["gen", "1", "--rack", "lanes"], 0, 672000)?;
    Ok(())
}

/// Whether a bus does the line of this text.
fn is_done(
    bus: &mut Bus,
    text: &[u8],
    rack: &Rack,
    meters: &mut Meters,
    sink: &mut MemorySink,
) -> bool
    requires { IsFitted (λ v x. (⟦<dyn Unit as Unit>⟧ v).kind_of x) rack.now }
{
    if text.len() > 4096 {
        return false;
    }
    match Line::read(text) {
        Ok(line) => bus.line(&line, rack, meters, sink).is_ok(),
        Err(_) => false,
    }
}

/// A bus without meters does the lines of a script by this rack, one after the other, and prints this text.
fn expect_lines(
    rt: &impl Abort,
    alloc: Global,
    rack: &Rack,
    script: &[u8],
    text: &[u8],
) -> Result<(), AllocError>
    requires { IsFitted (λ v x. (⟦<dyn Unit as Unit>⟧ v).kind_of x) rack.now }
{
    let mut sink = sink_in_memory(alloc, 64, &[])?;
    let mut meters = Meters::new(Vec::new(alloc));
    let mut bus = Bus::new(alloc);
    for line in script.split(|byte| *byte == b'\n') {
        assert!(rt; is_done(&mut bus, line, rack, &mut meters, &mut sink));
    }
    assert!(rt; bus.finish().is_ok());
    assert_eq!(rt; sink.bytes_written(), text);
    Ok(())
}

/// The boxes of each rack are asked so often in all by the lines of a script, which print this text.
fn expect_renders(
    rt: &impl Abort,
    alloc: Global,
    script: &[u8],
    text: &[u8],
    asked: u64,
) -> Result<(), AllocError> {
    let plain = Rc::new(alloc, Cell::new(0u64))?;
    let lanes = Rc::new(alloc, Cell::new(0u64))?;
    let racks = counting_racks(alloc, &plain, &lanes)?;
    expect_lines(rt, alloc, &racks.plain, script, text)?;
    expect_lines(rt, alloc, &racks.lanes, script, text)?;
    assert_eq!(rt; plain.get(), asked);
    assert_eq!(rt; lanes.get(), asked);
    Ok(())
}

#[test]
fn bus_does_one_line_after_the_other(rt: HostRuntime) -> Result<(), Fail> {
    let alloc = rt.alloc();
    let text = b"ready entities 0 streams 0 domains 0\ntime 2\nsteady yes\nrenders 0\n";
    expect_renders(&rt, alloc, SCRIPT, text, 0)?;
    let text = b"ready entities 3 streams 1 domains 1
c done
time 44
steady yes
domain 1 rate 48000 ticks 264
stream 1 out setting 1 level 258 target 258 under 0 over 0 lost 0 missed 0
renders 0
";
    expect_renders(&rt, alloc, TRACK, text, 0)?;
    Ok(())
}

/// A feature unit between two jacks, at 48,000 Hz: six ticks a microframe.
const QUIET: &[u8] =
    b"d 09025a000101008032080b00010100200009040000000101200009240100020440000008240a0103070000
d 11240202010200010203000000000000001224060302
d 0f0000000f0000000f000000000c2403ff0103000301000000
g
j 2 ramp 5 3
m 40
m 1
q
";

#[test]
fn ticks_that_are_done_at_once_are_asked_each(rt: HostRuntime) -> Result<(), Fail> {
    let text = b"ready entities 4 streams 0 domains 1
time 41
steady yes
domain 1 rate 48000 ticks 246
renders 246
";
    expect_renders(&rt, rt.alloc(), QUIET, text, 246)?;
    Ok(())
}
