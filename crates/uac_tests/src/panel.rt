// A device with a front panel under lines, and messages of all kinds.
use std::alloc::{AllocError, Global};
use std::process::Abort;
use std::test::Fail;
use uac_descriptor::WordList;
use uac_device::Device;
use uac_edges::MemorySink;
use uac_grammar::Reader;
use uac_mixer::{DeviceLink, View, When};
use uac_status::{Desk, DeskFault, FollowFault, follow};
use uac_topology::sound_descriptor;

/// A function with a control of each kind but a multiplier's: clocks 1 and 2 behind clock selector 3; jack 4 of two channels feeds mixer
/// 5; both feed selector 6, which feeds feature 7, effect 8 and jack 9.
const DESCRIPTOR: [u8; 151] = [
    0x09, 0x02, 0x97, 0x00, 0x01, 0x01, 0x00, 0x80, 0x32, // configuration
    0x08, 0x0B, 0x00, 0x01, 0x01, 0x00, 0x20, 0x00, // association
    0x09, 0x04, 0x00, 0x00, 0x00, 0x01, 0x01, 0x20, 0x00, // control interface 0
    0x09, 0x24, 0x01, 0x00, 0x02, 0x04, 0x7D, 0x00, 0x00, // header
    0x08, 0x24, 0x0A, 0x01, 0x03, 0x07, 0x00, 0x00, // clock 1
    0x08, 0x24, 0x0A, 0x02, 0x03, 0x07, 0x00, 0x00, // clock 2
    0x09, 0x24, 0x0B, 0x03, 0x02, 0x01, 0x02, 0x03, 0x00, // clock selector 3
    0x11, 0x24, 0x02, 0x04, 0x01, 0x02, 0x00, 0x03, 0x02, 0x03, 0x00, 0x00, 0x00, 0x00, 0x00, 0x00,
    0x00, // jack 4
    0x0F, 0x24, 0x04, 0x05, 0x01, 0x04, 0x02, 0x03, 0x00, 0x00, 0x00, 0x00, 0xF0, 0x00, 0x00, // mixer 5
    0x09, 0x24, 0x05, 0x06, 0x02, 0x04, 0x05, 0x03, 0x00, // selector 6
    0x12, 0x24, 0x06, 0x07, 0x06, 0x03, 0x00, 0x00, 0x00, 0x0C, 0x00, 0x00, 0x00, 0x0C, 0x00, 0x00,
    0x00, 0x00, // feature 7
    0x14, 0x24, 0x07, 0x08, 0x00, 0x00, 0x07, 0x03, 0x00, 0x00, 0x00, 0x00, 0x00, 0x00, 0x00, 0x00,
    0x00, 0x00, 0x00, 0x00, // effect 8
    0x0C, 0x24, 0x03, 0x09, 0x01, 0x03, 0x00, 0x08, 0x03, 0x00, 0x00, 0x00, // jack 9
];

/// The same as lines of a script.
const HEAD: [&str; 2] = [
    "d 090297000101008032080b0001010020000904000000010120000924010002047d000008240a010307000008240a020307000009240b03020102030011240204010200030203000000000000",
    "d 000f2404050104020300000000f000000924050602040503001224060706030000000c0000000c0000000014240708000007030000000000000000000000000c2403090103000803000000",
];

/// A sink whose calls of these numbers fail.
fn sink_of(alloc: Global, failing: WordList) -> Result<MemorySink, AllocError> {
    match MemorySink::new(alloc, 4096, 4096, failing) {
        Ok(sink) => Ok(sink),
        Err(_) => Err(AllocError),
    }
}

/// Does a line, and answers the rule that it breaks; 0 where it breaks none.
fn rule_of(rt: &impl Abort, desk: &mut Desk, text: &str, sink: &mut MemorySink) -> u8 {
    assert!(rt; text.len() <= 4096);
    match desk.line(text.as_bytes(), sink) {
        Ok(()) => 0,
        Err(DeskFault::Script(rule)) => rule,
        Err(_) => 99,
    }
}

/// Does the descriptor's lines and these, and compares the rules that they break and what they print.
fn compare(
    rt: &impl Abort,
    alloc: Global,
    lines: &[(&str, u8)],
    text: &str,
) -> Result<(), AllocError> {
    let never = WordList::from_vec(Vec::new(alloc));
    let mut sink = sink_of(alloc, never)?;
    let mut desk = Desk::new(alloc);
    for line in HEAD {
        assert!(rt; rule_of(rt, &mut desk, line, &mut sink) == 0);
    }
    for (line, rule) in lines {
        assert!(rt; rule_of(rt, &mut desk, line, &mut sink) == *rule, "{line}");
    }
    assert!(rt; sink.bytes_written() == text.as_bytes());
    desk.let_go();
    Ok(())
}

#[test]
fn knobs_of_each_kind_are_followed(rt: HostRuntime) -> Result<(), Fail> {
    let lines = [
        ("g", 0),
        ("w rate.1.0 96000", 0),
        ("w clock.3.0 2", 0),
        ("w mix.5.1 -256", 0),
        ("w select.6.0 2", 0),
        ("w enable.8.0 1", 0),
        ("w mute.7.0 1", 0),
        ("h show clock.3.0", 0),
        ("n", 0),
        ("h show clock.3.0", 0),
        ("n", 0),
    ];
    let text =
        "ready entities 9 streams 0 domains 1\nw done\nw done\nw done\nw done\nw done\nw done\nh clock.3.0 1\n\
        n 000100010001\nh rate.1.0 96000\nn 000100010003\nh clock.3.0 2\nn 000101010005\nh mix.5.1 -256\n\
        n 000100010006\nh select.6.0 2\nn 000100010008\nh enable.8.0 1\nn 000100010007\nh mute.7.0 1\n\
        h clock.3.0 2\nn -\n";
    compare(&rt, rt.alloc(), &lines, text)?;
    Ok(())
}

#[test]
fn a_message_whose_transfer_broke_is_kept(rt: HostRuntime) -> Result<(), Fail> {
    let lines = [
        ("g", 0),
        ("w volume.7.1 -2560", 0),
        ("w volume.7.1 -256", 0),
        ("w mute.7.0 1", 0),
        ("b before", 0),
        ("w volume.7.1 -256", 0),
        ("w volume.7.1 1", 0),
        ("n", 0),
        ("b after", 0),
        ("n", 0),
        ("h show volume.7.1", 0),
        ("n", 0),
        ("n", 0),
    ];
    let text = "ready entities 9 streams 0 domains 1\nw done\nw done\nw done\nw same\nw stall Q9\n\
        n 000101020007\nh broken\nn 000101020007\nh broken\nh volume.7.1 0\n\
        n 000101020007\nh volume.7.1 -256\nn 000100010007\nh mute.7.0 1\nn -\n";
    compare(&rt, rt.alloc(), &lines, text)?;
    Ok(())
}

#[test]
fn rules_that_lines_break(rt: HostRuntime) -> Result<(), Fail> {
    let lines = [
        ("w rate.1.0 48000", 5),
        ("n", 5),
        ("h show rate.1.0", 5),
        ("b before", 5),
        ("x", 2),
        ("", 0),
        ("# a comment", 0),
        ("g", 0),
        ("g", 5),
        ("d 00", 5),
        ("c a101010200030200", 5),
        ("a 1 0", 5),
        ("t 1 none", 5),
        ("j 4 none", 5),
        ("k 3 0", 5),
        ("m 1", 5),
        ("v 0", 5),
        ("q", 5),
        ("k 3 100001", 4),
        ("ww", 2),
        ("w", 3),
        ("w rate.1.0", 3),
        ("w rate.1.0 48000 ", 3),
        ("w rate.1.0 048000", 3),
        ("w  48000", 3),
        ("w rate.1.0 2147483648", 4),
        ("w rate.9.0 48000", 6),
        ("w rate.1.0 -1", 7),
        ("w mute.7.0 256", 7),
        ("w volume.7.1 32768", 7),
        ("h set volume.7.1 -32769", 7),
        ("h get volume.7.3", 6),
        ("n 1", 3),
        ("n ", 3),
        ("", 0),
        ("n", 0),
    ];
    compare(
        &rt,
        rt.alloc(),
        &lines,
        "ready entities 9 streams 0 domains 1\nn -\n",
    )?;
    Ok(())
}

#[test]
fn an_end_without_a_device(rt: HostRuntime) -> Result<(), Fail> {
    let desk = Desk::new(rt.alloc());
    assert!(&rt; desk.finish() == Err(DeskFault::Script(8)));
    desk.let_go();
    Ok(())
}

/// The lines of the fault tests, and what they print.
const FAULTY: [&str; 4] = ["g", "w mute.7.0 1", "w enable.8.0 1", "n"];

const PRINTED: &str = "ready entities 9 streams 0 domains 1\nw done\nw done\n\
    n 000100010007\nh mute.7.0 1\nn 000100010008\nh enable.8.0 1\n";

/// Each write fails in turn, the first of them at the descriptor's end: then a front of the text was written, and the fault is answered
/// again.
fn fail_at(rt: &impl Abort, alloc: Global, call: u32) -> Result<bool, AllocError> {
    let mut numbers = Vec::new(alloc);
    numbers.push(call)?;
    let mut sink = sink_of(alloc, WordList::from_vec(numbers))?;
    let mut desk = Desk::new(alloc);
    for line in HEAD {
        assert!(rt; rule_of(rt, &mut desk, line, &mut sink) == 0);
    }
    let mut failed = false;
    for line in FAULTY {
        let broken = desk.line(line.as_bytes(), &mut sink);
        if failed {
            assert!(rt; broken == Err(DeskFault::WriteFault));
        }
        failed = failed || broken == Err(DeskFault::WriteFault);
    }
    assert!(rt; PRINTED.as_bytes().starts_with(sink.bytes_written()));
    assert!(rt; failed == (sink.bytes_written().len() < PRINTED.len()));
    desk.let_go();
    Ok(failed)
}

#[test]
fn each_write_fails_in_turn(rt: HostRuntime) -> Result<(), Fail> {
    for call in 1..=7u32 {
        let failed = fail_at(&rt, rt.alloc(), call)?;
        assert!(&rt; failed);
    }
    let failed = fail_at(&rt, rt.alloc(), 8)?;
    assert!(&rt; !failed);
    Ok(())
}

/// The device of the descriptor.
fn device(alloc: Global) -> Result<Device, AllocError> {
    let mut reader = Reader::new(alloc);
    if reader.feed(&DESCRIPTOR).is_err() {
        reader.let_go();
        return Err(AllocError);
    }
    let described = match sound_descriptor(alloc, reader) {
        Ok(described) => described,
        Err(_) => return Err(AllocError),
    };
    drop(described.configuration);
    match Device::new(alloc, described.function) {
        Ok(device) => Ok(device),
        Err(_) => Err(AllocError),
    }
}

/// A message of no element is refused over a link that is whole.
fn is_foreign(rt: &impl Abort, alloc: Global, message: [u8; 6]) -> Result<(), AllocError> {
    let mut device = device(alloc)?;
    let mut link = DeviceLink::new(&mut device, None);
    let mut view = match View::read(alloc, &mut link) {
        Ok(view) => view,
        Err(_) => return Err(AllocError),
    };
    assert!(rt; follow(&mut view, message, &mut link) == Err(FollowFault::Foreign));
    Ok(())
}

#[test]
fn foreign_messages(rt: HostRuntime) -> Result<(), Fail> {
    let messages = [
        [1, 1, 0, 1, 0, 7],
        [2, 1, 0, 1, 0, 7],
        [3, 1, 0, 1, 0, 7],
        [0, 0, 0, 1, 0, 7],
        [0, 2, 0, 1, 0, 7],
        [0, 1, 0, 1, 1, 7],
        [0, 1, 0, 1, 0, 77],
        [0, 1, 3, 2, 0, 7],
        [0, 1, 0, 3, 0, 7],
        [0, 1, 0, 2, 0, 4],
    ];
    for message in messages {
        is_foreign(&rt, rt.alloc(), message)?;
    }
    Ok(())
}

/// A message of an element over a link whose first transfer breaks: it is followed by the second.
fn breaks_once(rt: &impl Abort, alloc: Global, at: When) -> Result<(), AllocError> {
    let message = [0, 1, 1, 2, 0, 7];
    let mut device = device(alloc)?;
    let read = View::read(alloc, &mut DeviceLink::new(&mut device, None));
    let mut view = match read {
        Ok(view) => view,
        Err(_) => return Err(AllocError),
    };
    let mut link = DeviceLink::new(&mut device, Some(at));
    assert!(rt; follow(&mut view, message, &mut link) == Err(FollowFault::Broken));
    assert!(rt; follow(&mut view, message, &mut link) == Ok(()));
    Ok(())
}

#[test]
fn links_that_break(rt: HostRuntime) -> Result<(), Fail> {
    breaks_once(&rt, rt.alloc(), When::Before)?;
    breaks_once(&rt, rt.alloc(), When::After)?;
    Ok(())
}
