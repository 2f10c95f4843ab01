// The lines of a script on a machine of the test, from a source that may fail into a sink that may fail.
ghost use Rattle.std.specs.Prelude.{◌≤◌, ◌≡◌};

use crate::counter::{Counter, Heard};
use std::alloc::Global;
use std::process::Abort;
use std::test::Fail;
use uac_descriptor::{ByteList, WordList};
use uac_edges::{MemorySink, MemorySource};
use uac_ends::Status;
use uac_runner::run_script;

// A script, how many of its lines there is memory for, what it prints, how that ends, and how many lines are counted.
#[derive(Drop)]
struct Case {
    script: &'static [u8],
    spare: u64,
    text: &'static [u8],
    status: Status,
    count: u64,
}

// The script comes to the text and the status, in pieces of at most `cut` bytes from a source whose call of the number `read` fails, and
// into a sink that takes a byte a call and whose call of the number `write` fails; 0 is no call.
fn expect_run(
    rt: &impl Abort,
    alloc: Global,
    case: &Case,
    cut: usize,
    read: u32,
    write: u32,
) -> Result<(), Fail>
    requires { 1 ≤ cut }
{
    let bytes = ByteList::from_vec(case.script.to_vec(alloc)?);
    let mut source = MemorySource::new(bytes, cut, WordList::from_vec(vec![in alloc; read]?));
    let mut sink = MemorySink::new(alloc, 1, 4096, WordList::from_vec(vec![in alloc; write]?))?;
    let mut counter = Counter {
        count: 0,
        spare: case.spare,
    };
    let mut heard = Heard { count: 0 };
    let status = run_script(&mut counter, &mut heard, &mut source, &mut sink);
    assert_eq!(rt;
        sink.bytes_written(),
        case.text,
        "cut {cut} read {read} write {write}"
    );
    assert_eq!(rt; status, case.status, "cut {cut} read {read} write {write}");
    assert_eq!(rt;
        heard.count,
        case.count,
        "cut {cut} read {read} write {write}"
    );
    Ok(())
}

// What scripts come to, in pieces of any size.
#[test]
fn scripts_run(rt: HostRuntime) -> Result<(), Fail> {
    let cases = [
        // the end is judged, and has the number of the next line
        Case {
            script: b"",
            spare: 0,
            text: b"script S8 line 1\n",
            status: Status::Script,
            count: 0,
        },
        Case {
            script: b"# a\n\n",
            spare: 0,
            text: b"script S8 line 3\n",
            status: Status::Script,
            count: 0,
        },
        Case {
            script: b"# a",
            spare: 0,
            text: b"script S8 line 2\n",
            status: Status::Script,
            count: 0,
        },
        // the last line may end with the input
        Case {
            script: b"a\nb",
            spare: 0,
            text: b"1\n2\n",
            status: Status::Ok,
            count: 2,
        },
        Case {
            script: b"a\n\n#\nb\n",
            spare: 0,
            text: b"1\n2\n",
            status: Status::Ok,
            count: 2,
        },
        // the first refusal ends the run
        Case {
            script: b"a\n\n!\nb\n",
            spare: 0,
            text: b"1\nscript S7 line 3\n",
            status: Status::Script,
            count: 1,
        },
        Case {
            script: b"a\n!",
            spare: 0,
            text: b"1\nscript S7 line 2\n",
            status: Status::Script,
            count: 1,
        },
        Case {
            script: b"a\ng\n",
            spare: 0,
            text: b"1\ndescriptor G3 at 7\n",
            status: Status::Descriptor,
            count: 1,
        },
        Case {
            script: b"t\nb\n",
            spare: 0,
            text: b"descriptor U5 entity 9\n",
            status: Status::Descriptor,
            count: 0,
        },
        // memory is wanted where a line takes some
        Case {
            script: b"m\na\nm\nb\n",
            spare: 1,
            text: b"1\n2\nno memory\n",
            status: Status::NoMemory,
            count: 2,
        },
        Case {
            script: b"m\na\nm\nb\n",
            spare: 2,
            text: b"1\n2\n3\n4\n",
            status: Status::Ok,
            count: 4,
        },
    ];
    for case in cases.iter() {
        for cut in [1, 2, 3, 4096] {
            expect_run(&rt, rt.alloc(), case, cut, 0, 0)?;
        }
    }
    Ok(())
}

// Each read fails in turn, one byte a read: what stood in front of it is done, and a refusal in front of it stays.
#[test]
fn each_read_fails(rt: HostRuntime) -> Result<(), Fail> {
    let script = b"a\nb\n!\nc\n".as_slice();
    for (read, text, count) in [
        (1, b"read fault\n".as_slice(), 0),
        (2, b"read fault\n".as_slice(), 0),
        (3, b"1\nread fault\n".as_slice(), 1),
        (4, b"1\nread fault\n".as_slice(), 1),
        (5, b"1\n2\nread fault\n".as_slice(), 2),
        (6, b"1\n2\nread fault\n".as_slice(), 2),
    ] {
        let case = Case {
            script,
            spare: 0,
            text,
            status: Status::ReadFault,
            count,
        };
        expect_run(&rt, rt.alloc(), &case, 1, read, 0)?;
    }
    let text = b"1\n2\nscript S7 line 3\n".as_slice();
    let refused = Case {
        script,
        spare: 0,
        text,
        status: Status::Script,
        count: 2,
    };
    expect_run(&rt, rt.alloc(), &refused, 1, 7, 0)?;
    // the read that would find the end
    let text = b"1\nread fault\n".as_slice();
    let unended = Case {
        script: b"a\nb".as_slice(),
        spare: 0,
        text,
        status: Status::ReadFault,
        count: 1,
    };
    expect_run(&rt, rt.alloc(), &unended, 1, 4, 0)
}

// Each write fails in turn, one byte a write: the bytes in front of it stand, and nothing more is written.
#[test]
fn each_write_fails(rt: HostRuntime) -> Result<(), Fail> {
    let script = b"a\n!\n".as_slice();
    let text = b"1\nscript S7 line 2\n".as_slice();
    for write in 1..=text.len() {
        let case = Case {
            script,
            spare: 0,
            text: &text[..write - 1],
            status: Status::WriteFault,
            count: 1,
        };
        expect_run(&rt, rt.alloc(), &case, 4096, 0, write as u32)?;
    }
    Ok(())
}
