// Worked command lines. Each row's answer is what the profile says of its words.
use std::alloc::Global;
use std::test::Fail;
use uac_words::{Command, Invocation, RackChoice, WordsFault, read};

/// What the words of a line, parted by one space each, ask for.
fn ask(alloc: Global, line: &str) -> Result<Result<Invocation, WordsFault>, Fail> {
    let mut words = Vec::new(alloc);
    for word in line.split(' ') {
        words.push(String::from_str(alloc, word)?)?;
    }
    Ok(read(alloc, &words))
}

#[test]
fn takes_a_command_over_a_rack(rt: HostRuntime) -> Result<(), Fail> {
    let table = [
        ("check", Command::Check, RackChoice::Plain),
        ("-- show", Command::Show, RackChoice::Plain),
        ("check --", Command::Check, RackChoice::Plain),
        (
            "elements --rack=plain",
            Command::Elements,
            RackChoice::Plain,
        ),
        ("--rack=lanes run", Command::Run, RackChoice::Lanes),
        ("settle --rack lanes --", Command::Settle, RackChoice::Lanes),
        ("gen 0", Command::Gen(0), RackChoice::Plain),
        ("gen --rack lanes 7", Command::Gen(7), RackChoice::Lanes),
        (
            "gen -- 4294967295",
            Command::Gen(4294967295),
            RackChoice::Plain,
        ),
        ("full 96000", Command::Full(96000), RackChoice::Plain),
        (
            "pair --rack lanes 192000",
            Command::Pair(192000),
            RackChoice::Lanes,
        ),
        ("panel --", Command::Panel, RackChoice::Plain),
    ];
    for (line, command, rack) in table {
        assert_eq!(rt;
            ask(rt.alloc(), line)?,
            Ok(Invocation { command, rack }),
            "{line}"
        );
    }
    Ok(())
}

#[test]
fn refuses_all_other_words(rt: HostRuntime) -> Result<(), Fail> {
    let table = [
        "",
        "Check",
        "panels",
        "panel 48000",
        "check check",
        "run 7",
        "check -- --",
        "--help",
        "-h",
        "--version",
        "check -x",
        "check --rack",
        "check --rack=",
        "check --rack fast",
        "check -- --rack plain",
        "--rack -- check",
        "--rack plain --rack plain check",
        "gen",
        "gen 01",
        "gen +1",
        "gen -1",
        "gen 0x1",
        "gen 4294967296",
        "gen 1 2",
        "full",
        "full 176400",
        "full 048000",
        "full 0",
        "pair",
        "pair 7",
        "pair 48000 48000",
    ];
    for line in table {
        assert_eq!(rt; ask(rt.alloc(), line)?, Err(WordsFault::Usage), "{line}");
    }
    Ok(())
}
