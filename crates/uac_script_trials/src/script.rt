// A table of script lines: each row of the grammar spelt well, spelt wrong, and out of range at both ends.
use arrayvec::ArrayVec;
use std::process::Abort;
use std::test::Fail;
use uac_pcm::Tone;
use uac_script::{Line, Mark, MarkKind, Name};

/// Reads each text and compares the rule: 0 where the text is a line.
fn compare(rt: &impl Abort, rows: &[(&str, u8)]) {
    for (text, rule) in rows {
        assert!(rt; text.len() <= 4096);
        let found = match Line::read(text.as_bytes()) {
            Ok(_) => 0,
            Err(found) => found,
        };
        assert!(rt; found == *rule, "{text}");
    }
}

#[test]
fn lines_that_are_well_spelt(rt: HostRuntime) {
    let rows = [
        ("", 0),
        ("#", 0),
        ("# any text at all", 0),
        ("d 00", 0),
        ("d 0902aF", 0),
        ("g", 0),
        ("c a102010200030200", 0),
        ("c 2101010200030200 00F6", 0),
        ("h get volume.3.1", 0),
        ("h set volume.3.1 -2560", 0),
        ("h show x", 0),
        ("b before", 0),
        ("b after", 0),
        ("a 1 256 -256", 0),
        ("t 1 none", 0),
        ("t 1 ramp 0 -1", 0),
        ("t 1 noise 1", 0),
        ("j 5 none", 0),
        ("j 5 ramp 65536 65536", 0),
        ("j 5 noise 0", 0),
        ("k 1 1000", 0),
        ("m 1", 0),
        ("m 24 f1 o1 i2", 0),
        ("v 2", 0),
        ("q", 0),
    ];
    compare(&rt, &rows);
}

#[test]
fn first_words_that_no_row_has(rt: HostRuntime) {
    let rows = [
        ("x", 2),
        (" ", 2),
        (" q", 2),
        ("quit", 2),
        ("Q", 2),
        ("g\r", 2),
        ("dd 00", 2),
        ("o 1", 2),
        ("\0", 2),
        (" # a space in front", 2),
    ];
    compare(&rt, &rows);
}

#[test]
fn words_that_are_spelt_otherwise(rt: HostRuntime) {
    let rows = [
        ("d", 3),
        ("d ", 3),
        ("d 0", 3),
        ("d 0g", 3),
        ("d 00 00", 3),
        ("g ", 3),
        ("c a1020102000302", 3),
        ("c a10201020003020000", 3),
        ("c a102010200030200 ", 3),
        ("c a102010200030200 0", 3),
        ("h", 3),
        ("h get", 3),
        ("h get ", 3),
        ("h put x", 3),
        ("h set x", 3),
        ("h set x y", 3),
        ("h show x y", 3),
        ("b", 3),
        ("b During", 3),
        ("a 1", 3),
        ("a 1 ", 3),
        ("a 1  2", 3),
        ("a x 2", 3),
        ("t 1", 3),
        ("t 1 silent", 3),
        ("t 1 none 0", 3),
        ("t 1 ramp 0", 3),
        ("t 1 noise", 3),
        ("j ramp 0 0", 3),
        ("k 1", 3),
        ("k 1 -0", 3),
        ("k 1 +5", 3),
        ("k 01 5", 3),
        ("k 1 5\r", 3),
        ("k 1  5", 3),
        ("m", 3),
        ("m 00", 3),
        ("m 1 x1", 3),
        ("m 1 o", 3),
        ("m 1 o01", 3),
        ("m 1 O1", 3),
        ("v", 3),
        ("v 1 1", 3),
        ("v -", 3),
        ("q 1", 3),
    ];
    compare(&rt, &rows);
}

#[test]
fn numbers_at_both_ends_of_their_ranges(rt: HostRuntime) {
    let rows = [
        ("h set x -2147483648", 0),
        ("h set x -2147483649", 4),
        ("h set x 2147483647", 0),
        ("h set x 2147483648", 4),
        ("a 0 -2147483648 2147483647", 0),
        ("a 255 1", 0),
        ("a 256 1", 4),
        ("a -1 1", 4),
        ("a 1 0 -2147483649", 4),
        ("a 1 2147483648 0", 4),
        ("t 255 ramp -2147483648 2147483647", 0),
        ("t 1 ramp 2147483648 0", 4),
        ("t 1 ramp 0 -2147483649", 4),
        ("j 0 noise 4294967295", 0),
        ("j 0 noise 4294967296", 4),
        ("j 0 noise -1", 4),
        ("j 256 none", 4),
        ("k 255 -100000", 0),
        ("k 0 100000", 0),
        ("k 1 -100001", 4),
        ("k 1 100001", 4),
        ("k 256 0", 4),
        ("m 8000", 0),
        ("m 8001", 4),
        ("m 0", 4),
        ("m -1", 4),
        ("m 1 o255 i0", 0),
        ("m 1 o-1", 4),
        ("m 1 i256", 4),
        ("v 0", 0),
        ("v 3", 4),
        ("v -1", 4),
        ("m 4294967297", 4),
        ("v 18446744073709551617", 4),
    ];
    compare(&rt, &rows);
}

#[test]
fn spelling_is_judged_before_ranges(rt: HostRuntime) {
    let rows = [
        ("a 256 1 x", 3),
        ("t 256 ramp 9999999999 0 0", 3),
        ("k 256 -0", 3),
        ("m 0 o256 o01", 3),
        ("h set x 2147483648 ", 3),
        (
            "m 1 o1 o1 o1 o1 o1 o1 o1 o1 o1 o1 o1 o1 o1 o1 o1 o1 o1 o1 o1 o1 o1 o1 o1 o1",
            0,
        ),
        (
            "m 1 o1 o1 o1 o1 o1 o1 o1 o1 o1 o1 o1 o1 o1 o1 o1 o1 o1 o1 o1 o1 o1 o1 o1 o1 o1",
            4,
        ),
    ];
    compare(&rt, &rows);
}

/// The elements, in a vector of fixed room.
fn list<T: Copy + Default, const N: usize>(items: &[T]) -> Result<ArrayVec<T, N>, Fail> {
    Ok(ArrayVec::try_from(items)?)
}

#[test]
fn values_of_lines(rt: HostRuntime) -> Result<(), Fail> {
    assert_eq!(rt; Line::read(b"# x"), Ok(Line::Nothing));
    assert_eq!(rt;
        Line::read(b"d 0902Af"),
        Ok(Line::Bytes(list(&[9, 2, 0xaf])?))
    );
    let setup = [0x21, 1, 1, 2, 0, 3, 2, 0];
    let sent = list(&[0, 0xf6])?;
    assert_eq!(rt;
        Line::read(b"c 2101010200030200 00F6"),
        Ok(Line::Control { setup, sent })
    );
    let name: Name = list(b"mute.3.0")?;
    assert_eq!(rt; Line::read(b"h set mute.3.0 -1"), Ok(Line::Set(name, -1)));
    assert_eq!(rt; Line::read(b"b after"), Ok(Line::Break { after: true }));
    let samples = list(&[256, -256])?;
    assert_eq!(rt;
        Line::read(b"a 1 256 -256"),
        Ok(Line::Append {
            interface: 1,
            samples
        })
    );
    Ok(())
}

#[test]
fn values_of_numbers(rt: HostRuntime) -> Result<(), Fail> {
    let tone = Tone::Ramp {
        start: 100,
        step: -7,
    };
    assert_eq!(rt;
        Line::read(b"j 5 ramp 100 -7"),
        Ok(Line::Jack { terminal: 5, tone })
    );
    assert_eq!(rt;
        Line::read(b"k 1 -1000"),
        Ok(Line::Deviate {
            domain: 1,
            ppm: -1000
        })
    );
    let marks = list(&[
        Mark {
            kind: MarkKind::Feedback,
            interface: 1,
        },
        Mark {
            kind: MarkKind::In,
            interface: 2,
        },
    ])?;
    assert_eq!(rt;
        Line::read(b"m 24 f1 i2"),
        Ok(Line::Run { count: 24, marks })
    );
    assert_eq!(rt; Line::read(b"v 2"), Ok(Line::Detail(2)));
    Ok(())
}

#[test]
fn the_longest_lines(rt: HostRuntime) {
    let mut digits = [b'1'; 4096];
    digits[1] = b' ';
    digits[0] = b'v';
    assert!(rt; matches!(Line::read(&digits), Err(4)));
    digits[0] = b'd';
    assert!(rt; matches!(Line::read(&digits), Ok(Line::Bytes(bytes)) if bytes.len() == 2047));
}

#[test]
fn the_most_samples(rt: HostRuntime) {
    let mut words = [b' '; 4095];
    for k in 0..2048 {
        words[2 * k] = b'1';
    }
    words[0] = b'a';
    assert!(rt;
        matches!(Line::read(&words), Ok(Line::Append { samples, .. }) if samples.len() == 2046)
    );
}
