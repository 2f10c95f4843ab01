// Whole scripts beside those of another program, which was written from the rules of the draws.
use arrayvec::ArrayVec;
use std::process::Abort;
use uac_edges::Source;
use uac_gen::{Gen, GenSource};

// The lines of this index, from 0, in the script of 1.
const KNOWN: [(u32, &[u8]); 6] = [
    (
        7,
        b"d 1024010205010100000002030000000006240201031807050105960001082501000000000007058111040004",
    ),
    (8, b"g"),
    (9, b"c 2101000100010400 007d0000"),
    (10, b"c 010b010001000000"),
    (11, b"t 1 noise 1"),
    (828, b"q"),
];

// The text, mixed into a sum that tells texts apart (FNV-1a).
fn mix(mut sum: u32, text: &[u8]) -> u32 {
    for byte in text {
        sum = (sum ^ u32::from(*byte)).wrapping_mul(16777619);
    }
    sum
}

// The script of this number has so many lines, and their text has this sum.
fn expect(rt: &impl Abort, number: u32, lines: u32, text: u32) {
    let mut script = Gen::new(number);
    let mut line = ArrayVec::new();
    let mut count = 0;
    let mut sum = 2166136261;
    for _ in 0..1000 {
        if !script.next(&mut line) {
            break;
        }
        for (index, known) in KNOWN {
            if number == 1 && index == count {
                assert_eq!(rt; line.as_slice(), known, "at line {index}");
            }
        }
        sum = mix(mix(sum, line.as_slice()), b"\n");
        count = count.saturating_add(1);
    }
    assert_eq!(rt; count, lines, "of number {number}");
    assert_eq!(rt; sum, text, "of number {number}");
    assert!(rt; !script.next(&mut line), "after the last line of {number}");
    assert_eq!(rt; line.as_slice(), b"q".as_slice());
}

#[test]
fn script_of_zero(rt: HostRuntime) {
    expect(&rt, 0, 830, 3011444610);
}

#[test]
fn script_of_one(rt: HostRuntime) {
    expect(&rt, 1, 829, 983417299);
}

#[test]
fn script_of_the_last_number(rt: HostRuntime) {
    expect(&rt, 4294967295, 817, 1084418934);
}

// The bytes of the source are the same text, whatever their pieces.
#[test]
fn source_of_one(rt: HostRuntime) {
    let mut source = GenSource::new(1);
    let mut piece = [0; 7];
    let mut sum = 2166136261;
    for _ in 0..20000 {
        match source.take(&mut piece) {
            Ok(count) => sum = mix(sum, &piece[..count]),
            Err(_) => break,
        }
    }
    assert_eq!(rt; sum, 983417299);
    assert_eq!(rt; source.take(&mut piece), Ok(0));
}

#[test]
fn source_begins_with_the_first_line(rt: HostRuntime) {
    let mut line = ArrayVec::new();
    assert!(rt; Gen::new(1).next(&mut line));
    let mut source = GenSource::new(1);
    let mut piece = [0; 160];
    let count = source.take(&mut piece).unwrap_or(0);
    assert_eq!(rt; &piece[..count], line.as_slice());
    assert_eq!(rt; source.take(&mut piece), Ok(1));
    assert_eq!(rt; piece[0], b'\n');
}
