// Worked examples. The numbers were worked out from the definitions by hand.
use uac_clock::{Nominal, Phase, RATES, nominal, step};

#[test]
fn nominal_values_of_the_rates(rt: HostRuntime) {
    let table = [
        (8000, 65536, 65, 0, 2),
        (11025, 90316, 90, 1, 2),
        (16000, 131072, 131, 1, 3),
        (22050, 180633, 180, 2, 3),
        (32000, 262144, 262, 3, 5),
        (44100, 361267, 361, 5, 6),
        (48000, 393216, 393, 5, 7),
        (64000, 524288, 524, 7, 9),
        (88200, 722534, 722, 11, 12),
        (96000, 786432, 786, 11, 13),
        (176400, 1445068, 1445, 22, 23),
        (192000, 1572864, 1572, 23, 25),
    ];
    for (rate, f, e, lo, hi) in table {
        assert!(rt; RATES.contains(&rate));
        assert_eq!(rt; nominal(rate), Some(Nominal { f, e, lo, hi }), "{rate} Hz");
        assert_eq!(rt; nominal(rate + 1), None, "{rate} Hz and one");
    }
}

#[test]
fn a_clock_that_is_off(rt: HostRuntime) {
    let nominal = nominal(44100).expect(&rt, "a rate");
    let table = [
        (0, 361267),
        (1000, 361628),
        (-1000, 360906),
        (-3, 361266),
        (100000, 397393),
    ];
    for (ppm, frames) in table {
        assert!(rt; -100000 <= ppm && ppm <= 100000);
        assert_eq!(rt; step(&nominal, ppm), frames, "{ppm} ppm");
    }
}

#[test]
fn half_a_frame_is_kept(rt: HostRuntime) {
    let mut phase = Phase::new();
    for ticks in [5, 6, 5, 6] {
        assert_eq!(rt; phase.advance(361267), ticks);
    }
    assert_eq!(rt; phase.advance(4294967295), 65536);
}
