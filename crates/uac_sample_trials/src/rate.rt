// Worked examples. The numbers were worked out from the definitions by hand.
use uac_clock::nominal;
use uac_rate::{Pacer, Steady, report};

#[test]
fn half_a_frame_is_kept(rt: HostRuntime) {
    let mut pacer = Pacer::new();
    for frames in [5, 6, 5, 6] {
        assert_eq!(rt; pacer.next(361267), frames);
    }
}

#[test]
fn reports_at_48000_hz(rt: HostRuntime) {
    let nominal = nominal(48000).expect(&rt, "a rate");
    let table = [
        (258, 393216),
        (257, 394240),
        (259, 392192),
        (193, 458752),
        (323, 327680),
        (4096, 327680),
    ];
    for (level, value) in table {
        assert_eq!(rt; report(&nominal, 258, level), value, "{level} frames");
    }
}

#[test]
fn steady_until_a_fourth_report_is_lost(rt: HostRuntime) {
    let mut steady = Steady::new();
    steady.deviate(1000);
    steady.deviate(-1000);
    for lost in [true, true, true, false, true, true, true] {
        steady.report(7, lost);
    }
    assert!(rt; steady.holds());
    steady.restart(7);
    steady.report(7, true);
    assert!(rt; steady.holds());
    for _ in 0..3 {
        steady.report(7, true);
    }
    assert!(rt; !steady.holds());
    steady.restart(7);
    assert!(rt; !steady.holds());
}

#[test]
fn not_steady_past_a_thousandth(rt: HostRuntime) {
    for ppm in [1001, -1001] {
        let mut steady = Steady::new();
        steady.deviate(ppm);
        steady.deviate(0);
        assert!(rt; !steady.holds(), "{ppm} ppm");
    }
}
