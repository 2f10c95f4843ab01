// Worked examples. The numbers were worked out from the definitions by hand.
use uac_settle::settle_bound;

#[test]
fn bounds_of_the_rates(rt: HostRuntime) {
    let table = [
        (8000, 2129),
        (11025, 2142),
        (16000, 2164),
        (22050, 2190),
        (32000, 2235),
        (44100, 2293),
        (48000, 2312),
        (64000, 2395),
        (88200, 9151),
        (96000, 2579),
        (176400, 4610),
        (192000, 3362),
    ];
    for (rate, microframes) in table {
        assert_eq!(rt; settle_bound(rate), Some(microframes), "{rate} Hz");
    }
    for rate in [0, 7999, 44000, 192001] {
        assert_eq!(rt; settle_bound(rate), None, "{rate} Hz");
    }
}
