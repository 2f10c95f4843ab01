// Gains of volumes, and samples that are scaled by them.
use uac_gain::{gain, saturate, scale};

#[test]
fn gains_and_scaling(rt: HostRuntime) {
    for (value, want) in [
        (0, Some(1073741824)),
        (-256, Some(956973408)),
        (-512, Some(852903447)),
        (256, Some(1204758141)),
        (-128, Some(1013677647)),
        (-32768, Some(0)),
        (-8192, Some(26971170)),
        (-8320, None),
        (-255, None),
        (-64, None),
        (-24832, None),
        (3200, None),
    ] {
        assert_eq!(rt; gain(value), want, "at {value}");
    }
    for (volume, sample, want) in [
        (-256, 1073741824, 956973408),
        (-256, 1, 0),
        (-256, -1, -1),
        (128, 1073741824, 1137365026),
        (128, 2147483647, 2147483647),
        (3072, 1, 3),
        (3072, -1, -4),
        (3072, -2147483648, -2147483648),
    ] {
        let scaled = gain(volume).map(|gain| scale(sample, gain));
        assert_eq!(rt; scaled, Some(want), "at {volume} of {sample}");
    }
    assert_eq!(rt; saturate(2 * 2147483647), 2147483647);
    assert_eq!(rt; saturate(2 * -2147483648), -2147483648);
}
