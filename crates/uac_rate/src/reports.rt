// The feedback value by which a device asks for more frames or fewer.
ghost use Rattle.std.specs.Prelude.{◌≡◌, ◌≤◌};
ghost use Rattle.uac_clock.specs.Nominal.{IsNominal};
ghost use Rattle.uac_rate.specs.Reports.{report_of};

use uac_clock::Nominal;
use uac_clock::laws::nominal_values_leave_room;

/// The report of a primed stream whose ring holds `level` frames and should hold `target`: frames in a microframe, in 65,536ths
/// (USB 2.0, 5.12.4.2). Each frame too few asks for 1,024 more, between the least and the greatest packet (profile).
pub fn report(nominal: &Nominal, target: u32, level: u32) -> u32
    requires of_a_rate { IsNominal nominal.now }
    requires target { target ≤ 4096 }
    requires level { level ≤ 4096 }
    ensures { result ≡ report_of nominal.now target level }
{
    nominal_values_leave_room();
    let least = nominal.lo * 65536;
    let most = nominal.hi * 65536;
    let wanted = (nominal.f + 1024 * target).saturating_sub(1024 * level);
    wanted.clamp(least, most)
}
