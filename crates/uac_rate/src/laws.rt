// Laws of levels, each the contract of a function that does nothing. They speak of numbers alone: uac_levels ties them to a run.
ghost use Rattle.uac_rate.specs.LevelLaws.{RatesHaveBands, PacketsAddUp, PacketsFollowRemainders, SteadyClocksAreSlight, SlightStepsAddUp};
ghost use Rattle.uac_rate.specs.LevelLaws.{PacketsAreWhole, TicksAreWhole, ReportsFallDue, IntervalsKeepRobust, ReportsKeepRobust};
ghost use Rattle.uac_rate.specs.LevelLaws.{FreeFormula, IntervalsKeepTight, ReportsKeepTight, RobustIsNear, TightIsNear};
ghost use Rattle.uac_rate.specs.LevelLaws.{RingsHoldEnough, PrimedInRange, PrimedIsRobust, PrimedIsTight};
ghost use Rattle.uac_rate.specs.Reports.{ReportsOverIntegers};
ghost use Rattle.uac_rate.specs.Steadiness.{FourLostAreInARow};

use uac_clock::laws::nominal_values_leave_room;

/// Each of the twelve rates has room, and a band of 65 frames.
pub fn rates_have_bands()
    ensures { RatesHaveBands }
{
    nominal_values_leave_room();
}

/// A packet of one microframe more has that microframe's frames more; and what a packet has follows from the remainder before it.
pub fn packets_add_up()
    ensures by_one { PacketsAddUp }
    ensures by_remainder { PacketsFollowRemainders }
{}

/// A report is the nominal value and 1,024 for each frame that the level is below the target, over the integers, and clamped.
pub fn reports_are_clamped_sums()
    ensures { ReportsOverIntegers }
{}

/// Four reports were lost in succession exactly where the list of reports has four lost ones in a row.
pub fn four_lost_are_in_a_row()
    ensures { FourLostAreInARow }
{}

/// A steady clock is off by at most a thousandth of its rate, also over an interval.
pub fn steady_clocks_are_slight()
    ensures step { SteadyClocksAreSlight }
    ensures steps { SlightStepsAddUp }
{}

/// In each microframe of an interval the least whole frames to the greatest come, and as many ticks.
pub fn packets_and_ticks_are_whole()
    ensures packets { PacketsAreWhole }
    ensures ticks { TicksAreWhole }
{}

/// When reports fall due, by the count of a stream's microframes at the end of an interval.
pub fn reports_fall_due()
    ensures { ReportsFallDue }
{}

/// A service interval keeps a robust stream robust, whether its packet came or was lost.
pub fn an_interval_keeps_robust()
    ensures { IntervalsKeepRobust }
{}

/// A feedback report keeps a robust stream robust, whether it came or was lost, where it isn't the fourth in succession.
pub fn a_report_keeps_robust()
    ensures { ReportsKeepRobust }
{}

/// How the error at an anchor goes home, as long as the report of the anchor isn't clamped at either end.
pub fn free_formula()
    ensures { FreeFormula }
{}

/// A service interval whose packet came keeps a tight stream tight.
pub fn an_interval_keeps_tight()
    ensures { IntervalsKeepTight }
{}

/// A feedback report keeps a tight stream tight, whether it came, which makes a new anchor, or was lost.
pub fn a_report_keeps_tight()
    ensures { ReportsKeepTight }
{}

/// At the end of an interval a robust stream is within 130 frames of its target, and a tight one within 3.
pub fn levels_stay_near()
    ensures robust { RobustIsNear }
    ensures tight { TightIsNear }
{}

/// At every moment a primed ring holds 101 to 435 frames where packets come in each microframe, and 182 to 1,041 else.
pub fn rings_hold_enough()
    ensures { RingsHoldEnough }
{}

/// A stream is primed at a level in its range, and is robust and tight then.
pub fn streams_are_primed_in_their_bands()
    ensures target { PrimedInRange }
    ensures robust { PrimedIsRobust }
    ensures tight { PrimedIsTight }
{}
