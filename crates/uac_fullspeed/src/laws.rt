// Laws of levels at full speed. Those up to the bands of a point speak of numbers alone.
ghost use Rattle.uac_fullspeed.specs.FullSpeedNominal.{FsReportsOverIntegers};
ghost use Rattle.uac_fullspeed.specs.FullSpeedBands.{FsRatesHaveBands, FsSteadyClocksAreSlight, FramesKeepRobust, FsReportsKeepRobust};
ghost use Rattle.uac_fullspeed.specs.FullSpeedBands.{FramesKeepTight, FsReportsKeepTight, FsRobustIsNear, FsTightIsNear};
ghost use Rattle.uac_fullspeed.specs.FullSpeedBands.{FsRingsHoldEnough, FsPrimedInBands};
ghost use Rattle.uac_fullspeed.specs.FullSpeedPromise.{FullSpeedKeepsPromises, HappeningsPrint};
ghost use Rattle.uac_fullspeed.specs.FullSpeedMachine.{FsFrontsKeepPromises, FsHasOneTranscript, FsLinesAreSayings};

/// Each of the ten rates has room, and a band of 65 frames; a steady clock is off by at most a thousandth of its rate.
pub fn fs_rates_have_bands()
    ensures bands { FsRatesHaveBands }
    ensures steps { FsSteadyClocksAreSlight }
{}

/// A report is the nominal value and 256 for each frame that the level is below the target, over the integers, and clamped.
#[tactic(auto, using(crate::proofs::ReportsLemmas::over_integers))]
pub fn fs_reports_are_clamped_sums()
    ensures { FsReportsOverIntegers }
{}

/// A bus frame keeps a robust stream robust, whether its packet came or was lost, and so does a report.
pub fn frames_and_reports_keep_robust()
    ensures frames { FramesKeepRobust }
    ensures reports { FsReportsKeepRobust }
{}

/// A bus frame whose packet came keeps a tight stream tight, and so does a report.
pub fn frames_and_reports_keep_tight()
    ensures frames { FramesKeepTight }
    ensures reports { FsReportsKeepTight }
{}

/// A robust stream is within 129 frames of its target, and a tight one within 8. At every moment of a bus frame that begins with a robust
/// stream its ring holds 24 to 584 frames. A stream that was primed just now is robust and tight.
pub fn fs_levels_stay_near()
    ensures robust { FsRobustIsNear }
    ensures tight { FsTightIsNear }
    ensures moments { FsRingsHoldEnough }
    ensures primed { FsPrimedInBands }
{}

/// Of every list of lines that leaves a steady bench, and so of every steady front of a script: at the end of each bus frame the level of a
/// primed stream is within 135 frames of its target, and within 8 where no packet was lost since it was primed; at every moment its ring
/// holds 24 to 584 frames; no ring is found empty, and none has no room. So say the printed lines, too.
pub fn full_speed_keeps_promises()
    ensures promised { FullSpeedKeepsPromises }
    ensures printed { HappeningsPrint }
{}

/// The lines of a script come to what they say does, and the table of spellings gives a script one transcript; and of every steady front
/// of its lines what is promised holds.
pub fn full_speed_scripts_keep_promises()
    ensures lines { FsLinesAreSayings }
    ensures one { FsHasOneTranscript }
    ensures fronts { FsFrontsKeepPromises }
{
    full_speed_keeps_promises();
}
