// Laws of the life of a stream, each the contract of a function that does nothing.
ghost use Rattle.uac_levels.specs.Projection.{MicroframesAreLived, TracksGoOn, MicroframesKeepTheRest, MicroframesKeepOrder};
ghost use Rattle.uac_levels.specs.Projection.{StartsAreOrdered, DeviationsKeepOrder, RequestsKeepOrder, TransfersKeepOrder};
ghost use Rattle.uac_levels.specs.Projection.{MicroframesKeepFed, PacketsHaveTheirFrames};
ghost use Rattle.uac_levels.specs.Bands.{StartsInBand, StaysInBand, HoldsEnough, NeverDry, NeverOver, EndsNear, HoldsBetween};
ghost use Rattle.uac_levels.specs.BandRun.{SteadyMicroframesKeepBands, MicroframesFindNoneEmpty, SteadyMicroframesTellNear};
ghost use Rattle.uac_levels.specs.BandRun.{SteadinessLooksBack, SteadyRunsStaySteady};
ghost use Rattle.uac_levels.specs.Beginnings.{RunsStartInBand, CallsKeepBands};
ghost use Rattle.uac_levels.specs.BandTransfers.{TransfersKeepBands, MicroframesKeepSound, CallsKeepSound, TransfersKeepSound};
ghost use Rattle.uac_levels.specs.BandTransfers.{RunsStartSound};
ghost use Rattle.uac_levels.specs.BandTransfers.{CallsLookBack};

/// All that a microframe makes of a stream to the device follows from its own packet, its own clock, and whether its packet and its report
/// were lost.
#[tactic(auto)]
pub fn microframes_are_lived()
    ensures life { MicroframesAreLived }
    ensures track { TracksGoOn }
{}

/// A microframe leaves the function, the controls and the domains' clocks as they are.
#[tactic(auto)]
pub fn microframes_keep_order()
    ensures rest { MicroframesKeepTheRest }
    ensures order { MicroframesKeepOrder }
{}

/// A device is ordered at the start, and stays so.
#[tactic(auto)]
pub fn devices_are_ordered()
    ensures start { StartsAreOrdered }
    ensures deviation { DeviationsKeepOrder }
    ensures request { RequestsKeepOrder }
    ensures transfer { TransfersKeepOrder }
{}

/// A stream's packets have as many frames as its rate values say, microframe by microframe.
#[tactic(auto)]
pub fn packets_have_their_frames()
    ensures fed { MicroframesKeepFed }
    ensures frames { PacketsHaveTheirFrames }
{}

/// A stream starts in its band, and a steady microframe keeps it there.
#[tactic(auto)]
pub fn streams_stay_in_their_bands()
    ensures starts { StartsInBand }
    ensures stays { StaysInBand }
{}

/// In a steady microframe no tick finds a primed ring empty, and no packet comes to a ring without room for it.
#[tactic(auto)]
pub fn rings_run_neither_dry_nor_over()
    ensures enough { HoldsEnough }
    ensures dry { NeverDry }
    ensures over { NeverOver }
{}

/// Between two microframes the ring of a steady stream is in its band, and near its target where a service interval has ended.
#[tactic(auto)]
pub fn levels_are_near()
    ensures ends { EndsNear }
    ensures between { HoldsBetween }
{}

/// A microframe of a run that is steady after it keeps the run's streams in their bands.
#[tactic(auto)]
pub fn steady_microframes_keep_bands()
    ensures stays { SteadyMicroframesKeepBands }
{}

/// No microframe of a run in its bands finds a primed ring empty.
#[tactic(auto)]
pub fn microframes_find_none_empty()
    ensures none { MicroframesFindNoneEmpty }
{}

/// A microframe of a run that is steady after it tells levels of primed streams that are near their targets.
#[tactic(auto)]
pub fn steady_microframes_tell_near()
    ensures near { SteadyMicroframesTellNear }
{}

/// A run starts in its bands, and what is asked of it between microframes, but for control transfers, keeps it there.
#[tactic(auto)]
pub fn runs_start_in_their_bands()
    ensures start { RunsStartInBand }
    ensures calls { CallsKeepBands }
{}

/// A run that is steady after so many microframes was so before each, stays in its bands, finds no primed ring empty, and tells levels
/// near their targets.
#[tactic(auto)]
pub fn steady_runs_stay_steady()
    ensures back { SteadinessLooksBack }
    ensures all { SteadyRunsStaySteady }
    ensures calls { CallsLookBack }
{}

/// A control transfer keeps a sound run in its bands.
#[tactic(auto)]
pub fn transfers_keep_bands()
    ensures transfers { TransfersKeepBands }
{}

/// A run starts sound, microframes keep it so, and so do control transfers and what else is asked of it between them.
#[tactic(auto)]
pub fn runs_stay_sound()
    ensures start { RunsStartSound }
    ensures microframes { MicroframesKeepSound }
    ensures calls { CallsKeepSound }
    ensures transfers { TransfersKeepSound }
{}
