// Laws of settling, each the contract of a function that does nothing. They speak of numbers alone: uac_levels ties them to a run.
ghost use Rattle.uac_settle.specs.SettleLaws.{GapsGoHome, GapsOverIntegers, GapsBegin, IntervalsGoOn, LostReportsGoOn, StretchesSettle};
ghost use Rattle.uac_settle.specs.SettleLaws.{NoBoundIsLonger, StretchesGoOn, IntervalsEndByCount};

/// From a report that came to the next one that comes, the level goes home by the rate's pull in each microframe, until it is within four
/// frames of its target, and then it stays there.
pub fn gaps_go_home()
    ensures numbers { GapsGoHome }
    ensures over_integers { GapsOverIntegers }
{}

/// A report that comes begins a gap; intervals whose packets come, and reports that are lost, go on with it.
pub fn gaps_begin_and_go_on()
    ensures begin { GapsBegin }
    ensures interval { IntervalsGoOn }
    ensures lost_report { LostReportsGoOn }
{}

/// Gaps one after the other take every stretch home in the time that its rate has for it.
pub fn stretches_settle()
    ensures { StretchesSettle }
{}

/// A stretch begins where the count of a stream's microframes ends an interval, and goes on with whatever interval comes next.
pub fn stretches_go_on()
    ensures begin { IntervalsEndByCount }
    ensures goes_on { StretchesGoOn }
{}

/// The bound of each rate is at most 16,384 microframes.
pub fn no_bound_is_longer()
    ensures { NoBoundIsLonger }
{}
