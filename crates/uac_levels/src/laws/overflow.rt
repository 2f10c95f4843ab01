// Laws of rings that have room, each the contract of a function that does nothing.
ghost use Rattle.uac_levels.specs.Recording.{RunsStartRecorded, MicroframesStayRecorded, CallsStayRecorded, TransfersStayRecorded};
ghost use Rattle.uac_levels.specs.Recording.{RingsHoldAnInterval};

/// The rings of streams from the device hold at most what a service interval can bring, from the start on and after each microframe,
/// control transfer and call of a sound run in its bands; and no microframe finds a ring without room.
#[tactic(auto)]
pub fn no_ring_overflows()
    ensures start { RunsStartRecorded }
    ensures microframes { MicroframesStayRecorded }
    ensures calls { CallsStayRecorded }
    ensures transfers { TransfersStayRecorded }
    ensures interval { RingsHoldAnInterval }
{}
