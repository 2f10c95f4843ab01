// Laws of streams that come home, each the contract of a function that does nothing.
ghost use Rattle.uac_levels.specs.Homing.{RunsStartTrailed, MicroframesStayTrailed, CallsStayTrailed, TransfersStayTrailed};

/// In a steady run each level that is told of a primed stream is within 4 frames of its target once the stream has settled after its last
/// lost packet, and within 3 where it lost none since it was primed.
#[tactic(auto)]
pub fn streams_come_home()
    ensures start { RunsStartTrailed }
    ensures microframes { MicroframesStayTrailed }
    ensures calls { CallsStayTrailed }
    ensures transfers { TransfersStayTrailed }
{}
