// Laws of the lines that steady scripts print.
ghost use Rattle.uac_promises.specs.MomentLaws.{AllIsPut, AllIsTaken, DomainsAreSeen, FramesAreSeen, PartsMakeMicroframes, TicksAreSeen, TurnsAreSeen};
ghost use Rattle.uac_promises.specs.PrintedText.{TextsAreReadBack};
ghost use Rattle.uac_promises.specs.Promises.{LinesAreSeen, LinesBeginAsPromised, OneMoreLineIsKept, SteadyScriptsKeepPromises};

/// While every clock keeps within 1,000 ppm and at most three feedback reports of a stream in succession are lost, no primed ring runs
/// empty and no ring overflows, whatever data packets are lost. Each level that is told of a primed stream lies within 130 frames of its
/// target; within 4 once the stream has settled after its last lost packet; and within 3 where it lost none since it was primed. So it is
/// for every list of lines of a script, and for every front of the microframes of a line `m` behind them.
/// The levels in a report are so, too, and its counts of rings that were found empty or full are 0. At every moment a primed ring holds
/// 101 to 435 frames, or 182 to 1,041 where packets come every 2, 4 or 8 microframes, and a ring of a stream from the device at most what
/// its interval can bring.
pub fn steady_scripts_keep_promises()
    ensures promises { SteadyScriptsKeepPromises }
    ensures seen { LinesAreSeen }
    ensures one_more { OneMoreLineIsKept }
    ensures begun { LinesBeginAsPromised }
{}

/// The moments of a microframe are those before and after each of its ticks, and before and after each frame that it puts into a ring or
/// takes out of one, stream after stream and part after part: between two of them at most one frame moves in a ring.
pub fn moments_are_all()
    ensures ticks { TicksAreSeen }
    ensures frames { FramesAreSeen }
    ensures turns { TurnsAreSeen }
    ensures domains { DomainsAreSeen }
    ensures puts { AllIsPut }
    ensures takes { AllIsTaken }
    ensures parts { PartsMakeMicroframes }
{}

/// The text that lines of a script print, steady or not, tells the lines that they print: cut at its newlines it is these, and what it has of
/// lines that begin with `under `, `over ` or `l ` is what they say of rings, with their numbers.
pub fn texts_are_read_back()
    ensures { TextsAreReadBack }
{}
