// Laws of steady scripts.
ghost use Rattle.uac_promises.specs.Scripts.{SteadyScriptsKeepBands};

/// While every clock keeps within 1,000 ppm and at most three feedback reports of a stream in succession are lost, no primed ring runs
/// empty, whatever data packets are lost, and each level that is told lies within 130 frames of its target: so it is for every list of
/// lines of a script.
pub fn steady_scripts_keep_bands()
    ensures { SteadyScriptsKeepBands }
{}
