// Laws of generated scripts.
ghost use Rattle.uac_promises.specs.Generated.{GeneratedScriptsAreScripts, GeneratedScriptsAreDone, GeneratedScriptsAreSteady};

/// The script that a number below 2 to the power 32 generates is a script: each of its lines has at most 4,096 bytes and no newline, and
/// all of them are fewer bytes than an input may have. Whatever the meters show, none of its lines is refused, and it may end where it
/// ends. What it gives is steady: no clock is off by more than 1,000 ppm, and no stream loses four feedback reports in succession.
pub fn generated_scripts_run_whole()
    ensures script { GeneratedScriptsAreScripts }
    ensures done { GeneratedScriptsAreDone }
    ensures steady { GeneratedScriptsAreSteady }
{}
