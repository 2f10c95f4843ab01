// The laws of what the host knows, of what the report counts, of what comes out of packets, and of the settings in force.
ghost use Rattle.uac_promises.specs.Believed.{KnownValuesAreSo};
ghost use Rattle.uac_promises.specs.Counts.{CountsStayFar};
ghost use Rattle.uac_promises.specs.CutSamples.{SamplesAreCut};
ghost use Rattle.uac_promises.specs.Unknown.{ElementsStay, UnknownValuesAreLost, ValuesAreKnownAsTold};
ghost use Rattle.uac_promises.specs.ValidSettings.{SettingsStayValid};

/// What the host knows of a control is the device's value, whatever was sent, set, answered, stalled or broken before: so it is after
/// every list of lines of a script.
pub fn known_values_are_so()
    ensures { KnownValuesAreSo }
{}

/// A control's value is unknown to the host exactly from a set of it that broke, whether before or after the device acted, until a get that
/// brings all bytes of the control, or a set of it that is done. So it is after every list of lines of a script.
pub fn values_are_unknown_between()
    ensures { UnknownValuesAreLost }
{}

/// What a host believes, by what each line tells: a control's value is known or unknown as was told of it last, and known where nothing
/// was told.
pub fn values_are_known_as_told()
    ensures { ValuesAreKnownAsTold }
{}

/// The controls that the host's view shows are the same ones, in the same order, after every list of lines from the descriptor's end on.
pub fn elements_stay()
    ensures { ElementsStay }
{}

/// No count of a run comes near the greatest number of 64 bits, at which it would stand still: after every list of lines, as many as an
/// input can have, each is below 2^63. So no sum was ever cut, and each count is the true number.
pub fn counts_stay_far()
    ensures { CountsStayFar }
{}

/// What comes out of a packet is what went in, each sample cut to the stream's bits: after every list of lines of a script, in each microframe that
/// may come and at the turn of each of its packets. The frames that arrive at the device are those of the interface's track, and those that
/// the host hears, which lines `r` print, are those of the wire.
pub fn samples_are_cut()
    ensures { SamplesAreCut }
{}

/// Every setting in force is valid: each interface is in setting 0, or in one that its endpoints and the rate held can run. So it is after
/// every list of lines of a script, steady or not.
pub fn settings_stay_valid()
    ensures { SettingsStayValid }
{}
