// Laws of sound functions, each the contract of a function that does nothing.
ghost use Rattle.std.specs.Prelude.{◌≤◌, length};
ghost use Rattle.uac_topology.specs.Function.{FunctionFields};
ghost use Rattle.uac_topology.specs.FunctionKept.{AreInRange, AreLinks, AreNumbered, HaveChannels, HavePins};
ghost use Rattle.uac_topology.specs.Topology.{IsSoundFunction, SoundHasNoCycle, CyclesAreRefused};

use crate::function::Function;

/// No entity of a sound function has a walk of source links back to itself.
pub fn no_cycle()
    ensures { SoundHasNoCycle }
{}

/// Blocks are refused by U6 exactly where their names are in order and their signal links have a cycle, by U7 exactly
/// where no signal links have one and clock links have one.
pub fn cycles_are_refused()
    ensures { CyclesAreRefused }
{}

/// Every function that there is breaks no rule.
pub fn functions_are_sound(function: &Function)
    ensures { IsSoundFunction function.now }
{
    let _fields = &function.total;
}

/// A sound function has at most eight clock domains and at most eight streaming interfaces.
pub fn sound_functions_are_small()
    ensures { (function : FunctionFields) → IsSoundFunction function → (length function.domains ≤ 8) × (length function.streams ≤ 8) }
{}

/// Each entity of a sound function that takes a clock or a signal from others has a pin, and none has more than 248.
pub fn entities_have_pins()
    ensures { (function : FunctionFields) → IsSoundFunction function → HavePins function.entities }
{}

/// Each entity of a sound function that is no clock puts out 1 to 32 channels.
pub fn entities_have_channels()
    ensures { (function : FunctionFields) → IsSoundFunction function → HaveChannels function.entities }
{}

/// In each setting of a sound function a Type I format has numbers in range, and the endpoints are of high speed.
pub fn settings_are_in_range()
    ensures { (function : FunctionFields) → IsSoundFunction function → AreInRange function.streams }
{}

/// Each setting of a sound function that has a link has one to its interface's terminal, which is a USB streaming terminal.
pub fn settings_are_linked()
    ensures { (function : FunctionFields) → IsSoundFunction function → AreLinks function }
{}

/// The interfaces of a sound function have different numbers, which are bytes, and the settings of each streaming interface, at
/// most 16, are numbered from 0.
pub fn interfaces_are_numbered()
    ensures { (function : FunctionFields) → IsSoundFunction function → AreNumbered function }
{}
