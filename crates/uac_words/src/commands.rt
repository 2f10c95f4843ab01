// What the words of the command line ask for.
use std::alloc::AllocError;

/// A command of the program.
#[derive(Clone, Copy, Debug, PartialEq, Eq)]
pub enum Command {
    /// Whether a descriptor is sound, and if not, which rule it breaks first.
    Check,
    /// The blocks, the entities and the settings of a sound descriptor.
    Show,
    /// What a host's mixer shows of a fresh device.
    Elements,
    /// Runs a script.
    Run,
    /// Runs the script that is made from this number.
    Gen(u32),
    /// Runs a script on a full-speed stream of this rate in Hz.
    Full(u32),
    /// How long a stream takes to come home after a lost packet, at each rate.
    Settle,
    /// Runs a script on a pair of streams of this rate in Hz, of which the host follows one by the other.
    Pair(u32),
    /// Runs a script on a front panel: knobs on a device, and a host that hears of them.
    Panel,
}

/// Which rack renders.
#[derive(Clone, Copy, Debug, PartialEq, Eq)]
pub enum RackChoice {
    /// The plain units, one sample after the other.
    Plain,
    /// The units that render eight lanes at a time.
    Lanes,
}

/// What the words of a command line ask for.
#[derive(Clone, Copy, Debug, PartialEq, Eq)]
pub struct Invocation {
    /// The command.
    pub command: Command,
    /// The rack; the plain one where the words name none.
    pub rack: RackChoice,
}

/// Why a command line isn't answered.
#[derive(Clone, Copy, Debug, PartialEq, Eq)]
pub enum WordsFault {
    /// The words ask for nothing that the program does.
    Usage,
    /// There was no memory to read them.
    NoMemory,
}

impl From<AllocError> for WordsFault {
    ghost use Rattle.std.specs.Prelude.{◌≡◌};
    ghost use Rattle.uac_words.specs.declared.commands.WordsFault.TheVariants as faults;

    ghost from_gives = { λ _ e. e ≡ faults.NoMemory };

    fn from(_refused: AllocError) -> WordsFault {
        WordsFault::NoMemory
    }
}
