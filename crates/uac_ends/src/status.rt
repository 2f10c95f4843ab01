// How a run ends.
ghost use Rattle.std.specs.Prelude.{◌≡◌};
ghost use Rattle.std.specs.Process.{exit_status};
ghost use Rattle.uac_ends.specs.Exit.{exit_number};

use std::process::ExitCode;

/// How a run ended. Its number is the exit status of the process.
#[derive(Clone, Copy, Debug, PartialEq, Eq)]
pub enum Status {
    /// The whole input was read and the whole text written.
    Ok = 0,
    /// The descriptor breaks a rule.
    Descriptor = 1,
    /// A line of the script breaks a rule.
    Script = 2,
    /// The words of the command line are refused.
    Usage = 3,
    /// A read failed.
    ReadFault = 4,
    /// A write failed.
    WriteFault = 5,
    /// There was no memory.
    NoMemory = 6,
    /// The input is too long.
    TooLong = 7,
}

/// The exit status of the process for a run that ended so.
pub fn exit_code(status: Status) -> ExitCode
    ensures { exit_status result ≡ exit_number status }
{
    ExitCode::from(status as u8)
}
