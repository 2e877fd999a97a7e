// How a program ends.
ghost use Rattle.std.specs.Prelude.{◌≡◌, cond, is_ok};
ghost use Rattle.std.specs.Process.{exit_status};

use std::fmt::Display;
use std::process::ExitCode;

// The status that a program ends with. A fault is said on standard error.
pub fn status<E: Display + Drop>(rt: &HostRuntime, ended: Result<(), E>) -> ExitCode
    ensures value { exit_status result ≡ cond (is_ok ended) 0 1 }
{
    match ended {
        Ok(()) => ExitCode::SUCCESS,
        Err(fault) => {
            let _ = eprintln!(rt; "{fault}");
            ExitCode::FAILURE
        }
    }
}
