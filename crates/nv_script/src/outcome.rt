//! How a program that plays scripts ends: its exit status, and the line that tells of a fault.

ghost use Rattle.std.specs.Prelude.{◌≡◌, ◌++◌, IfOk, codes, string_bytes};
ghost use Rattle.std.specs.Process.{exit_status};
ghost use Rattle.nv_base.specs.Texts.{fault_text};
ghost use Rattle.nv_script.specs.Outcomes.{status_of};
ghost use Rattle.nv_script.specs.Texts.{line_of};

use crate::fault_text;
use nv_base::Fault;
use std::alloc::{AllocError, Global};
use std::process::ExitCode;

/// How the program ends.
#[derive(Clone, Copy, Drop)]
pub enum Outcome {
    /// A script was played to its end.
    Played,
    /// Help or the version was shown.
    Shown,
    /// The command line was refused.
    Refused,
    /// Memory was refused to the words of the command line. What reads them tells no more than that.
    OutOfMemory,
    /// A fault ended it.
    Failed(Fault),
}

/// The exit status: 0 if all was done, 1 after a fault or want of memory, 2 for a command line that is refused.
/// Only tested: `run` is answered by the outcome that it names, apart from command lines.
pub fn exit_code(outcome: Outcome) -> ExitCode
    // The exit status of an outcome is 0 where a script was played or help or the version shown.
    // The exit status is 1 after a fault.
    // The exit status is 2 for a refused command line.
    ensures { exit_status result ≡ status_of outcome }
{
    match outcome {
        Outcome::Played => ExitCode::SUCCESS,
        Outcome::Shown => ExitCode::SUCCESS,
        Outcome::Refused => ExitCode::from(2),
        Outcome::OutOfMemory => ExitCode::FAILURE,
        Outcome::Failed(_) => ExitCode::FAILURE,
    }
}

/// The line that tells of a fault, for standard error.
/// Only tested: what standard error takes of it.
pub fn fault_line(alloc: Global, fault: &Fault) -> Result<String, AllocError>
    // The line that tells of a fault is `novacore: ` and the fault's text.
    ensures { IfOk result (λ line. string_bytes line
        ≡ line_of (codes "novacore: " ++ fault_text fault.now)) }
{
    let text = fault_text(alloc, fault)?;
    format!(in alloc; "novacore: {text}\n")
}
