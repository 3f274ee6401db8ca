//! How a refusal is told.

ghost use Rattle.std.specs.Prelude.{◌≡◌};
ghost use Rattle.nv_mount_answers.specs.Faults.{errno_of};

use nv_base::Fault;
use nv_fuse::Errno;

/// The error that tells a fault.
pub fn errno_of(fault: Fault) -> Errno
    // Each fault is told as one error, by one table.
    ensures { result ≡ errno_of fault }
{
    match fault {
        Fault::OutOfMemory(_) => Errno::OutOfMemory,
        Fault::Stale => Errno::Stale,
        Fault::NotFile => Errno::IsDirectory,
        Fault::NotDirectory => Errno::NotDirectory,
        Fault::BadName => Errno::Invalid,
        Fault::Missing => Errno::Missing,
        Fault::Exists => Errno::Exists,
        Fault::NotEmpty => Errno::NotEmpty,
        Fault::FileTooBig => Errno::FileTooBig,
        Fault::WriteTooBig => Errno::FileTooBig,
        Fault::NoInode => Errno::NoSpace,
        Fault::NoSpace => Errno::NoSpace,
        Fault::TooManySnapshots => Errno::NoSpace,
        Fault::NoSnapshot => Errno::Missing,
        Fault::Pinned => Errno::Busy,
        Fault::MoveDirectory => Errno::CrossDevice,
        Fault::CommitLimit => Errno::InputOutput,
        Fault::EpochLimit => Errno::InputOutput,
        Fault::Contended => Errno::InputOutput,
        Fault::ActorBusy => Errno::InputOutput,
        Fault::ActorIdle => Errno::InputOutput,
        Fault::NoActor => Errno::InputOutput,
        Fault::SeatsOut => Errno::InputOutput,
        Fault::Read => Errno::InputOutput,
        Fault::Write => Errno::InputOutput,
        Fault::BadGeometry(_) => Errno::InputOutput,
        Fault::Mismatch(_) => Errno::InputOutput,
        Fault::BadImage(_) => Errno::InputOutput,
        Fault::ScriptFault(_, _) => Errno::InputOutput,
    }
}
