//! Statuses.

ghost use Rattle.std.specs.Prelude.{◌≡◌, ◌<◌};
ghost use Rattle.nv_c.specs.Status.{number_of};

use nv_base::Fault;

/// The call is done.
pub const DONE: u32 = 0;
/// A mode has more than 12 bits.
pub const BAD_MODE: u32 = 64;
/// Less was listed or shown.
pub const NO_PLACE: u32 = 65;
/// The buffer is too short.
pub const SHORT: u32 = 66;
/// There is no world.
pub const NO_WORLD: u32 = 67;

/// The number of a fault, 1 to 29, by its name.
pub(crate) fn number_of(fault: &Fault) -> u32
    ensures number { result ≡ number_of fault.now }
    ensures some { 0 < result }
{
    match fault {
        Fault::OutOfMemory(_) => 1,
        Fault::BadGeometry(_) => 2,
        Fault::Stale => 3,
        Fault::NotFile => 4,
        Fault::NotDirectory => 5,
        Fault::BadName => 6,
        Fault::Missing => 7,
        Fault::Exists => 8,
        Fault::NotEmpty => 9,
        Fault::FileTooBig => 10,
        Fault::WriteTooBig => 11,
        Fault::NoInode => 12,
        Fault::NoSpace => 13,
        Fault::CommitLimit => 14,
        Fault::EpochLimit => 15,
        Fault::TooManySnapshots => 16,
        Fault::NoSnapshot => 17,
        Fault::Pinned => 18,
        Fault::MoveDirectory => 19,
        Fault::Contended => 20,
        Fault::ActorBusy => 21,
        Fault::ActorIdle => 22,
        Fault::NoActor => 23,
        Fault::Mismatch(_) => 24,
        Fault::SeatsOut => 25,
        Fault::BadImage(_) => 26,
        Fault::ScriptFault(_, _) => 27,
        Fault::Read => 28,
        Fault::Write => 29,
    }
}
