//! What a call is to do.

ghost use Rattle.std.specs.Prelude.{◌≡◌, true};
ghost use Rattle.nv_calls.specs.Locked.{handles};
ghost use Rattle.nv_machine.specs.Sequence.{nothing_looked};
ghost use Rattle.nv_machine.specs.Step.{handle_at};
ghost use Rattle.nv_core.specs.CallNames.{name_owed};
ghost use Rattle.nv_core.specs.Shown.{answered};
ghost use Rattle.nv_core.specs.GhostCalls.{IsAtStart, IsRequestOf, IsVisit, is_change};

use crate::call_name::CallName;
use nv_base::{Bytes, Handle};
use nv_calls::{Answer, Call, SnapshotOrCleanerCall, Update};
use std::alloc::Global;

/// What a call is to do.
#[derive(Debug, Drop)]
pub(crate) enum Request {
    /// It changes nodes. The text is that of a write.
    Change(Update, Bytes),
    /// It reads one node.
    Visit(Call),
    /// It is on snapshots.
    SnapshotOrCleaner(SnapshotOrCleanerCall),
    /// Its commit has it.
    Taken,
}

/// What a call is answered, apart from the handle of the inode that it makes. With it stays the name of the call, as a
/// commit uses up the rest: a write alone is answered by a count.
#[derive(Clone, Copy, Debug, PartialEq, Eq)]
pub(crate) enum PendingAnswer {
    Made(CallName),
    Count(u64),
    Nothing(CallName),
}

impl PendingAnswer {
    /// The answer, where a new inode has this handle.
    pub(crate) fn answer(self, made: Handle) -> Answer
        ensures { result ≡ answered self made }
    {
        match self {
            PendingAnswer::Made(_) => Answer::Made(made),
            PendingAnswer::Count(count) => Answer::Count(count),
            PendingAnswer::Nothing(_) => Answer::Nothing,
        }
    }

    /// The name of the call.
    pub(crate) fn call(self) -> CallName
        ensures { result ≡ name_owed self }
    {
        match self {
            PendingAnswer::Made(name) | PendingAnswer::Nothing(name) => name,
            PendingAnswer::Count(_) => CallName::Write,
        }
    }
}

/// The request of a call, and what it is answered. Takes no memory.
pub(crate) fn request_of(alloc: Global, call: Call) -> (Request, PendingAnswer)
    ensures of { IsRequestOf result.0 result.1 call }
    ensures kind { IsAtStart result.0 }
{
    let (update, owed) = match call {
        Call::Write { file, offset, text } => return request_of_write(file, offset, text),
        Call::Create { dir, name, mode } => (
            Update::Create { dir, name, mode },
            PendingAnswer::Made(CallName::Create),
        ),
        Call::Mkdir { dir, name, mode } => (
            Update::Mkdir { dir, name, mode },
            PendingAnswer::Made(CallName::Mkdir),
        ),
        Call::Size { file, size } => (
            Update::Size { file, size },
            PendingAnswer::Nothing(CallName::Size),
        ),
        Call::Mode { handle, mode } => (
            Update::Mode { handle, mode },
            PendingAnswer::Nothing(CallName::Mode),
        ),
        Call::Unlink { dir, name } => (
            Update::Unlink { dir, name },
            PendingAnswer::Nothing(CallName::Unlink),
        ),
        Call::Rmdir { dir, name } => (
            Update::Rmdir { dir, name },
            PendingAnswer::Nothing(CallName::Rmdir),
        ),
        Call::Rename { from, old, to, new } => {
            (
                Update::Rename { from, old, to, new },
                PendingAnswer::Nothing(CallName::Rename),
            )
        }
        Call::SnapshotOrCleaner(call) => return request_of_snapshot_or_cleaner(call),
        visit => return request_of_visit(visit),
    };
    (Request::Change(update, Bytes::empty(alloc)), owed)
}

fn request_of_snapshot_or_cleaner(call: SnapshotOrCleanerCall) -> (Request, PendingAnswer)
    ensures of { IsRequestOf result.0 result.1 (Call.SnapshotOrCleaner call) }
    ensures kind { IsAtStart result.0 }
{
    let owed = PendingAnswer::Nothing(CallName::on(&call));
    (Request::SnapshotOrCleaner(call), owed)
}

fn request_of_visit(visit: Call) -> (Request, PendingAnswer)
    requires { IsVisit visit }
    ensures of { IsRequestOf result.0 result.1 visit }
    ensures kind { IsAtStart result.0 }
{
    let owed = PendingAnswer::Nothing(CallName::of(&visit));
    (Request::Visit(visit), owed)
}

fn request_of_write(file: Handle, offset: u64, text: Bytes) -> (Request, PendingAnswer)
    ensures of { IsRequestOf result.0 result.1 (Call.Write file offset text) }
    ensures kind { is_change result.0 ≡ true }
{
    let count = text.len() as u64;
    let update = Update::Write {
        file,
        offset,
        count,
    };
    (Request::Change(update, text), PendingAnswer::Count(count))
}

/// The handle of the node that a visit reads.
pub(crate) fn visited(call: &Call) -> Handle
    requires { IsVisit call.now }
    ensures { result ≡ handle_at (handles nothing_looked call.now) 0 }
{
    match call {
        Call::Read { file, .. } => *file,
        Call::Stat { handle } => *handle,
        Call::List { dir } | Call::Lookup { dir, .. } => *dir,
        _ => unreachable!(),
    }
}
