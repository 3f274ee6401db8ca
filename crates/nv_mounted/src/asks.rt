//! Calls of a mount, and what it takes their answers for.

ghost use Rattle.std.specs.Prelude.{◌≡◌, MatchResult};
ghost use Rattle.nv_mount_beside.specs.Memory.{no_memory};
ghost use Rattle.nv_mounted.specs.Asks.{ask, ask_done, ask_handle, ask_shape, names_told};
ghost use Rattle.nv_mounted.specs.Dialogues.{IsHad};
ghost use Rattle.nv_calls.specs.declared.call.Call.TheVariants as calls;

use crate::world::Core;
use nv_base::{Bytes, Handle};
use nv_calls::{Answer, Call};
use nv_entry::NameList;
use nv_fuse::Errno;
use nv_mount_answers::Shape;
use nv_mount_beside::Refusal;
use std::alloc::Global;

/// Kind, mode and size of a node.
pub(crate) fn ask_shape<C: Core>(core: &mut C, handle: &Handle) -> Result<Shape, Refusal>
    // One call tells them.
    ensures { IsHad C.Tells (ask_shape handle.now) core.old result core.new }
{
    match core.call(Call::Stat { handle: *handle })? {
        Answer::Stat {
            kind,
            mode,
            size,
            commit: _,
        } => Ok(Shape { kind, mode, size }),
        _ => Err(Refusal::Errno(Errno::InputOutput)),
    }
}

/// The handle that a call answers: of a look-up, or of a making.
pub(crate) fn ask_handle<C: Core>(core: &mut C, call: Call) -> Result<Handle, Refusal>
    // One call tells it.
    ensures { IsHad C.Tells (ask_handle call) core.old result core.new }
{
    match core.call(call)? {
        Answer::Made(handle) => Ok(handle),
        _other => Err(Refusal::Errno(Errno::InputOutput)),
    }
}

/// Makes a call that answers nothing of interest.
pub(crate) fn ask_done<C: Core>(core: &mut C, call: Call) -> Result<(), Refusal>
    // The call is made, and its refusal is handed on.
    ensures { IsHad C.Tells (ask_done call) core.old result core.new }
{
    core.call(call)?;
    Ok(())
}

/// The names of a directory.
pub(crate) fn ask_names<C: Core>(core: &mut C, dir: &Handle) -> Result<NameList, Refusal>
    // One call tells them.
    ensures { IsHad C.Tells (ask (calls.List dir.now) names_told) core.old result core.new }
{
    match core.call(Call::List { dir: *dir })? {
        Answer::Names(names) => Ok(names),
        _ => Err(Refusal::Errno(Errno::InputOutput)),
    }
}

/// Bytes that a request names, as a call takes them.
pub(crate) fn copy_of(alloc: Global, bytes: &[u8]) -> Result<Bytes, Refusal>
    // They are the same, unless memory is refused.
    ensures { MatchResult result (λ copy. copy ≡ bytes.now) (λ refusal. refusal ≡ no_memory) }
{
    Ok(Bytes::from_vec(bytes.to_vec(alloc)?))
}

/// A look-up.
pub(crate) fn lookup(dir: &Handle, name: Bytes) -> Call
    ensures { result ≡ Call.Lookup dir.now name }
{
    Call::Lookup { dir: *dir, name }
}

/// An unlink.
pub(crate) fn unlink(dir: &Handle, name: Bytes) -> Call
    ensures { result ≡ Call.Unlink dir.now name }
{
    Call::Unlink { dir: *dir, name }
}

/// An rmdir.
pub(crate) fn rmdir(dir: &Handle, name: Bytes) -> Call
    ensures { result ≡ Call.Rmdir dir.now name }
{
    Call::Rmdir { dir: *dir, name }
}

/// A rename.
pub(crate) fn rename(from: &Handle, old: Bytes, to: &Handle, new: Bytes) -> Call
    ensures { result ≡ Call.Rename from.now old to.now new }
{
    Call::Rename {
        from: *from,
        old,
        to: *to,
        new,
    }
}
