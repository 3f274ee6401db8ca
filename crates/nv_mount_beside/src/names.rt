//! The names of requests.

ghost use Rattle.std.specs.Prelude.{◌≡◌, Ok};
ghost use Rattle.nv_mount_answers.specs.Nodes.{is_root};
ghost use Rattle.nv_mount_beside.specs.Memory.{IsOrNoMemory};
ghost use Rattle.nv_mount_beside.specs.Names.{checked_name, free_name, hidden_name, is_reserved, node_named};

use crate::refusal::Refusal;
use nv_base::{Bytes, Handle};
use nv_fuse::Errno;
use nv_mount_answers::handle_of;
use std::alloc::Global;

/// The directory of files that are open and have no name.
pub const HIDDEN: &[u8] = b".open-without-name";

/// The directory of snapshots.
pub const SNAPSHOTS: &[u8] = b".snapshots";

/// How many bytes a name has at most.
pub const NAME: usize = 255;

/// The node that a request names. `ESTALE` where there can be none.
pub fn node(number: u64) -> Result<Handle, Refusal>
    // A number that is no node's is stale.
    ensures { result ≡ node_named number }
{
    match handle_of(number) {
        Some(handle) => Ok(handle),
        None => Err(Refusal::Errno(Errno::Stale)),
    }
}

/// Whether a name is kept for the mount: in the root, the hidden directory's or that of snapshots.
pub fn is_reserved(dir: &Handle, name: &[u8]) -> bool
    // Two names of the root are the mount's own.
    ensures { result ≡ is_reserved dir.now name.now }
{
    is_root(dir) && (name == HIDDEN || name == SNAPSHOTS)
}

/// Whether a handle is the root's.
pub fn is_root(handle: &Handle) -> bool
    // The root is slot 0 in its first generation.
    ensures { result ≡ is_root handle.now }
{
    handle.ino.number() == 0 && handle.generation.number() == 1
}

/// A name as calls take it, of a directory where something is made, moved or taken away.
pub fn name(alloc: Global, dir: &Handle, name: &[u8]) -> Result<Bytes, Refusal>
    // The mount's own names are refused, and those that are too long.
    ensures { IsOrNoMemory result (free_name dir.now name.now) }
{
    if is_reserved(dir, name) {
        return Err(Refusal::Errno(Errno::NotPermitted));
    }
    copied(alloc, name)
}

/// A name as calls take it.
pub fn copied(alloc: Global, name: &[u8]) -> Result<Bytes, Refusal>
    // Names of more than 255 bytes are refused.
    ensures { IsOrNoMemory result (checked_name name.now) }
{
    if name.len() > NAME {
        return Err(Refusal::Errno(Errno::NameTooLong));
    }
    Ok(Bytes::from_vec(name.to_vec(alloc)?))
}

/// The name of a file without a name among the hidden ones: the number of its node, in decimal.
pub fn hidden_name(alloc: Global, node: u64) -> Result<Bytes, Refusal>
    // It is the number of the node in decimal.
    ensures { IsOrNoMemory result (Ok (hidden_name node)) }
{
    let text = format!(in alloc; "{node}")?;
    Ok(Bytes::from_vec(text.into_bytes()))
}
