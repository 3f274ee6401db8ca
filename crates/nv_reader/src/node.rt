//! The node that an inode is by its log.

ghost use Rattle.std.specs.Prelude.{◌≡◌, ℕ, ◌<◌, IfOk, List};
ghost use Rattle.nv_reader.specs.Blocks.{shown_node};

use crate::attributes::attributes_of;
use crate::bytes::{PartBlocks, file_bytes};
use crate::names::names_by;
use nv_entry::{Entry, NodeCopy};
use std::alloc::{AllocError, Global};

/// The node of a log: kind, mode, size, bytes and names. None where the inode has no kind there. Costs what it hands
/// out and three passes over the log, with what [`file_bytes`] says of pages.
pub(crate) fn node_by<B: PartBlocks>(
    alloc: Global,
    block: u64,
    log: &[Entry],
    blocks: &B,
) -> Result<Option<NodeCopy>, AllocError>
    requires { 0 < block }
    ensures { IfOk result (λ node. node ≡ shown_node (B.bytes_of blocks.now) block log.now) }
{
    let attributes = attributes_of(log);
    let Some(kind) = attributes.kind else {
        return Ok(None);
    };
    Ok(Some(NodeCopy {
        kind,
        mode: attributes.mode,
        size: attributes.size,
        bytes: file_bytes(alloc, block, log, attributes.size, blocks)?,
        names: names_by(alloc, log)?,
    }))
}
