//! The check of a call that changes nodes.

ghost use Rattle.std.specs.Prelude.{◌≡◌, ◌<◌, ◌≤◌, IfOk};
ghost use Rattle.std.specs.Result.{result_err};
ghost use Rattle.nv_base.specs.declared.limits.TheConstants.{BLOCK_BYTES};
ghost use Rattle.nv_calls.specs.AllCalls.{early, late};
ghost use Rattle.nv_calls.specs.Updates.{blank_call, blocks_taken};

use crate::calls::{create, lookup, mkdir, mode, rename, rmdir, size, unlink, write};
use crate::{LookupResult, Nodes, Update};
use nv_base::Fault;

/// Why a call is refused at its check before its names are compared with what the looks found.
pub fn check_early<N: Nodes>(nodes: &N, call: &Update) -> Result<(), Fault>
    // A call is refused exactly by the first of its tests that fails, over whatever tells nodes.
    // Nodes are told by kinds, names and look-ups; the tests of a call are those of its module in `calls`.
    // The check is cut where names are compared with what the looks found.
    ensures { result ≡ early (N.nodes_of nodes.now) (blank_call call.now) }
{
    match call {
        Update::Unlink { dir, name } | Update::Rmdir { dir, name } => {
            lookup::check(nodes, dir, name.as_slice())
        }
        Update::Rename { from, old, to, new } => {
            rename::check_early(nodes, from, old.as_slice(), to, new.as_slice())
        }
        _ => Ok(()),
    }
}

/// Why a call is refused at its check behind that, by what its names lead to, or how many blocks it takes for its pages.
pub fn check_late<N: Nodes>(
    block: u64,
    nodes: &N,
    looked: &LookupResult,
    call: &Update,
) -> Result<u64, Fault>
    requires some_bytes { 0 < block }
    requires few_bytes { block ≤ BLOCK_BYTES }
    ensures tests { result_err result
        ≡ result_err (late block (N.nodes_of nodes.now) looked.now (blank_call call.now)) }
    // A call that passes takes so many blocks for its pages as it wants.
    ensures wanted { IfOk result (λ n. n
        ≡ blocks_taken block (N.nodes_of nodes.now) (N.has_page nodes.now) call.now) }
{
    match call {
        Update::Create { dir, name, .. } => create::check(nodes, dir, name.as_slice())?,
        Update::Mkdir { dir, name, .. } => mkdir::check(nodes, dir, name.as_slice())?,
        Update::Write {
            file,
            offset,
            count,
        } => return write::check(block, nodes, file, *offset, *count),
        Update::Size { file, size } => return size::check(block, nodes, file, *size),
        Update::Mode { handle, .. } => mode::check(nodes, handle)?,
        Update::Unlink { .. } => unlink::check_late(nodes, looked.first)?,
        Update::Rmdir { .. } => rmdir::check_late(nodes, looked.first)?,
        Update::Rename { from, old, to, new } => {
            rename::check_late(nodes, from, old.as_slice(), to, new.as_slice(), looked)?
        }
    }
    Ok(0)
}
