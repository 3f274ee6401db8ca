//! The plan of a call: whether it has items, and which.

ghost use Rattle.std.specs.Prelude.{◌≡◌, ◌<◌, ◌≤◌, IfOk, length};
ghost use Rattle.nv_base.specs.Refusals.{FailsOnly};
ghost use Rattle.nv_base.specs.Memory.{out_of_memory};
ghost use Rattle.nv_base.specs.declared.limits.TheConstants.{BLOCK_BYTES};
ghost use Rattle.nv_entry.specs.Sound.{blocks_of};
ghost use Rattle.nv_calls.specs.AllCalls.{is_nothing, plan, refusal};
ghost use Rattle.nv_calls.specs.Refusals.{passes};
ghost use Rattle.nv_calls.specs.Updates.{blank_call, blocks_taken};

use crate::calls::{create, mkdir, mode, rename, size, unlink, write};
use crate::looked::bound;
use crate::{Allocation, InodePlans, LookupResult, Nodes, Update};
use nv_base::Fault;
use std::alloc::Global;

/// Whether a call that is not refused commits nothing.
#[inline(always)]
pub fn is_nothing(call: &Update) -> bool
    // A call that commits nothing is told.
    ensures { result ≡ is_nothing (blank_call call.now) }
{
    match call {
        Update::Create { .. } | Update::Mkdir { .. } | Update::Size { .. } => false,
        Update::Mode { .. } | Update::Unlink { .. } | Update::Rmdir { .. } => false,
        Update::Write { count, .. } => *count == 0,
        Update::Rename { from, old, to, new } => {
            rename::is_own_place(from, old.as_slice(), to, new.as_slice())
        }
    }
}

/// The items that a call appends, inode by inode, with what it has taken.
pub fn plan_items<N: Nodes>(
    alloc: Global,
    block: u64,
    nodes: &N,
    taken: &Allocation,
    call: &Update,
) -> Result<InodePlans, Fault>
    requires some_bytes { 0 < block }
    requires few_bytes { block ≤ BLOCK_BYTES }
    requires passed { refusal block (N.nodes_of nodes.now) (blank_call call.now) ≡ passes }
    requires wanted { length (blocks_of taken.now.runs)
        ≡ blocks_taken block (N.nodes_of nodes.now) (N.has_page nodes.now) call.now }
    // A plan has exactly the call's items, inode by inode.
    ensures ok { IfOk result
        (λ list. list ≡ plan block (N.nodes_of nodes.now) taken.now (blank_call call.now)) }
    // The only error is `OutOfMemory`.
    ensures err { FailsOnly out_of_memory result }
{
    let made = taken.made;
    let runs = &taken.runs;
    match call {
        Update::Create { dir, name, mode } => {
            create::plan(alloc, *dir, name.as_slice(), *mode, made)
        }
        Update::Mkdir { dir, name, mode } => {
            mkdir::plan(alloc, *dir, name.as_slice(), *mode, made)
        }
        Update::Write {
            file,
            offset,
            count,
        } => Ok(write::plan(alloc, block, nodes, *file, *offset, *count, runs)?),
        Update::Size { file, size } => Ok(size::plan(alloc, block, *file, *size, runs)?),
        Update::Mode { handle, mode } => Ok(mode::plan(alloc, *handle, *mode)?),
        Update::Unlink { dir, name } | Update::Rmdir { dir, name } => {
            let to = bound(nodes, dir, name.as_slice());
            unlink::plan(alloc, *dir, name.as_slice(), to)
        }
        Update::Rename { from, old, to, new } => {
            let first = bound(nodes, from, old.as_slice());
            let second = bound(nodes, to, new.as_slice());
            let looked = LookupResult { first, second };
            rename::plan(alloc, *from, old.as_slice(), *to, new.as_slice(), &looked)
        }
    }
}
