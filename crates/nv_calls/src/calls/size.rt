//! Cutting a file, or adding zeros to it.

ghost use Rattle.std.specs.Prelude.{◌≡◌, ◌+◌, ◌/◌, ◌<◌, ◌≤◌, ◌&&◌, IfOk, length, nat_lt};
ghost use Rattle.std.specs.Result.{result_err};
ghost use Rattle.nv_base.specs.declared.limits.TheConstants.{BLOCK_BYTES, FILE_PAGES};
ghost use Rattle.nv_entry.specs.Sound.{blocks_of};
ghost use Rattle.nv_calls.specs.calls.Size.{size_blocks, size_plan, size_refusal};

use crate::runs::{RunList, write_items};
use crate::wants::{refuse_if, want_file};
use crate::{InodePlan, InodePlans, Nodes};
use nv_base::{Fault, Handle, Items, limits};
use nv_entry::Item;
use std::alloc::{AllocError, Global};

/// Why a size is refused, or how many blocks it takes: one for a page that is cut.
pub fn check<N: Nodes>(block: u64, nodes: &N, file: &Handle, size: u64) -> Result<u64, Fault>
    requires some_bytes { 0 < block }
    requires few_bytes { block ≤ BLOCK_BYTES }
    // `size` is refused by its first test that fails.
    ensures tests { result_err result
        ≡ result_err (size_refusal block (N.nodes_of nodes.now) file.now size) }
    // A size takes a block where it cuts a page that is present.
    // A size takes a block only where it cuts a page.
    // A page past the last of a file is not present.
    ensures wanted { IfOk result (λ n. n ≡ size_blocks block (N.nodes_of nodes.now) file.now size
        (nat_lt (size / block) FILE_PAGES && N.has_page nodes.now file.now (size / block))) }
{
    want_file(nodes.kind(file))?;
    let most = u64::from(limits::FILE_PAGES) * block;
    refuse_if(size > most, Fault::FileTooBig)?;
    let is_cut = size < nodes.size(file)
        && !(size % block == 0)
        && has_page(nodes, file, size / block);
    Ok(if is_cut { 1 } else { 0 })
}

/// Whether a page of a file is present. One past the last that a file can have is not.
fn has_page<N: Nodes>(nodes: &N, file: &Handle, page: u64) -> bool
    ensures { result ≡ (nat_lt page FILE_PAGES && N.has_page nodes.now file.now page) }
{
    page < u64::from(limits::FILE_PAGES) && nodes.has_page(file, page as u32)
}

/// The page that is cut, where one is, and then the size.
pub fn plan(
    alloc: Global,
    block: u64,
    file: Handle,
    size: u64,
    runs: &RunList,
) -> Result<InodePlans, AllocError>
    requires some_bytes { 0 < block }
    requires fits { size / block + length (blocks_of runs.now) ≤ FILE_PAGES }
    // `size` has exactly the items of its plan.
    ensures { IfOk result (λ plan. plan ≡ size_plan block file size runs.now) }
{
    let first = (size / block) as u32;
    let mut items = write_items(alloc, first, runs, size)?;
    items.push(Item::SetSize { size })?;
    let items = Items::from_vec(items);
    let handle = file;
    Ok(InodePlans::one(InodePlan { handle, items }))
}
