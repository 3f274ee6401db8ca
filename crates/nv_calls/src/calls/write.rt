//! Writing into a file.

ghost use Rattle.std.specs.Prelude.{◌≡◌, ◌+◌, ◌-◌, ◌*◌, ◌/◌, ◌<◌, ◌≤◌, ◌^◌, ℕ, List, IfOk, length, nat_lt, replicate};
ghost use Rattle.std.specs.Result.{result_err};
ghost use Rattle.nv_base.specs.declared.limits.TheConstants.{BLOCK_BYTES, FILE_PAGES};
ghost use Rattle.nv_entry.specs.Bytes.{pages_touched, written};
ghost use Rattle.nv_entry.specs.Sound.{blocks_of};
ghost use Rattle.nv_calls.specs.calls.Write.{count_refusal, write_blocks, write_plan, write_refusal};

use crate::runs::{RunList, write_items};
use crate::wants::{refuse_if, want_file};
use crate::{InodePlan, InodePlans, Nodes};
use nv_base::{Fault, Handle, Items, limits};
use std::alloc::{AllocError, Global};

/// Why a write is refused, or how many blocks it takes: one for each page that the text touches.
pub fn check<N: Nodes>(
    block: u64,
    nodes: &N,
    file: &Handle,
    offset: u64,
    count: u64,
) -> Result<u64, Fault>
    requires some_bytes { 0 < block }
    requires few_bytes { block ≤ BLOCK_BYTES }
    // `write` is refused by its first test that fails.
    ensures tests { let text = replicate count 0 in result_err result
        ≡ result_err (write_refusal block (N.nodes_of nodes.now) file.now offset text) }
    // A write takes a block for each page that it touches.
    ensures wanted { IfOk result (λ n. n ≡ write_blocks block offset (replicate count 0)) }
{
    want_file(nodes.kind(file))?;
    if count == 0 {
        return Ok(0);
    }
    check_count(block, offset, count)
}

/// Why a write of at least one byte to a file is refused, or how many blocks it takes.
fn check_count(block: u64, offset: u64, count: u64) -> Result<u64, Fault>
    requires some_bytes { 0 < block }
    requires few_bytes { block ≤ BLOCK_BYTES }
    requires some_text { 0 < count }
    ensures tests { result_err result ≡ result_err (count_refusal block offset count) }
    ensures wanted { IfOk result (λ n. n ≡ pages_touched block offset count) }
{
    let pages = pages_touched(block, offset, count);
    refuse_if(pages > limits::WRITE_PAGES, Fault::WriteTooBig)?;
    let most = u64::from(limits::FILE_PAGES) * block;
    refuse_if(ends_past(most, offset, count), Fault::FileTooBig)?;
    Ok(pages)
}

/// Whether bytes from an offset on end past a size.
fn ends_past(size: u64, offset: u64, count: u64) -> bool
    ensures { result ≡ nat_lt size (offset + count) }
{
    if offset > size {
        return true;
    }
    count > size - offset
}

/// One item for each run of the blocks that have the text's pages, with the size of the file after
/// the call.
pub fn plan<N: Nodes>(
    alloc: Global,
    block: u64,
    nodes: &N,
    file: Handle,
    offset: u64,
    count: u64,
    runs: &RunList,
) -> Result<InodePlans, AllocError>
    requires some_bytes { 0 < block }
    requires end { offset + count < 2 ^ 64 }
    requires fits { 0 < count → offset / block + length (blocks_of runs.now) ≤ FILE_PAGES }
    // `write` has exactly the items of its plan.
    ensures { IfOk result (λ plan. plan
        ≡ write_plan block (N.nodes_of nodes.now) file offset (replicate count 0) runs.now) }
{
    if count == 0 {
        return Ok(InodePlans::none());
    }
    let size = size_after(nodes.size(&file), offset, count);
    let first = (offset / block) as u32;
    let items = Items::from_vec(write_items(alloc, first, runs, size)?);
    let handle = file;
    Ok(InodePlans::one(InodePlan { handle, items }))
}

/// The size of a file after a write.
pub fn size_after(size: u64, offset: u64, count: u64) -> u64
    requires end { offset + count < 2 ^ 64 }
    ensures { (before text : List ℕ) → length before ≡ size → length text ≡ count
        → result ≡ length (written offset text before) }
{
    size.max(offset + count)
}

/// How many pages a text of `count` bytes touches that is written at `offset`.
pub fn pages_touched(block: u64, offset: u64, count: u64) -> u64
    requires some_bytes { 0 < block }
    requires some_text { 0 < count }
    // How many pages a write touches is told.
    ensures { result ≡ pages_touched block offset count }
{
    let last = u128::from(offset % block) + u128::from(count - 1);
    (last / u128::from(block)) as u64 + 1
}
