//! What a cell's blocks and bytes must be beside its log.

ghost use Rattle.std.specs.Prelude.{◌≡◌, ◌↔◌, ◌<◌, ◌≤◌, All, IfOk, IsTrue, List, drop, length};
ghost use Rattle.std.specs.List.Sorted.{IsNonDecreasing};
ghost use Rattle.nv_base.specs.Refusals.{FailsOnly};
ghost use Rattle.nv_base.specs.Memory.{out_of_memory};
ghost use Rattle.nv_entry.specs.Node.{size_now};
ghost use Rattle.nv_entry.specs.declared.item.Entry.{Entry as EntryValue};
ghost use Rattle.nv_audit.specs.Index.{ArePagesOf};
ghost use Rattle.nv_audit.specs.Lists.{blocks_had};
ghost use Rattle.nv_audit.specs.Sound.{AreLogPagesWithin, ArePagesWithin, AreZerosPast, EndsAtSize};
ghost use Rattle.nv_audit.specs.Tree.{IsOnce};

use crate::blocks::push_places;
use nv_base::limits::FILE_PAGES;
use nv_base::{BlockNo, Fault};
use nv_cell::InodeCell;
use nv_findex::FileIndex;
use std::alloc::Global;

/// Whether no entry stands past the tail.
pub fn ends_at_tail(cell: &InodeCell) -> bool
    // A cell passes exactly where no entry stands past its tail.
    ensures { IsTrue result ↔ (cell.now.state.chain.tail ≡ length cell.now.state.chain.entries) }
{
    cell.tail() == cell.len()
}

/// Whether no two of the parts that a cell has blocks for have one block. It costs what [`are_all_apart`] does for each of
/// its blocks, and takes a place in a list for each.
pub fn are_blocks_apart(alloc: Global, cell: &InodeCell) -> Result<bool, Fault>
    // A cell passes exactly where no two of its parts have one block.
    ensures ok { IfOk result (λ apart. IsTrue apart ↔ IsOnce (blocks_had cell.now.state)) }
    // The only error is `OutOfMemory`.
    ensures err { FailsOnly out_of_memory result }
{
    let mut numbers = Vec::new(alloc);
    push_places(&mut numbers, cell.part_blocks())?;
    Ok(are_all_apart(numbers))
}

/// Whether no number stands twice in a list. Costs its length, times a logarithm.
pub(crate) fn are_all_apart(mut numbers: Vec<BlockNo>) -> bool
    ensures { IsTrue result ↔ IsOnce numbers.items }
{
    numbers.sort_unstable_by_key(|number| number.number());
    is_once(&numbers)
}

/// Whether no number stands twice in a list in which none falls.
fn is_once(numbers: &[BlockNo]) -> bool
    requires { IsNonDecreasing numbers.now }
    ensures { IsTrue result ↔ IsOnce numbers.now }
{
    for place in 1..numbers.len() {
        if numbers[place - 1] == numbers[place] {
            return false;
        }
    }
    true
}

/// Whether a file ends at its size: no page lies past it, and no byte past it is another than 0. Costs two look-ups
/// and the bytes of one block.
pub fn ends_at_size(cell: &InodeCell) -> bool
    // A cell whose file has a page past its size does not pass.
    // It passes exactly where beside this no byte past the size is another than 0.
    ensures { IsTrue result ↔ EndsAtSize cell.now.state }
{
    are_pages_within(cell) && are_zeros_past(cell)
}

/// Whether no page of a file lies past its size.
fn are_pages_within(cell: &InodeCell) -> bool
    ensures { IsTrue result ↔ ArePagesWithin cell.now.state }
{
    are_pages_within_by(cell.block_bytes(), cell.size(), cell.page_index())
}

/// Whether no page lies past a size, where these are the pages of a log that gives this size.
pub(crate) fn are_pages_within_by(block: u64, size: u64, pages: &FileIndex) -> bool
    requires { 0 < block }
    ensures { (log : List EntryValue) → size ≡ size_now block log → ArePagesOf block log pages.now
        → IsTrue result ↔ AreLogPagesWithin block log }
{
    let first = size.div_ceil(block).min(u64::from(FILE_PAGES)) as u32;
    pages.next_from(first).is_none()
}

/// Whether no byte past the size of a file without such pages is another than 0.
fn are_zeros_past(cell: &InodeCell) -> bool
    requires { ArePagesWithin cell.now.state }
    ensures { IsTrue result ↔ AreZerosPast cell.now.state }
{
    // Each page that the log gives is there, with all its bytes.
    cell.holds_together();
    let block = cell.block_bytes();
    let size = cell.size();
    let last = size / block;
    if last >= u64::from(FILE_PAGES) {
        return true;
    }
    match cell.page_now(last as u32) {
        Some(page) => are_zeros_from(page.bytes(), (size % block) as usize),
        None => true,
    }
}

/// Whether all bytes from a place on are 0.
pub(crate) fn are_zeros_from(bytes: &[u8], from: usize) -> bool
    requires { from ≤ length bytes.now }
    ensures { IsTrue result ↔ All (λ byte. byte ≡ 0) (drop from bytes.now) }
{
    bytes[from..].iter().all(|byte| *byte == 0)
}
