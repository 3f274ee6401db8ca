//! Whether the file of a slot ends at its size.

ghost use Rattle.std.specs.Prelude.{◌≡◌, ◌↔◌, ℕ, IfOk, IsTrue, List, option_and_then, option_to_list};
ghost use Rattle.std.specs.List.{flat_map};
ghost use Rattle.std.specs.Option.{option_copied};
ghost use Rattle.nv_base.specs.Refusals.{FailsOnly};
ghost use Rattle.nv_base.specs.Memory.{out_of_memory};
ghost use Rattle.nv_alloc.specs.Block.{AreSized, block_by};
ghost use Rattle.nv_cell.specs.Cell.{CellState};
ghost use Rattle.nv_entry.specs.Node.{block_now, size_now};
ghost use Rattle.nv_audit.specs.Logged.{logged as logged_of};
ghost use Rattle.nv_audit.specs.MountedLogs.{HasItsBlocks, IsMadeOf, is_at_place};
ghost use Rattle.nv_audit.specs.Sound.{ArePagesWithin, AreZerosPast, EndsAtSize};

use crate::DataBlocks;
use crate::logged::Logged;
use crate::scanned_pages::scanned_pages;
use crate::sound::{are_pages_within_by, are_zeros_from};
use nv_alloc::Block;
use nv_base::limits::FILE_PAGES;
use nv_base::{BlockNo, Fault};
use nv_entry::{Datum, Key, When, value_when};
use std::alloc::Global;

/// Whether a file whose pages have their blocks ends at its size. Costs a pass over the log with what an index of its pages
/// costs, two more passes, a look at each block and the bytes of one.
pub(crate) fn ends_at_size(
    alloc: Global,
    own: &Logged<'_>,
    blocks: &DataBlocks,
) -> Result<bool, Fault>
    requires { AreSized own.now.block blocks.now }
    ensures ok { IfOk result (λ ends. (snapshots : List ℕ) (cell : CellState)
        → IsMadeOf snapshots blocks.now cell → HasItsBlocks blocks.now cell
        → own.now ≡ logged_of cell → IsTrue ends ↔ EndsAtSize cell) }
    ensures err { FailsOnly out_of_memory result }
{
    let block = own.block_bytes();
    let size = size_now(own);
    let pages = scanned_pages(alloc, block, own.log())?;
    if !are_pages_within_by(block, size, &pages) {
        return Ok(false);
    }
    Ok(are_zeros_past(own, size, blocks))
}

/// How many bytes the file has.
fn size_now(own: &Logged<'_>) -> u64
    ensures { result ≡ size_now own.now.block own.now.log }
{
    match value_when(own.block_bytes(), When::Now, own.log(), Key::Size) {
        Some(Datum::Size(size)) => size,
        _ => 0,
    }
}

/// Whether no byte past the size is another than 0, where no page is.
fn are_zeros_past(own: &Logged<'_>, size: u64, blocks: &DataBlocks) -> bool
    requires sized { AreSized own.now.block blocks.now }
    requires size { size ≡ size_now own.now.block own.now.log }
    ensures { (snapshots : List ℕ) (cell : CellState) → IsMadeOf snapshots blocks.now cell
        → HasItsBlocks blocks.now cell → own.now ≡ logged_of cell → ArePagesWithin cell
        → IsTrue result ↔ AreZerosPast cell }
{
    let block = own.block_bytes();
    let last = size / block;
    if last >= u64::from(FILE_PAGES) {
        return true;
    }
    match block_at(own, last as u32, blocks) {
        Some(found) => are_zeros_from(found.bytes(), (size % block) as usize),
        None => true,
    }
}

/// The block of a page.
fn block_at<'a>(own: &Logged<'_>, page: u32, blocks: &'a DataBlocks) -> Option<&'a Block>
    ensures { option_copied result
        ≡ option_and_then (block_by blocks.now) (block_now own.now.block own.now.log page) }
{
    let number = number_at(own, page)?;
    block_of(blocks, number)
}

/// The number of a page's block.
fn number_at(own: &Logged<'_>, page: u32) -> Option<BlockNo>
    ensures { result ≡ block_now own.now.block own.now.log page }
{
    let value = value_when(own.block_bytes(), When::Now, own.log(), Key::Page(page))?;
    value.block()
}

/// The block of a number.
fn block_of(blocks: &DataBlocks, number: BlockNo) -> Option<&Block>
    ensures { option_copied result ≡ block_by blocks.now number }
{
    first_of(&blocks.places, number)
}

/// The first block of a number in these places.
fn first_of(places: &[Option<Block>], number: BlockNo) -> Option<&Block>
    ensures { option_copied result ≡ block_by (flat_map option_to_list places.now) number }
{
    for place in places {
        if is_at_place(place, number) {
            return place.as_ref();
        }
    }
    None
}

fn is_at_place(place: &Option<Block>, number: BlockNo) -> bool
    ensures { result ≡ is_at_place place.now number }
{
    match place {
        Some(block) => block.number() == number,
        None => false,
    }
}
