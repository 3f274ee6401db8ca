//! The blocks of free lists and cells: each stands once.

ghost use Rattle.std.specs.Prelude.{◌≡◌, ◌↔◌, ◌+◌, ◌-◌, ◌≤◌, ◌++◌, IfOk, IsTrue, MatchOption, OnOk};
ghost use Rattle.std.specs.List.{flat_map, range_with_len};
ghost use Rattle.nv_base.specs.Refusals.{FailsOnly};
ghost use Rattle.nv_base.specs.Memory.{out_of_memory};
ghost use Rattle.nv_alloc.specs.Block.{numbers_of};
ghost use Rattle.nv_alloc.specs.Numbers.{IsEachOnce};
ghost use Rattle.nv_cell.specs.Cell.{of_part, stored_in};
ghost use Rattle.nv_audit.specs.Blocks.{AreAllSet, AreMarksOnce, AreOnceBelow, IsUnmarked, all_blocks, blocks_free};
ghost use Rattle.nv_audit.specs.Records.{states_of};

use crate::lists::push_pages;
use nv_alloc::{Block, FreeList, FreeRun};
use nv_base::{BlockNo, Fault, Geometry};
use nv_cell::InodeCell;
use std::alloc::{AllocError, Global};

/// Whether each block number of a device stands once among free lists, log pages and parts of cells, and no other number
/// does. Costs a pass over the lists and the blocks of all cells, and memory for as many numbers as there are blocks.
pub fn is_each_block_once(
    alloc: Global,
    geometry: &Geometry,
    lists: &[FreeList],
    cells: &[InodeCell],
) -> Result<bool, Fault>
    // Blocks pass exactly where each stands once among lists and cells.
    // A block that stands nowhere, or is none of the device, is found.
    // The blocks of parts are looked at, those past a tail too; the only error is `OutOfMemory`.
    ensures ok { IfOk result (λ is. IsTrue is ↔ IsEachOnce geometry.now.numbers.blocks
        (all_blocks lists.now (states_of cells.now))) }
    ensures err { FailsOnly out_of_memory result }
{
    let mut numbers = Vec::new(alloc);
    push_all_free(&mut numbers, lists)?;
    push_all_stored(&mut numbers, cells)?;
    let is = is_each_once(alloc, geometry.numbers.blocks, &numbers)?;
    Ok(is)
}

/// Puts the free blocks of all lists to the end.
fn push_all_free(numbers: &mut Vec<BlockNo>, lists: &[FreeList]) -> Result<(), AllocError>
    ensures { OnOk result (numbers.new.items ≡ numbers.old.items ++ blocks_free lists.now) }
{
    for list in lists {
        push_free(numbers, list)?;
    }
    Ok(())
}

/// Puts the free blocks of a list to the end.
fn push_free(numbers: &mut Vec<BlockNo>, list: &FreeList) -> Result<(), AllocError>
    ensures { OnOk result (numbers.new.items
        ≡ numbers.old.items ++ numbers_of list.now.blocks) }
{
    list.rises();
    for run in list.runs() {
        push_run(numbers, run)?;
    }
    Ok(())
}

/// Puts the numbers of a run to the end.
fn push_run(numbers: &mut Vec<BlockNo>, run: FreeRun) -> Result<(), AllocError>
    requires { run.first ≤ run.last }
    ensures { OnOk result (numbers.new.items
        ≡ numbers.old.items ++ range_with_len run.first (run.last + 1 - run.first)) }
{
    for number in run.first.number()..run.last.number() {
        numbers.push(BlockNo::new(number))?;
    }
    numbers.push(run.last)?;
    Ok(())
}

/// Puts the blocks of all cells to the end.
fn push_all_stored(numbers: &mut Vec<BlockNo>, cells: &[InodeCell]) -> Result<(), AllocError>
    ensures { OnOk result (numbers.new.items
        ≡ numbers.old.items ++ flat_map stored_in (states_of cells.now)) }
{
    for cell in cells {
        push_stored(numbers, cell)?;
    }
    Ok(())
}

/// Puts the blocks of a cell to the end: the pages of its log, and those of its parts.
fn push_stored(numbers: &mut Vec<BlockNo>, cell: &InodeCell) -> Result<(), AllocError>
    ensures { OnOk result (numbers.new.items ≡ numbers.old.items ++ stored_in cell.now.state) }
{
    push_pages(numbers, cell.log().blocks())?;
    push_places(numbers, cell.part_blocks())
}

/// Puts the blocks of these places to the end.
pub(crate) fn push_places(
    numbers: &mut Vec<BlockNo>,
    places: &[Option<Block>],
) -> Result<(), AllocError>
    ensures { OnOk result (numbers.new.items
        ≡ numbers.old.items ++ flat_map of_part places.now) }
{
    for place in places {
        if let Some(block) = place {
            numbers.push(block.number())?;
        }
    }
    Ok(())
}

/// Whether each number below `blocks` stands once in a list, and no other number does.
fn is_each_once(alloc: Global, blocks: u64, numbers: &[BlockNo]) -> Result<bool, AllocError>
    ensures { IfOk result (λ is. IsTrue is ↔ IsEachOnce blocks numbers.now) }
{
    let once = marked_once(alloc, blocks, numbers)?;
    match once {
        Some(marks) => Ok(are_all_set(&marks)),
        None => Ok(false),
    }
}

/// The marks of the numbers of a list, if each of them is below `blocks` and stands there once.
pub(crate) fn marked_once(
    alloc: Global,
    blocks: u64,
    numbers: &[BlockNo],
) -> Result<Option<Vec<bool>>, AllocError>
    ensures { IfOk result (λ marks. MatchOption marks (¬ AreOnceBelow blocks numbers.now)
        (λ marks. AreMarksOnce blocks numbers.now marks.items)) }
{
    let mut marks = vec![in alloc; false; blocks as usize]?;
    for number in numbers {
        let place = number.number() as usize;
        if !is_unmarked(&marks, place) {
            return Ok(None);
        }
        marks[place] = true;
    }
    Ok(Some(marks))
}

/// Whether there is a mark at a place, and it is not set.
pub(crate) fn is_unmarked(marks: &[bool], place: usize) -> bool
    ensures { IsTrue result ↔ IsUnmarked marks.now place }
{
    place < marks.len() && !marks[place]
}

fn are_all_set(marks: &[bool]) -> bool
    ensures { IsTrue result ↔ AreAllSet marks.now }
{
    for place in 0..marks.len() {
        if !marks[place] {
            return false;
        }
    }
    true
}
