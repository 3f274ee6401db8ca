//! The blocks of a device that do not stand in its image.

ghost use Rattle.std.specs.Prelude.{◌≡◌, ◌<◌, ◌≤◌, ◌∷◌, [], IfOk, OnOk, length, map, option_to_list, vec_capacity};
ghost use Rattle.std.specs.List.{flat_map, range_with_len};
ghost use Rattle.nv_alloc.specs.Block.{numbers_of};
ghost use Rattle.nv_alloc.specs.FreeList.{AreListsOf};
ghost use Rattle.nv_audit.specs.Image.{image_numbers, slot_numbers};
ghost use Rattle.nv_base.specs.Memory.{out_of_memory};
ghost use Rattle.nv_base.specs.Refusals.{FailsOnly};
ghost use Rattle.nv_audit.specs.Faults.{IsFaultless};
ghost use Rattle.nv_mount.specs.Build.{AreFree};
ghost use Rattle.nv_mount.specs.Missing.{AreMarkedTo, AreMarks, AreWithin, list_unmarked};

use crate::homes::dismantle_lists;
use nv_alloc::{Block, FreeList};
use nv_audit::{DataBlocks, Image, SlotImage};
use nv_base::{BlockNo, Fault, Geometry};
use nv_log::ChainImage;
use std::alloc::{AllocError, Global};

/// The free lists of all CPUs with the blocks that do not stand in an image, whose bytes are 0, and with room for the
/// others. The only error is `OutOfMemory`.
pub fn missing_blocks(alloc: Global, image: &Image) -> Result<Vec<FreeList>, Fault>
    requires { IsFaultless image.now }
    // The free lists have the blocks that an image does not have.
    ensures ok { IfOk result (λ lists. AreFree image.now 0 (image_numbers image.now) lists.items) }
    ensures err { FailsOnly out_of_memory result }
{
    let marks = marks_of(alloc, &image.geometry, &image.slots)?;
    let mut lists = Vec::with_capacity(alloc, image.geometry.numbers.cpus as usize)?;
    match push_lists(alloc, &image.geometry, &marks, &mut lists) {
        Ok(()) => Ok(lists),
        Err(fault) => {
            dismantle_lists(lists);
            Err(fault)
        }
    }
}

/// A mark for each block that stands in a slot.
fn marks_of(
    alloc: Global,
    geometry: &Geometry,
    slots: &[SlotImage],
) -> Result<Vec<bool>, AllocError>
    requires { AreWithin geometry.now.numbers.blocks (flat_map slot_numbers slots.now) }
    ensures { IfOk result (λ marks. AreMarks geometry.now.numbers.blocks
        (flat_map slot_numbers slots.now) marks.items) }
{
    let mut marks = vec![in alloc; false; geometry.numbers.blocks as usize]?;
    for ino in 0..slots.len() {
        mark_slot(&mut marks, &slots[ino]);
    }
    Ok(marks)
}

/// Marks the blocks of a slot.
fn mark_slot(marks: &mut Vec<bool>, slot: &SlotImage)
    requires { AreWithin (length marks.old.items) (slot_numbers slot.now) }
    ensures { AreMarkedTo (slot_numbers slot.now) marks.old.items marks.new.items }
{
    mark_chain(marks, &slot.chain);
    mark_data(marks, &slot.blocks);
}

fn mark_chain(marks: &mut Vec<bool>, chain: &ChainImage)
    requires { AreWithin (length marks.old.items) (numbers_of chain.now.pages) }
    ensures { AreMarkedTo (numbers_of chain.now.pages) marks.old.items marks.new.items }
{
    mark_pages(marks, &chain.pages);
}

fn mark_data(marks: &mut Vec<bool>, blocks: &DataBlocks)
    requires { AreWithin (length marks.old.items) (numbers_of blocks.now) }
    ensures { AreMarkedTo (numbers_of blocks.now) marks.old.items marks.new.items }
{
    mark_places(marks, &blocks.places);
}

fn mark_pages(marks: &mut Vec<bool>, pages: &[Block])
    requires { AreWithin (length marks.old.items) (numbers_of pages.now) }
    ensures { AreMarkedTo (numbers_of pages.now) marks.old.items marks.new.items }
{
    for k in 0..pages.len() {
        mark(marks, pages[k].number());
    }
}

fn mark_places(marks: &mut Vec<bool>, places: &[Option<Block>])
    requires { AreWithin (length marks.old.items)
        (numbers_of (flat_map option_to_list places.now)) }
    ensures { AreMarkedTo (numbers_of (flat_map option_to_list places.now))
        marks.old.items marks.new.items }
{
    for k in 0..places.len() {
        mark_place(marks, &places[k]);
    }
}

fn mark_place(marks: &mut Vec<bool>, place: &Option<Block>)
    requires { AreWithin (length marks.old.items) (numbers_of (option_to_list place.now)) }
    ensures { AreMarkedTo (numbers_of (option_to_list place.now))
        marks.old.items marks.new.items }
{
    if let Some(block) = place {
        mark(marks, block.number());
    }
}

fn mark(marks: &mut Vec<bool>, number: BlockNo)
    requires { number < length marks.old.items }
    ensures { AreMarkedTo (number ∷ []) marks.old.items marks.new.items }
{
    marks[number.number() as usize] = true;
}

/// Puts the list of each CPU.
fn push_lists(
    alloc: Global,
    geometry: &Geometry,
    marks: &[bool],
    lists: &mut Vec<FreeList>,
) -> Result<(), Fault>
    requires none { lists.old.items ≡ [] }
    requires room { geometry.now.numbers.cpus ≤ vec_capacity lists.old }
    requires marks { length marks.now ≡ geometry.now.numbers.blocks }
    ensures ok { OnOk result (lists.new.items ≡ map (list_unmarked geometry.now.numbers marks.now)
        (range_with_len 0 geometry.now.numbers.cpus)) }
    ensures homes { OnOk result (AreListsOf geometry.now.numbers lists.new.items) }
    ensures err { FailsOnly out_of_memory result }
{
    for cpu in 0..geometry.numbers.cpus {
        let list = FreeList::with_unmarked(alloc, geometry, cpu, marks)?;
        lists.push_reserved(list);
    }
    Ok(())
}
