//! The fault `block`: blocks that are none of the device's, or stand twice.

ghost use Rattle.std.specs.Prelude.{◌≡◌, ◌↔◌, ◌++◌, IfOk, IsTrue, OnOk};
ghost use Rattle.std.specs.List.{flat_map};
ghost use Rattle.nv_base.specs.Refusals.{FailsOnly};
ghost use Rattle.nv_base.specs.Memory.{out_of_memory};
ghost use Rattle.nv_alloc.specs.Block.{numbers_of};
ghost use Rattle.nv_audit.specs.Faults.{AreBlocksGood};
ghost use Rattle.nv_audit.specs.Image.{slot_numbers};

use crate::blocks::{marked_once, push_places};
use crate::lists::push_pages;
use crate::{DataBlocks, Image, SlotImage};
use nv_base::{BlockNo, Fault};
use nv_log::ChainImage;
use std::alloc::{AllocError, Global};

/// Whether each block is one of the device, and none stands twice. Costs a look at each block, and memory for each and
/// for a mark of each block of the device.
pub(crate) fn are_blocks_good(alloc: Global, image: &Image) -> Result<bool, Fault>
    ensures ok { IfOk result (λ good. IsTrue good ↔ AreBlocksGood image.now) }
    ensures err { FailsOnly out_of_memory result }
{
    let numbers = all_numbers(alloc, &image.slots)?;
    let marks = marked_once(alloc, image.geometry.numbers.blocks, &numbers)?;
    Ok(marks.is_some())
}

/// The blocks of all slots.
fn all_numbers(alloc: Global, slots: &[SlotImage]) -> Result<Vec<BlockNo>, AllocError>
    ensures { IfOk result (λ numbers. numbers.items ≡ flat_map slot_numbers slots.now) }
{
    let mut numbers = Vec::new(alloc);
    for slot in slots {
        push_slot(&mut numbers, slot)?;
    }
    Ok(numbers)
}

/// Puts the blocks of a slot to the end: the pages of its log, and its data.
fn push_slot(numbers: &mut Vec<BlockNo>, slot: &SlotImage) -> Result<(), AllocError>
    ensures { OnOk result (numbers.new.items ≡ numbers.old.items ++ slot_numbers slot.now) }
{
    push_chain(numbers, &slot.chain)?;
    push_data(numbers, &slot.blocks)?;
    Ok(())
}

fn push_chain(numbers: &mut Vec<BlockNo>, chain: &ChainImage) -> Result<(), AllocError>
    ensures { OnOk result (numbers.new.items ≡ numbers.old.items ++ numbers_of chain.now.pages) }
{
    push_pages(numbers, &chain.pages)?;
    Ok(())
}

/// Puts the data blocks to the end.
pub(crate) fn push_data(numbers: &mut Vec<BlockNo>, blocks: &DataBlocks) -> Result<(), AllocError>
    ensures { OnOk result (numbers.new.items ≡ numbers.old.items ++ numbers_of blocks.now) }
{
    push_places(numbers, &blocks.places)?;
    Ok(())
}
