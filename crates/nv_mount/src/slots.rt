//! The slots of an image with chains for their logs.

ghost use Rattle.std.specs.Prelude.{◌≡◌, ◌+◌, ◌++◌, ◌≤◌, [], OnErr, OnOk, IfErr, IfOk, length, map, reverse, vec_capacity};
ghost use Rattle.nv_base.specs.Memory.{out_of_memory};
ghost use Rattle.nv_base.specs.Refusals.{FailsOnly};
ghost use Rattle.nv_mount.specs.Slots.{AreOpen, CanOpen, CanOpenAll, IsOpen, closed};

use nv_audit::{DataBlocks, SlotImage};
use nv_base::Fault;
use nv_cell::BareCell;
use nv_log::Chain;

/// Makes a chain of each slot's log, of pages that hold `page` entries. What is left of the slots stands in `bare` then, the
/// last one first, and no slot in `slots`; [`close_slots`] is the way back.
///
/// The only error is `OutOfMemory`: then all is as it was.
pub fn open_slots(
    page: usize,
    slots: &mut Vec<SlotImage>,
    bare: &mut Vec<BareCell>,
) -> Result<(), Fault>
    requires lawful { CanOpenAll page slots.old.items }
    requires none { bare.old.items ≡ [] }
    requires room { length slots.old.items ≤ vec_capacity bare.old }
    // Each slot of an image is opened, the last one first; where memory is refused all is as it was.
    ensures ok { OnOk result ((slots.new.items ≡ [])
        × AreOpen page slots.old.items bare.new.items) }
    ensures room { length slots.old.items ≤ vec_capacity slots.new }
    ensures err { FailsOnly out_of_memory result }
    ensures same { OnErr result ((slots.new.items ≡ slots.old.items) × (bare.new.items ≡ [])) }
{
    while let Some(slot) = slots.pop() {
        match open_slot(page, slot) {
            Ok(cell) => bare.push_reserved(cell),
            Err((fault, slot)) => {
                slots.push_reserved(slot);
                close_slots(bare, slots);
                return Err(fault);
            }
        }
    }
    Ok(())
}

/// Puts the slots back behind those that are there, where `bare` has them, the last one first. Takes no memory.
pub fn close_slots(bare: &mut Vec<BareCell>, slots: &mut Vec<SlotImage>)
    requires { length slots.old.items + length bare.old.items ≤ vec_capacity slots.old }
    // Slots that were opened stand in the image as before.
    ensures slots { slots.new.items ≡ slots.old.items ++ map closed (reverse bare.old.items) }
    ensures none { bare.new.items ≡ [] }
    ensures room { vec_capacity slots.new ≡ vec_capacity slots.old }
{
    while let Some(cell) = bare.pop() {
        slots.push_reserved(close_slot(cell));
    }
}

/// One slot with a chain.
fn open_slot(page: usize, slot: SlotImage) -> Result<BareCell, (Fault, SlotImage)>
    requires { CanOpen page slot }
    ensures ok { IfOk result (IsOpen page slot) }
    ensures err { IfErr result (λ refused. refused.0 ≡ out_of_memory) }
    ensures same { IfErr result (λ refused. refused.1 ≡ slot) }
{
    let SlotImage {
        generation,
        chain,
        blocks,
    } = slot;
    let DataBlocks { places } = blocks;
    match Chain::rebuild(page, chain) {
        Ok(chain) => Ok(BareCell {
            generation,
            chain,
            blocks: places,
        }),
        Err((fault, chain)) => Err((
            fault,
            SlotImage {
                generation,
                chain,
                blocks: DataBlocks { places },
            },
        )),
    }
}

/// The slot of an image of what is left of a cell. Takes no memory.
pub fn close_slot(cell: BareCell) -> SlotImage
    // The slot of an image is made of what is left of a cell, without memory.
    ensures { result ≡ closed cell }
{
    let BareCell {
        generation,
        chain,
        blocks,
    } = cell;
    SlotImage {
        generation,
        chain: chain.into_image(),
        blocks: DataBlocks { places: blocks },
    }
}
