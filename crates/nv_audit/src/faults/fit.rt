//! The fault `geometry`: numbers and sizes that don't fit the device.

ghost use Rattle.std.specs.Prelude.{◌≡◌, ◌↔◌, ◌<◌, ◌≤◌, ℕ, [], All, IsTrue, length, option_to_list};
ghost use Rattle.std.specs.List.{flat_map};
ghost use Rattle.nv_base.specs.declared.limits.TheConstants.{NUMBER};
ghost use Rattle.nv_alloc.specs.Block.{AreSized};
ghost use Rattle.nv_audit.specs.Faults.{FitsGeometry, FitsSlot};
ghost use Rattle.nv_audit.specs.Image.{SlotImageValue, slot_of};

use crate::{DataBlocks, Image, SlotImage};
use nv_alloc::Block;
use nv_base::limits::NUMBER;
use nv_base::{Gen, Geometry};

/// Whether the numbers and sizes of an image fit its geometry. Costs a look at each slot and block.
pub(crate) fn fits_geometry(image: &Image) -> bool
    ensures { IsTrue result ↔ FitsGeometry image.now }
{
    are_as_many(image) && are_in_range(image) && fit_its_slots(image)
}

/// Whether there are as many slots and journals as the geometry says, and no more snapshots.
fn are_as_many(image: &Image) -> bool
    ensures { IsTrue result ↔ ((length image.now.slots ≡ image.now.numbers.inodes)
        × (length image.now.journals ≡ image.now.numbers.cpus)
        × (length image.now.snapshots ≤ image.now.numbers.snaps)) }
{
    let numbers = image.geometry.numbers;
    image.slots.len() as u64 == numbers.inodes
        && image.journals.len() as u64 == numbers.cpus
        && image.snapshots.len() as u64 <= numbers.snaps
}

/// Whether the epoch is from 1 to the greatest number, and the last commit not past it.
fn are_in_range(image: &Image) -> bool
    ensures { IsTrue result ↔ ((1 ≤ image.now.epoch) × (image.now.epoch ≤ NUMBER)
        × (image.now.commit ≤ NUMBER)) }
{
    is_from_one(image.epoch.number()) && image.commit.number() <= NUMBER
}

/// Whether each slot of an image fits the device.
fn fit_its_slots(image: &Image) -> bool
    ensures { IsTrue result ↔ ((ino : ℕ) → ino < length image.now.slots
        → FitsSlot image.now.numbers (slot_of image.now ino)) }
{
    fit_slots(&image.geometry, &image.slots)
}

/// Whether a number is from 1 to the greatest.
fn is_from_one(number: u64) -> bool
    ensures { IsTrue result ↔ ((1 ≤ number) × (number ≤ NUMBER)) }
{
    1 <= number && number <= NUMBER
}

/// Whether each slot fits the device.
fn fit_slots(geometry: &Geometry, slots: &[SlotImage]) -> bool
    ensures { IsTrue result
        ↔ All (λ (slot : SlotImageValue). FitsSlot geometry.now.numbers slot) slots.now }
{
    for slot in slots {
        if !fits_slot(geometry, slot) {
            return false;
        }
    }
    true
}

/// Whether the blocks of a slot have the device's size, and its generation is one that a slot with such a chain may have.
fn fits_slot(geometry: &Geometry, slot: &SlotImage) -> bool
    ensures { IsTrue result ↔ FitsSlot geometry.now.numbers slot.now }
{
    let size = geometry.numbers.block;
    let pages = slot.chain.pages.as_slice();
    is_from_one(slot.generation.number())
        && is_early_or_empty(slot.generation, pages)
        && are_sized(size, pages)
        && are_data_sized(size, &slot.blocks)
}

/// Whether a generation is not the last, or there is no page.
fn is_early_or_empty(generation: Gen, pages: &[Block]) -> bool
    ensures { IsTrue result ↔ (generation ≡ NUMBER → pages.now ≡ []) }
{
    generation.number() != NUMBER || pages.is_empty()
}

/// Whether each block has so many bytes.
fn are_sized(size: u64, blocks: &[Block]) -> bool
    ensures { IsTrue result ↔ AreSized size blocks.now }
{
    for block in blocks {
        if !is_sized(size, block) {
            return false;
        }
    }
    true
}

/// The same of data blocks.
fn are_data_sized(size: u64, blocks: &DataBlocks) -> bool
    ensures { IsTrue result ↔ AreSized size blocks.now }
{
    are_places_sized(size, &blocks.places)
}

fn are_places_sized(size: u64, places: &[Option<Block>]) -> bool
    ensures { IsTrue result ↔ AreSized size (flat_map option_to_list places.now) }
{
    for place in places {
        if !is_place_sized(size, place) {
            return false;
        }
    }
    true
}

fn is_place_sized(size: u64, place: &Option<Block>) -> bool
    ensures { IsTrue result ↔ AreSized size (option_to_list place.now) }
{
    match place {
        Some(block) => is_sized(size, block),
        None => true,
    }
}

fn is_sized(size: u64, block: &Block) -> bool
    ensures { IsTrue result ↔ (length block.now.bytes ≡ size) }
{
    block.bytes().len() as u64 == size
}
