//! Images that are let go.

use nv_alloc::Block;
use nv_core::{ChainImage, DataBlocks, Image, SlotImage};

/// Lets an image go, with its blocks.
pub fn dismantle(image: Image) {
    let Image {
        geometry: _,
        slots,
        journals: _,
        snapshots: _,
        epoch: _,
        commit: _,
    } = image;
    dismantle_slots(slots);
}

fn dismantle_slots(mut slots: Vec<SlotImage>) {
    while let Some(slot) = slots.pop() {
        dismantle_slot(slot);
    }
    slots.destroy_empty();
}

/// Lets a slot of an image go, with its blocks.
fn dismantle_slot(slot: SlotImage) {
    let SlotImage {
        generation: _,
        chain,
        blocks,
    } = slot;
    dismantle_chain(chain);
    dismantle_data(blocks);
}

fn dismantle_chain(chain: ChainImage) {
    let ChainImage {
        mut pages,
        ends: _,
        entries: _,
        tail: _,
    } = chain;
    while let Some(page) = pages.pop() {
        let _bytes = page.into_bytes();
    }
    pages.destroy_empty();
}

fn dismantle_data(blocks: DataBlocks) {
    let DataBlocks { mut places } = blocks;
    while let Some(place) = places.pop() {
        dismantle_place(place);
    }
    places.destroy_empty();
}

/// Lets go what stands at a place of data blocks.
fn dismantle_place(place: Option<Block>) {
    match place {
        Some(block) => {
            let _bytes = block.into_bytes();
        }
        None => {}
    }
}
