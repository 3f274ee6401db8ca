//! Images that are drawn by hand, each with the first fault that it has.

mod rows;

use crate::compare::{push, same_for};
use crate::let_go::dismantle;
use crate::made::{block, journal};
use nv_alloc::Block;
use nv_base::{CommitNo, Epoch, Fault, Gen, ImageFault};
use nv_core::{ChainImage, DataBlocks, Image, SlotImage, World};
use nv_entry::Entry;
use nv_journal::Journal;
use nv_scenes::geometry;
use nv_scenes::logs::{epochs, log_of};
use rows::{Blocks, DEVICE, Drawn, Noted, Slot};
use std::alloc::Global;
use std::process::Abort;
use std::test::Fail;

/// Blocks of these numbers.
fn blocks(rt: &impl Abort, alloc: Global, rows: Blocks) -> Vec<Block> {
    let mut made = Vec::new(alloc);
    for (number, bytes) in rows {
        push(rt, &mut made, block(rt, alloc, *number, bytes));
    }
    made
}

/// Data blocks, each with an empty place behind it.
fn data(rt: &impl Abort, alloc: Global, rows: Blocks) -> DataBlocks {
    let mut places = Vec::new(alloc);
    for (number, bytes) in rows {
        let block = block(rt, alloc, *number, bytes);
        push(rt, &mut places, Some(block));
        push(rt, &mut places, None);
    }
    DataBlocks { places }
}

fn slot(rt: &impl Abort, alloc: Global, row: &Slot, log: Vec<Entry>) -> SlotImage {
    let (generation, pages, ends, _, tail, rows) = row;
    SlotImage {
        generation: Gen::new(*generation),
        chain: ChainImage {
            pages: blocks(rt, alloc, pages),
            ends: ends.to_vec(alloc).expect(rt, "memory for ends"),
            entries: log,
            tail: *tail,
        },
        blocks: data(rt, alloc, rows),
    }
}

/// The logs of slots.
fn logs_of(alloc: Global, rows: &[Slot]) -> Result<Vec<Vec<Entry>>, Fail> {
    let mut logs = Vec::new(alloc);
    for (_, _, _, lines, ..) in rows {
        logs.push(log_of(alloc, lines)?)?;
    }
    Ok(logs)
}

fn slots(rt: &impl Abort, alloc: Global, rows: &[Slot], logs: Vec<Vec<Entry>>) -> Vec<SlotImage> {
    let mut slots = Vec::new(alloc);
    for (row, log) in rows.iter().zip(logs) {
        push(rt, &mut slots, slot(rt, alloc, row, log));
    }
    slots
}

fn journals(rt: &impl Abort, alloc: Global, rows: &[Noted]) -> Vec<Journal> {
    let mut journals = Vec::new(alloc);
    for notes in rows {
        push(rt, &mut journals, noted(rt, alloc, notes));
    }
    journals
}

fn noted(rt: &impl Abort, alloc: Global, notes: &[(u64, u64)]) -> Journal {
    match notes {
        [one, other] => journal(rt, alloc, *one, *other),
        _ => Journal::new(),
    }
}

fn image(rt: &impl Abort, alloc: Global, drawn: &Drawn) -> Result<Image, Fail> {
    let (rows, notes, snapshots, epoch, commit) = drawn;
    let geometry = geometry(DEVICE)?;
    let logs = logs_of(alloc, rows)?;
    let snapshots = epochs(alloc, snapshots)?;
    Ok(Image {
        geometry,
        slots: slots(rt, alloc, rows, logs),
        journals: journals(rt, alloc, notes),
        snapshots,
        epoch: Epoch::new(*epoch),
        commit: CommitNo::new(*commit),
    })
}

/// Why an image makes no world, if it makes none.
fn refusal(alloc: Global, image: Image) -> Option<Fault> {
    match World::mount(alloc, image) {
        Ok(_world) => None,
        Err((fault, image)) => {
            dismantle(image);
            Some(fault)
        }
    }
}

/// Each of these images has this first fault, or makes a world if there is none.
fn all_have(
    rt: &impl Abort,
    alloc: Global,
    images: &[Drawn],
    fault: Option<ImageFault>,
) -> Result<(), Fail> {
    let want = fault.map(Fault::BadImage);
    for drawn in images {
        let image = image(rt, alloc, drawn)?;
        same_for(rt, drawn, refusal(alloc, image), want);
    }
    Ok(())
}

/// One image for each clause of each fault, and one with two, has the first fault that was worked out by hand.
#[test]
fn drawn_images_have_their_first_fault(rt: HostRuntime) -> Result<(), Fail> {
    let alloc = rt.alloc();
    all_have(&rt, alloc, rows::SOUND, None)?;
    all_have(&rt, alloc, rows::WRONG_NUMBERS, Some(ImageFault::Geometry))?;
    all_have(&rt, alloc, rows::WRONG_SLOTS, Some(ImageFault::Geometry))?;
    all_have(&rt, alloc, rows::WRONG_BLOCKS, Some(ImageFault::Block))?;
    all_have(&rt, alloc, rows::WRONG_CHAINS, Some(ImageFault::Chain))?;
    all_have(&rt, alloc, rows::WRONG_ENTRIES, Some(ImageFault::Entry))?;
    all_have(&rt, alloc, rows::WRONG_LOGS, Some(ImageFault::Item))?;
    all_have(&rt, alloc, rows::WRONG_TREES, Some(ImageFault::Item))?;
    all_have(&rt, alloc, rows::WRONG_RUNS, Some(ImageFault::Run))?;
    all_have(&rt, alloc, rows::WRONG_NOTES, Some(ImageFault::Journal))?;
    all_have(&rt, alloc, rows::WRONG_SNAPSHOTS, Some(ImageFault::Snaps))?;
    Ok(())
}
