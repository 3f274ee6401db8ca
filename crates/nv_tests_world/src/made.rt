//! Parts of images that are made of plain values.

use nv_alloc::{Block, BlockQueue, FreeList};
use nv_base::Ino;
use nv_journal::{Journal, OldTail, are_distinct};
use nv_scenes::geometry;
use smallvec::SmallVec;
use std::alloc::Global;
use std::process::Abort;

/// Numbers of blocks that can be made are below this.
const NUMBERS: u64 = 32;

/// A block of a number with these bytes.
pub fn block(rt: &impl Abort, alloc: Global, number: u64, bytes: &[u8]) -> Block {
    let mut queue = all_blocks(rt, alloc, bytes.len());
    for _ in 0..number {
        let other = queue.take_next().expect(rt, "a block");
        let _bytes = other.into_bytes();
    }
    let mut found = queue.take_next().expect(rt, "a block");
    queue.dismantle();
    assert!(rt; found.bytes().len() == bytes.len());
    found.write(bytes);
    found
}

/// All blocks of so many bytes, by rising numbers.
fn all_blocks(rt: &impl Abort, alloc: Global, size: usize) -> BlockQueue {
    let device = geometry([NUMBERS, 1, size as u64, 2, 1, 1, 1]).expect(rt, "a geometry");
    assert!(rt; 0 < device.numbers.cpus);
    let mut list = FreeList::new(alloc, &device, 0).expect(rt, "memory for a list");
    let mut queue = BlockQueue::new(alloc, size);
    queue.reserve(NUMBERS).expect(rt, "memory for blocks");
    assert!(rt; list.block_bytes() == queue.block_bytes());
    let _taken = list.take(NUMBERS, &mut queue);
    list.dismantle();
    queue
}

/// A journal that has noted the tails of two inodes; a closed one where they are one.
pub fn journal(rt: &impl Abort, alloc: Global, one: (u64, u64), other: (u64, u64)) -> Journal {
    let noted = [old_tail(one), old_tail(other)];
    let tails: SmallVec<OldTail, 4> = SmallVec::from_slice(alloc, noted.as_slice()).expect(
        rt,
        "memory for notes",
    );
    let mut journal = Journal::new();
    if tails.len() == 2 && are_distinct(tails.as_slice()) {
        journal.open(&tails);
    }
    journal
}

fn old_tail((ino, tail): (u64, u64)) -> OldTail {
    OldTail {
        ino: Ino::new(ino),
        tail,
    }
}
