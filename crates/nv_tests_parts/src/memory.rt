//! Each call that takes memory, made once with ample memory: it has its answer. A clause lets such a call say that it was
//! refused memory. Those of cells and of the crates above are made by worked scripts.

use crate::compare::same;
use nv_alloc::{BlockQueue, FreeList, InodePool};
use nv_base::{CommitNo, Epoch, Ino, Name};
use nv_book::Book;
use nv_entry::{fast_keeps, file_bytes_when, names_when, node_when, thorough_keeps};
use nv_epoch::SnapList;
use nv_findex::FileIndex;
use nv_log::Chain;
use nv_nindex::NameIndex;
use nv_scenes::logs::Says::{Bind, Directory, File, Write};
use nv_scenes::logs::{BLOCK, Device, Line, log_of, retention, when};
use nv_scenes::{Row, geometry};
use std::test::Fail;

const DEVICE: Row = [16, 2, 4, 4, 8, 4, 3];

/// A page is written before and after snapshot 1.
const OVERWRITTEN: &[Line] = &[
    (1, 1, 1, File),
    (2, 0, 1, Write(0, 2, 1, 4)),
    (3, 0, 2, Write(0, 3, 1, 4)),
];

const NAMED: &[Line] = &[(0, 0, 1, Directory), (1, 0, 1, Bind("a", 1))];

/// The calls of `nv_base` are granted memory: a clause lets each say that it was refused.
#[test]
fn names_are_granted_memory(rt: HostRuntime) -> Result<(), Fail> {
    let name = Name::read(rt.alloc(), b"a")?;
    same(&rt, name.copied(rt.alloc())?.bytes(), b"a".as_slice());
    Ok(())
}

/// The calls of `nv_entry` are granted memory: a clause lets each say that it was refused.
#[test]
fn reads_of_logs_are_granted_memory(rt: HostRuntime) -> Result<(), Fail> {
    let alloc = rt.alloc();
    let blocks = Device {
        blocks: &[*b"aaaa", *b"bbbb", *b"cccc", *b"dddd"],
    };
    let log = log_of(alloc, OVERWRITTEN)?;
    let node = node_when(alloc, BLOCK, when(None), &log, &blocks)?;
    same(&rt, node.is_some(), true);
    let bytes = file_bytes_when(alloc, BLOCK, when(Some(1)), &log, &blocks)?;
    same(&rt, bytes.as_slice(), b"cccc".as_slice());
    same(
        &rt,
        names_when(alloc, when(None), &log_of(alloc, NAMED)?)?.len(),
        1,
    );
    let keeps = thorough_keeps(alloc, &retention(&[], &[]), &log)?;
    same(&rt, keeps.len(), 3);
    let stays = fast_keeps(alloc, &retention(&[], &[]), &[], &[])?;
    same(&rt, stays.len(), 0);
    Ok(())
}

/// The calls of `nv_alloc` are granted memory: a clause lets each say that it was refused.
#[test]
fn blocks_and_numbers_are_granted_memory(rt: HostRuntime) -> Result<(), Fail> {
    let device = geometry(DEVICE)?;
    assert!(rt; 1 < device.numbers.cpus && 2 < device.numbers.inodes);
    let full = FreeList::new(rt.alloc(), &device, 0)?;
    same(&rt, full.len(), 8);
    full.dismantle();
    let bare = FreeList::empty(rt.alloc(), &device, 1)?;
    same(&rt, bare.len(), 0);
    bare.dismantle();
    same(&rt, InodePool::new(rt.alloc(), &device)?.len(), 8);
    let free = [Ino::new(0), Ino::new(2)];
    same(
        &rt,
        InodePool::rebuild(rt.alloc(), &device, &free)?.len(),
        2,
    );
    let mut queue = BlockQueue::new(rt.alloc(), 4);
    queue.reserve(3).expect(&rt, "memory for blocks");
    same(&rt, queue.room(), 3);
    queue.dismantle();
    Ok(())
}

/// The calls of `nv_log`, `nv_findex` and `nv_nindex` are granted memory: a clause lets each say that it was refused.
#[test]
fn logs_and_indexes_are_granted_memory(rt: HostRuntime) -> Result<(), Fail> {
    let mut chain = Chain::new(rt.alloc(), 2);
    chain.reserve(3).expect(&rt, "memory for pages");
    let counts = chain
        .log_counts(rt.alloc())
        .expect(&rt, "memory for counts");
    same(&rt, (chain.spare(), counts.len()), (3, 0));
    chain.into_blocks().destroy_empty();
    let mut pages = FileIndex::new(rt.alloc());
    pages.reserve_for(3)?;
    same(&rt, 6 <= pages.room(), true);
    let mut names = NameIndex::new(rt.alloc());
    names.reserve_one(&Name::read(rt.alloc(), b"a")?)?;
    same(
        &rt,
        (names.is_reserved(b"a"), names.list()?.len()),
        (true, 0),
    );
    Ok(())
}

/// The calls of `nv_epoch` and `nv_book` are granted memory: a clause lets each say that it was refused.
#[test]
fn snapshots_and_books_are_granted_memory(rt: HostRuntime) -> Result<(), Fail> {
    let device = geometry(DEVICE)?;
    let living = [Epoch::new(1), Epoch::new(3)];
    same(&rt, SnapList::new(rt.alloc(), 4, Epoch::new(1))?.len(), 0);
    let list = SnapList::rebuild(rt.alloc(), 4, &living, Epoch::new(4))?;
    same(&rt, list.len(), 2);
    same(&rt, Book::new(rt.alloc(), &device)?.stored(), 0);
    assert!(rt; 2 <= device.numbers.snaps);
    let (epoch, commit) = (Epoch::new(4), CommitNo::new(9));
    let mut book = Book::rebuild(rt.alloc(), &device, &living, epoch, commit, 3)?;
    same(&rt, book.enter(0, 4)?, (epoch, CommitNo::new(10)));
    same(&rt, book.held_by_each(rt.alloc())?.len(), 2);
    same(&rt, book.base()?.commit(), commit);
    Ok(())
}
