//! How many entries are read of a log, and the greatest file.

use crate::compare::same;
use Words::{Create, Snap, Write};
use nv_base::Epoch;
use nv_cell::InodeCell;
use nv_core::{Parts, World};
use nv_reader::{settled_on, show_on};
use nv_scenes::{Row, geometry};
use nv_scenes_calls::words::{At, Words, call};
use std::alloc::Global;
use std::process::Abort;
use std::test::Fail;

const DEVICE: Row = [64, 1, 4, 4, 4, 2, 1];

const ROOT: At = (0, 1);

const FILE: At = (1, 1);

/// A file of eight pages, each of which is overwritten three times by itself.
const OVERWRITTEN: &[Words] = &[
    Create(ROOT, b"a"),
    Write(FILE, 0, b"aaaabbbbccccddddeeeeffffgggghhhh"),
    Write(FILE, 0, b"zzzz"),
    Write(FILE, 4, b"zzzz"),
    Write(FILE, 8, b"zzzz"),
    Write(FILE, 12, b"zzzz"),
    Write(FILE, 16, b"zzzz"),
    Write(FILE, 20, b"zzzz"),
    Write(FILE, 24, b"zzzz"),
    Write(FILE, 28, b"zzzz"),
    Write(FILE, 0, b"yyyy"),
    Write(FILE, 4, b"yyyy"),
    Write(FILE, 8, b"yyyy"),
    Write(FILE, 12, b"yyyy"),
    Write(FILE, 16, b"yyyy"),
    Write(FILE, 20, b"yyyy"),
    Write(FILE, 24, b"yyyy"),
    Write(FILE, 28, b"yyyy"),
    Write(FILE, 0, b"xxxx"),
    Write(FILE, 4, b"xxxx"),
    Write(FILE, 8, b"xxxx"),
    Write(FILE, 12, b"xxxx"),
    Write(FILE, 16, b"xxxx"),
    Write(FILE, 20, b"xxxx"),
    Write(FILE, 24, b"xxxx"),
    Write(FILE, 28, b"xxxx"),
];

/// What it reads then.
const LAST: &[u8] = b"xxxxxxxxxxxxxxxxxxxxxxxxxxxxxxxx";

/// A file of 65,536 pages, of which the last one alone is written.
const GREATEST: &[Words] = &[Create(ROOT, b"a"), Write(FILE, 262_140, b"last"), Snap];

/// The parts of a world in which these calls were made.
fn parts_after(rt: &impl Abort, alloc: Global, before: &[Words]) -> Result<Parts, Fail> {
    let mut world = World::format(alloc, geometry(DEVICE)?)?;
    for words in before {
        let made = world.call(0, call(alloc, words).ok_or("a call")?);
        same(rt, made.is_ok(), true);
    }
    match world.into_parts() {
        Ok(parts) => Ok(parts),
        Err(_) => panic!(rt; "no actor has a call"),
    }
}

/// How many entries of a file's log a read takes, and the settled node.
fn few_are_read(rt: &impl Abort, alloc: Global, cell: &InodeCell) -> Result<(), Fail> {
    let before = cell.reads();
    same(rt, cell.read(0, 99)?.as_slice(), LAST);
    same(rt, cell.reads().saturating_sub(before) <= 8, true);
    let settled = settled_on(alloc, cell, None)?.ok_or("a node")?;
    same(rt, settled.bytes.as_slice(), LAST);
    same(rt, cell.reads().saturating_sub(before) <= 16, true);
    Ok(())
}

/// No more entries are read than there are pages, and a cell counts reads as its log does: no clause tells costs.
#[test]
fn no_more_entries_are_read_than_pages(rt: HostRuntime) -> Result<(), Fail> {
    let parts = parts_after(&rt, rt.alloc(), OVERWRITTEN)?;
    let cell = parts.cells.as_slice().get(1).ok_or("a cell")?;
    few_are_read(&rt, rt.alloc(), cell)?;
    let before = cell.reads();
    same(&rt, cell.log().log().len(), 26);
    same(&rt, cell.reads(), before.saturating_add(26));
    same(&rt, cell.reads(), cell.log().reads());
    Ok(())
}

/// The greatest file is shown whole, at a snapshot and now: a clause lets both say that memory was refused.
#[test]
fn the_greatest_file_is_shown(rt: HostRuntime) -> Result<(), Fail> {
    let parts = parts_after(&rt, rt.alloc(), GREATEST)?;
    let cell = parts.cells.as_slice().get(1).ok_or("a cell")?;
    let shown = show_on(rt.alloc(), cell, Epoch::new(1))?.ok_or("a node")?;
    let settled = settled_on(rt.alloc(), cell, None)?.ok_or("a node")?;
    for node in [shown, settled] {
        same(&rt, (node.size, node.bytes.len()), (262_144, 262_144));
        same(&rt, node.bytes.as_slice().ends_with(b"\0\0\0\0last"), true);
    }
    Ok(())
}
