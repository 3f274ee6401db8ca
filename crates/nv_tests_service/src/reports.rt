//! What a world reports. It is asked for once more where a growth is refused.

use crate::compare::{refused_memory, same_shown};
use nv_base::{Fault, Ino};
use nv_core::World;
use std::alloc::Global;
use std::process::Abort;

/// Asserts that a world reports what another does, and that its audit finds nothing.
pub fn report_alike(rt: &impl Abort, alloc: Global, world: &World, twin: &World) {
    if let Err(fault) = compare_reports(rt, alloc, world, twin) {
        refused_memory(rt, fault);
        if let Err(fault) = compare_reports(rt, alloc, world, twin) {
            panic!(rt; "no reports: {fault}");
        }
    }
}

/// Asserts that two worlds have the same tree, and the same snapshots with the same trees.
pub fn have_same_trees(rt: &impl Abort, alloc: Global, world: &World, twin: &World) {
    if let Err(fault) = compare_trees(rt, alloc, world, twin) {
        refused_memory(rt, fault);
        if let Err(fault) = compare_trees(rt, alloc, world, twin) {
            panic!(rt; "no trees: {fault}");
        }
    }
}

fn compare_reports(
    rt: &impl Abort,
    alloc: Global,
    world: &World,
    twin: &World,
) -> Result<(), Fault> {
    world.audit()?;
    same_shown(rt, alloc, &"space", &world.space(), &twin.space());
    same_shown(rt, alloc, &"lists", &world.lists()?, &twin.lists()?);
    for number in 0..twin.inodes() {
        let ino = Ino::new(number);
        same_shown(rt, alloc, &ino, &world.log(ino)?, &twin.log(ino)?);
    }
    compare_trees(rt, alloc, world, twin)
}

fn compare_trees(rt: &impl Abort, alloc: Global, world: &World, twin: &World) -> Result<(), Fault> {
    same_shown(rt, alloc, &"tree", &world.tree()?, &twin.tree()?);
    let snaps = twin.snaps()?;
    same_shown(rt, alloc, &"snaps", &world.snaps()?, &snaps);
    for counts in snaps.living.as_slice() {
        let snapshot = counts.snapshot;
        let want = twin.snap_tree(snapshot)?;
        same_shown(rt, alloc, &snapshot, &world.snap_tree(snapshot)?, &want);
    }
    Ok(())
}
