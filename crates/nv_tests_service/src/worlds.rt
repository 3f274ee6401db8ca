//! Worlds in which calls were made one after another.

use crate::compare::{refused_memory, same};
use crate::words::call;
use nv_base::{Fault, Geometry};
use nv_calls::Answer;
use nv_core::{CallFault, World};
use nv_scenes::{Row, geometry, wants_memory};
use nv_scenes_calls::words::Words;
use std::alloc::Global;
use std::process::Abort;

/// The device of most tests.
pub const SMALL: Row = [16, 2, 4, 4, 8, 4, 3];

/// The geometry of a device.
pub fn device(rt: &impl Abort, row: Row) -> Geometry {
    geometry(row).expect(rt, "a geometry")
}

/// A new world. It is asked for once more where a growth is refused.
pub fn new_world(rt: &impl Abort, alloc: Global, row: Row) -> World {
    let device = device(rt, row);
    match World::format(alloc, device) {
        Ok(world) => return world,
        Err(fault) => refused_memory(rt, fault),
    }
    World::format(alloc, device).expect(rt, "memory for a world")
}

/// What the first actor is answered, which no other keeps waiting.
pub fn told_alone(
    rt: &impl Abort,
    alloc: Global,
    world: &mut World,
    words: &Words,
) -> Result<Answer, Fault> {
    match world.call(0, call(rt, alloc, words)) {
        Ok(answer) => Ok(answer),
        Err(CallFault::Refused(fault)) => Err(fault),
        Err(CallFault::Waits) => panic!(rt; "nobody is waited for"),
    }
}

/// The same for a call that is made once more where a growth is refused.
pub fn told_at_last(
    rt: &impl Abort,
    alloc: Global,
    world: &mut World,
    words: &Words,
) -> Result<Answer, Fault> {
    match told_alone(rt, alloc, world, words) {
        Err(fault) if wants_memory(fault) => told_alone(rt, alloc, world, words),
        told => told,
    }
}

/// A new world in which the first actor made these calls, each of which was answered.
pub fn prepared(rt: &impl Abort, alloc: Global, row: Row, before: &[Words]) -> World {
    let mut world = new_world(rt, alloc, row);
    for words in before {
        let told = told_at_last(rt, alloc, &mut world, words);
        same(rt, told.err(), None);
    }
    world
}
